// Room for what a text says of its fixes.
// Kept as it is: arrays of fixed size, since the project's memory is fixed and it takes no heap.
ghost use Rattle.std.specs.Prelude.{◌≡◌, replicate};
ghost use Rattle.text.specs.Values.{columns};
ghost use Rattle.reply.specs.Program.{columns_of};

use trace::Tracks;
use trace::columns::Columns;

// The columns of N fixes, and the lengths of N traces.
#[derive(Clone, Copy, Debug)]
pub struct Arrays<const N: usize> {
    pub fixes: Columns<N>,
    pub lens: [u32; N],
}

impl<const N: usize> Arrays<N> {
    // Each column of one value.
    pub fn filled(x: f64, mark: u8, len: u32) -> Arrays<N>
        ensures { columns result.fixes.xs result.fixes.ys result.fixes.times result.fixes.marks result.lens
            ≡ columns (replicate N x) (replicate N x) (replicate N x) (replicate N mark) (replicate N len) }
    {
        Arrays {
            fixes: Columns::filled(x, mark),
            lens: [len; N],
        }
    }

    // The columns, lent.
    pub fn tracks(&self) -> Tracks
        ensures { columns_of result ≡ columns self.now.fixes.xs self.now.fixes.ys self.now.fixes.times self.now.fixes.marks self.now.lens }
    {
        Tracks {
            xs: &self.fixes.xs,
            ys: &self.fixes.ys,
            times: &self.fixes.times,
            marks: &self.fixes.marks,
            lens: &self.lens,
        }
    }
}
