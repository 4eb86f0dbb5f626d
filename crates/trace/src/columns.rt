// Columns that are owned, and a part of them lent as a trace.
// Kept as it is: arrays of fixed size, of which a part is lent, since the project's memory is fixed and it takes no heap.
ghost use Rattle.std.specs.Prelude.{◌≡◌, ◌≤◌, length, replicate, take};

use crate::Trace;

// A column of each kind, with room for N fixes.
#[derive(Clone, Copy, Debug)]
pub struct Columns<const N: usize> {
    pub xs: [f64; N],
    pub ys: [f64; N],
    pub times: [f64; N],
    pub marks: [u8; N],
}

impl<const N: usize> Columns<N> {
    // Each column of one value: x, y and time are x.
    pub fn filled(x: f64, mark: u8) -> Columns<N>
        ensures xs { result.xs ≡ replicate N x }
        ensures ys { result.ys ≡ replicate N x }
        ensures times { result.times ≡ replicate N x }
        ensures marks { result.marks ≡ replicate N mark }
    {
        Columns {
            xs: [x; N],
            ys: [x; N],
            times: [x; N],
            marks: [mark; N],
        }
    }

    // The first n fixes, lent.
    pub fn first(&self, n: usize) -> Trace
        requires { n ≤ N }
        ensures xs { result.xs.now ≡ take n self.now.xs }
        ensures ys { result.ys.now ≡ take n self.now.ys }
        ensures times { result.times.now ≡ take n self.now.times }
        ensures marks { result.marks.now ≡ take n self.now.marks }
        ensures count { length result.xs.now ≡ n }
    {
        Trace {
            xs: &self.xs[..n],
            ys: &self.ys[..n],
            times: &self.times[..n],
            marks: &self.marks[..n],
        }
    }
}
