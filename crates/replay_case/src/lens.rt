// The lengths of the traces of a case, as they are read.
// Kept as it is: an array of fixed size, of which a part is lent, since the project's memory is fixed and it takes no heap.
ghost use Rattle.std.specs.Prelude.{◌≡◌, ◌≤◌, ◌<◌, length, take, replicate, IfSome, IsNone};
ghost use Rattle.replay_case.specs.Case.{LensRead};

use replay::Numbers;

// The first n of the array are lengths of traces.
#[derive(Clone, Copy, Debug)]
pub struct Lens<const N: usize> {
    lens: [u32; N],
    n: usize,
    ghost room: { n ≤ N },
}

impl<const N: usize> Lens<N> {
    // Reads n lengths. Where there is no room for so many, none is read.
    pub fn read(list: &mut Numbers, n: usize) -> Option<Lens<N>>
        ensures some { IfSome result (λ l. (l.n ≡ n) × LensRead list.old.text.now list.old.at (replicate n 0) (take n l.lens) list.new.at) }
        ensures none { IsNone result → (N < n) × (list.new ≡ list.old) }
        ensures text { list.new.text ≡ list.old.text }
    {
        if N < n {
            return None;
        }
        let mut lens = [0; N];
        crate::read_lens(list, &mut lens[..n]);
        Some(Lens { lens, n })
    }

    // The lengths that were read, lent.
    pub fn all(&self) -> &[u32]
        ensures lens { result.now ≡ take self.now.n self.now.lens }
        ensures count { length result.now ≡ self.now.n }
    {
        &self.lens[..self.n]
    }
}
