// Laws of lists that several crates need: definitions in specs/, lemmas in proofs/. Code calls the methods of std's slices and numbers, but for `put`.
#![tactic(auto)]

ghost use Rattle.std.specs.Prelude.{◌≡◌, set};

// An element of a slice, set where it is there.
// Kept as it is: `if let Some(x) = l.get_mut(i) { *x = v; }` does not prove; of what a slice holds after its `get_mut` a proof knows the length alone.
pub fn put<T: Copy>(l: &mut [T], i: usize, v: T)
    ensures { l.new ≡ set l.old i v }
{
    if i < l.len() {
        l[i] = v;
    }
}
