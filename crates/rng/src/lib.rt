// The generator of the trials (xorshift64) and the order of visiting.
// A state is a u64 that goes in by value; the next state is the generator's output.
// Kept as it is: arrays of fixed size, of which a part is lent, since the project's memory is fixed and it takes no heap.
#![tactic(auto)]

ghost use Rattle.std.specs.Prelude.{◌≡◌, ◌+◌, ◌-◌, ◌%◌, ◌<◌, ◌≤◌, length};
ghost use Rattle.rng.specs.Rng.{seeded, next_u64, gen_range, shuffle, order};
ghost use Rattle.rng.specs.Steps.{Counts};

// The first state: the seed with its lowest bit set, so that it is not 0.
pub fn seeded(seed: u64) -> u64
    ensures { result ≡ seeded seed }
{
    seed | 1
}

#[tactic(auto, unfolding(crate::specs::Rng::next_u64))]
pub fn next_u64(x: u64) -> u64
    ensures { result ≡ next_u64 x }
{
    let a = x ^ (x << 13);
    let b = a ^ (a >> 7);
    b ^ (b << 17)
}

// The index below `len` that an output gives.
pub fn gen_range(output: u64, len: usize) -> usize
    requires { 0 < len }
    ensures { result ≡ gen_range output len }
{
    (output % (len as u64)) as usize
}

// Shuffles from the last place down, and gives the generator's new state.
#[tactic(auto, using(crate::proofs::Visits::shuffle_on, crate::proofs::Visits::shuffle_end), unfolding(crate::specs::Rng::shuffle))]
fn shuffle(s: &mut [u16], rng: u64) -> u64
    ensures { shuffle rng s.old ≡ record { list = s.new; rng = result } }
{
    let mut x = rng;
    for i in (1..s.len()).rev() {
        x = next_u64(x);
        s.swap(i, gen_range(x, i + 1));
    }
    x
}

// Writes 0, 1, 2, .. in the slice's own numbers, of 16 bits or more.
// Kept as it is: that a slice has at most 512 elements stands here, in `draw_nodes` and in `draw_order`: it is lent to be written, and is shorter than the
// caller's array. A struct that knows its length would have to promise, in each, that it still holds the same slice.
pub fn fill<T: Copy + From<u16>>(s: &mut [T])
    requires { length s.old ≤ 512 }
    ensures { Counts T.from_gives s.new }
{
    for (i, x) in s.iter_mut().enumerate() {
        *x = T::from(i as u16);
    }
}

// The order of visiting in 16 bits.
#[tactic(auto, using(crate::proofs::Counts::counted))]
fn draw_nodes(s: &mut [u16], rng: u64) -> u64
    requires { length s.old ≤ 512 }
    ensures { order rng (length s.old) ≡ record { list = s.new; rng = result } }
{
    fill(s);
    shuffle(s, rng)
}

// Writes the numbers of `nodes` in 32 bits.
// Kept as it is: `to` by the index of `nodes`. Tried with a `zip`, and the proof didn't close: of what a slice holds after a loop over its
// `iter_mut` beside another iterator nothing is told.
fn widen(to: &mut [u32], nodes: &[u16])
    requires { length to.old ≡ length nodes.now }
    ensures { to.new ≡ nodes.now }
{
    for (i, &node) in nodes.iter().enumerate() {
        to[i] = u32::from(node);
    }
}

// Writes the order of visiting, and gives the generator's new state.
#[tactic(auto, using(lists::proofs::Parts::lent_length, lists::proofs::Parts::back_length, lists::proofs::Parts::back_part))]
pub fn draw_order(s: &mut [u32], rng: u64) -> u64
    requires { length s.old ≤ 512 }
    ensures { order rng (length s.old) ≡ record { list = s.new; rng = result } }
{
    let n = s.len();
    let mut nodes = [0u16; 512];
    let x = draw_nodes(&mut nodes[0..n], rng);
    widen(s, &nodes[0..n]);
    x
}
