// Replays a list of cases `seed n k`. Prints the first k outputs of a generator from the seed, then the numbers 0 to n - 1
// shuffled by another one from the seed, n up to 512, and the state that this one ends in.
// Kept as it is: arrays of fixed size, of which a part is lent, since the project's memory is fixed and it takes no heap.
#![tactic(auto)]

ghost use Rattle.std.specs.Prelude.{◌≤◌, length};

use replay::Numbers;

fn print_outputs(seed: u64, k: u64) {
    let mut x = rng::seeded(seed);
    for _ in 0..k {
        x = rng::next_u64(x);
        replay::print_number(x);
        replay::space();
    }
}

// Shuffles 0, 1, 2, .. in the slice, and prints them and the state.
fn print_order(order: &mut [u32], seed: u64)
    requires { length order.old ≤ 512 }
{
    let state = rng::draw_order(order, rng::seeded(seed));
    // Kept as it is: the space stands behind each item, in this list and in that of replay_stay; `print_each` has it in front.
    for &item in order.iter() {
        replay::print_number(u64::from(item));
        replay::space();
    }
    replay::print_number(state);
}

fn answer(list: &mut Numbers) {
    let seed = list.next_number();
    let n = list.next_size();
    let k = list.next_number();
    print_outputs(seed, k);
    let mut order = [0u32; 512];
    if n <= order.len() {
        print_order(&mut order[..n], seed);
    }
    replay::line_end();
}

fn main() {
    replay::each_case(answer);
}
