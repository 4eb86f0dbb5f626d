// Replays a list of cases `seed n k`, n up to 64, each followed by k links `a b w`, w as its bits. Prints the mark (0 rest,
// 1 spent, 2 none kept), the rounds and the bits of the codelength, then each node's label.
// Kept as it is: arrays of fixed size, of which a part is lent, since the replay programs take no heap (docs/DECISIONS.md, "No heap").
#![tactic(auto)]

ghost use Rattle.std.specs.Prelude.{◌≡◌, length};

use infomap::Kept;
use map_state::WeightTable;
use replay::Numbers;

// Writes the weight from a to b, of 64 nodes.
fn put(table: &mut [f64; 4096], a: usize, b: usize, w: f64) {
    if a < 64 && b < 64 {
        table[a * 64 + b] = w;
    }
}

// Reads k links.
fn read_links(list: &mut Numbers, k: u64, table: &mut [f64; 4096]) {
    for _ in 0..k {
        let a = list.next_size();
        let b = list.next_size();
        let w = list.next_float();
        put(table, a, b, w);
        put(table, b, a, w);
    }
}

fn print_kept(k: Kept) {
    replay::print_number(k.mark as u64);
    replay::space();
    replay::print_number(u64::from(k.rounds));
    replay::space();
    replay::print_float(k.codelength);
}

// Groups the nodes, and prints the answer.
fn print_grouping(table: WeightTable, labels: &mut [u32], seed: u64)
    requires { length labels.old ≡ table.n }
{
    print_kept(infomap::run_infomap(table, labels, seed));
    replay::print_each(labels, |label| replay::print_number(u64::from(label)));
}

fn answer(list: &mut Numbers) {
    let seed = list.next_number();
    let n = list.next_size();
    let k = list.next_number();
    let mut table = [0.0; 4096];
    read_links(list, k, &mut table);
    let mut labels = [0u32; 64];
    if n <= labels.len() {
        let weights = WeightTable {
            weights: &table,
            stride: 64,
            n,
        };
        print_grouping(weights, &mut labels[..n], seed);
    }
    replay::line_end();
}

fn main() {
    replay::each_case(answer);
}
