// Replays a list of cases `r2 n`, then n times `x y`: medians in order, floats as their bits. Prints the places and their counts, the place
// of each median, the links, read from the compacted table, and the nodes.
// Kept as it is: arrays of fixed size, of which a part is lent, since the project's memory is fixed and it takes no heap.
#![tactic(auto)]

ghost use Rattle.std.specs.Prelude.{◌*◌, ◌≤◌, length};

use distance::Points;
use neighbors::nodes::Nodes;
use neighbors::places::Places;
use replay::Numbers;

// No case has more medians.
const MOST: usize = 128;

// Reads as many medians as the slices have room for.
fn read_medians(list: &mut Numbers, mx: &mut [f64], my: &mut [f64]) {
    for (x, y) in mx.iter_mut().zip(my) {
        *x = list.next_float();
        *y = list.next_float();
    }
}

// The number of the place of each median; one that has none gets the number of places.
fn print_place_of(places: &Places, medians: Points) {
    for m in medians.iter() {
        let place = neighbors::places::place_of(places.points(), m);
        replay::space();
        replay::print_number(place.unwrap_or(places.len()) as u64);
    }
}

// The number of the links between k nodes, each of which stands in the table in the row of the lower node, and in that of the other.
fn count_links(table: &[f64], k: usize) -> usize {
    table
        .chunks(k.max(1))
        .take(k)
        .enumerate()
        .map(|(u, row)| row.iter().skip(u).filter(|&&w| 0.0 < w).count())
        .fold(0usize, |n, links| n.saturating_add(links))
}

// The links of node u to higher ones, by place numbers.
fn print_row(row: &[f64], u: usize, nodes: &[u32]) {
    let Some(&node) = nodes.get(u) else {
        return;
    };
    for (&w, &other) in row.iter().zip(nodes).skip(u) {
        if 0.0 < w {
            replay::space();
            replay::print_number(u64::from(node));
            replay::space();
            replay::print_number(u64::from(other));
            replay::space();
            replay::print_float(w);
        }
    }
}

// The number of links and the links, from the compacted table; the number of nodes and the nodes.
fn print_links(table: &[f64], nodes: &[u32]) {
    let k = nodes.len();
    replay::space();
    replay::print_number(count_links(table, k) as u64);
    for (u, row) in table.chunks(k.max(1)).take(k).enumerate() {
        print_row(row, u, nodes);
    }
    replay::space();
    replay::print_number(k as u64);
    replay::print_each(nodes, |node| replay::print_number(u64::from(node)));
}

// Finds the nodes of the table of p places, and makes it the table of the nodes; tells how many there are.
#[tactic(auto, using(neighbors::proofs::FoundRows::found_few, neighbors::proofs::FoundRows::found_rise, neighbors::proofs::FoundRows::found_room, neighbors::proofs::FoundRows::found_length))]
fn find_nodes(table: &mut [f64], p: usize, nodes: &mut [u32]) -> usize
    requires { (p ≤ 512) × (p * p ≤ length table.old) × (p ≤ length nodes.old) }
    ensures { result ≤ p }
{
    let k = neighbors::nodes::find_nodes(table, p, nodes);
    let found = Nodes {
        n: p,
        numbers: &nodes[..k],
    };
    neighbors::nodes::compact(table, found);
    k
}

// Prints the links of the places, and the nodes.
fn answer_links(places: &Places, r2: f64)
    requires { length places.now ≤ 128 }
{
    let mut table = [0.0; 16384];
    let mut nodes = [0u32; 128];
    let p = places.len();
    neighbors::weights::fill_table(places, r2, &mut table[..p * p]);
    let k = find_nodes(&mut table, p, &mut nodes);
    print_links(&table, &nodes[..k]);
}

// Prints the answer for medians in order.
#[tactic(auto, using(distance::proofs::Columns::length_points, crate::proofs::Places::few_places))]
fn print_answer(medians: Points, r2: f64)
    requires { length medians.xs.now ≤ 128 }
{
    let mut xs = [0.0; 128];
    let mut ys = [0.0; 128];
    let mut counts = [0u32; 128];
    let found = neighbors::places::distinct(medians, &mut xs, &mut ys, &mut counts);
    if let Some(p) = found
        && p <= MOST
    {
        let places = Places {
            xs: &xs[..p],
            ys: &ys[..p],
            counts: &counts[..p],
        };
        replay::print_places(places.points(), places.counts, |count| {
            replay::print_number(u64::from(count));
        });
        print_place_of(&places, medians);
        answer_links(&places, r2);
    }
}

fn answer(list: &mut Numbers) {
    let r2 = list.next_float();
    let n = list.next_size().min(MOST);
    let mut mx = [0.0; 128];
    let mut my = [0.0; 128];
    read_medians(list, &mut mx[..n], &mut my[..n]);
    let medians = Points {
        xs: &mx[..n],
        ys: &my[..n],
    };
    print_answer(medians, r2);
    replay::line_end();
}

fn main() {
    replay::each_case(answer);
}
