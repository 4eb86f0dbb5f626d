// The scan of a node: the best group among its neighbours', and the isolation test.
#![tactic(auto)]

ghost use Rattle.std.specs.Prelude.{◌≡◌, ◌+◌, ◌-◌, ◌<◌, length, get_or};
ghost use Rattle.map_state.specs.Steps.{AtNode};
ghost use Rattle.scan.specs.Scan.{best_delta, better, consider, scan, highest_from, next_free_module, isolate};
ghost use Rattle.scan.specs.Steps.{answer_of, Next, AtPair, Testable};

use map_state::{MapState, ModuleStats, Network, Row};

// No move, or the group to move to and the change of codelength.
// Kept as it is: the rules' form (docs/DECISIONS.md, Forms) is an enum with these two cases.
#[derive(Clone, Copy, Debug, PartialEq)]
pub enum Scan {
    Stay,
    Move(u32, f64),
}

// A group that a scan may try, and a neighbour in it.
#[derive(Clone, Copy, Debug, PartialEq, Eq)]
struct Candidate {
    group: u32,
    member: usize,
}

#[tactic(auto, unfolding(crate::specs::Scan::best_delta, crate::specs::Steps::answer_of))]
fn best_delta(a: Scan) -> f64
    ensures { result ≡ best_delta (answer_of a) }
{
    match a {
        Scan::Stay => 0.0,
        Scan::Move(_, d) => d,
    }
}

#[tactic(auto, unfolding(crate::specs::Scan::better, crate::specs::Steps::answer_of))]
fn better(a: Scan, h: u32, d: f64) -> Scan
    ensures { answer_of result ≡ better (answer_of a) h d }
{
    let limit = best_delta(a);
    if d < limit - 1e-15 {
        Scan::Move(h, d)
    } else {
        a
    }
}

// A neighbour in the lowest group at or above `floor`.
// Kept as it is: the minimum is kept by hand. A chain of `enumerate`, `filter` and `min_by_key` takes more than twice the instructions: 7.8 million
// for 200 scans of 64 nodes, where this loop takes 3.7. The bar is that of `link_weights` of map_state: this loop runs there at least as often as the change
// of codelength is worked out, by its instructions some 53,000 times, and 320 instructions more each time would make it 130 million.
fn next_candidate(row: Row, floor: usize) -> Option<Candidate>
    ensures { Next row.entry.partition.now row.entry.weights.now floor (length row.entry.partition.now) result }
{
    let mut best = None;
    let mut lowest = usize::MAX;
    for (member, &group) in row.partition.iter().enumerate() {
        let g = group as usize;
        if 0.0 < row.weights[member] && floor <= g && g < lowest {
            lowest = g;
            best = Some(Candidate { group, member });
        }
    }
    best
}

// The group of v, against the best so far; `src` is u's own group.
#[tactic(auto, unfolding(crate::specs::Scan::consider))]
fn consider(net: &Network, s: &MapState, u: usize, src: ModuleStats, v: usize, a: Scan) -> Scan
    requires { AtPair net.now s.now u src v }
    ensures { answer_of result ≡ consider net.now s.now u (answer_of a) (get_or s.now.partition v 0) }
{
    let h = s.partition()[v];
    if h == s.partition()[u] {
        return a;
    }
    let dest = s.own_stats(v);
    better(a, h, s.delta_move(net, u, h, src, dest))
}

// The scan of node u: the candidates in rising internal number.
#[tactic(auto, using(crate::proofs::Candidates::scan_start, crate::proofs::Candidates::scan_on, crate::proofs::Candidates::scan_end), unfolding(crate::specs::Steps::answer_of))]
pub fn scan_node(net: &Network, s: &MapState, u: usize) -> Scan
    requires { AtNode net.now s.now u }
    ensures { answer_of result ≡ scan net.now s.now u }
{
    let row = s.row(net, u);
    let src = s.own_stats(u);
    let mut a = Scan::Stay;
    let mut floor = 0;
    while let Some(c) = next_candidate(row, floor) {
        a = consider(net, s, u, src, c.member, a);
        floor = c.group as usize + 1;
    }
    a
}

#[tactic(auto, using(crate::proofs::Candidates::highest_is))]
fn highest(partition: &[u32]) -> u32
    ensures { result ≡ highest_from 0 partition.now }
{
    partition.iter().fold(0, |m, &p| m.max(p))
}

fn next_free_module(partition: &[u32]) -> u32
    requires { highest_from 0 partition.now < 1000000 }
    ensures { result ≡ next_free_module partition.now }
{
    highest(partition) + 1
}

// The isolation test of node u.
#[tactic(auto, using(crate::proofs::Isolation::isolated), unfolding(crate::specs::Scan::isolate, crate::specs::Steps::answer_of))]
pub fn isolate(net: &Network, s: &MapState, u: usize) -> Scan
    requires { Testable net.now s.now u }
    ensures { answer_of result ≡ isolate net.now s.now u }
{
    let h = next_free_module(s.partition());
    let src = s.own_stats(u);
    let dest = s.find_stats(h);
    let c = s.delta_move(net, u, h, src, dest);
    better(Scan::Stay, h, c)
}
