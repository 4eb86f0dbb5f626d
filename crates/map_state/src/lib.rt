// The map state of the grouping run: the network, what a run carries, the change of codelength by a move, and the move.
// Kept as it is: arrays of fixed size, of which a part is lent, since the project takes no heap (docs/DECISIONS.md, "No heap").
#![tactic(auto)]

ghost use Rattle.std.specs.Prelude.{◌≡◌, ◌+◌, ◌-◌, ◌*◌, ◌<◌, ◌≤◌, ◌==◌, length, position};
ghost use Rattle.map_state.specs.Network.{row, add_weights, strengths_of, total_weight};
ghost use Rattle.map_state.specs.MapState.{add_link, link_weights, lowest, count, after_move, module_terms, module_pair_delta, stats_at, sum_q, delta_move};
ghost use Rattle.map_state.specs.Steps.{Rows, EachRow, Firsts, Summed, Room, StoredAt, Renewed};

use std::marker::Model;

mod state;
mod table;

// The weights between n nodes, a row of each at a stride.
#[derive(Clone, Copy, Debug, PartialEq)]
pub struct WeightTable<'a> {
    pub weights: &'a [f64],
    pub stride: usize,
    pub n: usize,
    pub ghost rows: { Rows weights.now stride n },
}

// The weights between a node and each node, beside the groups of the nodes.
// Kept as it is: two slices, since the one is a row of the lent table and the other of the state.
#[derive(Clone, Copy, Debug, PartialEq)]
pub struct Row<'a> {
    pub weights: &'a [f64],
    pub partition: &'a [u32],
    pub ghost even: { length weights.now ≡ length partition.now },
}

// The weights from a node into its own group, into another, and elsewhere.
#[derive(Clone, Copy, Debug, PartialEq)]
pub struct Links {
    pub src: f64,
    pub dest: f64,
    pub other: f64,
}

// A group's exit weight, its strength and the number of its nodes.
#[derive(Clone, Copy, Debug, PartialEq)]
pub struct ModuleStats {
    pub exit: f64,
    pub strength: f64,
    pub n_nodes: u32,
}

// The two groups of a move before it: the one that the node leaves, and the one that it joins.
#[derive(Clone, Copy, Debug, PartialEq)]
pub struct ModulePair {
    pub src: ModuleStats,
    pub dest: ModuleStats,
    pub ghost some: { 0 < src.n_nodes },
    pub ghost few: { dest.n_nodes ≤ 512 },
}

// The two groups after a move, and the sum of the changes of their exit weights.
#[derive(Clone, Copy, Debug, PartialEq)]
pub struct Moved {
    pub src: ModuleStats,
    pub dest: ModuleStats,
    pub delta_exit: f64,
}

// The weights of the links in a row, or in a part of it, added to `start`.
#[tactic(auto, using(crate::proofs::Rows::weights_yes, crate::proofs::Rows::weights_no, crate::proofs::Rows::weights_end))]
fn add_weights(row: &[f64], start: f64) -> f64
    ensures { result ≡ add_weights start row.now }
{
    let mut a = start;
    for &w in row {
        if 0.0 < w {
            a += w;
        }
    }
    a
}

// Writes the strengths of the nodes.
#[tactic(auto, using(crate::proofs::Rows::row_inside))]
pub fn sum_strengths(table: WeightTable, strength: &mut [f64])
    requires { length strength.old ≡ table.n }
    ensures { strength.new ≡ strengths_of table.entry.weights.now table.entry.stride table.entry.n }
{
    for (u, s) in strength.iter_mut().enumerate() {
        let a = u * table.stride;
        *s = add_weights(&table.weights[a..a + table.n], 0.0);
    }
}

// The total weight of the nodes' links, each counted once.
#[tactic(auto, using(crate::proofs::Rows::row_inside, crate::proofs::Rows::row_above, crate::proofs::Rows::total_on, crate::proofs::Rows::total_end))]
pub fn total_weight(table: WeightTable) -> f64
    ensures { result ≡ total_weight table.entry.weights.now table.entry.stride table.entry.n }
{
    let mut t = 0.0;
    for u in 0..table.n {
        let a = u * table.stride;
        t = add_weights(&table.weights[a + u + 1..a + table.n], t);
    }
    t
}

// Kept as it is: the two groups' numbers g and h side by side, here and in three functions more: a struct of them would be taken apart in each.
#[tactic(auto, unfolding(crate::specs::MapState::add_link))]
fn add_link(l: Links, g: u32, h: u32, p: u32, w: f64) -> Links
    ensures { result ≡ add_link g h l p w }
{
    if 0.0 < w {
        if p == g {
            Links {
                src: l.src + w,
                ..l
            }
        } else if p == h {
            Links {
                dest: l.dest + w,
                ..l
            }
        } else {
            Links {
                other: l.other + w,
                ..l
            }
        }
    } else {
        l
    }
}

// What each link of a row adds up to.
// Kept as it is: an index for the weights, here and where scan looks for a candidate. A `zip` of the two columns takes more instructions:
// the change of codelength, of which this loop is the most, 44.8 million in six groupings of 64 nodes with all links, and 39.7 with the index.
// The bar: these groupings take no more than at the commit on the first line of docs/DESIGN-PASS.md, 115.6 million. They take 113.7 with the index, and
// would take 118.8.
#[tactic(auto, using(crate::proofs::Loops::link_on, crate::proofs::Loops::link_end))]
fn link_weights(row: Row, g: u32, h: u32) -> Links
    ensures { result ≡ link_weights g h row.entry.partition.now row.entry.weights.now }
{
    let mut l = Links {
        src: 0.0,
        dest: 0.0,
        other: 0.0,
    };
    for (v, &p) in row.partition.iter().enumerate() {
        l = add_link(l, g, h, p, row.weights[v]);
    }
    l
}

// The lowest member of a group that has one.
pub fn lowest(partition: &[u32], g: u32) -> Option<usize>
    ensures { result ≡ position (λ p. p == g) partition.now }
{
    partition.iter().position(|&p| p == g)
}

// The number of a group's members.
// Kept as it is: counted by hand. `filter` and `count` take 16.6 million instructions in six groupings of 64 nodes with all links, and this loop 2.7,
// since several nodes are compared at once. The bar is that of `link_weights`: they would take 127.6.
#[tactic(auto, using(crate::proofs::Chains::count_yes, crate::proofs::Chains::count_no, crate::proofs::Chains::count_end, crate::proofs::Chains::count_few))]
fn members(partition: &[u32], g: u32) -> u32
    requires { length partition.now ≤ 512 }
    ensures { result ≡ count g partition.now }
{
    let mut k = 0;
    for &p in partition {
        if p == g {
            k += 1;
        }
    }
    k
}

#[tactic(auto, unfolding(crate::specs::MapState::after_move))]
fn after_move(l: Links, s: f64, pair: ModulePair) -> Moved
    ensures { result ≡ after_move l s pair.src pair.dest }
{
    let ModulePair { src, dest } = pair;
    let x = -l.dest - l.other + l.src;
    let y = l.src + l.other - l.dest;
    Moved {
        src: ModuleStats {
            exit: src.exit + x,
            strength: src.strength - s,
            n_nodes: src.n_nodes - 1,
        },
        dest: ModuleStats {
            exit: dest.exit + y,
            strength: dest.strength + s,
            n_nodes: dest.n_nodes + 1,
        },
        delta_exit: x + y,
    }
}

#[tactic(auto, unfolding(crate::specs::MapState::module_terms))]
fn module_terms(d: f64, m: ModuleStats) -> f64
    ensures { result ≡ module_terms d m }
{
    if m.n_nodes == 0 {
        return 0.0;
    }
    let q = m.exit / d;
    let p = m.strength / d;
    -2.0 * float::plogp(q) + float::plogp(p + q)
}

#[tactic(auto, unfolding(crate::specs::MapState::module_pair_delta))]
fn module_pair_delta(d: f64, q: f64, pair: ModulePair, m: Moved) -> f64
    ensures { result ≡ module_pair_delta d q pair.src pair.dest m }
{
    let before = float::plogp(q) + module_terms(d, pair.src) + module_terms(d, pair.dest);
    let after = float::plogp(q + m.delta_exit / d)
        + module_terms(d, m.src)
        + module_terms(d, m.dest);
    after - before
}

// What the move of a node from group g to h makes of the two groups. `row` holds the node's weights and `s` is its strength.
fn move_of(row: Row, s: f64, g: u32, h: u32, pair: ModulePair) -> Moved
    ensures { result ≡ after_move (link_weights g h row.entry.partition.now row.entry.weights.now) s pair.src pair.dest }
{
    after_move(link_weights(row, g, h), s, pair)
}

// The change of codelength by such a move. `d` is D and `q` is Q.
// Kept as it is: the row, the strength and D side by side. A `Network` and a `MapState` would ask for more than this needs: other rows, and the lowest
// members of the groups; the method of this name serves who has both.
pub fn delta_move(row: Row, s: f64, d: f64, q: f64, g: u32, h: u32, pair: ModulePair) -> f64
    ensures { result ≡ module_pair_delta d q pair.src pair.dest (after_move (link_weights g h row.entry.partition.now row.entry.weights.now) s pair.src pair.dest) }
{
    let m = move_of(row, s, g, h, pair);
    module_pair_delta(d, q, pair, m)
}

// A group's sums, from the place where they stand.
#[tactic(auto, using(crate::proofs::Leaders::stats_stand))]
fn stats_at(partition: &[u32], exits: &[f64], strengths: &[f64], slot: usize, g: u32) -> ModuleStats
    requires { (Summed partition.now exits.now strengths.now) × (slot < length partition.now) × (slot ≡ lowest g partition.now) }
    ensures { result ≡ stats_at partition.now exits.now strengths.now g }
{
    ModuleStats {
        exit: exits[slot],
        strength: strengths[slot],
        n_nodes: members(partition, g),
    }
}

// A group's sums, wherever they stand; an empty group's are 0.
// Kept as it is: slices side by side, here and in `sum_q`, since a caller may have some that no `MapState` holds: without the lowest
// members, or longer. Asking for one would ask for more; the methods of these names serve who has one.
#[tactic(auto, using(crate::proofs::Chains::found, crate::proofs::Chains::not_found, crate::proofs::Leaders::stats_none))]
pub fn find_stats(partition: &[u32], exits: &[f64], strengths: &[f64], g: u32) -> ModuleStats
    requires { Summed partition.now exits.now strengths.now }
    ensures { result ≡ stats_at partition.now exits.now strengths.now g }
{
    match lowest(partition, g) {
        Some(a) => stats_at(partition, exits, strengths, a, g),
        None => ModuleStats {
            exit: 0.0,
            strength: 0.0,
            n_nodes: 0,
        },
    }
}

// Q, by lowest member.
// Kept as it is: `exits` by the index of `first`, since a node is a lowest member where its index is what stands there: a `zip` of the two would name the
// index too, and read every exit weight, where those of the lowest members are wanted.
#[tactic(auto, using(crate::proofs::Leaders::q_start, crate::proofs::Leaders::q_yes, crate::proofs::Leaders::q_no, crate::proofs::Leaders::q_end))]
pub fn sum_q(partition: &[u32], first: &[u32], exits: &[f64], d: f64) -> f64
    requires { (length first.now ≡ length partition.now) × (length exits.now ≡ length partition.now) × Firsts partition.now first.now }
    ensures { result ≡ sum_q d partition.now exits.now }
{
    let mut a = 0.0;
    for (v, &f) in first.iter().enumerate() {
        if f as usize == v {
            a += exits[v] / d;
        }
    }
    a
}

// Gives each member of group g the number `a`.
// Kept as it is: `first` by the index of `partition`. Tried with `first.iter_mut().zip(partition)`, and the proof didn't close: of what a slice holds once a
// loop over such a pair has ended nothing is told.
fn renew_first(partition: &[u32], first: &mut [u32], g: u32, a: u32)
    requires { length partition.now ≤ length first.old }
    ensures { Renewed partition.now first.old first.new g a }
{
    for (v, &p) in partition.iter().enumerate() {
        if p == g {
            first[v] = a;
        }
    }
}

// Stores a group's sums at its lowest member, and gives it to the members; an empty group's are forgotten.
// Kept as it is: a function over the arrays. A method would be called on a state whose `first` holds the lowest members, which is what the
// model promises; between the two groups of a move it does not, so a method would need a second struct, without that promise, for it alone.
#[tactic(auto, using(crate::proofs::Leaders::stored_some, crate::proofs::Leaders::stored_none, crate::proofs::Leaders::renewed_some, crate::proofs::Leaders::renewed_none))]
fn store_group(
    partition: &[u32],
    first: &mut [u32],
    exits: &mut [f64],
    strengths: &mut [f64],
    g: u32,
    m: ModuleStats,
)
    requires { Room partition.now first.old exits.old strengths.old }
    ensures { (StoredAt partition.now exits.old exits.new g m.exit)
        × (StoredAt partition.now strengths.old strengths.new g m.strength)
        × (Renewed partition.now first.old first.new g (lowest g partition.now)) }
{
    if let Some(a) = lowest(partition, g) {
        renew_first(partition, first, g, a as u32);
        exits[a] = m.exit;
        strengths[a] = m.strength;
    }
}

// The nodes, at most 512, with their links and strengths. The table holds the weights, row after row at a stride; `d` is D.
#[derive(Drop)]
pub struct Network<'a> {
    table: &'a [f64],
    stride: usize,
    n: usize,
    strength: [f64; 512],
    d: f64,
}

impl<'a> Model for Network<'a> {
    ghost use Rattle.std.specs.Prelude.{take};
    ghost use Rattle.map_state.specs.Network.{Network};

    ghost Value = { Network };

    ghost use Rattle.map_state.specs.Steps.{EachRow};

    ghost view = { λ a. record { table = a.table.now; stride = a.stride; strength = take a.n a.strength; d = a.d } };

    ghost invariant = { λ a. EachRow a.table.now a.stride a.n };
}

// What the run carries, one element a node: `partition`, the internal number of the node's group; `first`, the lowest member of that
// group; `exits` and `strengths`, a group's sums, at its lowest member. `q` is Q.
// Kept as it is: a state stands beside its network, and the clauses of eighteen functions say by `Fits` that it has the network's nodes: `row`,
// `delta_move`, `moved_by`, `apply_move`; of codelength `exit_of`, `add_node`, `sum_modules`, `from_partition`, `map_equation`; of scan `consider`,
// `scan_node`, `isolate`; of optimize `ask`, `act`, `pass`, `round`, `run_rounds`; of infomap `keep`. A struct that lends the two would know it, but each
// contract of a function that writes would have to say that the network is the same afterwards. `apply_move` says
//     requires { AtNode net.now self.old u }
//     ensures { self.new ≡ apply_move net.now self.old u h }
// and would say
//     requires { u < length self.old.state.partition }
//     ensures { self.new ≡ record { net = self.old.net; state = apply_move self.old.net self.old.state u h } }
// Eight of the functions only read (`row`, `delta_move`, `moved_by`, `exit_of`, `consider`, `scan_node`, `isolate`, `ask`). A value that lends network,
// state and node would serve them, but the functions that write the state, which call three of them (`moved_by`, `exit_of`, `ask`), could not make it:
// tried with `Row`, and the borrow check takes no value of several lifetimes there.
// Kept as it is: no equality is derived of it, nor of `Network`, since a model that does not give the fields back has none; and it has arrays
// side by side. One array of a struct a node would be no plainer: ten functions and a copy take the partition as a slice of numbers (`lowest`,
// `members`, `stats_at`, `find_stats`, `sum_q`, `renew_first`, `store_group`; of scan `highest` and `next_free_module`; of infomap `relabel_dense`, and
// the copy of the grouping that it keeps). For a state each would need a loop that takes the groups out first; `exits` and `strengths` lend the
// two sums as slices too, which an array of pairs could not. The arrays are of fixed size since the project takes no heap.
#[derive(Drop)]
pub struct MapState {
    pub n: usize,
    pub partition: [u32; 512],
    pub first: [u32; 512],
    pub exits: [f64; 512],
    pub strengths: [f64; 512],
    pub q: f64,
}

impl Model for MapState {
    ghost use Rattle.std.specs.Prelude.{take, ◌≤◌};
    ghost use Rattle.map_state.specs.MapState.{MapState};

    ghost Value = { MapState };

    ghost use Rattle.map_state.specs.Steps.{Firsts};

    ghost view = { λ a. record { partition = take a.n a.partition; exits = take a.n a.exits; strengths = take a.n a.strengths; q_sum = a.q } };

    ghost invariant = { λ a. (a.n ≤ 512) × Firsts (take a.n a.partition) a.first };
}
