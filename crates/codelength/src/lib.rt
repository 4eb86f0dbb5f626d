// The state of a partition with every sum made afresh, and its codelength.
#![tactic(auto)]

ghost use Rattle.std.specs.Prelude.{◌≡◌, ◌+◌, ◌-◌, ◌<◌, get_or};
ghost use Rattle.float.specs.Binary64.{zero64};
ghost use Rattle.map_state.specs.Network.{row};
ghost use Rattle.map_state.specs.Steps.{Fits, AtNode};
ghost use Rattle.codelength.specs.Codelength.{add_exit, exit_from, add_node, module_sums, from_partition, add_module, terms, node_plogp_from, codelength_of, codelength};
ghost use Rattle.codelength.specs.Steps.{sums_in, with_sums};

use map_state::{MapState, Network, Row};

// Sums over the groups: q, plogp(q), and plogp(p + q) - plogp(q).
#[derive(Clone, Copy, Debug, PartialEq)]
pub struct Terms {
    pub q_exit: f64,
    pub sum_plogp_q: f64,
    pub term2: f64,
}

#[tactic(auto, unfolding(crate::specs::Codelength::add_exit))]
fn add_exit(g: u32, a: f64, p: u32, w: f64) -> f64
    ensures { result ≡ add_exit g a p w }
{
    if 0.0 < w {
        if p == g { a } else { a + w }
    } else {
        a
    }
}

// The weights of a row that leave the group g, added to `start`.
#[tactic(auto, using(lists::proofs::Zipped::both_spent, crate::proofs::Sums::out_on, crate::proofs::Sums::out_end))]
fn exit_weights(row: Row, g: u32, start: f64) -> f64
    ensures { result ≡ exit_from g start row.entry.partition.now row.entry.weights.now }
{
    let mut a = start;
    for (&p, &w) in row.partition.iter().zip(row.weights) {
        a = add_exit(g, a, p, w);
    }
    a
}

// The weights of node v's links that leave its group, added to `start`.
fn exit_of(net: &Network, s: &MapState, v: usize, start: f64) -> f64
    requires { AtNode net.now s.now v }
    ensures { result ≡ exit_from (get_or s.now.partition v 0) start s.now.partition (row net.now v) }
{
    let row = s.row(net, v);
    exit_weights(row, row.partition[v], start)
}

// Adds node v to its group's sums.
#[tactic(auto, using(map_state::proofs::Leaders::slot))]
fn add_node(net: &Network, s: &mut MapState, v: usize)
    requires { AtNode net.now s.old v }
    ensures { s.new ≡ with_sums s.old (add_node net.now s.old.partition (sums_in s.old) v) }
{
    let f = s.first()[v] as usize;
    s.exits[f] = exit_of(net, s, v, s.exits()[f]);
    s.strengths[f] += net.strength()[v];
}

// Makes the groups' sums afresh.
#[tactic(auto, using(crate::proofs::Sums::nodes_added_on, crate::proofs::Sums::nodes_added_end, crate::proofs::Sums::sums_made))]
fn sum_modules(net: &Network, s: &mut MapState)
    requires { Fits net.now s.old }
    ensures { s.new ≡ with_sums s.old (module_sums net.now s.old.partition) }
{
    let n = s.partition().len();
    s.exits[..n].fill(0.0);
    s.strengths[..n].fill(0.0);
    for v in 0..n {
        add_node(net, s, v);
    }
}

// Makes the state of a partition afresh.
#[tactic(auto, using(crate::proofs::Sums::from_partition_is))]
pub fn from_partition(net: &Network, s: &mut MapState)
    requires { Fits net.now s.old }
    ensures { s.new ≡ from_partition net.now s.old.partition }
{
    sum_modules(net, s);
    s.q = s.sum_q(net.d());
}

// One group more, of exit weight e and strength s.
#[tactic(auto, unfolding(crate::specs::Codelength::add_module))]
fn add_module(d: f64, t: Terms, e: f64, s: f64) -> Terms
    ensures { result ≡ add_module d t e s }
{
    let q = e / d;
    let p = s / d;
    Terms {
        q_exit: t.q_exit + q,
        sum_plogp_q: t.sum_plogp_q + float::plogp(q),
        term2: t.term2 + (float::plogp(p + q) - float::plogp(q)),
    }
}

// The groups by lowest member.
// Kept as it is: the sums by the index of `first`, as in `sum_q` of map_state.
#[tactic(auto, using(crate::proofs::Sums::terms_yes, crate::proofs::Sums::terms_no, crate::proofs::Sums::terms_end))]
fn sum_terms(s: &MapState, d: f64) -> Terms
    ensures { result ≡ terms d s.now.partition s.now.exits s.now.strengths }
{
    let first = s.first();
    let exits = s.exits();
    let strengths = s.strengths();
    let mut t = Terms {
        q_exit: 0.0,
        sum_plogp_q: 0.0,
        term2: 0.0,
    };
    for (v, &f) in first.iter().enumerate() {
        if f as usize == v {
            t = add_module(d, t, exits[v], strengths[v]);
        }
    }
    t
}

#[tactic(auto, using(crate::proofs::Sums::nodes_on, crate::proofs::Sums::nodes_end))]
fn node_plogp_sum(strength: &[f64], d: f64) -> f64
    ensures { result ≡ node_plogp_from d zero64 strength.now }
{
    let mut a = 0.0;
    for &s in strength {
        a += float::plogp(s / d);
    }
    a
}

#[tactic(auto, unfolding(crate::specs::Codelength::codelength_of))]
fn codelength_of(t: Terms, nodes: f64) -> f64
    ensures { result ≡ codelength_of t nodes }
{
    float::plogp(t.q_exit) - t.sum_plogp_q + (t.term2 - nodes)
}

// The codelength of a partition; the state is left with the groups' sums afresh.
#[tactic(auto, using(crate::proofs::Sums::codelength_is))]
pub fn map_equation(net: &Network, s: &mut MapState) -> f64
    requires { Fits net.now s.old }
    ensures { (result ≡ codelength net.now s.old.partition) × (s.new ≡ with_sums s.old (module_sums net.now s.old.partition)) }
{
    sum_modules(net, s);
    codelength_of(
        sum_terms(s, net.d()),
        node_plogp_sum(net.strength(), net.d()),
    )
}
