// Three trials on one generator, and the kept one with its groups numbered from 0. `best` holds the kept grouping.
// Kept as it is: arrays of fixed size, of which a part is lent, since the project takes no heap (docs/DECISIONS.md, "No heap").
#![tactic(auto)]

ghost use Rattle.std.specs.Prelude.{◌≡◌, ◌+◌, ◌-◌, ◌<◌, ◌≤◌, length};
ghost use Rattle.map_state.specs.Network.{network};
ghost use Rattle.map_state.specs.Steps.{Fits};
ghost use Rattle.optimize.specs.Steps.{run_of};
ghost use Rattle.infomap.specs.Infomap.{mark_of, trial_mark, keep, best_of_three, kept_grouping, relabel_dense, run_infomap};
ghost use Rattle.infomap.specs.Steps.{grouping_of};

use map_state::{MapState, Network, WeightTable};
use optimize::RunState;

// The kept trial's last round moved nothing; it still did, as round 100; no trial was kept.
#[derive(Clone, Copy, Debug, PartialEq, Eq)]
pub enum Mark {
    Rest,
    Spent,
    NoneKept,
}

// The mark of a run, the rounds of the kept trial and its codelength.
#[derive(Clone, Copy, Debug, PartialEq)]
pub struct Kept {
    pub mark: Mark,
    pub rounds: u32,
    pub codelength: f64,
}

// The mark of a trial that ended, by whether its last round moved a node.
// Kept as it is: no `From<bool>`, which would not say what is true of the trial; the definition has this name.
#[tactic(auto, unfolding(crate::specs::Infomap::mark_of, crate::specs::Infomap::trial_mark))]
fn trial_mark(moved: bool) -> Mark
    ensures { mark_of result ≡ trial_mark moved }
{
    if moved { Mark::Spent } else { Mark::Rest }
}

// Keeps a trial that has left its groups in the state s, if its codelength is below that of k: they are left in `best`.
// Kept as it is: `net` and `best` go together through three functions, each of which asks that `best` has the network's nodes. A struct of the two would have
// to promise, in each, that it holds the same network and the same slice afterwards, which parameters of their own say by themselves.
#[tactic(auto, using(crate::proofs::Trials::keep_yes, crate::proofs::Trials::keep_no))]
fn keep(net: &Network, s: &mut MapState, t: RunState, best: &mut [u32], k: Kept) -> Kept
    requires { (Fits net.now s.old) × (length best.old ≡ length s.old.partition) }
    ensures { (grouping_of best.new result ≡ keep net.now (grouping_of best.old k) (run_of s.old t))
        × (s.new.partition ≡ s.old.partition) }
{
    let l = codelength::map_equation(net, s);
    if l < k.codelength {
        best.copy_from_slice(s.partition());
        return Kept {
            mark: trial_mark(t.moved),
            rounds: t.rounds,
            codelength: l,
        };
    }
    k
}

// Three trials from the generator's state `rng`: the kept grouping is left in `best`. The second and the third run in the state of the first.
#[tactic(auto, using(rng::proofs::Counts::counted, optimize::proofs::Ends::trial_length, crate::proofs::Trials::trials_first, crate::proofs::Trials::trials_on, crate::proofs::Trials::trials_end), unfolding(crate::specs::Infomap::best_of_three, crate::specs::Infomap::mark_of))]
fn best_of_three(net: &Network, best: &mut [u32], rng: u64) -> Kept
    requires { length best.old ≡ length net.now.strength }
    ensures { grouping_of best.new result ≡ best_of_three net.now rng }
{
    let n = net.strength().len();
    let mut order = [0; 512];
    rng::fill(best);
    let none = Kept {
        mark: Mark::NoneKept,
        rounds: 0,
        codelength: f64::INFINITY,
    };
    let mut first = optimize::optimize_partition(net, &mut order[..n], rng);
    let mut x = first.run.rng;
    let mut k = keep(net, &mut first.state, first.run, best, none);
    for _ in 0..2u32 {
        let t = optimize::trial_in(net, &mut first.state, &mut order[..n], x);
        x = t.rng;
        k = keep(net, &mut first.state, t, best, k);
    }
    k
}

// The kept grouping of a seed, in internal numbers, left in `best`.
#[tactic(auto, using(rng::proofs::Counts::counted, crate::proofs::Trials::kept_links, crate::proofs::Trials::kept_none), unfolding(crate::specs::Infomap::mark_of))]
fn kept_grouping(net: &Network, best: &mut [u32], seed: u64) -> Kept
    requires { length best.old ≡ length net.now.strength }
    ensures { grouping_of best.new result ≡ kept_grouping net.now seed }
{
    let n = net.strength().len();
    if 0.0 < net.d() {
        return best_of_three(net, best, rng::seeded(seed));
    }
    rng::fill(best);
    Kept {
        mark: Mark::Rest,
        rounds: 0,
        codelength: 0.0,
    }
}

// Numbers the groups 0 up by first member.
// Kept as it is: a number counted beside the loop. Taken from a range it would be `next().unwrap_or(0)`, with a number that is never used. `labels` goes by
// the index of `partition`, since a member takes the label at its group's lowest member.
#[tactic(auto, using(crate::proofs::Labels::rank_le, crate::proofs::Labels::is_relabelled), unfolding(crate::specs::Infomap::rank))]
fn relabel_dense(partition: &[u32], labels: &mut [u32])
    requires { (length labels.old ≡ length partition.now) × (length partition.now ≤ 512) }
    ensures { labels.new ≡ relabel_dense partition.now }
{
    let mut next: u32 = 0;
    for (v, &p) in partition.iter().enumerate() {
        match map_state::lowest(partition, p) {
            Some(f) if f < v => labels[v] = labels[f],
            _ => {
                labels[v] = next;
                next += 1;
            }
        }
    }
}

// The grouping of the nodes whose weights stand in the table: each node's label, and the mark, the rounds and the codelength of the kept trial.
#[tactic(auto, using(crate::proofs::Trials::nodes_front))]
pub fn run_infomap(table: WeightTable, labels: &mut [u32], seed: u64) -> Kept
    requires { length labels.old ≡ table.n }
    ensures { grouping_of labels.new result ≡ run_infomap (network table.entry.weights.now table.entry.stride table.entry.n) seed }
{
    let n = table.n;
    let net = Network::new(table);
    let mut best = [0u32; 512];
    let k = kept_grouping(&net, &mut best[..n], seed);
    relabel_dense(&best[..n], labels);
    k
}
