// A trial: passes over an order of visiting, and rounds until one moves nothing, at most 100. `order` holds the round's order of visiting.
#![tactic(auto)]

ghost use Rattle.std.specs.Prelude.{◌≡◌, ℕ, true, ◌+◌, ◌-◌, ◌<◌, ◌≤◌, length};
ghost use Rattle.lists.specs.Lists.{upto};
ghost use Rattle.map_state.specs.Network.{Network};
ghost use Rattle.map_state.specs.MapState.{MapState};
ghost use Rattle.map_state.specs.Steps.{AtNode};
ghost use Rattle.scan.specs.Scan.{Answer, scan, isolate};
ghost use Rattle.scan.specs.Steps.{answer_of, Testable};
ghost use Rattle.optimize.specs.Rounds.{act, pass, visits, round, run_rounds};
ghost use Rattle.optimize.specs.Steps.{pass_of, run_of, last_visits_from, Rises, PassFrom, RoundFrom, RoundEnds, TrialEnds};

use map_state::{MapState, Network};
use scan::Scan;

// Of a trial, beside its map state: the generator's state, the rounds so far, and whether the last one moved something.
#[derive(Clone, Copy, Debug, PartialEq, Eq)]
pub struct RunState {
    pub rng: u64,
    pub rounds: u32,
    pub moved: bool,
}

// A trial that has ended, and the map state that it leaves.
// Kept as it is: no equality is derived of it, since it holds a `MapState`, which has none.
#[derive(Drop)]
pub struct Trial {
    pub state: MapState,
    pub run: RunState,
}

// How a pass asks a node.
trait Ask {
    ghost answer: { Network → MapState → ℕ → Answer };

    fn ask(net: &Network, s: &MapState, u: usize) -> Scan
        requires { Testable net.now s.now u }
        ensures { answer_of result ≡ answer net.now s.now u };
}

// By its scan, in the pass of moves.
struct Moves;

impl Ask for Moves {
    ghost answer = { scan };

    fn ask(net: &Network, s: &MapState, u: usize) -> Scan {
        scan::scan_node(net, s, u)
    }
}

// By its isolation test, in the isolation pass.
struct Isolations;

impl Ask for Isolations {
    ghost answer = { isolate };

    fn ask(net: &Network, s: &MapState, u: usize) -> Scan {
        scan::isolate(net, s, u)
    }
}

// Node u does as it is answered. Hands back whether a node has moved.
#[tactic(auto, using(crate::proofs::Passes::act_stay), unfolding(crate::specs::Rounds::act, scan::specs::Steps::answer_of))]
fn act(net: &Network, s: &mut MapState, u: usize, a: Scan, moved: bool) -> bool
    requires { AtNode net.now s.old u }
    ensures { pass_of s.new result ≡ act net.now (pass_of s.old moved) u (answer_of a) }
{
    match a {
        Scan::Stay => moved,
        Scan::Move(h, _) => {
            s.apply_move(net, u, h);
            true
        }
    }
}

// Asks the nodes in their order, and moves each as it is answered.
#[tactic(auto, using(crate::proofs::Passes::node_in, crate::proofs::Passes::pass_end, crate::proofs::Numbers::highest_le))]
fn pass<A: Ask>(net: &Network, s: &mut MapState, order: &[u32], start: bool) -> bool
    requires { (PassFrom net.now s.old order.now) × Rises A.answer }
    ensures { pass_of s.new result ≡ pass A.answer net.now (pass_of s.old start) order.now }
{
    let mut moved = start;
    for &u in order {
        let u = u as usize;
        let a = A::ask(net, s, u);
        moved = act(net, s, u, a, moved);
    }
    moved
}

// One round: an order of visiting, a pass of moves and an isolation pass.
// Kept as it is: `net` and `order` go together, here and through `pass`, `run_rounds` and `optimize_partition`, and are parameters of their own, for the reason
// at `keep` of infomap.
// Kept as it is: the map state stands beside a `RunState` and not in it: it has 12 KB, is lent from round to round and from trial to trial, and has no Copy.
fn round(net: &Network, s: &mut MapState, r: &mut RunState, order: &mut [u32])
    requires { (RoundFrom 800000 net.now s.old order.old) × (r.old.rounds < 1000) }
    ensures { RoundEnds (round net.now (run_of s.old r.old)) (visits net.now (run_of s.old r.old)) s.new r.new order.new }
{
    r.rng = rng::draw_order(order, r.rng);
    let moved = pass::<Moves>(net, s, order, false);
    r.moved = pass::<Isolations>(net, s, order, moved);
    r.rounds += 1;
}

// Rounds, up to 100, until one moves nothing.
#[tactic(auto, using(crate::proofs::Numbers::at_most_more, crate::proofs::Rounds::rounds_rest, crate::proofs::Rounds::visits_rest, crate::proofs::Rounds::rounds_end, crate::proofs::Rounds::visits_end))]
fn run_rounds(net: &Network, s: &mut MapState, r: &mut RunState, order: &mut [u32])
    requires { (RoundFrom 512 net.now s.old order.old) × (r.old.rounds ≡ 0) }
    ensures { RoundEnds (run_rounds net.now 100 true (run_of s.old r.old)) (last_visits_from net.now 100 true (run_of s.old r.old) order.old) s.new r.new order.new }
{
    for _ in 0..100u32 {
        round(net, s, r, order);
        if !r.moved {
            return;
        }
    }
}

// Each of n nodes in a group of its own, before any sum is made; what the state was before is not read.
#[tactic(auto, using(rng::proofs::Counts::counted, crate::proofs::Start::firsts_filled, crate::proofs::Start::filled))]
fn scatter(s: &mut MapState, n: usize)
    requires { n ≤ 512 }
    ensures { s.new.partition ≡ upto n }
{
    s.n = n;
    rng::fill(&mut s.partition[..n]);
    rng::fill(&mut s.first[..n]);
}

// A trial from the generator's state `rng`, in a lent state: what that was before is not read.
#[tactic(auto, using(crate::proofs::Start::at_most_filled, lists::proofs::Upto::length_upto), unfolding(codelength::specs::Codelength::from_partition))]
pub fn trial_in(net: &Network, s: &mut MapState, order: &mut [u32], rng: u64) -> RunState
    requires { length order.old ≡ length net.now.strength }
    ensures { TrialEnds net.now rng s.new order.new result }
{
    let mut r = RunState {
        rng,
        rounds: 0,
        moved: true,
    };
    scatter(s, net.strength().len());
    codelength::from_partition(net, s);
    run_rounds(net, s, &mut r, order);
    r
}

// A trial from the generator's state `rng`.
// Kept as it is: arrays of fixed size, since the project takes no heap (docs/DECISIONS.md, "No heap").
#[tactic(auto, using(crate::proofs::Start::no_firsts))]
pub fn optimize_partition(net: &Network, order: &mut [u32], rng: u64) -> Trial
    requires { length order.old ≡ length net.now.strength }
    ensures { TrialEnds net.now rng result.state order.new result.run }
{
    let mut state = MapState {
        n: 0,
        partition: [0; 512],
        first: [0; 512],
        exits: [0.0; 512],
        strengths: [0.0; 512],
        q: 0.0,
    };
    let run = trial_in(net, &mut state, order, rng);
    Trial { state, run }
}
