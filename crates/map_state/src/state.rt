// What a run carries: its columns, the groups' sums, the change of codelength by a move, and the move.
ghost use Rattle.std.specs.Prelude.{◌≡◌, ◌<◌, ◌≤◌, length, get_or};
ghost use Rattle.map_state.specs.Network.{row};
ghost use Rattle.map_state.specs.MapState.{stats_of, sum_q, moved_by, delta_move, apply_move};
ghost use Rattle.map_state.specs.Steps.{Firsts, Even, AtNode, MoveSums};

use crate::{
    MapState, ModulePair, ModuleStats, Moved, Network, Row, delta_move, find_stats, move_of,
    stats_at, store_group, sum_q,
};

impl MapState {
    // Each node's group.
    pub fn partition(&self) -> &[u32]
        ensures { (result.now ≡ self.now.partition) × Even self.now }
    {
        &self.partition[..self.n]
    }

    // The lowest member of each node's group.
    #[tactic(auto, using(crate::proofs::Leaders::firsts_front, crate::proofs::Leaders::front_long))]
    pub fn first(&self) -> &[u32]
        ensures { (length result.now ≡ length self.now.partition) × (Firsts self.now.partition result.now) × (length result.now ≤ 512) }
    {
        &self.first[..self.n]
    }

    // The exit weights of the groups, each at the group's lowest member.
    pub fn exits(&self) -> &[f64]
        ensures { (result.now ≡ self.now.exits) × (length result.now ≡ length self.now.partition) }
    {
        &self.exits[..self.n]
    }

    // The strengths of the groups, likewise.
    pub fn strengths(&self) -> &[f64]
        ensures { (result.now ≡ self.now.strengths) × (length result.now ≡ length self.now.partition) }
    {
        &self.strengths[..self.n]
    }

    // The row of node u beside the groups.
    pub fn row<'a>(&'a self, net: &'a Network, u: usize) -> Row<'a>
        requires { AtNode net.now self.now u }
        ensures { (result.weights.now ≡ row net.now u) × (result.partition.now ≡ self.now.partition) }
    {
        Row {
            weights: net.row(u),
            partition: self.partition(),
        }
    }

    // The sums of a node's own group.
    #[tactic(auto, using(crate::proofs::Leaders::firsts_of_lem, crate::proofs::Leaders::slot))]
    pub fn own_stats(&self, v: usize) -> ModuleStats
        requires { v < length self.now.partition }
        ensures { result ≡ stats_of self.now (get_or self.now.partition v 0) }
    {
        let partition = self.partition();
        let slot = self.first()[v] as usize;
        stats_at(
            partition,
            self.exits(),
            self.strengths(),
            slot,
            partition[v],
        )
    }

    // A group's sums, wherever they stand; an empty group's are 0.
    pub fn find_stats(&self, g: u32) -> ModuleStats
        ensures { result ≡ stats_of self.now g }
    {
        find_stats(self.partition(), self.exits(), self.strengths(), g)
    }

    // Q, by lowest member.
    pub fn sum_q(&self, d: f64) -> f64
        ensures { result ≡ sum_q d self.now.partition self.now.exits }
    {
        sum_q(self.partition(), self.first(), self.exits(), d)
    }

    // The change of codelength if u moves to h; its group is `src` and h is `dest` before it.
    // Kept as it is: the two groups' sums side by side. What a `ModulePair` asks follows from the clause here; whoever calls would have to show it.
    #[tactic(auto, using(crate::proofs::Leaders::stats_some, crate::proofs::Leaders::stats_few), unfolding(crate::specs::MapState::delta_move, crate::specs::MapState::delta_from, crate::specs::MapState::moved_from))]
    pub fn delta_move(
        &self,
        net: &Network,
        u: usize,
        h: u32,
        src: ModuleStats,
        dest: ModuleStats,
    ) -> f64
        requires { (AtNode net.now self.now u) × (MoveSums self.now u h src dest) }
        ensures { result ≡ delta_move net.now self.now u h }
    {
        let row = self.row(net, u);
        let s = net.strength()[u];
        let g = row.partition[u];
        delta_move(row, s, net.d(), self.q, g, h, ModulePair { src, dest })
    }

    // What the move of u to h makes of the two groups.
    #[tactic(auto, using(crate::proofs::Leaders::stats_some, crate::proofs::Leaders::stats_few), unfolding(crate::specs::MapState::moved_from))]
    fn moved_by(&self, net: &Network, u: usize, h: u32) -> Moved
        requires { AtNode net.now self.now u }
        ensures { result ≡ moved_by net.now self.now u h }
    {
        let row = self.row(net, u);
        let src = self.own_stats(u);
        let dest = self.find_stats(h);
        let pair = ModulePair { src, dest };
        move_of(row, net.strength()[u], row.partition[u], h, pair)
    }

    // Moves u to h, another group, and makes Q anew.
    pub fn apply_move(&mut self, net: &Network, u: usize, h: u32)
        requires { AtNode net.now self.old u }
        ensures { self.new ≡ apply_move net.now self.old u h }
    {
        let g = self.partition()[u];
        let mv = self.moved_by(net, u, h);
        self.partition[u] = h;
        let partition = &self.partition[..self.n];
        store_group(
            partition,
            &mut self.first,
            &mut self.exits,
            &mut self.strengths,
            g,
            mv.src,
        );
        store_group(
            partition,
            &mut self.first,
            &mut self.exits,
            &mut self.strengths,
            h,
            mv.dest,
        );
        self.q = self.sum_q(net.d());
    }
}
