// The network: made from a table or from its parts, and read.
// Kept as it is: an array of fixed size, of which a part is lent, since the project takes no heap (docs/DECISIONS.md, "No heap").
ghost use Rattle.std.specs.Prelude.{◌≡◌, ◌<◌, ◌≤◌, length};
ghost use Rattle.map_state.specs.Network.{row, network};
ghost use Rattle.map_state.specs.Steps.{net_of, EachRow};

use crate::{Network, WeightTable, sum_strengths, total_weight};

impl<'a> Network<'a> {
    // The network of the nodes whose weights stand in the table.
    #[tactic(auto, using(crate::proofs::Rows::network_is))]
    pub fn new(table: WeightTable<'a>) -> Self
        ensures { result ≡ network table.entry.weights.now table.entry.stride table.entry.n }
    {
        let mut strength = [0.0; 512];
        sum_strengths(table, &mut strength[..table.n]);
        let d = 2.0 * total_weight(table);
        Network {
            table: table.weights,
            stride: table.stride,
            n: table.n,
            strength,
            d,
        }
    }

    // The network of these strengths and this D, whatever they are.
    // Kept as it is: table and stride side by side, since this asks less of them than a `WeightTable`: rows may share numbers.
    pub fn from_parts(table: &'a [f64], stride: usize, strength: &[f64], d: f64) -> Self
        requires { EachRow table.now stride (length strength.now) }
        ensures { result ≡ net_of table.now stride strength.now d }
    {
        let n = strength.len();
        let mut kept = [0.0; 512];
        kept[..n].copy_from_slice(strength);
        Network {
            table,
            stride,
            n,
            strength: kept,
            d,
        }
    }

    pub fn d(&self) -> f64
        ensures { result ≡ self.now.d }
    {
        self.d
    }

    pub fn strength(&self) -> &[f64]
        ensures { (result.now ≡ self.now.strength) × (length result.now ≤ 512) }
    {
        &self.strength[..self.n]
    }

    // The weights between node u and each node.
    #[tactic(auto, using(crate::proofs::Rows::row_within, crate::proofs::Rows::row_length), unfolding(crate::specs::Network::row))]
    pub fn row(&self, u: usize) -> &[f64]
        requires { u < length self.now.strength }
        ensures { (result.now ≡ row self.now u) × (length result.now ≡ length self.now.strength) }
    {
        let a = u * self.stride;
        &self.table[a..a + self.n]
    }
}
