// Labels of places from the kept grouping of the nodes.
// Kept as it is: arrays of fixed size, of which a part is lent, since the project's memory is fixed and it takes no heap.
#![tactic(auto)]

ghost use Rattle.std.specs.Prelude.{◌≡◌, ◌*◌, length};
ghost use Rattle.distance.specs.Distance.{euclidean};
ghost use Rattle.neighbors.specs.Links.{nodes};
ghost use Rattle.cluster.specs.Cluster.{cluster};
ghost use Rattle.cluster.specs.StepsSlices.{ClusteredFrom, clustering_of, Countable};

use infomap::Kept;
use map_state::WeightTable;
use neighbors::nodes::Nodes;
use neighbors::places::Places;

pub mod fixes;
pub mod labels;

// Groups the linked places by their rows and columns of the table of all places, and labels all. The table is work.
#[tactic(auto, using(crate::proofs::Clustered::front_few, crate::proofs::Clustered::grouped))]
fn group_and_label(
    table: &mut [f64],
    linked: Nodes,
    single: bool,
    seed: u64,
    labels: &mut [i32],
) -> Kept
    requires { (length table.old ≡ linked.n * linked.n) × (length labels.old ≡ linked.n) }
    ensures { ClusteredFrom linked.entry.n table.old linked.entry.numbers.now single seed labels.new result }
{
    let k = linked.numbers.len();
    let mut groups = [0u32; 512];
    neighbors::nodes::compact(table, linked);
    let weights = WeightTable {
        weights: &table[..k * k],
        stride: k,
        n: k,
    };
    let kept = infomap::run_infomap(weights, &mut groups[..k], seed);
    labels::label_places(linked.numbers, &groups[..k], single, labels);
    kept
}

// The labels of the places, and the mark, the rounds and the codelength of the kept trial. The table is work.
#[tactic(auto, using(neighbors::proofs::FoundRows::found_rise, neighbors::proofs::FoundRows::found_room, neighbors::proofs::FoundRows::found_length, crate::proofs::FoundNodes::found_nodes))]
pub fn cluster(
    places: &Places,
    r2: f64,
    single: bool,
    seed: u64,
    table: &mut [f64],
    labels: &mut [i32],
) -> Kept
    requires { (Countable places.now table.old) × (length labels.old ≡ length places.now) }
    ensures { clustering_of labels.new result ≡ cluster euclidean r2 single seed places.now }
{
    let n = places.len();
    let mut found = [0u32; 512];
    neighbors::weights::fill_table(places, r2, table);
    let k = neighbors::nodes::find_nodes(table, n, &mut found);
    let linked = Nodes {
        n,
        numbers: &found[..k],
    };
    group_and_label(table, linked, single, seed, labels)
}
