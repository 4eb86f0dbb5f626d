// The nodes: the places with a link, in place order, and the table of their weights.
// Kept as it is: the table stands in no struct with the number of its columns. `compact` and `compact_row` write the table, so that each
// of their contracts would have to add that the struct still holds the slice that it held, and they leave a table of as many columns as there are
// nodes in front, so that the struct's number would then be wrong.
ghost use Rattle.std.specs.Prelude.{◌≡◌, ◌*◌, ◌<◌, ◌≤◌, length};
ghost use Rattle.lists.specs.Lists.{overlay};
ghost use Rattle.neighbors.specs.StepsTables.{has_weight, rows_with_weight, RowNumbers, Compacted, RowMoved};

// Nodes among n places, by the numbers of their places: none is below its own place in the list, as where they rise.
#[derive(Clone, Copy, Debug, PartialEq, Eq)]
pub struct Nodes<'a> {
    pub n: usize,
    pub numbers: &'a [u32],
    pub ghost few: { n ≤ 512 },
    pub ghost rise: { RowNumbers n numbers.now },
}

// Whether row i of a table of n columns has a weight above 0.
fn has_weight(table: &[f64], n: usize, i: usize) -> bool
    requires { (n ≤ 512) × (i < n) × (n * n ≤ length table.now) }
    ensures { result ≡ has_weight n table.now i }
{
    table[i * n..i * n + n].iter().any(|&w| 0.0 < w)
}

// Writes the rows with a weight above 0 to the front of the slice, and tells how many there are.
// Kept as it is: the rows found are counted beside the loop, since there is no heap to collect them in: they go to a lent slice.
#[tactic(auto, using(crate::proofs::Selected::select_steps, crate::proofs::Selected::select_end), unfolding(crate::specs::StepsTables::rows_with_weight))]
pub fn find_nodes(table: &[f64], n: usize, nodes: &mut [u32]) -> usize
    requires { (n ≤ 512) × (n * n ≤ length table.now) × (n ≤ length nodes.old) }
    ensures { (result ≡ length (rows_with_weight n table.now)) × (nodes.new ≡ overlay (rows_with_weight n table.now) nodes.old) }
{
    let mut k = 0;
    for i in 0..n {
        if has_weight(table, n, i) {
            nodes[k] = i as u32;
            k += 1;
        }
    }
    k
}

// Moves row u of the nodes' cells to the front.
#[tactic(auto, using(crate::proofs::Compact::compact_less, crate::proofs::Compact::compact_row))]
fn compact_row(table: &mut [f64], nodes: Nodes, u: usize)
    requires { (nodes.n * nodes.n ≤ length table.old) × (u < length nodes.numbers.now) }
    ensures { RowMoved nodes.entry.n nodes.entry.numbers.now u table.old table.new }
{
    let k = nodes.numbers.len();
    let i = nodes.numbers[u] as usize;
    for (v, &j) in nodes.numbers.iter().enumerate() {
        table[u * k + v] = table[i * nodes.n + j as usize];
    }
}

// Makes the table, which has a column for each place, one of the nodes' rows and columns, at its front.
#[tactic(auto, using(crate::proofs::Compact::compact_none, crate::proofs::Compact::compact_all))]
pub fn compact(table: &mut [f64], nodes: Nodes)
    requires { nodes.n * nodes.n ≤ length table.old }
    ensures { Compacted nodes.entry.n nodes.entry.numbers.now table.old table.new (length nodes.entry.numbers.now * length nodes.entry.numbers.now) }
{
    for u in 0..nodes.numbers.len() {
        compact_row(table, nodes, u);
    }
}
