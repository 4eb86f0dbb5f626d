// The table of link weights: the larger count of two linked places, 0 for no link.
ghost use Rattle.std.specs.Prelude.{◌≡◌, ◌+◌, ◌*◌, ◌<◌, max, cond, length};
ghost use Rattle.std.specs.Float.Ieee.{le};
ghost use Rattle.float.specs.Binary64.{whole64, zero64};
ghost use Rattle.distance.specs.Distance.{euclidean};
ghost use Rattle.neighbors.specs.Links.{weight};
ghost use Rattle.neighbors.specs.StepsTables.{Square, Weighted, RowsFilled};

use crate::places::Places;
use distance::Point;

// The weight between two places, the one of lower number first.
#[tactic(auto, using(crate::proofs::Linked::pair_links, crate::proofs::Linked::pair_apart))]
fn pair_weight(p: Point, q: Point, c: u32, d: u32, r2: f64) -> f64
    ensures { result ≡ cond (le (euclidean p q) r2) (whole64 (max c d)) zero64 }
{
    if distance::distance(p, q) <= r2 {
        c.max(d) as f64
    } else {
        0.0
    }
}

// Cell (i, j) of the table whose earlier rows are filled.
// Kept as it is: `places` and `r2` are two, here, in `fill_row` and in `fill_table`: nothing holds of the one by the other, and `cell` alone needs r2.
#[tactic(auto, using(crate::proofs::Cells::row_before, crate::proofs::Cells::tabled_at, crate::proofs::Linked::weight_sym, crate::proofs::Linked::cell_same, crate::proofs::Linked::cell_pair))]
fn cell(places: &Places, r2: f64, table: &[f64], i: usize, j: usize) -> f64
    requires { (j < length places.now) × RowsFilled euclidean r2 places.now table.now i }
    ensures { result ≡ weight euclidean r2 places.now i j }
{
    if j < i {
        return table[j * places.len() + i];
    }
    if i == j {
        return 0.0;
    }
    pair_weight(
        places.at(i),
        places.at(j),
        places.count(i),
        places.count(j),
        r2,
    )
}

// Fills row i.
#[tactic(auto, using(crate::proofs::Cells::tabled_less, crate::proofs::Cells::tabled_on, crate::proofs::Cells::tabled_row, crate::proofs::Cells::square_as))]
fn fill_row(places: &Places, r2: f64, table: &mut [f64], i: usize)
    requires { RowsFilled euclidean r2 places.now table.old i }
    ensures { Weighted euclidean r2 places.now table.new ((i + 1) * length places.now) }
{
    let n = places.len();
    for j in 0..n {
        table[i * n + j] = cell(places, r2, table, i, j);
    }
}

// Fills the table of weights of all pairs of places, with one distance for each pair.
#[tactic(auto, using(crate::proofs::Cells::tabled_none, crate::proofs::Cells::tabled_end, crate::proofs::Cells::square_as))]
pub fn fill_table(places: &Places, r2: f64, table: &mut [f64])
    requires { Square places.now table.old }
    ensures { Weighted euclidean r2 places.now table.new (length places.now * length places.now) }
{
    for i in 0..places.len() {
        fill_row(places, r2, table, i);
    }
}
