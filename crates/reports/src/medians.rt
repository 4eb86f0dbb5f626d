// Label medians: the Rust's label_medians, in rising label, into lent slices.
// Kept as it is: arrays of fixed size, of which a part is lent, since the project's memory is fixed and it takes no heap.
ghost use Rattle.std.specs.Prelude.{◌≡◌, ◌≤◌, length, take};
ghost use Rattle.stay.specs.Ordered.{ordered};
ghost use Rattle.reports.specs.LabelMedians.{with_label, label_median, label_medians, MediansReported};

use crate::labels::{is_label, label_count, write_column};
use crate::shared::check_model;
use infostop::model::Infostop;
use settings::refusal::Refusal;

// One coordinate of each place with the label l, in order, in front of `group`. It hands back how many they are.
// Kept as it is: the group is a part of an array with its length beside it, since the library has no heap; and they are counted beside the loop, since
// each is inserted behind those before it.
#[tactic(auto, using(lists::proofs::Zipped::both_spent, crate::proofs::Gathered::gather_end, crate::proofs::Gathered::gather_in, crate::proofs::Gathered::gather_past, crate::proofs::Gathered::front_ordered), unfolding(stay::specs::StepsOrdered::in_order, stay::specs::Ordered::ordered))]
fn gather(labels: &[i32], vs: &[f64], l: usize, group: &mut [f64]) -> usize
    requires { (length vs.now ≡ length labels.now) × (length labels.now ≤ length group.old) }
    ensures { (result ≤ length labels.now) × (take result group.new ≡ ordered (with_label l labels.now vs.now)) }
{
    let mut n = 0;
    for (&k, &v) in labels.iter().zip(vs) {
        if is_label(k, l) {
            stay::insert_ordered(group, n, v);
            n += 1;
        }
    }
    n
}

// The median of one coordinate of the places with the label l.
fn label_median(labels: &[i32], vs: &[f64], l: usize) -> f64
    requires { (length vs.now ≡ length labels.now) × (length labels.now ≤ 512) }
    ensures { result ≡ label_median labels.now vs.now l }
{
    let mut group = [0.0; 512];
    let n = gather(labels, vs, l, &mut group[..labels.len()]);
    stay::median(&group[..n])
}

// Writes the median of each label's places, x and y apart, and hands back the number of labels.
#[tactic(auto, unfolding(crate::specs::LabelMedians::label_medians))]
pub fn label_medians(m: Infostop, xs: &mut [f64], ys: &mut [f64]) -> Result<usize, Refusal>
    ensures { MediansReported m xs.old ys.old result xs.new ys.new }
{
    let (places, labels) = (m.points(), m.labels());
    let count = label_count(labels);
    check_model(m.fitted, xs.len() < count || ys.len() < count)?;
    write_column(|l| label_median(labels, places.xs, l), count, xs);
    write_column(|l| label_median(labels, places.ys, l), count, ys);
    Ok(count)
}
