// The places of the model and their labels: the Rust's stationary_points and stationary_labels, into lent slices.
ghost use Rattle.reports.specs.Reports.{PointsReported, LabelsReported};

use crate::shared::check_model;
use infostop::model::Infostop;
use settings::refusal::Refusal;

// Writes the places, x and y apart, and hands back how many there are.
#[tactic(auto, unfolding(lists::specs::Lists::overlay))]
pub fn stationary_points(m: Infostop, xs: &mut [f64], ys: &mut [f64]) -> Result<usize, Refusal>
    ensures { PointsReported m xs.old ys.old result xs.new ys.new }
{
    let places = m.points();
    let n = places.xs.len();
    check_model(m.fitted, xs.len() < n || ys.len() < n)?;
    xs[..n].copy_from_slice(places.xs);
    ys[..n].copy_from_slice(places.ys);
    Ok(n)
}

// Writes the labels of the places, in the same order.
#[tactic(auto, unfolding(lists::specs::Lists::overlay))]
pub fn stationary_labels(m: Infostop, labels: &mut [i32]) -> Result<usize, Refusal>
    ensures { LabelsReported m labels.old result labels.new }
{
    let places = m.labels();
    let n = places.len();
    check_model(m.fitted, labels.len() < n)?;
    labels[..n].copy_from_slice(places);
    Ok(n)
}
