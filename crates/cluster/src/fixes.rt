// From the labels of places those of stays and of fixes.
ghost use Rattle.std.specs.Prelude.{◌≡◌, negsuc, length, get_or};
ghost use Rattle.distance.specs.Steps.{points_of};
ghost use Rattle.cluster.specs.Steps.{MedianLabelIs, StayLabelsAre, event_label, event_labels};

use distance::{Point, Points};
use settings::config::Config;

// Label i, or -1 past the end.
fn label_at(labels: &[i32], i: usize) -> i32
    ensures { result ≡ get_or labels.now i (negsuc 0) }
{
    labels.get(i).copied().unwrap_or(-1)
}

// The label of the place of m, or -1 where it has none.
// Kept as it is: places and their labels are two, here, in `stay_labels`, in `label_fixes` of infostop and in `label_stays` of reports. Nothing holds of the
// one by the other, since callers may hand over more labels or fewer, and a struct would be made at two calls and taken apart here.
// Kept as it is: for no place the label of number `places.len()`, and no match with -1 in it. Tried, and the proof didn't close: `label_for` reads the
// label of that number too, and callers may hand over more labels than places, since the contract asks nothing of how many they are.
#[tactic(auto, using(crate::proofs::FixLabels::label_at_place))]
fn median_label(places: Points, place_labels: &[i32], m: Point) -> i32
    ensures { MedianLabelIs (points_of places.entry) place_labels.now m result }
{
    let place = neighbors::places::place_of(places, m);
    label_at(place_labels, place.unwrap_or(places.len()))
}

// The label of each stay, from its median and the labels of the places.
// Kept as it is: `out`, and `labels` in `fix_labels`, are written by index. Of what a slice holds after a loop over its `iter_mut` beside another iterator
// nothing is told, as `renew_first` of map_state has it.
#[tactic(auto, using(crate::proofs::FixLabels::stays_start, crate::proofs::FixLabels::stay_labelled, crate::proofs::FixLabels::stays_labelled))]
pub fn stay_labels(medians: Points, places: Points, place_labels: &[i32], out: &mut [i32])
    requires { length out.old ≡ length (points_of medians) }
    ensures { StayLabelsAre (points_of medians.entry) (points_of places.entry) place_labels.now out.new }
{
    for (i, m) in medians.iter().enumerate() {
        out[i] = median_label(places, place_labels, m);
    }
}

// The label of the stay of number e, or -1 where there is none.
#[tactic(auto, using(crate::proofs::FixLabels::no_label, crate::proofs::FixLabels::label_of))]
fn event_label(stay_labels: &[i32], e: i32) -> i32
    ensures { result ≡ event_label stay_labels.now e }
{
    match usize::try_from(e) {
        Ok(i) => label_at(stay_labels, i),
        Err(_) => -1,
    }
}

// The label of each fix, from its stay number and the labels of the stays.
#[tactic(auto, using(crate::proofs::FixLabels::fix_labelled, crate::proofs::FixLabels::fixes_labelled))]
pub fn fix_labels(events: &[i32], stay_labels: &[i32], labels: &mut [i32])
    requires { length labels.old ≡ length events.now }
    ensures { labels.new ≡ event_labels stay_labels.now events.now }
{
    for (i, &e) in events.iter().enumerate() {
        labels[i] = event_label(stay_labels, e);
    }
}
