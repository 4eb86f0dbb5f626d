// The steps of a fit whose tracks have passed the checks: stays, places, labels of places, labels of fixes.
// Kept as it is: arrays of fixed size, of which a part is lent, since the project's memory is fixed and it takes no heap.
// Kept as it is: the work slices `labels`, `floats` and `words` go together through `label_tracks`, `from_medians`, `from_tracks`, `fit_tracks` and
// `fit_predict_many` (`label_fixes` takes two of them), and are parameters of their own; so they are in `fit_records` and `fit_taken` of records, `floats`,
// `words` and `out` in `visits` and `write_visits` of reports (`label_stays` takes two of them), and in replay programs. They are the caller's, lent to be
// written, and each step cuts them differently. A struct of `&mut` slices is no plainer: each contract would also have to say that every field still holds
// the slice that it held.
ghost use Rattle.std.specs.Prelude.{◌≡◌, ◌+◌, ◌*◌, ◌≤◌, length, Ok};
ghost use Rattle.distance.specs.Steps.{points_of};
ghost use Rattle.trace.specs.Given.{traces_of};
ghost use Rattle.neighbors.specs.Places.{places};
ghost use Rattle.checks.specs.Tracks.{check_tracks};
ghost use Rattle.infostop.specs.Steps.{PlaceSlices, Space, places_found, Grouped, FixLabelsAre, EndsFromStays, EndsFromTracks, handed_back};

use crate::answer::Labelled;
use crate::model::Infostop;
use distance::Points;
use neighbors::places::Places;
use settings::config::Config;
use settings::refusal::Refusal;
use stay::all::{all_stays, medians};
use trace::Tracks;
use trace::agreed::Agreed;

// Places in front of arrays of 512, as the model holds them, and how many there are.
// Kept as it is: arrays of fixed size with a count beside them, since the model, whose form is the rules', takes them over, and there is no heap.
// `replay_neighbors` has three arrays of 128 for the same, which end with the function that has them.
#[derive(Drop)]
struct PlaceArrays {
    xs: [f64; 512],
    ys: [f64; 512],
    counts: [u32; 512],
    count: usize,
}

// The places of medians, and 19 where they are more than the cap.
#[tactic(auto, using(crate::proofs::Placed::too_many))]
fn find_places(medians: Points, cap: usize) -> Result<PlaceArrays, Refusal>
    requires { (length (points_of medians) ≤ 65536) × (cap ≤ 512) }
    ensures { result ≡ places_found cap (places (points_of medians.entry)) }
{
    let mut xs = [0.0; 512];
    let mut ys = [0.0; 512];
    let mut counts = [0u32; 512];
    let found = neighbors::places::distinct(
        medians,
        &mut xs[..cap],
        &mut ys[..cap],
        &mut counts[..cap],
    );
    let Some(count) = found else {
        return Err(Refusal::TooManyPlaces);
    };
    Ok(PlaceArrays {
        xs,
        ys,
        counts,
        count,
    })
}

// The labels of the fixes, from their stay numbers in front of `words`; behind them stand the labels of the stays. The places have the labels pl.
fn label_fixes(medians: Points, places: &Places, pl: &[i32], words: &mut [i32], labels: &mut [i32])
    requires { length labels.old + length (points_of medians) ≤ length words.old }
    ensures { FixLabelsAre (points_of medians.entry) places.now pl.now words.old (length labels.old) labels.new }
{
    let n = labels.len();
    let end = n + medians.len();
    cluster::fixes::stay_labels(medians, places.points(), pl, &mut words[n..end]);
    cluster::fixes::fix_labels(&words[0..n], &words[n..end], labels);
}

// The labels of the places by their groups, then of the fixes; 18 where all labels are -1. The medians of the k stays stand in `floats`.
fn label_tracks(
    c: Config,
    k: usize,
    places: &Places,
    pl: &mut [i32],
    floats: &mut [f64],
    words: &mut [i32],
    labels: &mut [i32],
) -> Result<Labelled, Refusal>
    requires { (PlaceSlices places.now (length pl.old)) × (Space (length labels.old) k (length places.now) (length floats.old) (length words.old)) }
    ensures { Grouped c k places.now floats.old words.old labels.old result pl.new labels.new }
{
    let n = labels.len();
    let cells = 4 * n;
    let end = cells + places.len() * places.len();
    let kept = cluster::cluster(
        places,
        c.r2,
        c.label_singleton,
        c.seed,
        &mut floats[cells..end],
        pl,
    );
    if cluster::labels::none_labelled(pl) {
        return Err(Refusal::NoStop);
    }
    label_fixes(medians(floats, n, k), places, pl, words, labels);
    Ok(Labelled {
        mark: kept.mark,
        rounds: kept.rounds,
    })
}

// From the medians and the stay numbers of k stays in the work slices: the places, 19, the labels, and the model, where the fit is accepted.
#[tactic(auto, using(crate::proofs::Placed::count_few))]
fn from_medians(
    model: &mut Infostop,
    k: usize,
    cap: usize,
    floats: &mut [f64],
    words: &mut [i32],
    labels: &mut [i32],
) -> Result<Labelled, Refusal>
    requires { (cap ≤ 512) × (Space (length labels.old) k cap (length floats.old) (length words.old)) }
    ensures { EndsFromStays model.old k cap floats.old words.old labels.old (handed_back result model.new) labels.new }
{
    let found = find_places(medians(floats, labels.len(), k), cap)?;
    let p = found.count;
    let places = Places {
        xs: &found.xs[..p],
        ys: &found.ys[..p],
        counts: &found.counts[..p],
    };
    let mut place_labels = [-1i32; 512];
    let labelled = label_tracks(
        model.config,
        k,
        &places,
        &mut place_labels[..p],
        floats,
        words,
        labels,
    )?;
    *model = Infostop {
        config: model.config,
        xs: found.xs,
        ys: found.ys,
        labels: place_labels,
        count: p,
        fitted: true,
    };
    Ok(labelled)
}

// The fit of tracks that have passed the checks.
#[tactic(auto, using(crate::proofs::Stays::floats_room, crate::proofs::Stays::words_room, crate::proofs::Stays::few_places, crate::proofs::Stays::agreed, crate::proofs::Stays::all_room, crate::proofs::Stays::no_stay, crate::proofs::Stays::some_stay, crate::proofs::Stays::found_there))]
pub fn from_tracks(
    model: &mut Infostop,
    t: Tracks,
    labels: &mut [i32],
    places: usize,
    floats: &mut [f64],
    words: &mut [i32],
) -> Result<Labelled, Refusal>
    requires { check_tracks t.xs.now t.ys.now t.times.now t.marks.now t.lens.now (length labels.old) places (length floats.old) (length words.old) ≡ Ok tt }
    ensures { EndsFromTracks model.old (traces_of t.entry) labels.old places (handed_back result model.new) labels.new }
{
    let n = labels.len();
    let end = 4 * n;
    let t = Agreed { tracks: t };
    let k = all_stays(t, model.config, &mut floats[0..end], &mut words[0..n]);
    if k == 0 {
        return Err(Refusal::NoStop);
    }
    from_medians(model, k, places, floats, words, labels)
}
