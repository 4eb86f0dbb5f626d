// Visits: how many accepted stays of a trace have their median at a place of each label.
// Kept as it is: the work slices are parameters of their own, for the reason that stands in infostop/src/steps.rt.
ghost use Rattle.std.specs.Prelude.{◌≡◌, ◌≤◌, [], length, get_or};
ghost use Rattle.lists.specs.Lists.{overlay};
ghost use Rattle.distance.specs.Distance.{euclidean};
ghost use Rattle.distance.specs.Steps.{points_of};
ghost use Rattle.trace.specs.Given.{fixes_of, traces_of};
ghost use Rattle.stay.specs.Stays.{stay_medians};
ghost use Rattle.reports.specs.Visits.{visits_to, trace_visits, VisitsReported};
ghost use Rattle.reports.specs.Steps.{StayRoom, LabelledStays, VisitsAsked};

use crate::labels::{is_label, label_count, write_column};
use crate::shared::{check_model, trace_start};
use distance::Points;
use infostop::model::Infostop;
use settings::config::Config;
use settings::refusal::Refusal;
use trace::agreed::Agreed;
use trace::{Trace, Tracks};

// How many of the labels are l.
// Kept as it is: counted by hand. `filter` and `count` take 7 instructions a label, and this loop 12 for eight labels, since it compares several at once.
#[tactic(auto, using(crate::proofs::Counted::visits_yes, crate::proofs::Counted::visits_no, crate::proofs::Counted::visits_end, crate::proofs::Counted::visits_few))]
fn visits_to(labels: &[i32], l: usize) -> u32
    requires { length labels.now ≤ 65536 }
    ensures { result ≡ visits_to labels.now l }
{
    let mut n = 0;
    for &k in labels {
        if is_label(k, l) {
            n += 1;
        }
    }
    n
}

// The labels of the stays of one trace, by the places with the labels pl. They stand behind as many words as the trace has fixes; it hands back how many.
#[tactic(auto, using(distance::proofs::Columns::length_points, stay::proofs::AllStays::alone_few))]
fn label_stays(
    places: Points,
    pl: &[i32],
    t: Trace,
    s: Config,
    floats: &mut [f64],
    words: &mut [i32],
) -> usize
    requires { StayRoom (length t.xs.now) (length floats.old) (length words.old) }
    ensures { LabelledStays (length t.entry.xs.now) (points_of places.entry) pl.now
        (stay_medians euclidean s (fixes_of t.entry)) words.new result }
{
    let n = t.xs.len();
    let k = stay::stays(t, s, &mut floats[..4 * n], 0, &mut words[..n]);
    let medians = stay::all::medians(floats, n, k);
    cluster::fixes::stay_labels(medians, places, pl, &mut words[n..n + k]);
    k
}

// The visits of a trace to each label, to the front of `out`. The model has `count` labels.
#[tactic(auto, using(crate::proofs::OneTraces::within))]
fn write_visits(
    m: Infostop,
    count: usize,
    t: Agreed,
    trace: usize,
    floats: &mut [f64],
    words: &mut [i32],
    out: &mut [u32],
)
    requires { VisitsAsked m count (length t.tracks.xs.now) (length t.tracks.lens.now) trace (length floats.old) (length words.old) (length out.old) }
    ensures { out.new ≡ overlay (trace_visits m (get_or (traces_of t.entry.tracks) trace [])) out.old }
{
    let at = trace_start(t.tracks.lens, trace);
    let len = t.tracks.lens[trace] as usize;
    let one = t.part(at, len);
    let k = label_stays(m.points(), m.labels(), one, m.config, floats, words);
    let visited = &words[len..len + k];
    write_column(|l| visits_to(visited, l), count, out);
}

// Writes for each label upward the number of its visits by the trace, and hands back the number of labels. `floats` and `words` are work: 4 × fixes
// numbers each.
#[tactic(auto, using(crate::proofs::VisitReports::fitting), unfolding(crate::specs::Visits::check_visits, settings::specs::Checks::in_turn, settings::specs::Checks::first_of))]
pub fn visits(
    m: Infostop,
    tracks: Tracks,
    trace: usize,
    floats: &mut [f64],
    words: &mut [i32],
    out: &mut [u32],
) -> Result<usize, Refusal>
    ensures { VisitsReported m tracks.entry.xs.now tracks.entry.ys.now tracks.entry.times.now tracks.entry.marks.now
        tracks.entry.lens.now trace floats.old words.old out.old result floats.new words.new out.new }
{
    checks::check_report_tracks(tracks, floats.len(), words.len())?;
    let count = label_count(m.labels());
    check_model(m.fitted, tracks.lens.len() <= trace || out.len() < count)?;
    let t = Agreed { tracks };
    write_visits(m, count, t, trace, floats, words, out);
    Ok(count)
}
