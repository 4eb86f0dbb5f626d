// The fit over one lent slice of fix records. The records are judged first; those that pass all checks of tracks are taken apart into columns and
// marks, two lent slices, which go to the fit over slices.
#![tactic(auto)]

ghost use Rattle.std.specs.Prelude.{◌≡◌, ◌≤◌, ◌*◌, ◌++◌, length, Err};
ghost use Rattle.lists.specs.Lists.{overlay};
ghost use Rattle.records.specs.Records.{xs_of, ys_of, times_of, marks_of, RecordsFitted};
ghost use Rattle.records.specs.StepsJudge.{started, run, check_records};
ghost use Rattle.records.specs.Steps.{ReadyFitted};

use crate::judge::Judge;
use checks::Room;
use distance::Point;
use infostop::answer::Fit;
use infostop::model::Infostop;
use settings::config::Config;
use settings::refusal::Refusal;
use trace::Tracks;

pub mod judge;
pub mod verdict;

// A fix: a point, and a time where the mark is 1. The time beside another mark is not looked at.
// Kept as it is: an `Option<f64>` has no place for a mark that is neither 0 nor 1, which a caller can hand over and rule 17 refuses.
#[derive(Clone, Copy, Debug, PartialEq)]
pub struct FixRecord {
    pub at: Point,
    pub time: f64,
    pub mark: u8,
}

// The machine over all records.
#[tactic(auto, using(crate::proofs::Runs::run_next, crate::proofs::Runs::run_end))]
fn judge_records(fixes: &[FixRecord], lens: &[u32]) -> Judge
    ensures { result ≡ run lens.now (started lens.now) fixes.now }
{
    let mut judge = Judge::start(lens);
    for &f in fixes {
        judge = judge.step(f, lens);
    }
    judge
}

// All records into the front of the columns and of the marks.
// Kept as it is: written by index, since one slice holds three of the columns, and of what a slice holds after a loop over its `iter_mut` beside another
// iterator nothing is told, as `renew_first` of map_state has it.
#[tactic(auto, using(crate::proofs::Columns::columns_end, crate::proofs::Columns::marks_end))]
fn take_apart(fixes: &[FixRecord], columns: &mut [f64], marks: &mut [u8])
    requires { (3 * length fixes.now ≤ length columns.old) × (length fixes.now ≤ length marks.old) }
    ensures { (columns.new ≡ overlay (xs_of fixes.now ++ (ys_of fixes.now ++ times_of fixes.now)) columns.old)
        × (marks.new ≡ overlay (marks_of fixes.now) marks.old) }
{
    let n = fixes.len();
    for (i, &f) in fixes.iter().enumerate() {
        columns[i] = f.at.x;
        columns[n + i] = f.at.y;
        columns[2 * n + i] = f.read_time();
        marks[i] = f.mark;
    }
}

// Whether the records pass, or the first refusal. Columns and marks are told by their lengths.
#[tactic(auto, using(crate::proofs::Judged::checks_told))]
fn check_records(
    config: Config,
    fixes: &[FixRecord],
    lens: &[u32],
    columns: usize,
    marks: usize,
    room: Room,
) -> Result<(), Refusal>
    ensures { result ≡ check_records config fixes.now lens.now room.labels room.places columns marks room.floats room.words }
{
    let judge = judge_records(fixes, lens);
    verdict::decide(config, judge, fixes.len(), lens, columns, marks, room)
}

fn refuse(model: Infostop, e: Refusal) -> Fit
    ensures { result ≡ record { answer = Err e; model = model } }
{
    let answer = Err(e);
    Fit { answer, model }
}

// The fit of n records that pass, taken apart in the front of the columns and of the marks. The lent slices are parameters, as in `fit_records`.
fn fit_taken(
    model: Infostop,
    n: usize,
    lens: &[u32],
    labels: &mut [i32],
    places: usize,
    columns: &[f64],
    marks: &[u8],
    floats: &mut [f64],
    words: &mut [i32],
) -> Fit
    requires { (3 * n ≤ length columns.now) × (n ≤ length marks.now) }
    ensures { ReadyFitted model n lens.now places labels.old columns.now marks.now floats.old words.old
        result labels.new floats.new words.new }
{
    let tracks = Tracks {
        xs: &columns[..n],
        ys: &columns[n..2 * n],
        times: &columns[2 * n..3 * n],
        marks: &marks[..n],
        lens,
    };
    model.fit_predict_many(tracks, labels, places, floats, words)
}

// The fit of the records. Beside the slices of `fit_predict_many` it is lent `columns`, for 3 × records numbers, and `marks`, for one of each record.
// One of the two that is shorter is 10. A refusal other than 18 and 19 leaves all as it was.
// Kept as it is: each slice is a parameter; a struct of those that are written would need, of each function that it is lent to, a promise that it still
// holds the same slices, and the callers lend them one by one.
#[tactic(auto, using(crate::proofs::Fits::room_first, crate::proofs::Fits::room_then))]
pub fn fit_records(
    model: Infostop,
    fixes: &[FixRecord],
    lens: &[u32],
    labels: &mut [i32],
    places: usize,
    columns: &mut [f64],
    marks: &mut [u8],
    floats: &mut [f64],
    words: &mut [i32],
) -> Fit
    ensures { RecordsFitted model fixes.now lens.now places
        labels.old columns.old marks.old floats.old words.old
        result labels.new columns.new marks.new floats.new words.new }
{
    let room = Room {
        labels: labels.len(),
        places,
        floats: floats.len(),
        words: words.len(),
    };
    let n = fixes.len();
    match check_records(model.config, fixes, lens, columns.len(), marks.len(), room) {
        Ok(()) => {
            take_apart(fixes, columns, marks);
            fit_taken(
                model, n, lens, labels, places, columns, marks, floats, words,
            )
        }
        Err(e) => refuse(model, e),
    }
}
