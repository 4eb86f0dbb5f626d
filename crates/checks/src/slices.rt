// The checks of the slices' lengths and of the time marks: 7 to 10, and 17.
ghost use Rattle.std.specs.Prelude.{◌≡◌, ◌≤◌, eqb};
ghost use Rattle.trace.specs.Trace.{total};
ghost use Rattle.checks.specs.Tracks.{same_lengths, check_lengths, check_counts, check_work, check_mark};
ghost use Rattle.settings.specs.Checks.{each_of};

use crate::Room;
use settings::refusal::Refusal;

// Whether the trace lengths sum to n. What is left of n does not wrap.
#[tactic(auto, using(trace::proofs::Parts::total_drop, crate::proofs::Lengths::total_end))]
fn sums_to(lens: &[u32], n: usize) -> bool
    ensures { result ≡ eqb (total lens.now) n }
{
    let mut left = n;
    for &len in lens {
        let l = len as usize;
        if left < l {
            return false;
        }
        left -= l;
    }
    left == 0
}

// Whether the other slices have n elements too.
// Kept as it is: five lengths, here and in `check_lengths`: the records have no columns yet, and hand over n four times; the view and the sheet have a label
// slice alone. A struct of the five would be made at each of the three calls, and taken apart here.
#[tactic(auto, unfolding(crate::specs::Tracks::same_lengths))]
fn same_lengths(n: usize, ys: usize, times: usize, marks: usize, labels: usize) -> bool
    ensures { result ≡ same_lengths n ys times marks labels }
{
    ys == n && times == n && marks == n && labels == n
}

// 7 and 8: there is a trace, and the lengths agree.
#[tactic(auto, unfolding(crate::specs::Tracks::check_lengths, settings::proofs::Turns::turns))]
pub fn check_lengths(
    lens: &[u32],
    n: usize,
    ys: usize,
    times: usize,
    marks: usize,
    labels: usize,
) -> Result<(), Refusal>
    ensures { result ≡ check_lengths lens.now n ys times marks labels }
{
    if lens.is_empty() {
        return Err(Refusal::NoTrace);
    }
    if !(same_lengths(n, ys, times, marks, labels) && sums_to(lens, n)) {
        return Err(Refusal::Lengths);
    }
    Ok(())
}

// 9: neither too many traces, fixes or places, nor no place.
#[tactic(auto, unfolding(crate::specs::Tracks::check_counts, settings::proofs::Turns::turns))]
pub fn check_counts(traces: usize, fixes: usize, places: usize) -> Result<(), Refusal>
    ensures { result ≡ check_counts traces fixes places }
{
    if 256 < traces || 65536 < fixes || places == 0 || 512 < places {
        return Err(Refusal::Counts);
    }
    Ok(())
}

// 10: the work slices are long enough.
#[tactic(auto, unfolding(crate::specs::Tracks::check_work, settings::proofs::Turns::turns))]
pub fn check_work(fixes: usize, room: Room) -> Result<(), Refusal>
    requires { (fixes ≤ 65536) × (room.places ≤ 512) }
    ensures { result ≡ check_work fixes room.places room.floats room.words }
{
    let places = room.places;
    if room.floats < 4 * fixes + places * places || room.words < 4 * fixes + 8 * places {
        return Err(Refusal::Work);
    }
    Ok(())
}

// 17: every time mark is 0 or 1.
#[tactic(auto, using(crate::proofs::MarkLoop::marks_fine))]
pub fn check_marks(marks: &[u8]) -> Result<(), Refusal>
    ensures { result ≡ each_of check_mark marks.now }
{
    if marks.iter().all(|&m| m <= 1) {
        return Ok(());
    }
    Err(Refusal::TimeMark)
}
