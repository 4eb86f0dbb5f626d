// The checks of tracks that come before a fit (docs/RULES.md, "When no labels are given"), in its order: 7, 8, 9, 10, 17; then trace by trace
// 12 to 15; after all traces 16. A trace's number counts the empty ones.
#![tactic(auto)]

mod contents;
pub mod fix;
mod one_trace;
pub mod slices;

ghost use Rattle.std.specs.Prelude.{◌≡◌, ◌≤◌};
ghost use Rattle.checks.specs.Steps.{check_columns};
ghost use Rattle.checks.specs.Tracks.{check_label_lengths, check_tracks, check_report_tracks};

use settings::refusal::Refusal;
use trace::Tracks;
use trace::agreed::Agreed;

// The room that a call is lent: the length of the label slice, the number of places, and the lengths of the work slices.
// Kept as it is: the fit, the fit of records and the check for a report, which has no label slice and no places, each write out which number is which. A
// function of the slices would serve the first two, and be told the same by place.
#[derive(Clone, Copy, Debug, PartialEq, Eq)]
pub struct Room {
    pub labels: usize,
    pub places: usize,
    pub floats: usize,
    pub words: usize,
}

// All checks of tracks in order. 9 takes `counted` for the number of places, 10 that of the room.
#[tactic(auto, using(crate::proofs::Lengths::lengths_agree, crate::proofs::Lengths::counts_few), unfolding(crate::specs::Steps::check_columns, settings::proofs::Turns::turns))]
fn check_columns(t: Tracks, room: Room, counted: usize) -> Result<(), Refusal>
    requires { room.places ≤ counted }
    ensures { result ≡ check_columns t.entry.xs.now t.entry.ys.now t.entry.times.now t.entry.marks.now t.entry.lens.now room.labels counted room.places room.floats room.words }
{
    let n = t.xs.len();
    crate::slices::check_lengths(
        t.lens,
        n,
        t.ys.len(),
        t.times.len(),
        t.marks.len(),
        room.labels,
    )?;
    crate::slices::check_counts(t.lens.len(), n, counted)?;
    crate::slices::check_work(n, room)?;
    crate::contents::check_contents(Agreed { tracks: t })
}

// All checks of tracks for a fit.
#[tactic(auto, unfolding(crate::specs::Tracks::check_tracks, crate::specs::Steps::check_columns))]
pub fn check_tracks(t: Tracks, room: Room) -> Result<(), Refusal>
    ensures { result ≡ check_tracks t.entry.xs.now t.entry.ys.now t.entry.times.now t.entry.marks.now t.entry.lens.now room.labels room.places room.floats room.words }
{
    check_columns(t, room, room.places)
}

// All checks of tracks for a report, which has neither a label slice nor `places`.
#[tactic(auto, unfolding(crate::specs::Tracks::check_report_tracks, crate::specs::Steps::check_columns))]
pub fn check_report_tracks(t: Tracks, floats: usize, words: usize) -> Result<(), Refusal>
    ensures { result ≡ check_report_tracks t.entry.xs.now t.entry.ys.now t.entry.times.now t.entry.marks.now t.entry.lens.now floats words }
{
    let room = Room {
        labels: t.xs.len(),
        places: 0,
        floats,
        words,
    };
    check_columns(t, room, 1)
}

// The checks of trace lengths and a label slice alone: 7 and 8.
pub fn check_label_lengths(lens: &[u32], labels: usize) -> Result<(), Refusal>
    ensures { result ≡ check_label_lengths lens.now labels }
{
    crate::slices::check_lengths(lens, labels, labels, labels, labels, labels)
}
