// The trace view: the labels of one trace, handed back as that part of the caller's label slice.
ghost use Rattle.std.specs.Prelude.{◌≡◌};
ghost use Rattle.reports.specs.View.{check_view, refusal_number, Viewed};

use crate::shared::trace_start;
use settings::refusal::Refusal;

// The part of the label slice that is a trace's, and what the check of the trace says: where it refuses, the part is empty.
// Kept as it is: a Result would have no part on a refusal, and the rules want an empty one, whose place is promised.
#[derive(Clone, Copy, Debug, PartialEq, Eq)]
pub struct View<'a> {
    pub labels: &'a [i32],
    pub checked: Result<(), Refusal>,
}

impl View<'_> {
    // The number of the refusal, 0 where there is none.
    // Kept as it is: a number is asked for here, as a list of cases prints it. Who wants the cause or that there is none has `checked`, and an `Option<u32>`
    // would be that once more, with each cause as its number.
    pub fn refusal_number(&self) -> u32
        ensures { result ≡ refusal_number self.now.checked }
    {
        match self.checked {
            Ok(()) => 0,
            Err(e) => settings::refusal::number(e),
        }
    }
}

// 7, 8, then 21. `labels` is the length of the label slice.
#[tactic(auto, unfolding(crate::specs::View::check_view, settings::specs::Checks::in_turn, settings::specs::Checks::first_of, settings::specs::Checks::refuse_if))]
pub fn check_view(lens: &[u32], labels: usize, trace: usize) -> Result<(), Refusal>
    ensures { result ≡ check_view lens.now labels trace }
{
    checks::check_label_lengths(lens, labels)?;
    if lens.len() <= trace {
        return Err(Refusal::Output);
    }
    Ok(())
}

// The labels of a trace.
#[tactic(auto, using(crate::proofs::ViewParts::inside, crate::proofs::ViewParts::view_refused))]
pub fn trace_view<'a>(lens: &[u32], labels: &'a [i32], trace: usize) -> View<'a>
    ensures { Viewed lens.now trace labels.entry result.labels result.checked }
{
    match check_view(lens, labels.len(), trace) {
        Ok(()) => {
            let from = trace_start(lens, trace);
            View {
                labels: &labels[from..from + lens[trace] as usize],
                checked: Ok(()),
            }
        }
        Err(e) => View {
            labels: &labels[..0],
            checked: Err(e),
        },
    }
}
