// What the reports share: the check of the model and of output slices, and where a trace starts.
ghost use Rattle.std.specs.Prelude.{◌≡◌, ◌≤◌, ◌<◌, ◌^◌, length, OnOk, IsFalse};
ghost use Rattle.trace.specs.Trace.{total};
ghost use Rattle.reports.specs.Reports.{check_model};
ghost use Rattle.reports.specs.View.{trace_start};

use settings::refusal::Refusal;

// 20, then 21.
#[tactic(auto, unfolding(crate::specs::Reports::check_model, settings::specs::Checks::in_turn, settings::specs::Checks::first_of, settings::specs::Checks::refuse_if))]
pub fn check_model(fitted: bool, lacking: bool) -> Result<(), Refusal>
    ensures first { result ≡ check_model fitted lacking }
    ensures room { OnOk result (IsFalse lacking) }
{
    if !fitted {
        return Err(Refusal::NotFitted);
    }
    if lacking {
        return Err(Refusal::Output);
    }
    Ok(())
}

// Where a trace starts among the fixes.
// Kept as it is: lengths and the number of a trace are two, here, in `check_view` and in `trace_view`: that there is such a trace is what these find out.
pub fn trace_start(lens: &[u32], trace: usize) -> usize
    requires { (trace ≤ length lens.now) × (total lens.now < 2 ^ 64) }
    ensures { result ≡ trace_start lens.now trace }
{
    lens[..trace].iter().map(|&n| n as usize).sum()
}
