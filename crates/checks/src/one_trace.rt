// The checks of one trace, of number k: 12 to 16. An empty trace has none of them.
ghost use Rattle.std.specs.Prelude.{◌≡◌, not, ◌&&◌, ◌==◌, ◌<◌, Float, Option};
ghost use Rattle.std.specs.List.{list_any};
ghost use Rattle.distance.specs.declared.Point.{Point};
ghost use Rattle.trace.specs.Trace.{Fix};
ghost use Rattle.trace.specs.Given.{fixes_of};
ghost use Rattle.trace.specs.Steps.{all_marked};
ghost use Rattle.settings.specs.Checks.{Checked, each_of};
ghost use Rattle.checks.specs.Traces.{in_time_order, check_trace, check_times, check_size};
ghost use Rattle.trace.specs.StepsFixes.{fix_of};

use distance::Point;
use settings::refusal::Refusal;
use trace::Trace;

// A check of each fix, in order, up to the first that is refused.
#[tactic(auto, using(crate::proofs::Columns::fix_end))]
fn each_fix<F: Fn(Point, Option<f64>) -> Result<(), Refusal>>(
    t: Trace,
    check: F,
) -> Result<(), Refusal>
    requires { F.IsAlwaysCallable check }
    ensures { (h : Fix → Checked) → ((p : Point) (time : Option Float) (r : Checked) → F.post check p time r → r ≡ h (fix_of (p, time))) → result ≡ each_of h (fixes_of t.entry) }
{
    for (p, time) in t.fixes() {
        check(p, time)?;
    }
    Ok(())
}

// Whether some marks are 1, and some not.
fn partly_marked(marks: &[u8]) -> bool
    ensures { result ≡ not (all_marked marks.now) && list_any (λ m. m == 1) marks.now }
{
    !trace::all_marked(marks) && marks.contains(&1)
}

// Whether no time is above the next.
#[tactic(auto, using(crate::proofs::Columns::order_start, crate::proofs::Columns::order_next, crate::proofs::Columns::order_end), unfolding(trace::specs::StepsFixes::given))]
fn in_time_order(t: Trace) -> bool
    ensures { result ≡ in_time_order (fixes_of t.entry) }
{
    let mut last = None;
    for (_, time) in t.fixes() {
        if crate::fix::above(last, time) {
            return false;
        }
        last = time;
    }
    true
}

// 14 and 15.
// Kept as it is: a trace and its number are two, here, in `check_trace` and in `check_size`: nothing holds of the one by the other.
#[tactic(auto, using(crate::proofs::Columns::partly_columns), unfolding(crate::specs::Traces::check_times, settings::proofs::Turns::turns))]
fn check_times(k: usize, t: Trace) -> Result<(), Refusal>
    ensures { result ≡ check_times k (fixes_of t.entry) }
{
    if partly_marked(t.marks) {
        return Err(Refusal::PartlyTimed(k));
    }
    if !in_time_order(t) {
        return Err(Refusal::TimeOrder(k));
    }
    Ok(())
}

// 12 to 15.
#[tactic(auto, unfolding(crate::specs::Traces::check_trace, settings::proofs::Turns::turns))]
pub fn check_trace(k: usize, t: Trace) -> Result<(), Refusal>
    ensures { result ≡ check_trace k (fixes_of t.entry) }
{
    each_fix(t, |p, time| crate::fix::check_fix(k, p, time))?;
    check_times(k, t)
}

// 16.
#[tactic(auto, unfolding(crate::specs::Traces::check_size))]
pub fn check_size(k: usize, t: Trace) -> Result<(), Refusal>
    ensures { result ≡ check_size k (fixes_of t.entry) }
{
    each_fix(t, |p, _| crate::fix::check_fix_size(k, p))
}
