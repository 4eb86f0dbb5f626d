// The checks of one fix: 12, 13, 16, and the order of two times. A time is there where its mark is 1.
ghost use Rattle.std.specs.Prelude.{◌≡◌, Float};
ghost use Rattle.std.proofs.Math.Option.{Option as MathOption};
ghost use Rattle.trace.specs.StepsFixes.{given};
ghost use Rattle.checks.specs.Traces.{above, check_fix, check_fix_size};

use distance::Point;
use settings::refusal::Refusal;

// 12 and 13 of a fix of trace k.
#[tactic(auto, unfolding(crate::specs::Traces::check_fix, crate::specs::Traces::finite_point, crate::specs::Traces::finite_time, trace::specs::StepsFixes::given, settings::proofs::Turns::turns))]
pub fn check_fix(k: usize, p: Point, time: Option<f64>) -> Result<(), Refusal>
    ensures { result ≡ check_fix k record { at = p; time = given time } }
{
    if !(float::is_finite(p.x) && float::is_finite(p.y)) {
        return Err(Refusal::Coordinate(k));
    }
    match time {
        Some(t) if !float::is_finite(t) => Err(Refusal::Timestamp(k)),
        _ => Ok(()),
    }
}

// 16 of a fix of trace k, whatever its time.
#[tactic(auto, unfolding(crate::specs::Traces::check_fix_size, settings::proofs::Turns::turns))]
pub fn check_fix_size(k: usize, p: Point) -> Result<(), Refusal>
    ensures { (t : MathOption Float) → result ≡ check_fix_size k record { at = p; time = t } }
{
    if !distance::in_limit(p) {
        return Err(Refusal::CoordinateSize(k));
    }
    Ok(())
}

// Whether two times are there and the first is above the second.
#[tactic(auto, unfolding(crate::specs::Traces::above, trace::specs::StepsFixes::given))]
pub fn above(time: Option<f64>, next: Option<f64>) -> bool
    ensures { result ≡ above (given time) (given next) }
{
    match (time, next) {
        (Some(a), Some(b)) => b < a,
        _ => false,
    }
}
