// The checks of what tracks hold that have passed 8 and 9: 17, then 12 to 16.
ghost use Rattle.std.specs.Prelude.{◌≡◌, ◌≤◌, ℕ, List, length};
ghost use Rattle.trace.specs.Trace.{Fix};
ghost use Rattle.trace.specs.declared.Trace.{Trace};
ghost use Rattle.trace.specs.Given.{fixes_of, traces_of};
ghost use Rattle.settings.specs.Checks.{Checked, each_from};
ghost use Rattle.checks.specs.Traces.{check_trace, check_size};
ghost use Rattle.checks.specs.Tracks.{check_contents};

use settings::refusal::Refusal;
use trace::Trace;
use trace::agreed::Agreed;

// A check of each trace, in order, up to the first that is refused.
#[tactic(auto, using(crate::proofs::TraceLoops::trace_first, crate::proofs::TraceLoops::trace_end))]
fn each_trace<'a, F: Fn(usize, Trace<'a>) -> Result<(), Refusal>>(
    t: Agreed<'a>,
    check: F,
) -> Result<(), Refusal>
    requires callable { F.IsAlwaysCallable check }
    requires few { length t.tracks.lens.now ≤ 256 }
    ensures { (h : ℕ → List Fix → Checked) → ((k : ℕ) (t : Trace) (r : Checked) → F.post check k t r → r ≡ h k (fixes_of t)) → result ≡ each_from h 0 (traces_of t.entry.tracks) }
{
    for (k, (_, trace)) in t.traces().enumerate() {
        check(k, trace)?;
    }
    Ok(())
}

// 17, then 12 to 15 trace by trace, then 16 with the first trace that has it.
#[tactic(auto, unfolding(crate::specs::Tracks::check_contents, settings::proofs::Turns::turns))]
pub fn check_contents(t: Agreed) -> Result<(), Refusal>
    requires { length t.tracks.lens.now ≤ 256 }
    ensures { result ≡ check_contents t.entry.tracks.xs.now t.entry.tracks.ys.now t.entry.tracks.times.now t.entry.tracks.marks.now t.entry.tracks.lens.now }
{
    crate::slices::check_marks(t.tracks.marks)?;
    each_trace(t, crate::one_trace::check_trace)?;
    each_trace(t, crate::one_trace::check_size)
}
