// The stays of all traces, and where their medians stand.
ghost use Rattle.std.specs.Prelude.{◌≡◌, ◌*◌, ◌≤◌, length};
ghost use Rattle.distance.specs.Steps.{points_of};
ghost use Rattle.trace.specs.Given.{traces_of};
ghost use Rattle.stay.specs.StepsAll.{AllRoom, AllFound, medians_in};

use distance::Points;
use settings::config::Config;
use trace::agreed::Agreed;

// The stays of all traces: how many there are; in `events` the number of each fix's stay; in the last two quarters of `work` the medians.
pub fn all_stays(t: Agreed, s: Config, work: &mut [f64], events: &mut [i32]) -> usize
    requires { AllRoom (length t.tracks.xs.now) (length events.old) (length work.old) }
    ensures { AllFound s (traces_of t.entry.tracks) (length t.entry.tracks.xs.now) work.new events.new result }
{
    let mut found = 0;
    for (at, trace) in t.traces() {
        let end = at + trace.xs.len();
        found += crate::stays(trace, s, work, found, &mut events[at..end]);
    }
    found
}

// The medians of k stays: the first k of the third and of the fourth n of a work slice for n fixes.
#[tactic(auto, using(distance::proofs::Columns::length_points))]
pub fn medians(work: &[f64], n: usize, k: usize) -> Points<'_>
    requires { (n ≤ 65536) × (k ≤ n) × (4 * n ≤ length work.now) }
    ensures { (points_of result ≡ medians_in n k work.now) × (length (points_of result) ≡ k) }
{
    let (x, y) = (2 * n, 3 * n);
    Points {
        xs: &work[x..x + k],
        ys: &work[y..y + k],
    }
}
