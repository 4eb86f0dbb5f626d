// Tracks whose lengths agree, and their traces.
ghost use Rattle.std.specs.Prelude.{◌≡◌, ◌+◌, ◌≤◌, length, take, drop};
ghost use Rattle.trace.specs.Trace.{total};

use crate::traces::Traces;
use crate::{Trace, Tracks};

// The columns have one length, which the trace lengths sum up to.
#[derive(Clone, Copy, Debug, PartialEq)]
pub struct Agreed<'a> {
    pub tracks: Tracks<'a>,
    pub ghost ys_length: { length tracks.ys.now ≡ length tracks.xs.now },
    pub ghost times_length: { length tracks.times.now ≡ length tracks.xs.now },
    pub ghost marks_length: { length tracks.marks.now ≡ length tracks.xs.now },
    pub ghost sum: { total tracks.lens.now ≡ length tracks.xs.now },
}

impl<'a> Agreed<'a> {
    ghost use Rattle.trace.specs.Given.{fixes_of, fixes_in};
    ghost use Rattle.trace.specs.StepsTraces.{placed, left};

    // The n fixes from `at`.
    #[tactic(auto, using(crate::proofs::Parts::fixes_lent))]
    pub fn part(self, at: usize, n: usize) -> Trace<'a>
        requires { at + n ≤ length self.tracks.xs.now }
        ensures fixes { fixes_of result ≡ take n (drop at (fixes_in self.entry.tracks)) }
        ensures count { length result.xs.now ≡ n }
    {
        let t = self.tracks;
        let end = at + n;
        Trace {
            xs: &t.xs[at..end],
            ys: &t.ys[at..end],
            times: &t.times[at..end],
            marks: &t.marks[at..end],
        }
    }

    // Its traces, in order.
    pub fn traces(self) -> Traces<'a>
        ensures { left result ≡ placed 0 self.entry.tracks.lens.now (fixes_in self.entry.tracks) }
    {
        Traces {
            of: self,
            lens: self.tracks.lens,
            at: 0,
        }
    }
}
