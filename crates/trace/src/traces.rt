// The traces of tracks, one after the other.
ghost use Rattle.std.specs.Prelude.{◌+◌, ◌≤◌, length};
ghost use Rattle.trace.specs.Trace.{total};

use crate::Trace;
use crate::agreed::Agreed;

// Those that are still to come: they have the lengths `lens`, and the first of them begins at `at` in the columns.
#[derive(Debug, Drop)]
pub struct Traces<'a> {
    pub(crate) of: Agreed<'a>,
    pub(crate) lens: &'a [u32],
    pub(crate) at: usize,
    ghost sum: { at + total lens.now ≤ length of.tracks.xs.now },
}

// Each with the place of its first fix among all fixes.
impl<'a> Iterator for Traces<'a> {
    ghost use Rattle.std.specs.Iterator.{YieldsFirstBy, item_count};
    ghost use Rattle.trace.specs.Given.{fixes_of};
    ghost use Rattle.trace.specs.StepsTraces.{left};

    type Item = (usize, Trace<'a>);

    ghost next_gives = { YieldsFirstBy (λ item. (item.0, fixes_of item.1)) left };

    ghost remaining = { item_count left };

    #[tactic(auto, using(crate::proofs::Placed::placed_next, crate::proofs::Placed::placed_none), unfolding(crate::specs::Trace::total))]
    fn next(&mut self) -> Option<(usize, Trace<'a>)> {
        let (&len, lens) = self.lens.split_first()?;
        let at = self.at;
        let n = len as usize;
        let trace = self.of.part(at, n);
        *self = Traces {
            of: self.of,
            lens,
            at: at + n,
        };
        Some((at, trace))
    }
}
