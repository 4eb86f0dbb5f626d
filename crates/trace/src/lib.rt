// Tracks and traces as columns in the caller's slices. What a fix and a trace are is in specs/Trace.antt.
#![tactic(auto)]

pub mod agreed;
pub mod columns;
pub mod traces;

ghost use Rattle.std.specs.Prelude.{◌≡◌, length};
ghost use Rattle.trace.specs.Steps.{all_marked};

use distance::{Point, Points};

// The fixes of one trace: x, y, a time and a time mark of each, in a column of each kind.
// Kept as it is: columns, here and in `Tracks`, and no slice of a struct: the rules' slices hold numbers (docs/DECISIONS.md, "Forms").
#[derive(Clone, Copy, Debug, PartialEq)]
pub struct Trace<'a> {
    pub xs: &'a [f64],
    pub ys: &'a [f64],
    pub times: &'a [f64],
    pub marks: &'a [u8],
    pub ghost ys_length: { length ys.now ≡ length xs.now },
    pub ghost times_length: { length times.now ≡ length xs.now },
    pub ghost marks_length: { length marks.now ≡ length xs.now },
}

// The fixes of all traces one after the other, likewise, and how many of them each trace has.
// Kept as it is: whoever has the columns of a trace, or more fixes than the tracks, writes out the five fields. A method that makes tracks of a trace and
// lengths would need five clauses, as `ensures xs { result.xs.now ≡ self.entry.xs.now }`, which a literal says by itself. The tracks of a text's arrays
// (`reply`) need one, over the columns that the text is laid into.
#[derive(Clone, Copy, Debug, PartialEq)]
pub struct Tracks<'a> {
    pub xs: &'a [f64],
    pub ys: &'a [f64],
    pub times: &'a [f64],
    pub marks: &'a [u8],
    pub lens: &'a [u32],
}

impl<'a> Trace<'a> {
    ghost use Rattle.distance.specs.Distance.{points};
    ghost use Rattle.distance.specs.Steps.{points_of};
    ghost use Rattle.trace.specs.Given.{fixes_of};
    ghost use Rattle.trace.specs.StepsFixes.{to_come};

    // The points of its fixes.
    pub fn points(self) -> Points<'a>
        ensures { points_of result ≡ points self.entry.xs.now self.entry.ys.now }
    {
        Points {
            xs: self.xs,
            ys: self.ys,
        }
    }

    // Its fixes, one by one.
    pub fn fixes(self) -> FixIter<'a>
        ensures { to_come result ≡ fixes_of self.entry }
    {
        FixIter { rest: self }
    }
}

// The fixes that an iterator over them has still to give.
#[derive(Debug, Drop)]
pub struct FixIter<'a> {
    rest: Trace<'a>,
}

// Each with its time, where its mark is 1. The value beside another mark is not read (docs/RULES.md, "Time marks").
impl<'a> Iterator for FixIter<'a> {
    ghost use Rattle.std.specs.Iterator.{YieldsFirstBy, item_count};
    ghost use Rattle.trace.specs.StepsFixes.{fix_of, to_come};

    type Item = (Point, Option<f64>);

    ghost next_gives = { YieldsFirstBy fix_of to_come };

    ghost remaining = { item_count to_come };

    #[tactic(auto, using(crate::proofs::Coming::fixes_next, crate::proofs::Coming::fixes_none), unfolding(crate::specs::Trace::time_of, crate::specs::StepsFixes::given))]
    fn next(&mut self) -> Option<(Point, Option<f64>)> {
        let (&x, xs) = self.rest.xs.split_first()?;
        let (&y, ys) = self.rest.ys.split_first()?;
        let (time, times) = self.rest.times.split_first()?;
        let (&mark, marks) = self.rest.marks.split_first()?;
        self.rest = Trace {
            xs,
            ys,
            times,
            marks,
        };
        Some((Point { x, y }, (mark == 1).then(|| *time)))
    }
}

// Whether all marks are 1.
#[tactic(auto, unfolding(crate::specs::Steps::all_marked))]
pub fn all_marked(marks: &[u8]) -> bool
    ensures { result ≡ all_marked marks.now }
{
    marks.iter().all(|&m| m == 1)
}
