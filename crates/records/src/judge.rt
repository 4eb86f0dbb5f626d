// The checks of records before anything is written: a machine that takes them one by one, and what it says of them at the end, in the rules' order.
ghost use Rattle.std.specs.Prelude.{◌≡◌, ◌≤◌, eqb, length};
ghost use Rattle.std.specs.List.{prefix_len};
ghost use Rattle.trace.specs.Trace.{read_time};
ghost use Rattle.records.specs.StepsJudge.{marked_time, no_times, with_time, times_checked, first_with_fix, begun, opened, passed, ended, next, started, stepped, contents};

use crate::FixRecord;
use settings::refusal::Refusal;

// The times of the open trace so far: whether all are there, none is, and each is at most the next; the time of the last fix.
// Kept as it is: `timed` and `untimed` are two flags, and no enum: before the first fix both hold, and after a mixed start none does.
#[derive(Clone, Copy, Debug, PartialEq)]
pub struct Times {
    pub timed: bool,
    pub untimed: bool,
    pub ordered: bool,
    pub last: Option<f64>,
}

// What the records so far say. marks: each mark is 0 or 1. first: the first refusal of 12 to 15. far: the first of 16. trace: the open
// trace, or the number of traces where none with a fix is left; empty ones are passed over, and counted in its number. left: how many of its fixes are
// still to come.
// Kept as it is: `lens` goes beside a `Judge` through `start`, `open_from`, `next`, `step` and `decide`. It is the caller's, and the same for all records; of a field each step would
// have to promise that it is the same still.
#[derive(Clone, Copy, Debug, PartialEq)]
pub struct Judge {
    pub marks: bool,
    pub first: Result<(), Refusal>,
    pub far: Result<(), Refusal>,
    pub trace: usize,
    pub left: usize,
    pub times: Times,
}

impl FixRecord {
    // The time, where the mark is 1.
    // Kept as it is: beside the iterator over the fixes of a trace, which takes a time from its column only where the mark is 1 (docs/RULES.md, "Time
    // marks"). A record goes by value, with its time.
    fn marked_time(self) -> Option<f64>
        ensures { result ≡ marked_time self }
    {
        (self.mark == 1).then_some(self.time)
    }

    // The time for the column of times, 0.0 where there is none.
    #[tactic(auto, unfolding(trace::specs::Trace::read_time))]
    pub fn read_time(self) -> f64
        ensures { result ≡ read_time self.mark self.time }
    {
        self.marked_time().unwrap_or(0.0)
    }
}

impl Times {
    // Before the first fix.
    #[tactic(auto, unfolding(crate::specs::StepsJudge::no_times))]
    fn none() -> Times
        ensures { result ≡ no_times }
    {
        Times {
            timed: true,
            untimed: true,
            ordered: true,
            last: None,
        }
    }

    // The next fix of the open trace.
    #[tactic(auto, unfolding(crate::specs::StepsJudge::with_time))]
    fn with(self, f: FixRecord) -> Times
        ensures { result ≡ with_time self f }
    {
        let time = f.marked_time();
        Times {
            timed: self.timed && f.mark == 1,
            untimed: self.untimed && f.mark != 1,
            ordered: self.ordered && !checks::fix::above(self.last, time),
            last: time,
        }
    }

    // 14 and 15 of trace k.
    #[tactic(auto, unfolding(crate::specs::StepsJudge::times_checked, settings::proofs::Turns::turns))]
    fn checked(self, k: usize) -> Result<(), Refusal>
        ensures { result ≡ times_checked k self }
    {
        if !self.timed && !self.untimed {
            return Err(Refusal::PartlyTimed(k));
        }
        if !self.ordered {
            return Err(Refusal::TimeOrder(k));
        }
        Ok(())
    }
}

// How many empty traces stand in front.
fn empty_in_front(lens: &[u32]) -> usize
    ensures { result ≡ prefix_len (λ n. eqb n 0) lens.now }
{
    lens.iter().take_while(|&&n| n == 0).count()
}

// The first trace from k on that has a fix; where there is none, the number of traces.
#[tactic(auto, using(crate::proofs::PassedOver::at_most), unfolding(crate::specs::StepsJudge::first_with_fix))]
fn first_with_fix(lens: &[u32], k: usize) -> usize
    requires { k ≤ length lens.now }
    ensures { result ≡ first_with_fix lens.now k }
{
    k + empty_in_front(&lens[k..])
}

impl Judge {
    // Trace k of n fixes is opened.
    #[tactic(auto, unfolding(crate::specs::StepsJudge::begun))]
    fn begin(self, k: usize, n: usize) -> Judge
        ensures { result ≡ begun k n self }
    {
        Judge {
            trace: k,
            left: n,
            times: Times::none(),
            ..self
        }
    }

    // The first trace from k on that has a fix is opened. Where there is none, the machine goes to the end of the list, so that records past the sum of
    // the lengths, which 8 refuses, do not each look through the same empty traces again: all steps together go through the list once.
    #[tactic(auto, unfolding(crate::specs::StepsJudge::opened))]
    fn open_from(self, k: usize, lens: &[u32]) -> Judge
        ensures { result ≡ opened lens.now k self }
    {
        if k >= lens.len() {
            return self;
        }
        let j = first_with_fix(lens, k);
        let n = lens.get(j).map_or(0, |&n| n as usize);
        self.begin(j, n)
    }

    // A fix of the open trace: 12, 13, and 16 apart.
    #[tactic(auto, using(settings::proofs::Turns::first_is, crate::proofs::OpenTrace::given_marked), unfolding(crate::specs::StepsJudge::passed))]
    fn pass(self, f: FixRecord) -> Judge
        ensures { result ≡ passed f self }
    {
        let k = self.trace;
        Judge {
            marks: self.marks && f.mark <= 1,
            first: self
                .first
                .and(checks::fix::check_fix(k, f.at, f.marked_time())),
            far: self.far.and(checks::fix::check_fix_size(k, f.at)),
            left: self.left.saturating_sub(1),
            times: self.times.with(f),
            ..self
        }
    }

    // The open trace is at its end: 14, 15.
    #[tactic(auto, using(settings::proofs::Turns::first_is), unfolding(crate::specs::StepsJudge::ended))]
    fn end(self) -> Judge
        ensures { result ≡ ended self }
    {
        Judge {
            first: self.first.and(self.times.checked(self.trace)),
            ..self
        }
    }

    // The trace after the open one that has a fix.
    #[tactic(auto, unfolding(crate::specs::StepsJudge::next, crate::specs::StepsJudge::opened))]
    fn next(self, lens: &[u32]) -> Judge
        ensures { result ≡ next lens.now self }
    {
        self.open_from(self.trace.saturating_add(1), lens)
    }

    // Before the first record.
    #[tactic(auto, unfolding(crate::specs::StepsJudge::started, crate::specs::StepsJudge::blank))]
    pub fn start(lens: &[u32]) -> Judge
        ensures { result ≡ started lens.now }
    {
        let blank = Judge {
            marks: true,
            first: Ok(()),
            far: Ok(()),
            trace: 0,
            left: 0,
            times: Times::none(),
        };
        blank.open_from(0, lens)
    }

    // One record.
    #[tactic(auto, unfolding(crate::specs::StepsJudge::stepped))]
    pub fn step(self, f: FixRecord, lens: &[u32]) -> Judge
        ensures { result ≡ stepped lens.now self f }
    {
        let t = self.pass(f);
        if t.left == 0 {
            return t.end().next(lens);
        }
        t
    }

    // 17, then 12 to 15, then 16.
    #[tactic(auto, unfolding(crate::specs::StepsJudge::contents, settings::proofs::Turns::turns))]
    pub fn contents(self) -> Result<(), Refusal>
        ensures { result ≡ contents self }
    {
        if !self.marks {
            return Err(Refusal::TimeMark);
        }
        self.first?;
        self.far
    }
}
