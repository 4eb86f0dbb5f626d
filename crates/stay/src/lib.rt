// Ordered insertion, the median, and the stays of one trace.
#![tactic(auto)]

pub mod all;

ghost use Rattle.std.specs.Prelude.{◌≡◌, true, ◌++◌, ◌+◌, ◌<◌, ◌≤◌, length, take, drop, is_some, IfSome};
ghost use Rattle.distance.specs.Distance.{euclidean};
ghost use Rattle.stay.specs.StepsOrdered.{in_order};
ghost use Rattle.stay.specs.Ordered.{insertion_point, insert_ordered, median};
ghost use Rattle.stay.specs.StepsRegions.{shifted, insert_both, middle_in, CanInsert};
ghost use Rattle.trace.specs.Given.{fixes_of};
ghost use Rattle.stay.specs.Steps.{times_in, elapsed, join_test, stay_test, state_of, kept, closed, step, Room, Ready};
ghost use Rattle.stay.specs.StepsFound.{Lengths, Found};

use distance::Point;
use settings::config::Config;
use trace::Trace;

// The open group: where it starts, and how many stays are before it.
#[derive(Clone, Copy, Debug, PartialEq, Eq)]
pub struct Open {
    pub start: usize,
    pub stays: usize,
}

// By what fixes join a group and groups are stays: the settings, and the times of a trace where all are marked. Those of another are not looked at.
#[derive(Clone, Copy, Debug, PartialEq)]
struct Rule<'a> {
    settings: Config,
    times: Option<&'a [f64]>,
}

// The place past the elements that are at most elem, by halving.
fn insertion_point(s: &[f64], elem: f64) -> usize
    requires { in_order s.now ≡ true }
    ensures { result ≡ insertion_point elem s.now }
{
    s.partition_point(|&x| x <= elem || elem.is_nan())
}

// elem at the place `at`, and what stood from there on up by one: the last falls off.
#[tactic(auto, using(crate::proofs::Shift::shift_is))]
fn shift_in(s: &mut [f64], at: usize, elem: f64)
    requires { at < length s.old }
    ensures { s.new ≡ shifted at elem s.old }
{
    s.copy_within(at..s.len() - 1, at + 1);
    s[at] = elem;
}

// elem into the first len elements, which are in order, behind its equals.
// Kept as it is: slices with the length of their front beside them, here, in `insert_both` and in `middle`. There is no heap for a list that grows.
#[tactic(auto, using(crate::proofs::Shift::inserted, crate::proofs::Shift::place_in))]
pub fn insert_ordered(arr: &mut [f64], len: usize, elem: f64)
    requires len_in_bounds { len < length arr.old }
    requires arr_value { in_order (take len arr.old) ≡ true }
    ensures { arr.new ≡ insert_ordered elem (take len arr.old) ++ drop (len + 1) arr.old }
{
    let p = insertion_point(&arr[..len], elem);
    shift_in(&mut arr[..len + 1], p, elem);
}

// The median of elements in order; NaN of none.
#[tactic(auto, using(crate::proofs::Ordered::median_none), unfolding(crate::specs::Ordered::median))]
pub fn median(s: &[f64]) -> f64
    ensures { result ≡ median s.now }
{
    let n = s.len();
    if n == 0 {
        return f64::NAN;
    }
    0.5 * (s[(n - 1) / 2] + s[n / 2])
}

// p into the first len elements of the first two parts of the work slice, which are of length q.
#[tactic(auto, using(crate::proofs::Regions::second_kept, lists::proofs::Parts::part_length), unfolding(crate::specs::StepsRegions::insert_both, crate::specs::StepsRegions::insert_in, lists::specs::StepsParts::put))]
fn insert_both(work: &mut [f64], q: usize, len: usize, p: Point)
    requires { CanInsert q len work.old }
    ensures { work.new ≡ insert_both q len p.x p.y work.old }
{
    insert_ordered(&mut work[..q], len, p.x);
    insert_ordered(&mut work[q..q + q], len, p.y);
}

// The median of the first len elements of these parts.
#[tactic(auto, unfolding(crate::specs::StepsRegions::middle_in))]
fn middle(work: &[f64], q: usize, len: usize) -> Point
    requires { (len ≤ q) × (q + q ≤ length work.now) }
    ensures { result ≡ middle_in q len work.now }
{
    Point {
        x: median(&work[..len]),
        y: median(&work[q..q + len]),
    }
}

impl Rule<'_> {
    // The time at b less that at a, where the trace is timed.
    #[tactic(auto, unfolding(crate::specs::Steps::elapsed, crate::specs::Steps::times_in))]
    fn elapsed(self, a: usize, b: usize) -> f64
        requires { IfSome self.times (λ ts. (a < length ts.now) × (b < length ts.now)) }
        ensures { result ≡ elapsed (is_some self.entry.times) (times_in self.entry.times) a b }
    {
        match self.times {
            Some(ts) => ts[b] - ts[a],
            None => 0.0,
        }
    }

    // Whether a fix at distance d, a time of gap after the last, joins.
    #[tactic(auto, unfolding(crate::specs::Steps::join_test))]
    fn joins(self, d: f64, gap: f64) -> bool
        ensures { result ≡ join_test (is_some self.entry.times) self.entry.settings d gap }
    {
        let s = self.settings;
        d <= s.r1 && (self.times.is_none() || gap <= s.max_time_between)
    }

    // Whether a closed group of n fixes over a time of span is a stay.
    #[tactic(auto, unfolding(crate::specs::Steps::stay_test))]
    fn is_stay(self, n: usize, span: f64) -> bool
        ensures { result ≡ stay_test (is_some self.entry.times) self.entry.settings n span }
    {
        let s = self.settings;
        s.min_size <= n && (self.times.is_none() || s.min_staying_time <= span)
    }
}

// Kept as it is: `work`, `events` and `q` go one by one. In a struct whose ghost fields say that the slices have room for `q` (tried, with the first arm
// of `keep` as its method, which proves), each method that writes (`insert_both`, `keep`, `close`, `next`) would also have to promise that both slices
// are the same ones and that `q` is the same, which the check knows of what is handed over by itself; the loop in `stays` would carry these three facts.
// Kept as it is: in `events` -1 for no stay, and no Option. The stay numbers stand in the caller's work slice of numbers of 32 bits (docs/RULES.md, "Work
// slices"), since the memory is fixed, and -1 is none there.
// The group o closed before fix i, as a stay where its median is handed over.
#[tactic(auto, using(crate::proofs::States::kept_stay, crate::proofs::States::kept_none), unfolding(crate::specs::Steps::kept))]
fn keep(
    work: &mut [f64],
    events: &mut [i32],
    q: usize,
    i: usize,
    o: Open,
    stay: Option<Point>,
) -> Open
    requires { Room q i o (length work.old) (length events.old) }
    ensures { state_of q i work.new events.new result ≡ kept stay i (state_of q i work.old events.old o) }
{
    let Some(m) = stay else {
        events[o.start..i].fill(-1);
        return Open { start: i, ..o };
    };
    events[o.start..i].fill(o.stays as i32);
    work[2 * q + o.stays] = m.x;
    work[3 * q + o.stays] = m.y;
    Open {
        start: i,
        stays: o.stays + 1,
    }
}

// The open group closed before fix i, as a stay with its median on the grid or as none.
// With a hint on inlining: a call copies the settings for each group that closes, and groups of two take 120 instructions a fix by it, and 93 without.
#[tactic(auto, using(crate::proofs::States::kept_where), unfolding(crate::specs::Steps::closed, crate::specs::Steps::state_of, crate::specs::Steps::mid_of, crate::specs::StepsRegions::middle_in))]
#[inline(always)]
fn close(rule: Rule, work: &mut [f64], events: &mut [i32], q: usize, i: usize, o: Open) -> Open
    requires { IfSome rule.times (λ ts. i ≤ length ts.now) × Room q i o (length work.old) (length events.old) }
    ensures { state_of q i work.new events.new result ≡ closed rule.entry.settings (is_some rule.entry.times) (times_in rule.entry.times) i (state_of q i work.old events.old o) }
{
    let len = i - o.start;
    let span = rule.elapsed(o.start, i - 1);
    let m = distance::grid::point_on_grid(
        middle(work, q, len),
        rule.settings.min_spatial_resolution,
    );
    keep(work, events, q, i, o, rule.is_stay(len, span).then_some(m))
}

// One fix: it joins the open group, or closes it and opens the next.
#[tactic(auto, using(crate::proofs::States::grown_state, crate::proofs::States::step_joins, crate::proofs::States::test_is), unfolding(crate::specs::StepsOrdered::in_order))]
fn next(
    p: Point,
    rule: Rule,
    work: &mut [f64],
    events: &mut [i32],
    q: usize,
    i: usize,
    o: Open,
) -> Open
    requires { IfSome rule.times (λ ts. i < length ts.now) × Ready q i o work.old (length events.old) }
    ensures { state_of q (i + 1) work.new events.new result ≡ step euclidean rule.entry.settings (is_some rule.entry.times) (times_in rule.entry.times) p i (state_of q i work.old events.old o) }
{
    let len = i - o.start;
    let m = middle(work, q, len);
    let d = distance::distance(p, m);
    let gap = rule.elapsed(i - 1, i);
    if rule.joins(d, gap) {
        insert_both(work, q, len, p);
        return o;
    }
    let n = close(rule, work, events, q, i, o);
    insert_both(work, q, 0, p);
    n
}

// The stays of one trace: `found` is how many the traces before it have. It hands back how many there are, writes for each fix the number of
// the accepted stay it lies in, or -1, and the stays' medians behind those of the traces before it.
// Kept as it is: the fixes by their index, since the first opens a group before the loop, and `next` takes the number of each fix: an iterator would have to
// skip the first and count the others from 1.
#[tactic(auto, using(distance::proofs::Columns::length_points), unfolding(crate::specs::StepsOrdered::in_order))]
pub fn stays(t: Trace, s: Config, work: &mut [f64], found: usize, events: &mut [i32]) -> usize
    requires { Lengths (length t.xs.now) (length events.old) (length work.old) found }
    ensures { Found s (fixes_of t.entry) found work.old work.new events.new result }
{
    let n = t.xs.len();
    if n == 0 {
        return 0;
    }
    let q = work.len() / 4;
    let rule = Rule {
        settings: s,
        times: trace::all_marked(t.marks).then_some(t.times),
    };
    let points = t.points();
    insert_both(work, q, 0, points.at(0));
    let mut o = Open {
        start: 0,
        stays: found,
    };
    for i in 1..n {
        o = next(points.at(i), rule, work, events, q, i, o);
    }
    let last = close(rule, work, events, q, n, o);
    last.stays - found
}
