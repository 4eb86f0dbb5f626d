// Runs a list of reports whose answers are written by hand from docs/RULES.md. A case: settings `r1 r2 single stay gap size resolution seed`; the trace asked for; the
// length of the output slices, at most 8; which slice is lent one item short (0 none, 1 to 4 xs, ys, times and marks, 5 all four, 6 and 7 the work of
// floats and of words, 8 the second output slice, 9 the labels of the trace view); the number of traces, how many of them are fitted, and how many fixes
// these have; the lengths of the traces; for each fix `x y mark time`, floats as their bits. There is room for 257 traces and 257 fixes. A new model is
// fitted to the first traces, and the reports are given all. Prints five lines for each case: visits, stationary points, stationary labels, label
// medians, and the trace view of the labels 0, 1, 2 and so on. A line is the number and trace of the refusal, or `0 0` and the number of items; then
// the output arrays of 8 items, of which a part is lent, and which hold 7, or a float of bits 7, before; after the visits 1 where the work slices are as they were, else 0, and
// 2 where they are free. The view is the number of the refusal, and the part.
// Kept as it is: arrays of fixed size, of which a part is lent, since the project's memory is fixed and it takes no heap.
#![tactic(auto)]

ghost use Rattle.std.specs.Prelude.{◌≤◌, length};

use crate::read::Slice;
use infostop::model::Infostop;
use replay::{Numbers, STDOUT_FILENO};
use replay_case::lens::Lens;
use settings::config::Config;
use settings::refusal::Refusal;
use trace::{Trace, Tracks};

mod read;

// What the reports are asked: the trace, the length of the output slices, for which there is room, and which slice is short.
#[derive(Clone, Copy, Debug, PartialEq, Eq)]
struct Asked {
    trace: usize,
    room: usize,
    short: Option<Slice>,
    ghost few: { room ≤ 8 },
}

// A case: the fixes and the lengths of its traces, and how many fixes and traces are fitted.
#[derive(Clone, Copy, Debug, PartialEq)]
struct Case<'a, 'b> {
    asked: Asked,
    fixes: Trace<'a>,
    lens: &'b [u32],
    until: usize,
    fitted: usize,
    ghost few: { length fixes.xs.now ≤ 257 },
    ghost fixes_fitted: { until ≤ length fixes.xs.now },
    ghost traces_fitted: { fitted ≤ length lens.now },
}

// Prints the refusal, or `0 0` and the number of items.
fn print_reported(reported: Result<usize, Refusal>) {
    replay_case::print_answer(&reported);
    if let Ok(n) = reported {
        replay::space();
        replay::print_number(n as u64);
    }
}

// The length of slice `which`, of n items: one less where it is the short one.
fn lent(n: usize, which: Slice, short: Option<Slice>) -> usize
    ensures { result ≤ n }
{
    if short == Some(which) {
        n.saturating_sub(1)
    } else {
        n
    }
}

// The length of a column: it is the short one, too, where all four are.
fn lent_column(n: usize, which: Slice, short: Option<Slice>) -> usize
    ensures { result ≤ n }
{
    if short == Some(Slice::AllColumns) {
        lent(n, Slice::AllColumns, short)
    } else {
        lent(n, which, short)
    }
}

// Asks for the visits, and prints the answer.
fn ask_visits(m: Infostop, asked: Asked, tracks: Tracks, floats: &mut [f64], words: &mut [i32]) {
    let mut out = [7u32; 8];
    let lent = &mut out[..asked.room];
    let reported = reports::visits::visits(m, tracks, asked.trace, floats, words, lent);
    print_reported(reported);
    replay::print_each(&out, |n| replay::print_number(u64::from(n)));
    replay::print_work(reported.is_ok(), floats, words);
    replay::line_end();
}

// Asks for the visits with columns and work slices of the case's lengths.
fn print_visits(m: Infostop, case: Case) {
    let mut floats = [0.5f64; 1028];
    let mut words = [9i32; 1028];
    let short = case.asked.short;
    let n = case.fixes.xs.len();
    let a = lent_column(n, Slice::Xs, short);
    let b = lent_column(n, Slice::Ys, short);
    let c = lent_column(n, Slice::Times, short);
    let d = lent_column(n, Slice::Marks, short);
    let f = lent(4 * n, Slice::Floats, short);
    let w = lent(4 * n, Slice::Words, short);
    let given = Tracks {
        xs: &case.fixes.xs[..a],
        ys: &case.fixes.ys[..b],
        times: &case.fixes.times[..c],
        marks: &case.fixes.marks[..d],
        lens: case.lens,
    };
    ask_visits(m, case.asked, given, &mut floats[..f], &mut words[..w]);
}

// Asks a report of points in two slices, of which the case can make the second short, and prints the answer.
fn print_points<F: FnOnce(&mut [f64], &mut [f64]) -> Result<usize, Refusal>>(
    asked: Asked,
    report: F,
)
    requires { F.IsAlwaysCallable report }
{
    let old = replay::float_of_bits(7);
    let mut xs = [old; 8];
    let mut ys = [old; 8];
    let b = lent(asked.room, Slice::SecondOutput, asked.short);
    print_reported(report(&mut xs[..asked.room], &mut ys[..b]));
    replay::print_each(&xs, replay::print_float);
    replay::print_each(&ys, replay::print_float);
    replay::line_end();
}

// Asks for the labels of the places, and prints the answer.
fn print_place_labels(m: Infostop, asked: Asked) {
    let mut labels = [7i32; 8];
    print_reported(reports::stationary::stationary_labels(m, &mut labels[..asked.room]));
    replay::print_each(&labels, replay::print_label);
    replay::line_end();
}

// Asks for the view of n labels, and prints the answer.
fn print_view(lens: &[u32], n: usize, asked: Asked)
    requires { n ≤ 257 }
{
    let mut labels = [0i32; 257];
    rng::fill(&mut labels);
    let k = lent(n, Slice::Labels, asked.short);
    let view = reports::view::trace_view(lens, &labels[..k], asked.trace);
    replay::print_number(u64::from(view.refusal_number()));
    replay::print_each(view.labels, replay::print_label);
    replay::line_end();
}

fn print_all(m: Infostop, case: Case) {
    let asked = case.asked;
    print_visits(m, case);
    print_points(
        asked,
        |xs, ys| reports::stationary::stationary_points(m, xs, ys),
    );
    print_place_labels(m, asked);
    print_points(asked, |xs, ys| reports::medians::label_medians(m, xs, ys));
    print_view(case.lens, case.fixes.xs.len(), asked);
}

// Fits in slices of the lengths that a fit of 8 places asks for, and hands back the model; a refused fit leaves it unfitted.
fn fit(model: Infostop, tracks: Tracks) -> Infostop
    requires { length tracks.xs.now ≤ 257 }
{
    let mut labels = [7i32; 257];
    let mut floats = [0.0f64; 1092];
    let mut words = [0i32; 1092];
    let n = tracks.xs.len();
    let end = 4 * n + 64;
    let f = model.fit_predict_many(
        tracks,
        &mut labels[..n],
        8,
        &mut floats[..end],
        &mut words[..end],
    );
    f.model
}

// Makes the model, fits the first traces, and asks for the reports. Refused settings leave a model that no fit alters.
fn fit_and_report(config: Config, case: Case) {
    let made = Infostop::from_config(config);
    let n = case.until;
    let first = Tracks {
        xs: &case.fixes.xs[..n],
        ys: &case.fixes.ys[..n],
        times: &case.fixes.times[..n],
        marks: &case.fixes.marks[..n],
        lens: &case.lens[..case.fitted],
    };
    let fitted = fit(made.model, first);
    print_all(fitted, case);
}

// Reads the fixes, and answers. A case with more than 257 fixes, or with more that are fitted than there are, gets a line that says so.
fn with_lens(
    list: &mut Numbers,
    config: Config,
    asked: Asked,
    lens: &[u32],
    fitted: usize,
    until: usize,
)
    requires { fitted ≤ length lens.now }
{
    let n = replay_case::fix_count(lens);
    if 257 < n {
        io::write_all(STDOUT_FILENO, b"too many fixes\n");
    } else if n < until {
        io::write_all(STDOUT_FILENO, b"too few fixes\n");
    } else {
        let read = replay_case::columns::read_columns::<257>(list, n);
        let fixes = read.first(n);
        let case = Case {
            asked,
            fixes,
            lens,
            until,
            fitted,
        };
        fit_and_report(config, case);
    }
}

// Answers a case. One for which there is no room, or with fewer traces than are fitted, gets a line that says so: that of traces, where they are too
// many, before all others.
fn answer(list: &mut Numbers) {
    let head = read::read_head(list);
    let room = head.room;
    if 257 < head.traces {
        io::write_all(STDOUT_FILENO, b"too many traces\n");
    } else if head.traces < head.fitted {
        io::write_all(STDOUT_FILENO, b"too few traces\n");
    } else if 8 < room {
        io::write_all(STDOUT_FILENO, b"too much room\n");
    } else if let Some(lens) = Lens::<257>::read(list, head.traces) {
        let asked = Asked {
            trace: head.trace,
            room,
            short: head.short,
        };
        with_lens(
            list,
            head.config,
            asked,
            lens.all(),
            head.fitted,
            head.until,
        );
    }
}

fn main() {
    replay::each_case(answer);
}
