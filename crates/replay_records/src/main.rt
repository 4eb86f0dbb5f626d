// Runs a list of fits over records, for the rules' refusals and for what they leave as it was. A case: settings `r1 r2 single stay gap size resolution seed`;
// `places`; the lengths of the slices lent, `records labels columns marks floats words`; the number of traces and their lengths; four records, `x y mark
// time` each, of which the first are lent; floats as their bits. Before the fit the labels are 7, the columns -0.0, the marks 9, the floats 0.5 and the
// words 9, and the model comes from a fit of two places with the same settings. Prints the number and trace of the refusal, or `0 0`; then 1 where it is as
// it was, else 0, of the labels, the model, the work slices, the columns and the marks; where columns or marks are not, the columns' first 12 and the first
// 4 marks. The answers of the list are written by hand from docs/RULES.md.
// Kept as it is: arrays of fixed size, of which a part is lent, since the project's memory is fixed and it takes no heap.
#![tactic(auto)]

ghost use Rattle.std.specs.Prelude.{◌≤◌};

use distance::Point;
use records::FixRecord;
use replay::Numbers;
use replay_case::lens::Lens;
use settings::config::Config;

// Settings, `places`, the lengths of the slices lent, and the number of traces.
#[derive(Clone, Copy, Debug, PartialEq)]
struct Case {
    config: Config,
    places: usize,
    records: usize,
    labels: usize,
    columns: usize,
    marks: usize,
    floats: usize,
    words: usize,
    traces: usize,
}

fn read_case(list: &mut Numbers) -> Case {
    Case {
        config: replay_case::read_settings(list),
        places: list.next_size(),
        records: list.next_size(),
        labels: list.next_size(),
        columns: list.next_size(),
        marks: list.next_size(),
        floats: list.next_size(),
        words: list.next_size(),
        traces: list.next_size(),
    }
}

// Columns and marks: whether they are as they were, and where not, what they hold.
fn print_taken(columns: &[f64; 16], marks: &[u8; 8]) {
    let columns_kept = replay::all_floats(columns, -0.0);
    let marks_kept = marks.iter().all(|&mark| mark == 9);
    replay::print_flag(columns_kept);
    replay::print_flag(marks_kept);
    if !(columns_kept && marks_kept) {
        replay::print_each(&columns[..12], replay::print_float);
        replay::print_each(&marks[..4], |mark| replay::print_number(u64::from(mark)));
    }
}

// Fits and prints, with slices of the case's lengths. What they hold before is told at the head of the file.
// Kept as it is: the answer and the model after the fit have names of their own; where `f.answer` is lent, the model beside it is copied.
fn print_fit(c: Case, four: [FixRecord; 4], lens: &[u32])
    requires { (c.records ≤ 4) × (c.labels ≤ 8) × (c.columns ≤ 16) × (c.marks ≤ 8) × (c.floats ≤ 64) × (c.words ≤ 64) }
{
    let mut labels = [7i32; 8];
    let mut columns = [-0.0f64; 16];
    let mut marks = [9u8; 8];
    let mut floats = [0.5f64; 64];
    let mut words = [9i32; 64];
    let before = replay_model::fitted_model(c.config);
    let f = records::fit_records(
        before,
        &four[..c.records],
        lens,
        &mut labels[..c.labels],
        c.places,
        &mut columns[..c.columns],
        &mut marks[..c.marks],
        &mut floats[..c.floats],
        &mut words[..c.words],
    );
    let told = f.answer;
    let after = f.model;
    replay_case::print_answer(&told);
    replay::print_flag(labels.iter().all(|&label| label == 7));
    replay::print_flag(replay_model::same_model(before, after));
    replay::print_work(false, &floats, &words);
    print_taken(&columns, &marks);
}

fn read_record(list: &mut Numbers) -> FixRecord {
    let x = list.next_float();
    let y = list.next_float();
    let mark = replay_case::next_mark(list);
    let time = list.next_float();
    let at = Point { x, y };
    FixRecord { at, time, mark }
}

// Answers a case. One for which there is no room gets an empty line.
fn answer(list: &mut Numbers) {
    let c = read_case(list);
    if let Some(lens) = Lens::<257>::read(list, c.traces) {
        let four = [
            read_record(list),
            read_record(list),
            read_record(list),
            read_record(list),
        ];
        if c.records <= 4
            && c.labels <= 8
            && c.columns <= 16
            && c.marks <= 8
            && c.floats <= 64
            && c.words <= 64
        {
            print_fit(c, four, lens.all());
        }
    }
    replay::line_end();
}

fn main() {
    replay::each_case(answer);
}
