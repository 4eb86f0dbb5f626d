// Runs a list of fits for the rules' refusals and for what they leave as it was. A case: settings `r1 r2 single stay gap size resolution seed`; the
// lengths of the slices lent, `xs ys times marks labels`; `places`; the lengths of the work slices, `floats words`; the number of traces and
// their lengths; the number of fixes that follow, and for each `x y mark time`, floats as their bits. What no fix fills is 0. The model that
// a case is run with comes from a fit of two places with the same settings. Prints, for each case, the number and trace of the refusal, or
// `0 0`; 1 where the labels are as they were, else 0; the same of the model, its settings too, bit for bit; the same of the work slices, and 2
// where what they hold is free; the number of places in the model. The answers of the list are written by hand from docs/RULES.md.
// Kept as it is: arrays of fixed size, of which a part is lent, since the project's memory is fixed and it takes no heap.
#![tactic(auto)]

use infostop::answer::Labelled;
use replay::Numbers;
use replay_case::lens::Lens;
use settings::config::Config;
use settings::refusal::Refusal;
use trace::Tracks;
use trace::columns::Columns;

// The lengths of the slices lent, `places` and the number of traces.
#[derive(Clone, Copy, Debug, PartialEq, Eq)]
struct Lengths {
    xs: usize,
    ys: usize,
    times: usize,
    marks: usize,
    labels: usize,
    places: usize,
    floats: usize,
    words: usize,
    traces: usize,
}

fn read_lengths(list: &mut Numbers) -> Lengths {
    Lengths {
        xs: list.next_size(),
        ys: list.next_size(),
        times: list.next_size(),
        marks: list.next_size(),
        labels: list.next_size(),
        places: list.next_size(),
        floats: list.next_size(),
        words: list.next_size(),
        traces: list.next_size(),
    }
}

// Work slices are free after success, 18 and 19.
fn is_work_free(answer: &Result<Labelled, Refusal>) -> bool {
    matches!(
        answer,
        Ok(_) | Err(Refusal::NoStop | Refusal::TooManyPlaces)
    )
}

// Fits and prints: labels are 7, floats 0.5 and words 9 before.
fn print_fit(
    config: Config,
    tracks: Tracks,
    labels: &mut [i32],
    places: usize,
    floats: &mut [f64],
    words: &mut [i32],
) {
    let before = replay_model::fitted_model(config);
    let f = before.fit_predict_many(tracks, labels, places, floats, words);
    replay_case::print_answer(&f.answer);
    replay::print_flag(labels.iter().all(|&label| label == 7));
    replay::print_flag(replay_model::same_model(before, f.model));
    replay::print_work(is_work_free(&f.answer), floats, words);
    replay::space();
    replay::print_number(f.model.count as u64);
}

// Lends labels and work slices of the case's lengths.
fn with_work(config: Config, tracks: Tracks, l: Lengths) {
    if 65537 < l.labels || 264000 < l.floats || 264000 < l.words {
        return;
    }
    let mut labels = [7i32; 65537];
    let mut floats = [0.5f64; 264000];
    let mut words = [9i32; 264000];
    print_fit(
        config,
        tracks,
        &mut labels[..l.labels],
        l.places,
        &mut floats[..l.floats],
        &mut words[..l.words],
    );
}

// Reads the fixes, lends columns of the case's lengths, and answers.
fn with_columns(list: &mut Numbers, config: Config, l: Lengths, lens: &[u32]) {
    if 65537 < l.xs || 65537 < l.ys || 65537 < l.times || 65537 < l.marks {
        return;
    }
    let n = list.next_size();
    let mut read = Columns::<65537>::filled(0.0, 0);
    replay_case::columns::fill_columns(list, n, &mut read);
    let tracks = Tracks {
        xs: &read.xs[..l.xs],
        ys: &read.ys[..l.ys],
        times: &read.times[..l.times],
        marks: &read.marks[..l.marks],
        lens,
    };
    with_work(config, tracks, l);
}

// Answers a case. One for which there is no room gets an empty line.
fn answer(list: &mut Numbers) {
    let config = replay_case::read_settings(list);
    let l = read_lengths(list);
    if let Some(lens) = Lens::<257>::read(list, l.traces) {
        with_columns(list, config, l, lens.all());
    }
    replay::line_end();
}

fn main() {
    replay::each_case(answer);
}
