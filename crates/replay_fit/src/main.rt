// Replays a list of fits: settings `r1 r2 single stay gap size resolution seed`, the number of traces, their lengths, and for each fix `x y mark time`,
// floats as their bits. Prints, for each, the number and trace of its refusal, or `0 0`, the label of each fix, the number of places, the bits
// of each one's x and y with its label, the mark (0 rest, 1 spent, 2 none kept) and the rounds; then the number of labels, and the bits of the
// x and y of each label's median, in rising label. There is room for 256 traces and 256 fixes.
// Kept as it is: arrays of fixed size, of which a part is lent, since the project's memory is fixed and it takes no heap.
#![tactic(auto)]

ghost use Rattle.std.specs.Prelude.{◌≤◌, length};

use distance::Points;
use infostop::model::Infostop;
use replay::{Numbers, STDOUT_FILENO};
use replay_case::lens::Lens;
use settings::config::Config;
use trace::{Trace, Tracks};

// The number of places, and x, y and label of each.
fn print_places(m: Infostop) {
    replay::space();
    replay::print_places(m.points(), m.labels(), replay::print_label);
}

// Asks for the label medians of a fitted model, and prints their number and the medians.
fn print_medians(m: Infostop) {
    let mut xs = [0.0f64; 512];
    let mut ys = [0.0f64; 512];
    let reported = reports::medians::label_medians(m, &mut xs, &mut ys);
    replay::space();
    match reported {
        Err(_) => replay_case::print_answer(&reported),
        Ok(n) => {
            replay::print_number(n as u64);
            if n <= 512 {
                let medians = Points {
                    xs: &xs[..n],
                    ys: &ys[..n],
                };
                replay::print_points(medians);
            }
        }
    }
}

// Fits, and prints the answer.
fn print_fit(
    model: Infostop,
    tracks: Tracks,
    labels: &mut [i32],
    floats: &mut [f64],
    words: &mut [i32],
) {
    let f = model.fit_predict_many(tracks, labels, 512, floats, words);
    replay_case::print_answer(&f.answer);
    if let Ok(labelled) = f.answer {
        replay::print_each(labels, replay::print_label);
        print_places(f.model);
        replay::space();
        replay::print_number(labelled.mark as u64);
        replay::space();
        replay::print_number(u64::from(labelled.rounds));
        print_medians(f.model);
    }
}

// Fits in slices of the lengths that a fit of 512 places asks for.
fn fit_in_room(model: Infostop, tracks: Tracks)
    requires { length tracks.xs.now ≤ 256 }
{
    let mut labels = [7i32; 256];
    let mut floats = [0.0f64; 263168];
    let mut words = [0i32; 5120];
    let n = tracks.xs.len();
    let floats_end = 4 * n + 262144;
    let words_end = 4 * n + 4096;
    print_fit(
        model,
        tracks,
        &mut labels[..n],
        &mut floats[0..floats_end],
        &mut words[0..words_end],
    );
}

// Makes the model, and fits; refused settings are printed. The arrays stand in a function of their own: here they would be cleared twice a case.
fn fit_tracks(config: Config, tracks: Tracks)
    requires { length tracks.xs.now ≤ 256 }
{
    let made = Infostop::from_config(config);
    if made.checked.is_err() {
        replay_case::print_answer(&made.checked);
    } else {
        fit_in_room(made.model, tracks);
    }
}

// Reads the fixes, and answers. A case with more than 256 fixes gets `too many fixes`.
fn with_lens(list: &mut Numbers, config: Config, lens: &[u32]) {
    let n = replay_case::fix_count(lens);
    if 256 < n {
        io::write_all(STDOUT_FILENO, b"too many fixes");
        return;
    }
    let fixes = replay_case::columns::read_columns::<256>(list, n);
    let Trace {
        xs,
        ys,
        times,
        marks,
    } = fixes.first(n);
    let tracks = Tracks {
        xs,
        ys,
        times,
        marks,
        lens,
    };
    fit_tracks(config, tracks);
}

// Answers a case. One with more than 256 traces gets `too many traces`.
fn answer(list: &mut Numbers) {
    let config = replay_case::read_settings(list);
    let traces = list.next_size();
    match Lens::<256>::read(list, traces) {
        Some(lens) => with_lens(list, config, lens.all()),
        None => {
            io::write_all(STDOUT_FILENO, b"too many traces");
        }
    }
    replay::line_end();
}

fn main() {
    replay::each_case(answer);
}
