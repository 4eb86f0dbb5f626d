// Runs the parser over a list of texts. A text is its number of bytes, a line feed, the bytes and a line feed. Before, every element of the slices is
// -0.0 or 7. Prints the number and trace of the refusal, or `0 0`; 1 where all slices are as they were, by bits, else 0; of a text that is taken the
// number of fixes and of traces, and x, y, time and mark of its last fix and the length of its last trace. The answers are written by hand from
// docs/RULES.md.
// Kept as it is: arrays of fixed size, since the project's memory is fixed and it takes no heap.
#![tactic(auto)]

use replay::Numbers;
use reply::arrays::Arrays;
use text::Input;
use trace::Tracks;

fn all_kept(t: Tracks) -> bool {
    replay::all_floats(t.xs, -0.0)
        && replay::all_floats(t.ys, -0.0)
        && replay::all_floats(t.times, -0.0)
        && t.marks.iter().all(|&mark| mark == 7)
        && t.lens.iter().all(|&len| len == 7)
}

// The item before place n, where there is one.
fn before<T: Copy>(s: &[T], n: usize) -> Option<T> {
    s.get(..n)?.last().copied()
}

fn print_behind_space(n: u64) {
    replay::space();
    replay::print_number(n);
}

fn print_taken(taken: Input, t: Tracks) {
    print_behind_space(taken.fixes as u64);
    print_behind_space(taken.traces as u64);
    for s in [t.xs, t.ys, t.times] {
        if let Some(x) = before(s, taken.fixes) {
            print_behind_space(replay::bits_of(x));
        }
    }
    if let Some(mark) = before(t.marks, taken.fixes) {
        print_behind_space(u64::from(mark));
    }
    if let Some(len) = before(t.lens, taken.traces) {
        print_behind_space(u64::from(len));
    }
}

// Lends slices that are longer than any text fills.
fn print_parsed(t: &[u8]) {
    let mut read = Arrays::<800>::filled(-0.0, 7, 7);
    let parsed = text::parse(
        t,
        &mut read.fixes.xs,
        &mut read.fixes.ys,
        &mut read.fixes.times,
        &mut read.fixes.marks,
        &mut read.lens,
    );
    let tracks = read.tracks();
    replay_case::print_answer(&parsed);
    replay::print_flag(all_kept(tracks));
    if let Ok(taken) = parsed {
        print_taken(taken, tracks);
    }
    replay::line_end();
}

fn answer(list: &mut Numbers) {
    if let Some(text) = list.next_text() {
        print_parsed(text);
    }
}

fn main() {
    replay::each_case(answer);
}
