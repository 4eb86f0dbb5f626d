// Runs posting sheets over a list of cases. A case: the length of the output slice; from where to where the sheet is printed; the number of traces and
// their lengths; the number of runs, and for each a count and a label + 2: the labels are the runs one behind the other. There is room for 257 traces,
// 65,537 labels and 933,000 bytes of output, which are 7 before. Prints for each case the number and trace of the refusal, or `0 0`; how many bytes the
// sheet has, 0 for a refusal; 1 where all of the output past them is as it was, else 0; and on the next line the part of the sheet that is asked for, as
// far as the sheet goes. oracle/sheets writes the list, and works the answers out from the words of docs/RULES.md,
// "Posting sheet".
// Kept as it is: arrays of fixed size, of which a part is lent, since the project's memory is fixed and it takes no heap.
#![tactic(auto)]

ghost use Rattle.std.specs.Prelude.{◌≡◌, length};

use replay::{Numbers, STDOUT_FILENO};
use replay_case::lens::Lens;
use settings::refusal::Refusal;

// The length of the output slice, and the part that is printed.
#[derive(Clone, Copy, Debug, PartialEq, Eq)]
struct Asked {
    room: usize,
    from: usize,
    to: usize,
}

// The label that is written as n, which is 2 more; the largest label where n is past it.
// Kept as it is: no `From`: neither u64 nor i32 is a type of ours to write it for, and the shift by 2 is this list's, and no rule of labels.
fn label_of(n: u64) -> i32 {
    match n {
        0 => -2,
        1 => -1,
        _ => i32::try_from(n - 2).unwrap_or(i32::MAX),
    }
}

// Reads the number of runs, and the labels as runs into the front of the slice; tells how many they are. A run for which there is no room is left out.
// Kept as it is: a count by hand and no `sum()`, since each run is laid where the count of those before it stands.
fn read_runs(list: &mut Numbers, labels: &mut [i32]) -> usize {
    let mut count = 0;
    for _ in 0..list.next_number() {
        let n = list.next_size();
        let label = label_of(list.next_number());
        if let Some(run) = labels.get_mut(count..).and_then(|rest| rest.get_mut(..n)) {
            run.fill(label);
            count += n;
        }
    }
    count
}

// The part of the sheet of n bytes from place `from` to place `to`.
fn part(out: &[u8], n: usize, from: usize, to: usize) -> &[u8] {
    out.get(from..to.min(n)).unwrap_or(&[])
}

// Whether the output is as it was past the n bytes of the sheet.
fn is_kept(out: &[u8], n: usize) -> bool {
    out.get(n..)
        .is_some_and(|rest| rest.iter().all(|&b| b == 7))
}

fn print_posted(posted: Result<usize, Refusal>, out: &[u8], asked: Asked) {
    let n = posted.unwrap_or(0);
    replay_case::print_answer(&posted);
    replay::space();
    replay::print_number(n as u64);
    replay::print_flag(is_kept(out, n));
    replay::line_end();
    io::write_all(STDOUT_FILENO, part(out, n, asked.from, asked.to));
}

// The output array. Its length is said, since lending it as a slice asks for it, and it is too long to be counted.
// Kept as it is, beside `replay::room`. Tried as one function of the size and the byte, and the proof didn't close: `room` promises what its bytes are, and
// where that is known of 933,000 of them the check of `with_lens` runs out of stack.
fn output() -> [u8; 933000]
    ensures { 933000 ≡ length result }
{
    [7; 933000]
}

// Asks for the sheet and prints it. A case with a longer output slice than there is room for is not answered.
fn print_sheet(lens: &[u32], labels: &[i32], out: &mut [u8], asked: Asked) {
    if asked.room <= out.len() {
        let posted = posting::posting_sheet(lens, labels, &mut out[..asked.room]);
        print_posted(posted, out, asked);
    }
}

// Reads the labels, and answers.
fn with_lens(list: &mut Numbers, lens: &[u32], asked: Asked) {
    let mut labels = [0i32; 65537];
    let n = read_runs(list, &mut labels);
    if n <= labels.len() {
        let mut out = output();
        print_sheet(lens, &labels[..n], &mut out, asked);
    }
}

// Answers a case. One with more than 257 traces is not answered.
fn answer(list: &mut Numbers) {
    let asked = Asked {
        room: list.next_size(),
        from: list.next_size(),
        to: list.next_size(),
    };
    let traces = list.next_size();
    if let Some(lens) = Lens::<257>::read(list, traces) {
        with_lens(list, lens.all(), asked);
    }
}

fn main() {
    replay::each_case(answer);
}
