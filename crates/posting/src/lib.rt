// The posting sheet (docs/RULES.md, "Posting sheet"): the labels of all fixes laid out as bytes, in pages of 60, into a lent slice.
#![tactic(auto)]

ghost use Rattle.std.specs.Prelude.{◌≡◌, ◌+◌, ◌*◌, ◌≤◌};
ghost use Rattle.print.specs.Written.{Writes};
ghost use Rattle.posting.specs.Sheet.{sheet as Sheet·sheet, page_count};
ghost use Rattle.posting.specs.Posted.{check_sheet, ends, post_sheet};
ghost use Rattle.posting.specs.Steps.{SheetWithin};

use print::bytes::Output;
use settings::refusal::Refusal;

mod columns;
mod lines;

// How long the sheet of n fixes is.
#[tactic(auto, unfolding(crate::specs::Sheet::page_count))]
fn sheet_length(n: usize) -> usize
    requires { n ≤ 65536 }
    ensures { result ≡ 14 * (n + page_count n) }
{
    14 * (n + n.div_ceil(60))
}

// 7, 8, 9, then 21. `room` is the length of the output slice.
#[tactic(auto, using(crate::proofs::Checked::by_output, checks::proofs::Lengths::counts_few), unfolding(crate::specs::Posted::check_sheet, settings::proofs::Turns::turns))]
fn check_sheet(lens: &[u32], labels: &[i32], room: usize) -> Result<(), Refusal>
    ensures { result ≡ check_sheet lens.now labels.now room }
{
    let n = labels.len();
    checks::check_label_lengths(lens, n)?;
    checks::slices::check_counts(lens.len(), n, 1)?;
    if !crate::lines::all_in_column(labels) || room < sheet_length(n) {
        return Err(Refusal::Output);
    }
    Ok(())
}

// Writes the sheet as far as there is room, and hands back how many bytes are written. Building block: labels and lengths are checked already.
// Kept as it is: this, `put_lines` and `print` of crate `reply` ask `SheetWithin` of the two slices, by a clause. A struct of them with that for a ghost field
// would be made from two slices right before each call (`print` hands the same two to `print_labels`, which asks nothing), and taken apart right behind it.
#[tactic(auto, using(crate::proofs::Pages::sheet_lines, print::proofs::Room::into_pushed, print::proofs::Room::count_pushed))]
pub fn write_sheet(lens: &[u32], labels: &[i32], out: &mut [u8]) -> usize
    requires { SheetWithin lens.now labels.now }
    ensures { Writes (Sheet·sheet lens.now labels.now) out.old result out.new }
{
    let mut o = Output {
        bytes: out,
        used: 0,
    };
    crate::lines::put_lines(&mut o, lens, labels);
    o.used
}

// The posting sheet of traces of these lengths, whose fixes have these labels, into the front of `out`: how many bytes it has, or the refusal.
#[tactic(auto, using(crate::proofs::Checked::sheet_within, crate::proofs::Writing::ends_refused, crate::proofs::Writing::sheet_posted))]
pub fn posting_sheet(lens: &[u32], labels: &[i32], out: &mut [u8]) -> Result<usize, Refusal>
    ensures { ends result out.new ≡ post_sheet lens.now labels.now out.old }
{
    check_sheet(lens, labels, out.len())?;
    Ok(write_sheet(lens, labels, out))
}
