// Numbers and labels at the right end of their columns, and the lines of the sheet, written one behind the other.
// What writes, here and in lines.rt, is inlined into `write_sheet`, which makes the Output: so the count of the bytes that are written stays in a register.
// Behind a `&mut Output` it would be loaded and stored for each byte.
ghost use Rattle.std.specs.Prelude.{◌≡◌, ◌<◌, ◌≤◌, ◌^◌, true};
ghost use Rattle.print.specs.Lines.{decimal, label_text};
ghost use Rattle.print.specs.Steps.{Wrote};
ghost use mathlib.Core.List.{flatten};
ghost use Rattle.posting.specs.Sheet.{entry, right_aligned, entry_line};
ghost use Rattle.posting.specs.Posted.{in_column};
ghost use Rattle.posting.specs.Steps.{last_digit, front_digit, lines_at, Within};

use print::bytes::Output;

fn last_digit(n: u32) -> u8
    ensures { result ≡ last_digit n }
{
    b'0' + (n % 10) as u8
}

// What stands in a column in front of others, n being the number up to this column: its last digit, or a space where there is none yet.
#[tactic(auto, unfolding(crate::specs::Steps::front_digit))]
fn front_digit(n: u32) -> u8
    ensures { result ≡ front_digit n }
{
    if n == 0 { b' ' } else { last_digit(n) }
}

// A number in w columns, 5 at most. All five are made, with no loop or recursion, so that this is inlined; w is a constant there, and the compiler drops the
// columns that are not written.
// Kept as it is: right-aligned by hand, since `write!`, as `{:>3}`, promises the bytes only where all have room, and here a short slice gets the first of them.
#[inline(always)]
#[tactic(auto, using(crate::proofs::Digits::last_columns))]
fn put_number(out: &mut Output, w: usize, n: u32)
    requires { (1 ≤ w) × (w ≤ 5) × (n < 10 ^ w) }
    ensures { Wrote out.old out.new (right_aligned w (decimal n)) }
{
    let columns = [
        front_digit(n / 10000),
        front_digit(n / 1000),
        front_digit(n / 100),
        front_digit(n / 10),
        last_digit(n),
    ];
    out.push_all(&columns[5 - w..]);
}

// A label in 3 columns.
#[inline(always)]
#[tactic(auto, using(crate::proofs::Labels::few_digits, crate::proofs::Labels::none_column, print::proofs::LabelLines::number_text))]
fn put_label(out: &mut Output, l: i32)
    requires { in_column l ≡ true }
    ensures { Wrote out.old out.new (right_aligned 3 (label_text l)) }
{
    if print::lines::is_number(l) {
        put_number(out, 3, print::lines::number(l) as u32);
    } else {
        out.push_all(b" -1");
    }
}

// The line of a fix.
#[inline(always)]
#[tactic(auto, using(crate::proofs::LinesFrom::line_pushed))]
fn put_line(out: &mut Output, t: u64, f: u64, l: i32)
    requires { Within t f l }
    ensures { Wrote out.old out.new (entry_line (entry t f l)) }
{
    put_number(out, 3, t as u32);
    out.push(b' ');
    put_number(out, 5, f as u32);
    out.push(b' ');
    put_label(out, l);
    out.push(b'\n');
}

// The line of fix i of the sheet, below a heading where it is the first of a page.
#[inline(always)]
pub fn put_fix(out: &mut Output, i: usize, t: u64, f: u64, l: i32)
    requires { Within t f l }
    ensures { Wrote out.old out.new (flatten (lines_at i (entry t f l))) }
{
    if i % 60 == 0 {
        out.push_all(b"TRC   FIX LBL\n");
    }
    put_line(out, t, f, l);
}
