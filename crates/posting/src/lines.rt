// The lines of the sheet, trace by trace, and the check of the labels. What writes is inlined: columns.rt says why.
ghost use Rattle.std.specs.Prelude.{◌≡◌};
ghost use mathlib.Core.List.{flatten};
ghost use Rattle.print.specs.Steps.{Wrote};
ghost use Rattle.posting.specs.Sheet.{trace_entries, entries};
ghost use Rattle.posting.specs.Posted.{in_column, all_in_column};
ghost use Rattle.posting.specs.Steps.{lines_from, TraceWithin, SheetWithin};

use print::bytes::Output;

// Whether a label is one from -1 to 511.
#[tactic(auto, using(crate::proofs::Labels::in_range))]
fn in_column(l: i32) -> bool
    ensures { result ≡ in_column l }
{
    (-1..=511).contains(&l)
}

pub fn all_in_column(labels: &[i32]) -> bool
    ensures { result ≡ all_in_column labels.now }
{
    labels.iter().all(|&l| in_column(l))
}

// The lines of trace t, whose fixes have these labels; i fixes stand on the sheet before them.
#[inline(always)]
#[tactic(auto, using(crate::proofs::LinesFrom::trace_next, crate::proofs::LinesFrom::trace_done))]
fn put_trace(out: &mut Output, i: usize, t: u64, labels: &[i32])
    requires { TraceWithin i t labels.now }
    ensures { Wrote out.old out.new (flatten (lines_from i (trace_entries t 0 labels.now))) }
{
    for (f, &l) in labels.iter().enumerate() {
        crate::columns::put_fix(out, i + f, t, f as u64, l);
    }
}

// The lines of all traces.
// Kept as it is, beside `put_lines` of crate `print`: that one takes labels that end early and asks nothing; this one asks `SheetWithin`, and hands on how
// many fixes stand before the trace, for the headings. One walk over a closure that writes a trace would have to ask of each call what only this one needs
// (`TraceWithin i t part`), and to say what was written as two kinds of lines, `lines` there and `lines_from` here. An iterator of the parts of the labels,
// as `trace::traces::Traces` is of the traces, would be some forty lines of code and a file of laws, for two loops of three and four lines.
#[inline(always)]
#[tactic(auto, using(crate::proofs::LinesFrom::trace_fits, crate::proofs::LinesFrom::traces_left, crate::proofs::LinesFrom::sheet_next, crate::proofs::LinesFrom::sheet_done, crate::proofs::Within::first_within, crate::proofs::Within::rest_within))]
pub fn put_lines(out: &mut Output, lens: &[u32], labels: &[i32])
    requires { SheetWithin lens.now labels.now }
    ensures { Wrote out.old out.new (flatten (lines_from 0 (entries 0 lens.now labels.now))) }
{
    let mut rest = labels;
    for (t, &len) in lens.iter().enumerate() {
        let before = labels.len() - rest.len();
        let (part, behind) = rest.split_at(len as usize);
        put_trace(out, before, t as u64, part);
        rest = behind;
    }
}
