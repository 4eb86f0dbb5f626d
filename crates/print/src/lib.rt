// What the program `stops` prints (docs/RULES.md, "Program `stops`"), into a lent slice of bytes.
#![tactic(auto)]

ghost use Rattle.print.specs.Lines.{labels_text, refusal_text};
ghost use Rattle.print.specs.Written.{Writes};

use crate::bytes::Output;
use settings::refusal::Refusal;

pub mod bytes;
pub mod lines;

// The labels of the fixes of all traces; `lens` are the lengths of the traces. Hands back how many bytes are written.
#[tactic(auto, using(crate::proofs::LabelLines::labels_pushed, crate::proofs::Room::into_pushed, crate::proofs::Room::count_pushed), unfolding(crate::specs::Lines::label_names))]
pub fn print_labels(lens: &[u32], labels: &[i32], out: &mut [u8]) -> usize
    ensures { Writes (labels_text lens.now labels.now) out.old result out.new }
{
    let mut o = Output {
        bytes: out,
        used: 0,
    };
    o.push_all(b"trace fix label\n");
    o.put_lines(lens, labels);
    o.used
}

// A refusal. Hands back how many bytes are written.
#[tactic(auto, using(crate::proofs::LabelLines::refusal_pushed, crate::proofs::Room::into_pushed, crate::proofs::Room::count_pushed), unfolding(crate::specs::Lines::refused_names))]
pub fn print_refusal(e: Refusal, out: &mut [u8]) -> usize
    ensures { Writes (refusal_text e) out.old result out.new }
{
    let mut o = Output {
        bytes: out,
        used: 0,
    };
    o.push_all(b"refused trace\n");
    o.put_number(u64::from(settings::refusal::number(e)));
    o.push(b' ');
    o.put_number(settings::refusal::trace(e) as u64);
    o.push(b'\n');
    o.used
}
