// The lines of labels, written into a slice one behind the other.
ghost use Rattle.std.specs.Prelude.{◌≡◌, true, nat_abs};
ghost use Rattle.print.specs.Lines.{label_text, line as Lines·line, trace_lines, lines as Lines·lines};
ghost use Rattle.print.specs.Steps.{Wrote, is_number};

use crate::bytes::Output;

// Whether a label is written as a number, and not as -1.
// Kept as it is: this and `number` by hand, where `u64::try_from` says both in one: they are public, and crate `posting` writes labels by them too.
#[tactic(auto, unfolding(crate::specs::Steps::is_number))]
pub fn is_number(l: i32) -> bool
    ensures { result ≡ is_number l }
{
    l >= 0
}

// The number of such a label.
#[tactic(auto, unfolding(crate::specs::Steps::is_number))]
pub fn number(l: i32) -> u64
    requires { is_number l ≡ true }
    ensures { result ≡ nat_abs l }
{
    l as u64
}

impl Output<'_> {
    // A label, or -1.
    #[tactic(auto, using(crate::proofs::LabelLines::number_text, crate::proofs::LabelLines::none_text))]
    fn put_label(&mut self, l: i32)
        ensures { Wrote self.old self.new (label_text l) }
    {
        if is_number(l) {
            self.put_number(number(l));
        } else {
            self.push_all(b"-1");
        }
    }

    // A line `trace fix label`.
    // Kept as it is: three numbers, here and in `put_fix` and `put_line` of crate `posting`: a struct of them would be made in one loop over the labels of a
    // trace, and taken apart one or two calls further on.
    #[tactic(auto, using(crate::proofs::LabelLines::line_pushed))]
    fn put_line(&mut self, t: u64, f: u64, l: i32)
        ensures { Wrote self.old self.new (Lines·line t f l) }
    {
        self.put_number(t);
        self.push(b' ');
        self.put_number(f);
        self.push(b' ');
        self.put_label(l);
        self.push(b'\n');
    }

    // The lines of trace t, whose fixes have these labels.
    #[tactic(auto, using(crate::proofs::LabelLines::trace_next, crate::proofs::LabelLines::trace_done))]
    fn put_trace(&mut self, t: u64, labels: &[i32])
        ensures { Wrote self.old self.new (trace_lines t 0 labels.now) }
    {
        for (f, &l) in labels.iter().enumerate() {
            self.put_line(t, f as u64, l);
        }
    }

    // The lines of all traces. Where there are fewer labels than the lengths say, those that are there.
    // Kept as it is, beside `put_lines` of crate `posting`: the line there says why.
    #[tactic(auto, using(crate::proofs::LabelLines::lines_next, crate::proofs::LabelLines::lines_done))]
    pub fn put_lines(&mut self, lens: &[u32], labels: &[i32])
        ensures { Wrote self.old self.new (Lines·lines 0 lens.now labels.now) }
    {
        let mut rest = labels;
        for (t, &n) in lens.iter().enumerate() {
            let (part, behind) = rest.split_at((n as usize).min(rest.len()));
            self.put_trace(t as u64, part);
            rest = behind;
        }
    }
}
