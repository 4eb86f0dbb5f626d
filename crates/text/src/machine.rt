// The machine: one byte, and what it keeps of it.
ghost use Rattle.std.specs.Prelude.{◌≡◌};
ghost use Rattle.text.specs.Values.{columns};
ghost use Rattle.text.specs.Machine.{step, holding};

use crate::Reader;
use lists::put;

impl Reader {
    #[tactic(auto, using(crate::proofs::Run::step_stored, crate::proofs::Run::step_unstored))]
    pub(crate) fn advance(
        &mut self,
        b: u8,
        xs: &mut [f64],
        ys: &mut [f64],
        times: &mut [f64],
        marks: &mut [u8],
        lens: &mut [u32],
    )
        ensures { holding self.new (columns xs.new ys.new times.new marks.new lens.new)
            ≡ step (holding self.old (columns xs.old ys.old times.old marks.old lens.old)) b }
    {
        self.lex(b);
        let n = self.state.fixes;
        if self.judge() {
            put(xs, n, self.fields[8].value());
            put(ys, n, self.fields[9].value());
            put(times, n, self.fields[10].value());
            put(marks, n, self.fields[10].sign.mark());
            put(lens, self.fields[7].size as usize, self.state.len);
        }
    }
}
