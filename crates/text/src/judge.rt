// A line, judged when it is whole.
ghost use Rattle.std.specs.Prelude.{◌≡◌, ◌≤◌};
ghost use Rattle.text.specs.Machine.{set_line, fix_line, settings_ok, settled, fix_ok, counted, noted, judged, stored};

use crate::Reader;
use crate::state::{Stage, State};

impl State {
    // Behind the last field of the settings.
    // Kept as it is, beside `fix_line`: each is a definition of the reader's in one test. One function of a stage and a field would state neither.
    #[tactic(auto, unfolding(crate::specs::Machine::set_line))]
    fn set_line(&self) -> bool
        ensures { result ≡ set_line self.now }
    {
        self.stage == Stage::Settings && self.k == 7
    }

    // Behind the last field of a fix.
    #[tactic(auto, unfolding(crate::specs::Machine::fix_line))]
    fn fix_line(&self) -> bool
        ensures { result ≡ fix_line self.now }
    {
        self.stage == Stage::Fixes && self.k == 11
    }

    // Behind a fix of trace t.
    #[tactic(auto, unfolding(crate::specs::Machine::counted, crate::specs::Machine::begun, crate::specs::Machine::more))]
    fn count(&mut self, t: u64)
        requires { t ≤ 1000000000 }
        ensures { self.new ≡ counted t self.old }
    {
        if t == self.traces {
            self.len = 1;
        } else if self.len < 769 {
            self.len += 1;
        }
        if self.fixes < 769 {
            self.fixes += 1;
        }
        self.traces = t + 1;
        self.begin(Stage::Fixes, 7);
    }
}

impl Reader {
    // The line of settings: no field is a minus alone; `single` (2) is 0 or 1, `size` (5) and `seed` (6) are not negative.
    #[tactic(auto, unfolding(crate::specs::Machine::settings_ok))]
    fn settings_ok(&self) -> bool
        ensures { result ≡ settings_ok self.now.fields }
    {
        self.fields[0].sign.is_whole()
            && self.fields[1].sign.is_whole()
            && self.fields[2].sign.is_natural()
            && self.fields[2].size <= 1
            && self.fields[3].sign.is_whole()
            && self.fields[4].sign.is_whole()
            && self.fields[5].sign.is_natural()
            && self.fields[6].sign.is_natural()
    }

    #[tactic(auto, unfolding(crate::specs::Machine::settled))]
    fn settle(&mut self)
        ensures { self.new ≡ record self.old { state = settled self.old.fields self.old.state } }
    {
        if self.settings_ok() {
            self.state.begin(Stage::FixNames, 0);
        } else {
            self.state.refuse();
        }
    }

    // A line of a fix: trace, x and y are numbers, and the trace is the next one, or the last again.
    #[tactic(auto, unfolding(crate::specs::Machine::fix_ok))]
    fn fix_ok(&self) -> bool
        ensures { result ≡ fix_ok self.now.fields self.now.state }
    {
        let trace = self.fields[7];
        trace.size <= 1_000_000_000
            && trace.sign.is_natural()
            && self.fields[8].sign.is_whole()
            && self.fields[9].sign.is_whole()
            && (trace.size == self.state.traces || trace.size + 1 == self.state.traces)
    }

    #[tactic(auto, using(crate::proofs::Run::fix_size), unfolding(crate::specs::Machine::noted))]
    fn note(&mut self)
        ensures { self.new ≡ record self.old { state = noted self.old.fields self.old.state } }
    {
        if self.fix_ok() {
            self.state.count(self.fields[7].size);
        } else {
            self.state.refuse();
        }
    }

    // Judges the line, where it is whole. Whether a fix was taken, one of the first 768.
    #[tactic(auto, using(crate::proofs::Run::set_unstored), unfolding(crate::specs::Machine::judged, crate::specs::Machine::stored))]
    pub(crate) fn judge(&mut self) -> bool
        ensures state { self.new.state ≡ judged self.old.fields self.old.state }
        ensures fields { self.new.fields ≡ self.old.fields }
        ensures stored { result ≡ stored self.old.state self.new.state }
    {
        if self.state.set_line() {
            self.settle();
            return false;
        }
        if !self.state.fix_line() {
            return false;
        }
        let n = self.state.fixes;
        self.note();
        self.state.stage == Stage::Fixes && n < 768
    }
}
