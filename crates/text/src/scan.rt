// One byte of a line, before the line is judged.
ghost use Rattle.std.specs.Prelude.{◌≡◌, ◌<◌};
ghost use Rattle.text.specs.Machine.{name_byte, field_byte, field_sign, ends as Machine·ends, row_byte, row_fields, lexed, lexed_fields};

use crate::Reader;
use crate::field::{Field, Sign};
use crate::state::{Stage, State};
use lists::put;

impl State {
    // One byte of a line of names, after which field `at` of `stage` begins.
    #[tactic(auto, unfolding(crate::specs::Machine::name_byte))]
    fn name_byte(&mut self, names: &[u8], stage: Stage, at: usize, b: u8)
        ensures { self.new ≡ name_byte names.now stage at self.old b }
    {
        let k = self.k;
        if names.get(k) != Some(&b) {
            self.refuse();
        } else if k + 1 < names.len() {
            self.begin(self.stage, k + 1);
        } else {
            self.begin(stage, at);
        }
    }

    // One byte within a field: a minus at its start, or a digit.
    #[tactic(auto, unfolding(crate::specs::Machine::field_byte, crate::specs::Bytes::is_digit))]
    fn field_byte(&mut self, b: u8)
        ensures { self.new ≡ field_byte self.old b }
    {
        if b == b'-' {
            if self.minus || self.value.is_some() {
                self.refuse();
            } else {
                self.sign();
            }
            return;
        }
        let value = self.value.unwrap_or(0);
        if !b.is_ascii_digit() || 100_000_000 < value {
            self.refuse();
            return;
        }
        let v = value * 10 + u64::from(b - b'0');
        if v <= 1_000_000_000 {
            self.grow(v);
        } else {
            self.refuse();
        }
    }

    // How a field ends.
    #[tactic(auto, unfolding(crate::specs::Machine::field_sign))]
    fn field_sign(&self) -> Sign
        ensures { result ≡ field_sign self.now }
    {
        match self.value {
            Some(v) if self.minus && v != 0 => Sign::Negative,
            Some(_) => Sign::Natural,
            None if self.minus => Sign::Dash,
            None => Sign::Empty,
        }
    }

    // Whether b ends the field, in a line whose last field is `last`.
    #[tactic(auto, unfolding(crate::specs::Machine::ends, crate::specs::Machine::end_of))]
    fn ends(&self, last: usize, b: u8) -> bool
        ensures { result ≡ Machine·ends last self.now b }
    {
        b == if self.k < last { b' ' } else { b'\n' }
    }
}

impl Reader {
    // One byte of a line of values.
    #[tactic(auto, unfolding(crate::specs::Machine::row_byte, crate::specs::Machine::row_fields, crate::specs::Machine::after))]
    fn row_byte(&mut self, last: usize, b: u8)
        requires { last < 11 }
        ensures state { self.new.state ≡ row_byte last self.old.state b }
        ensures fields { self.new.fields ≡ row_fields last self.old.state b self.old.fields }
    {
        let s = &mut self.state;
        if !s.ends(last, b) {
            s.field_byte(b);
            return;
        }
        let field = Field {
            size: s.value.unwrap_or(0),
            sign: s.field_sign(),
        };
        put(&mut self.fields, s.k, field);
        if field.sign == Sign::Empty {
            s.refuse();
        } else {
            s.begin(s.stage, s.k.min(last) + 1);
        }
    }

    // One byte by its stage.
    // Kept as it is: a match over the stages, which are an enum. A closure or a dyn value for each would be made and called for every byte of a text.
    #[tactic(auto, unfolding(crate::specs::Machine::lexed, crate::specs::Machine::lexed_fields, crate::specs::Form::setting_names, crate::specs::Form::fix_names))]
    pub(crate) fn lex(&mut self, b: u8)
        ensures state { self.new.state ≡ lexed self.old.state b }
        ensures fields { self.new.fields ≡ lexed_fields self.old.state b self.old.fields }
    {
        match self.state.stage {
            Stage::SettingNames => self.state.name_byte(
                b"r1 r2 single stay gap size seed\n",
                Stage::Settings,
                0,
                b,
            ),
            Stage::Settings => self.row_byte(6, b),
            Stage::FixNames => self
                .state
                .name_byte(b"trace x y time\n", Stage::Fixes, 7, b),
            Stage::Fixes => self.row_byte(10, b),
            Stage::Outside => {}
        }
    }
}
