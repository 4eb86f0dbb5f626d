// A field that has ended, as it is held: its size, and how it ended.
ghost use Rattle.std.specs.Prelude.{◌≡◌};
ghost use Rattle.text.specs.Machine.{whole_sign, natural_sign, sign_mark, signed_whole};

// A number that is not negative, a negative one, a minus alone, or nothing.
#[derive(Clone, Copy, Debug, PartialEq, Eq)]
pub enum Sign {
    Natural,
    Negative,
    Dash,
    Empty,
}

// Kept as it is: a size beside the sign, and no enum that holds the size: the rules read the size of every field, 0 where there is no digit, and with an
// enum each reader would ask for it by a method.
#[derive(Clone, Copy, Debug, PartialEq, Eq)]
pub struct Field {
    pub size: u64,
    pub sign: Sign,
}

impl Sign {
    // A number, negative or not.
    #[tactic(auto, unfolding(crate::specs::Machine::whole_sign))]
    pub(crate) fn is_whole(self) -> bool
        ensures { result ≡ whole_sign self }
    {
        matches!(self, Sign::Natural | Sign::Negative)
    }

    #[tactic(auto, unfolding(crate::specs::Machine::natural_sign))]
    pub(crate) fn is_natural(self) -> bool
        ensures { result ≡ natural_sign self }
    {
        self == Sign::Natural
    }

    // The time mark.
    // Kept as it is: the rules want it as a number beside the time.
    #[tactic(auto, unfolding(crate::specs::Machine::sign_mark))]
    pub(crate) fn mark(self) -> u8
        ensures { result ≡ sign_mark self }
    {
        if self == Sign::Dash { 0 } else { 1 }
    }
}

impl Field {
    // As a float.
    // Kept as it is: a method, and no `From<Field> for f64`: `f64::from(field)` says no more than `field.value()`, and the definition is of the value.
    #[tactic(auto, unfolding(crate::specs::Machine::signed_whole))]
    pub(crate) fn value(self) -> f64
        ensures { result ≡ signed_whole self }
    {
        let x = std::num::nearest_u64_to_f64(self.size);
        if self.sign == Sign::Negative { -x } else { x }
    }
}
