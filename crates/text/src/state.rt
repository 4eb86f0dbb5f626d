// Where the machine is in a text, and the changes of that. Each is made in place, field by field: a text has thousands of bytes.
ghost use Rattle.std.specs.Prelude.{◌≡◌};
ghost use Rattle.text.specs.Machine.{initial as Machine·initial, refused, begun, signed, grown, ended as Machine·ended};

// The part of a text that the machine is in; `Outside`: the text is not in the form.
#[derive(Clone, Copy, Debug, PartialEq, Eq)]
pub enum Stage {
    SettingNames,
    Settings,
    FixNames,
    Fixes,
    Outside,
}

// k: the byte of the names, or the field; the settings are fields 0 to 6, a fix 7 to 10. minus, value: of the field so far; there is no value before its
// first digit. fixes: their number, up to 769. traces: their number. len: the number of fixes in the last trace.
#[derive(Clone, Copy, Debug, PartialEq, Eq)]
pub struct State {
    pub stage: Stage,
    pub k: usize,
    pub minus: bool,
    pub value: Option<u64>,
    pub fixes: usize,
    pub traces: u64,
    pub len: u32,
}

impl State {
    // Before the first byte.
    #[tactic(auto, unfolding(crate::specs::Machine::initial))]
    pub fn initial() -> State
        ensures { result ≡ Machine·initial }
    {
        State {
            stage: Stage::SettingNames,
            k: 0,
            minus: false,
            value: None,
            fixes: 0,
            traces: 0,
            len: 0,
        }
    }

    // Not in the form, from here on.
    #[tactic(auto, unfolding(crate::specs::Machine::refused))]
    pub fn refuse(&mut self)
        ensures { self.new ≡ refused self.old }
    {
        self.stage = Stage::Outside;
    }

    // To the start of field or byte k of a stage.
    #[tactic(auto, unfolding(crate::specs::Machine::begun))]
    pub fn begin(&mut self, stage: Stage, k: usize)
        ensures { self.new ≡ begun self.old stage k }
    {
        self.stage = stage;
        self.k = k;
        self.minus = false;
        self.value = None;
    }

    // A minus.
    #[tactic(auto, unfolding(crate::specs::Machine::signed))]
    pub fn sign(&mut self)
        ensures { self.new ≡ signed self.old }
    {
        self.minus = true;
    }

    // A digit, by which the value becomes this.
    #[tactic(auto, unfolding(crate::specs::Machine::grown))]
    pub fn grow(&mut self, value: u64)
        ensures { self.new ≡ grown self.old value }
    {
        self.value = Some(value);
    }

    // Whether the text may end here.
    #[tactic(auto, unfolding(crate::specs::Machine::ended))]
    pub fn ended(&self) -> bool
        ensures { result ≡ Machine·ended self.now }
    {
        self.stage == Stage::Fixes && self.k == 7 && !self.minus && self.value.is_none()
    }
}
