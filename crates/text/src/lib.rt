// The house form of the program `stops` (docs/RULES.md, "Program `stops`"): a text is parsed into settings and tracks, whole or in pieces.
#![tactic(auto)]

ghost use Rattle.std.specs.Prelude.{◌≡◌};
ghost use Rattle.text.specs.Values.{read, columns};
ghost use Rattle.text.specs.Parsed.{at_most768, parsed, Parses};
ghost use Rattle.text.specs.Machine.{config_in};
ghost use Rattle.text.specs.Pieces.{Starts, Feeds, Finishes};

use crate::field::{Field, Sign};
use crate::state::State;
use settings::config::Config;
use settings::refusal::Refusal;

pub mod field;
mod judge;
mod machine;
mod scan;
pub mod state;

// What stands in a text beside the columns of its fixes: the settings, the number of fixes and of traces.
#[derive(Clone, Copy, Debug, PartialEq)]
pub struct Input {
    pub config: Config,
    pub fixes: usize,
    pub traces: usize,
}

// What is held between the pieces of a text: the state, and the fields of the settings (0 to 6) and of the last fix line (7 to 10).
// Kept as it is: an array and no field by name, since `row_byte` writes field k of a line, whichever it is.
#[derive(Clone, Copy, Debug, PartialEq, Eq)]
pub struct Reader {
    pub state: State,
    pub fields: [Field; 11],
}

// A text in the form with so many fixes and traces: 9 for more than 768 fixes, after the refusals of settings.
#[tactic(auto, unfolding(crate::specs::Parsed::at_most768, crate::specs::Parsed::unless_many, crate::specs::Parsed::too_many))]
fn at_most_768(config: Config, fixes: usize, traces: usize) -> Result<Input, Refusal>
    ensures { result ≡ at_most768 config fixes traces }
{
    if 768 < fixes {
        settings::config::check_config(config)?;
        return Err(Refusal::Counts);
    }
    Ok(Input {
        config,
        fixes,
        traces,
    })
}

impl Reader {
    // The settings from the fields.
    #[tactic(auto, unfolding(crate::specs::Machine::config_in))]
    fn config(&self) -> Config
        ensures { result ≡ config_in self.now.fields }
    {
        Config {
            r1: self.fields[0].value(),
            r2: self.fields[1].value(),
            label_singleton: self.fields[2].size == 1,
            min_staying_time: self.fields[3].value(),
            max_time_between: self.fields[4].value(),
            min_size: self.fields[5].size as usize,
            min_spatial_resolution: 0.0,
            seed: self.fields[6].size,
        }
    }
}

// Before the first piece.
#[tactic(auto, unfolding(crate::specs::Machine::start_reader, crate::specs::Machine::run))]
pub fn start() -> Reader
    ensures { Starts result }
{
    Reader {
        state: State::initial(),
        fields: [Field {
            size: 0,
            sign: Sign::Natural,
        }; 11],
    }
}

// Takes the next piece of a text. The columns of the first 768 fixes go into the slices, as far as there is room.
// Kept as it is: five slices side by side. In a struct lent by `&mut`, as the one of `Output` in crate `print` is, each function on the way and each loop
// would have to say of all five that they are still the caller's (`c.new.xs.ghost_name ≡ c.old.xs.ghost_name` and so on; tried: without that they are
// unknown to the caller afterwards). Of a struct that is handed over by value the contract names the slices by place (`c.exit.1.1.1.0.now`: the marks).
// A struct that owns arrays, as the one of `reply` does, would ask more of callers: slices of any length are taken here.
#[tactic(auto, using(crate::proofs::Run::run_next, crate::proofs::Run::run_done, crate::proofs::Run::run_parts))]
pub fn feed(
    mut r: Reader,
    text: &[u8],
    xs: &mut [f64],
    ys: &mut [f64],
    times: &mut [f64],
    marks: &mut [u8],
    lens: &mut [u32],
) -> Reader
    ensures { Feeds text.now r (columns xs.old ys.old times.old marks.old lens.old)
        result (columns xs.new ys.new times.new marks.new lens.new) }
{
    for &b in text {
        r.advance(b, xs, ys, times, marks, lens);
    }
    r
}

// What was read, where the text ends here: by these contracts `ReadAs` of all pieces joined, however the text was cut.
pub fn finish(r: Reader) -> Result<Input, Refusal>
    ensures { Finishes r result }
{
    let s = r.state;
    if !s.ended() {
        return Err(Refusal::Text);
    }
    at_most_768(r.config(), s.fixes, s.traces as usize)
}

// What a text says beside its columns, or its refusal. Of the columns nothing is kept.
pub fn verdict(text: &[u8]) -> Result<Input, Refusal>
    ensures { result ≡ parsed (read text.now) }
{
    let r = feed(start(), text, &mut [], &mut [], &mut [], &mut [], &mut []);
    finish(r)
}

// Parses a text. The columns of its fixes go into the slices, as far as there is room. The text is judged first: every refusal leaves them as they were.
#[tactic(auto, using(crate::proofs::Pieces::parses_refused))]
pub fn parse(
    text: &[u8],
    xs: &mut [f64],
    ys: &mut [f64],
    times: &mut [f64],
    marks: &mut [u8],
    lens: &mut [u32],
) -> Result<Input, Refusal>
    ensures { Parses text.now (columns xs.old ys.old times.old marks.old lens.old)
        result (columns xs.new ys.new times.new marks.new lens.new) }
{
    let input = verdict(text)?;
    feed(start(), text, xs, ys, times, marks, lens);
    Ok(input)
}
