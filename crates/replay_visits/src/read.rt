// The head of a case: its settings and its sizes.
ghost use Rattle.std.specs.Prelude.{◌≡◌};
ghost use Rattle.replay_visits.specs.Steps.{slice_of, HeadRead};

use replay::Numbers;
use settings::config::Config;

// A slice that a case can lend one item short. `AllColumns` are the four of the fixes.
#[derive(Clone, Copy, Debug, PartialEq, Eq)]
pub enum Slice {
    Xs,
    Ys,
    Times,
    Marks,
    AllColumns,
    Floats,
    Words,
    SecondOutput,
    Labels,
}

// The settings of a case; how many traces are fitted, and how many fixes they have; the trace asked for, the length of the output slices, and which
// slice is short; and the number of traces.
#[derive(Clone, Copy, Debug, PartialEq)]
pub struct Head {
    pub config: Config,
    pub fitted: usize,
    pub until: usize,
    pub trace: usize,
    pub room: usize,
    pub short: Option<Slice>,
    pub traces: usize,
}

// The slice that the list writes as n.
// Kept as it is: 0 is written for no slice, so `None` is an answer and not a failed conversion; `TryFrom` would need an error here, which `ok` drops again.
#[tactic(auto, unfolding(crate::specs::Steps::slice_of))]
fn slice_of(n: u64) -> Option<Slice>
    ensures { result ≡ slice_of n }
{
    match n {
        1 => Some(Slice::Xs),
        2 => Some(Slice::Ys),
        3 => Some(Slice::Times),
        4 => Some(Slice::Marks),
        5 => Some(Slice::AllColumns),
        6 => Some(Slice::Floats),
        7 => Some(Slice::Words),
        8 => Some(Slice::SecondOutput),
        9 => Some(Slice::Labels),
        _ => None,
    }
}

// Reads the settings, the trace asked for, the length of the output slices, the short slice, the traces, those fitted, and the fixes of these.
#[tactic(auto, unfolding(replay::specs::Numbers::number_at, replay::specs::Numbers::skip))]
pub fn read_head(list: &mut Numbers) -> Head
    ensures read { HeadRead list.old.text.now list.old.at result list.new.at }
    ensures text { list.new.text ≡ list.old.text }
{
    let config = replay_case::read_settings(list);
    let trace = list.next_size();
    let room = list.next_size();
    let short = slice_of(list.next_number());
    let traces = list.next_size();
    let fitted = list.next_size();
    let until = list.next_size();
    Head {
        config,
        fitted,
        until,
        trace,
        room,
        short,
        traces,
    }
}
