// What a fit hands back.
use crate::model::Infostop;
use infomap::Mark;
use settings::refusal::Refusal;

// The mark and the rounds of the kept trial.
// Kept as it is: no `From<Kept>`: it is made in one place, of two of the three things that `Kept` has.
#[derive(Clone, Copy, Debug, PartialEq, Eq)]
pub struct Labelled {
    pub mark: Mark,
    pub rounds: u32,
}

// The answer, or the refusal, and the model.
// Kept as it is: the model stands beside the answer, and not in it, since the rules have it by value (docs/DECISIONS.md, "Forms"), and who lent it gets it
// back of a refusal too.
#[derive(Clone, Copy, Debug, PartialEq)]
pub struct Fit {
    pub answer: Result<Labelled, Refusal>,
    pub model: Infostop,
}
