// Replays a list of cases `op x`, x as its bits: op 0 is sqrt, 1 ln, 2 plogp and 3 round. Prints the bits of each answer.
#![tactic(auto)]

use replay::Numbers;

#[derive(Clone, Copy, Debug, PartialEq, Eq)]
enum Op {
    Sqrt,
    Ln,
    Plogp,
    Round,
}

impl From<u64> for Op {
    fn from(n: u64) -> Op {
        match n {
            0 => Op::Sqrt,
            1 => Op::Ln,
            2 => Op::Plogp,
            _ => Op::Round,
        }
    }
}

impl Op {
    // Kept as it is: an enum and a match. A table of the four functions would be a list of function pointers with a number for each.
    fn apply(self, x: f64) -> f64 {
        match self {
            Op::Sqrt => float::sqrt(x),
            Op::Ln => float::ln(x),
            Op::Plogp => float::plogp(x),
            Op::Round => float::rounding::round(x),
        }
    }
}

fn answer(list: &mut Numbers) {
    let op = Op::from(list.next_number());
    let x = list.next_float();
    replay::print_float(op.apply(x));
    replay::line_end();
}

fn main() {
    replay::each_case(answer);
}
