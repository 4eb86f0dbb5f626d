// The program `stops`: reads a text in the house form on standard input, and prints the labels, a line for each fix, or the refusal.
#![tactic(auto)]

use reply::Form;

fn main(rt: HostRuntime) {
    program::run(&mut rt.stdin(), Form::Lines);
}
