// The program `sheet`: reads a text in the house form on standard input, and prints the labels as a posting sheet, or the refusal.
#![tactic(auto)]

use reply::Form;

fn main(rt: HostRuntime) {
    program::run(&mut rt.stdin(), Form::Sheet);
}
