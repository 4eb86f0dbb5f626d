// Replays a list of texts in the program's form, damaged ones among them. A text is its number of bytes, a line feed, the bytes and a line feed.
// Prints the answer to each, and an empty line.
// Kept as it is: arrays of fixed size, of which a part is lent, since the project's memory is fixed and it takes no heap.
#![tactic(auto)]

use replay::{Numbers, STDOUT_FILENO};
use reply::Form;

fn print_reply(text: &[u8]) {
    let mut out = [0u8; 49152];
    let n = reply::reply(Form::Lines, text, &mut out);
    io::write_all(STDOUT_FILENO, &out[..n]);
    replay::line_end();
}

fn answer(list: &mut Numbers) {
    if let Some(text) = list.next_text() {
        print_reply(text);
    }
}

fn main() {
    replay::each_case(answer);
}
