// What the programs `stops` and `sheet` share: standard input, read to its end whatever its length, is answered with the labels in the program's form or
// with the refusal. A failed read is refused with 22, and a failed write is said on standard error.
// Kept as it is: arrays of fixed size, since the project's memory is fixed and it takes no heap.
#![tactic(auto)]

ghost use Rattle.std.specs.Prelude.{◌≡◌, length};
ghost use Rattle.reply.specs.declared.Form.{Form as Form-as-Form};
ghost use Rattle.program.specs.Answer.{Answer, Answered};

use reply::Form;
use reply::arrays::Arrays;
use std::io::Read;

// Kept as it is: what is printed goes by `io` and a stream's number. `rt.print` and `print!` are for what has `Display`, which bytes that may be cut short
// have not; `write_all` of `rt.stdout()` and of `rt.stderr()` would take a handle of each stream through `run` and `write_answer`, and answer a Result to
// match, where `io::write_all` tells by a bool.
const STDOUT_FILENO: i32 = 1;

const STDERR_FILENO: i32 = 2;

// Reads standard input to its end, and puts the answer into `out`. Hands back how many bytes it has.
pub fn answer_input<R: Read>(stdin: &mut R, form: Form, out: &mut [u8]) -> usize
    requires { length out.old ≡ 49152 }
    ensures { Answered form out.new result }
{
    let mut read = Arrays::<768>::filled(0.0, 0, 0);
    let p = input::read_input(
        stdin,
        &mut read.fixes.xs,
        &mut read.fixes.ys,
        &mut read.fixes.times,
        &mut read.fixes.marks,
        &mut read.lens,
    );
    reply::answer(form, p, read.tracks(), out)
}

// Writes the answer, and says so where that fails. That it asks for an answer is for `run`, which can hand it nothing else.
pub fn write_answer(answer: &[u8])
    requires { (form : Form-as-Form) × Answer form answer.now }
{
    if !io::write_all(STDOUT_FILENO, answer) {
        io::write_all(STDERR_FILENO, b"the answer could not be written\n");
    }
}

// A program whose answers have this form: it reads standard input, and writes the answer.
pub fn run<R: Read>(stdin: &mut R, form: Form) {
    let mut out = [0u8; 49152];
    let n = answer_input(stdin, form, &mut out);
    write_answer(&out[..n]);
}
