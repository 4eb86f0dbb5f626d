// Standard input, read to its end in pieces of up to 65,536 bytes, whatever its length. A call of `read` that fails is not the end: the text is then
// refused (22). No contract can name what a call gave, so it is said of each call by itself (`take_piece`, exactly) and of the calls together (`read_input`).
// Kept as it is: each function takes the columns as five slices. In a struct lent by `&mut` each of them, and the loop, would have to say of all five that
// they are still the caller's (`c.new.xs.ghost_name ≡ c.old.xs.ghost_name` and so on), as is told at `feed` of crate `text`; a struct that owns arrays
// would ask for arrays of its size, where these take slices of any length. Messages go to standard error by `io` and its number: `eprint!` and
// `write_all` take `rt.stderr()`, a handle by itself, which each function on the way to `finish` would be handed besides the handle that is read by.
#![tactic(auto)]

ghost use Rattle.std.specs.Prelude.{◌≡◌, List};
ghost use Rattle.std.specs.Result.{result_ok};
ghost use Rattle.text.specs.Values.{columns};
ghost use Rattle.input.specs.Calls.{Call, next_of, Taken, heard, ReadFrom};
ghost use Rattle.input.specs.Steps.{Took, Told, Ends};

use settings::refusal::Refusal;
use std::io::Read;
use text::{Input, Reader};

const STDERR_FILENO: i32 = 2;

// What a call of `read` told: there may be more, the input has ended, or the call has failed.
#[derive(Clone, Copy, Debug, PartialEq, Eq)]
pub enum Next {
    More,
    End,
    Failed,
}

// What is read so far, and what the last call told.
#[derive(Clone, Copy, Debug, PartialEq, Eq)]
pub struct Piece {
    pub reader: Reader,
    pub next: Next,
}

// Kept as it is: no `From`, since `Next` is not the count in another form: it is what the rules make of 0, of more, and of a call that failed.
#[tactic(auto, unfolding(crate::specs::Calls::next_of))]
fn next_of(got: Option<usize>) -> Next
    ensures { result ≡ next_of got }
{
    match got {
        Some(0) => Next::End,
        Some(_) => Next::More,
        None => Next::Failed,
    }
}

// Takes what a call of `read` gave: what it told, how many bytes or that it failed, and the buffer as the call left it.
#[tactic(auto, using(crate::proofs::Joined::first_given))]
pub fn take_piece(
    told: std::io::Result<usize>,
    buf: &[u8],
    r: Reader,
    xs: &mut [f64],
    ys: &mut [f64],
    times: &mut [f64],
    marks: &mut [u8],
    lens: &mut [u32],
) -> Piece
    ensures { Taken (result_ok told) buf.now r (columns xs.old ys.old times.old marks.old lens.old)
        result (columns xs.new ys.new times.new marks.new lens.new) }
{
    let got = told.ok();
    let n = got.unwrap_or(0).min(buf.len());
    let q = text::feed(r, &buf[..n], xs, ys, times, marks, lens);
    Piece {
        reader: q,
        next: next_of(got),
    }
}

// Reads once, and takes what came.
fn read_piece<R: Read>(
    stdin: &mut R,
    r: Reader,
    xs: &mut [f64],
    ys: &mut [f64],
    times: &mut [f64],
    marks: &mut [u8],
    lens: &mut [u32],
) -> Piece
    ensures { (g : Call) ×
        Took g r (columns xs.old ys.old times.old marks.old lens.old)
        result (columns xs.new ys.new times.new marks.new lens.new) }
{
    let mut buf = io::large_buffer();
    let told = stdin.read(&mut buf);
    take_piece(told, &buf, r, xs, ys, times, marks, lens)
}

// Reads until a call gives no more. An input that has not ended after 2^64 - 1 calls counts as failed.
#[tactic(auto, using(crate::proofs::Joined::so_far_start, crate::proofs::Joined::told_spent))]
fn read_pieces<R: Read>(
    stdin: &mut R,
    xs: &mut [f64],
    ys: &mut [f64],
    times: &mut [f64],
    marks: &mut [u8],
    lens: &mut [u32],
) -> Piece
    ensures { (gs : List Call) ×
        Told (columns xs.old ys.old times.old marks.old lens.old)
        gs result (columns xs.new ys.new times.new marks.new lens.new) }
{
    let mut r = text::start();
    for _ in 0..u64::MAX {
        let p = read_piece(stdin, r, xs, ys, times, marks, lens);
        match p.next {
            Next::More => r = p.reader,
            Next::End | Next::Failed => return p,
        }
    }
    Piece {
        reader: r,
        next: Next::Failed,
    }
}

// What was read, if the last call told that the input has ended; otherwise standard error says that the input was not read to its end.
#[tactic(auto, using(crate::proofs::Joined::ends_whole, crate::proofs::Joined::ends_broken))]
fn finish(p: Piece) -> Result<Input, Refusal>
    ensures { Ends p result }
{
    match p.next {
        Next::End => text::finish(p.reader),
        Next::More | Next::Failed => {
            io::write_all(STDERR_FILENO, b"the input could not be read to its end\n");
            Err(Refusal::Text)
        }
    }
}

// Reads standard input to its end, into these columns.
pub fn read_input<R: Read>(
    stdin: &mut R,
    xs: &mut [f64],
    ys: &mut [f64],
    times: &mut [f64],
    marks: &mut [u8],
    lens: &mut [u32],
) -> Result<Input, Refusal>
    ensures { (gs : List Call) ×
        ReadFrom (heard gs) (columns xs.old ys.old times.old marks.old lens.old)
        result (columns xs.new ys.new times.new marks.new lens.new) }
{
    let p = read_pieces(stdin, xs, ys, times, marks, lens);
    finish(p)
}
