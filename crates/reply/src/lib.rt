// From a text in the house form to the text of the answer: parser, fit and printer together.
// Kept as it is: arrays of fixed size, of which a part is lent, since the project's memory is fixed and it takes no heap.
#![tactic(auto)]

ghost use Rattle.std.specs.Prelude.{List, ℕ};
ghost use Rattle.print.specs.Written.{Writes};
ghost use Rattle.posting.specs.Steps.{SheetWithin};
ghost use Rattle.reply.specs.Program.{labels_as, program_text, columns_of, FromText, Answers};
ghost use Rattle.reply.specs.Steps.{Room, fit_text};

use crate::arrays::Arrays;
use infostop::model::Infostop;
use settings::refusal::Refusal;
use text::Input;
use trace::Tracks;

pub mod arrays;

// How labels are printed: a line for each fix, as the program `stops` does, or as a posting sheet, as the program `sheet` does.
// Kept as it is: an enum with one match (`print`) is today's form of such a switch; a closure in its place would have to be handed from the programs'
// `main` through `run` and `answer_input` to `answer`, and `program_text`, which the theorems on whole programs speak of, would take a function for a name.
#[derive(Clone, Copy, Debug, PartialEq, Eq)]
pub enum Form {
    Lines,
    Sheet,
}

impl Form {
    // The labels in the form. That they fit the columns of a sheet is asked for in both.
    #[tactic(auto, unfolding(crate::specs::Program::labels_as))]
    fn print(self, lens: &[u32], labels: &[i32], out: &mut [u8]) -> usize
        requires { SheetWithin lens.now labels.now }
        ensures { Writes (labels_as self lens.now labels.now) out.old result out.new }
    {
        match self {
            Form::Lines => print::print_labels(lens, labels, out),
            Form::Sheet => posting::write_sheet(lens, labels, out),
        }
    }
}

// The fit of the first fixes and traces of what was read, and its answer as a text.
fn fit_text(form: Form, input: Input, read: Tracks, out: &mut [u8]) -> usize
    requires { Room input (columns_of read) }
    ensures { Writes (fit_text form input (columns_of read.entry)) out.old result out.new }
{
    let n = input.fixes;
    let lens = &read.lens[..input.traces];
    let tracks = Tracks {
        xs: &read.xs[..n],
        ys: &read.ys[..n],
        times: &read.times[..n],
        marks: &read.marks[..n],
        lens,
    };
    let model = Infostop::from_config(input.config).model;
    let mut labels = [-1; 768];
    let mut floats = [0.0; 7168];
    let mut words = [0; 3584];
    let fit = model.fit_predict_many(tracks, &mut labels[..n], 64, &mut floats, &mut words);
    match fit.answer {
        Ok(_) => form.print(lens, &labels[..n], out),
        Err(e) => print::print_refusal(e, out),
    }
}

// The answer to what was read, as a text.
pub fn answer(form: Form, p: Result<Input, Refusal>, read: Tracks, out: &mut [u8]) -> usize
    requires { (t : List ℕ) × FromText t p (columns_of read) }
    ensures { Answers form p (columns_of read.entry) out.old result out.new }
{
    match p {
        Ok(input) => fit_text(form, input, read, out),
        Err(e) => print::print_refusal(e, out),
    }
}

// The answer to a text.
pub fn reply(form: Form, text: &[u8], out: &mut [u8]) -> usize
    ensures { Writes (program_text form text.now) out.old result out.new }
{
    let mut read = Arrays::<768>::filled(0.0, 0, 0);
    let r = text::feed(
        text::start(),
        text,
        &mut read.fixes.xs,
        &mut read.fixes.ys,
        &mut read.fixes.times,
        &mut read.fixes.marks,
        &mut read.lens,
    );
    let p = text::finish(r);
    answer(form, p, read.tracks(), out)
}
