// For the programs that run fits: settings, trace lengths and fixes, read from a list of cases, and a refusal printed.
#![tactic(auto)]

ghost use Rattle.std.specs.Prelude.{◌≡◌, min};
ghost use Rattle.trace.specs.Trace.{total};
ghost use Rattle.replay.specs.Numbers.{value_at, past};
ghost use Rattle.replay_case.specs.Case.{settings_at, mark_of, LensRead, FixesRead};

use lists::put;
use replay::Numbers;
use settings::config::Config;
use settings::refusal::Refusal;

pub mod columns;
pub mod lens;

// Reads `r1 r2 single stay gap size resolution seed`, floats as their bits.
#[tactic(auto, unfolding(crate::specs::Case::settings_at, crate::specs::Case::float_at, replay::specs::Numbers::number_at, replay::specs::Numbers::skip))]
pub fn read_settings(list: &mut Numbers) -> Config
    ensures value { result ≡ settings_at list.old.text.now list.old.at }
    ensures place { list.new ≡ past list.old 8 }
{
    Config {
        r1: list.next_float(),
        r2: list.next_float(),
        label_singleton: list.next_number() == 1,
        min_staying_time: list.next_float(),
        max_time_between: list.next_float(),
        min_size: list.next_size(),
        min_spatial_resolution: list.next_float(),
        seed: list.next_number(),
    }
}

// Reads a time mark: 255 for every number that is larger.
pub fn next_mark(list: &mut Numbers) -> u8
    ensures value { result ≡ mark_of (value_at list.old.text.now list.old.at) }
    ensures place { list.new ≡ past list.old 1 }
{
    u8::try_from(list.next_number()).unwrap_or(u8::MAX)
}

// Reads as many trace lengths as the slice is long.
#[tactic(auto, using(crate::proofs::Read::filled_none, crate::proofs::Read::filled_one_more, replay::proofs::Past::past_more, replay::proofs::Past::past_none), unfolding(replay::specs::Numbers::number_at))]
pub fn read_lens(list: &mut Numbers, lens: &mut [u32])
    ensures read { LensRead list.old.text.now list.old.at lens.old lens.new list.new.at }
    ensures text { list.new.text ≡ list.old.text }
{
    for len in lens {
        *len = u32::try_from(list.next_number()).unwrap_or(u32::MAX);
    }
}

// The number of fixes of traces of these lengths: 65,537 for every larger one, since no fit takes so many.
#[tactic(auto, using(crate::proofs::Read::sum_on, crate::proofs::Read::sum_done))]
pub fn fix_count(lens: &[u32]) -> usize
    ensures { result ≡ min (total lens.now) 65537 }
{
    let mut count = 0;
    for &len in lens {
        count = (count + len as usize).min(65537);
    }
    count
}

// Reads n fixes, `x y mark time` each, into the slices. What a slice has no room for is passed over.
// Kept as it is: four slices, of any lengths, as the promise of this function has them; `columns::read_columns` reads into a struct that it makes.
#[tactic(auto, using(crate::proofs::Read::filled_none, crate::proofs::Read::filled_one_more, crate::proofs::Read::skip_y, crate::proofs::Read::skip_mark, crate::proofs::Read::skip_time, crate::proofs::Read::skip_fix), unfolding(replay::specs::Numbers::number_at, crate::specs::Case::float_at))]
pub fn read_fixes(
    list: &mut Numbers,
    n: usize,
    xs: &mut [f64],
    ys: &mut [f64],
    times: &mut [f64],
    marks: &mut [u8],
)
    ensures read { FixesRead list.old.text.now list.old.at n xs.old ys.old times.old marks.old
        xs.new ys.new times.new marks.new list.new.at }
    ensures text { list.new.text ≡ list.old.text }
{
    for i in 0..n {
        put(xs, i, list.next_float());
        put(ys, i, list.next_float());
        put(marks, i, next_mark(list));
        put(times, i, list.next_float());
    }
}

// Prints the number of the refusal and its trace, or `0 0`.
// Kept as it is: (0, 0) where there is none, since a list has two numbers for each answer, and no refusal has the number 0. They are for print alone: who
// asks whether there is a refusal has the `Result`.
pub fn print_answer<T>(answer: &Result<T, Refusal>) {
    let (number, trace) = match answer {
        Ok(_) => (0, 0),
        Err(e) => (settings::refusal::number(*e), settings::refusal::trace(*e)),
    };
    replay::print_number(u64::from(number));
    replay::space();
    replay::print_number(trace as u64);
}
