// Replays a list of cases `r1 min_size min_staying_time max_time_between resolution n` and n times `x y mark time`, floats as their bits. Prints,
// for each case, the stay number of each fix, the number of stays, and the bits of each stay's median on the grid.
// Kept as it is: arrays of fixed size, of which a part is lent, since the project's memory is fixed and it takes no heap.
#![tactic(auto)]

ghost use Rattle.std.specs.Prelude.{length};
ghost use Rattle.replay_stay.specs.Steps.{Room};

use replay::Numbers;
use settings::config::Config;
use trace::Trace;
use trace::columns::Columns;

// Prints the answer for a trace, worked out in a slice of 1,600 numbers.
fn print_stays(s: Config, t: Trace, work: &mut [f64], events: &mut [i32])
    requires { Room (length t.xs.now) (length work.old) (length events.old) }
{
    let k = stay::stays(t, s, work, 0, events);
    for &event in events.iter() {
        replay::print_label(event);
        replay::space();
    }
    replay::print_number(k as u64);
    if k <= 400 {
        replay::print_points(stay::all::medians(work, 400, k));
    }
    replay::line_end();
}

// Reads the settings of a case. Stays do not look at those that it leaves out.
fn read_settings(list: &mut Numbers) -> Config {
    Config {
        r1: list.next_float(),
        min_size: list.next_size(),
        min_staying_time: list.next_float(),
        max_time_between: list.next_float(),
        min_spatial_resolution: list.next_float(),
        r2: 10.0,
        label_singleton: true,
        seed: 42,
    }
}

// Answers a case. A trace has at most 400 fixes.
fn answer(list: &mut Numbers) {
    let settings = read_settings(list);
    let n = list.next_size();
    if 400 < n {
        return;
    }
    let mut fixes = Columns::<400>::filled(0.0, 0);
    replay_case::columns::fill_columns(list, n, &mut fixes);
    let mut work = [0.0f64; 1600];
    let mut events = [0i32; 400];
    print_stays(settings, fixes.first(n), &mut work, &mut events[..n]);
}

fn main() {
    replay::each_case(answer);
}
