// The verdict on records, before anything is written: the settings and 7 to 10 by the lengths of the slices, 12 to 17 by what the machine says.
ghost use Rattle.std.specs.Prelude.{◌≡◌};
ghost use Rattle.records.specs.Records.{work_floats};
ghost use Rattle.records.specs.StepsJudge.{checks_from};

use crate::judge::Judge;
use checks::Room;
use settings::config::Config;
use settings::refusal::Refusal;

// How many numbers the work slice of floats has for n records: none where columns or marks, of these lengths, are too short.
// Kept as it is: 0 and no `Option`, since 0 is what the entry's own definition `work_floats` gives for columns or marks that are too short.
#[tactic(auto, using(crate::proofs::Steps::no_columns, crate::proofs::Steps::no_marks, crate::proofs::Steps::room), unfolding(crate::specs::Records::work_floats))]
fn work_floats(n: usize, columns: usize, marks: usize, floats: usize) -> usize
    ensures { result ≡ work_floats n columns marks floats }
{
    if columns / 3 < n || marks < n {
        return 0;
    }
    floats
}

// Whether n records are to be taken apart, or the first refusal: the settings; 7 to 10 by the lengths of the lent slices; then 12 to 17, by what the
// machine says of the records. The work slice of floats counts only where columns and marks, of these lengths, hold all records.
// Kept as it is: n, columns and marks are three lengths beside `Room`, which every fit has: they are those of the three slices that the fit of records
// alone is lent, and a struct of them would be made at the one call and taken apart here.
#[tactic(auto, using(checks::proofs::Lengths::counts_few), unfolding(crate::specs::StepsJudge::checks_from, settings::proofs::Turns::turns))]
pub fn decide(
    config: Config,
    judge: Judge,
    n: usize,
    lens: &[u32],
    columns: usize,
    marks: usize,
    room: Room,
) -> Result<(), Refusal>
    ensures { result ≡ checks_from config judge n lens.now room.labels room.places columns marks room.floats room.words }
{
    settings::config::check_config(config)?;
    checks::slices::check_lengths(lens, n, n, n, n, room.labels)?;
    checks::slices::check_counts(lens.len(), n, room.places)?;
    let floats = work_floats(n, columns, marks, room.floats);
    checks::slices::check_work(n, Room { floats, ..room })?;
    judge.contents()
}
