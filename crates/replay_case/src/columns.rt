// The fixes of a case, read into arrays of a fixed size.
ghost use Rattle.std.specs.Prelude.{◌≡◌, replicate};
ghost use Rattle.std.specs.Float.{binary64};
ghost use Rattle.std.specs.Float.Ieee.{of_bits};
ghost use Rattle.replay_case.specs.Case.{FixesRead};

use replay::Numbers;
use trace::columns::Columns;

// Reads n fixes into columns that are lent; for those past N there is no room.
// Kept as it is: beside `read_columns`, whose columns are handed back by value and so are copied, 1.6 MB of them for 65,537 fixes. Here the caller's are written.
pub fn fill_columns<const N: usize>(list: &mut Numbers, n: usize, columns: &mut Columns<N>)
    ensures read { FixesRead list.old.text.now list.old.at n
        columns.old.xs columns.old.ys columns.old.times columns.old.marks
        columns.new.xs columns.new.ys columns.new.times columns.new.marks list.new.at }
    ensures text { list.new.text ≡ list.old.text }
{
    crate::read_fixes(
        list,
        n,
        &mut columns.xs,
        &mut columns.ys,
        &mut columns.times,
        &mut columns.marks,
    );
}

// Reads n fixes; for those past N there is no room, and past those that are read all is 0.
pub fn read_columns<const N: usize>(list: &mut Numbers, n: usize) -> Columns<N>
    ensures read { FixesRead list.old.text.now list.old.at n
        (replicate N (of_bits binary64 0)) (replicate N (of_bits binary64 0)) (replicate N (of_bits binary64 0)) (replicate N 0)
        result.xs result.ys result.times result.marks list.new.at }
    ensures text { list.new.text ≡ list.old.text }
{
    let mut read = Columns::<N>::filled(0.0, 0);
    fill_columns(list, n, &mut read);
    read
}
