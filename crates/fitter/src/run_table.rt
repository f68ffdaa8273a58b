// What one configuration came to, over a run table that is a lent slice of run structs.
// Ported from src/preprocessing/spectrum_fitter.rs of bacpop/sparrowhawk-asm, f1f8af1232, Apache-2.0; ported and
// changed: what can't be used is refused by number.
ghost use Rattle.std.specs.Prelude.{◌≡◌, length, drop};
ghost use Rattle.meaning.specs.Answers.{reply_of, number_in};
ghost use Rattle.fitter.specs.Columns.{run_in};
ghost use Rattle.fitter.specs.Attempting.{attempt_from, stands_from};

use crate::attempts::FitAttempt;
use crate::runs::LentRun;
use crate::turns::{begin_turns, end_turns, turn};
use meaning::refusals::Refusal;
use models::problems::Problem;

// The attempt, or 1, 2, 4, 5, 6, 7, 9 or 10 instead, as `attempt_from_numbers` has it over the table's columns. The
// loop is thin: the work of a turn is `turn`. A while, since each turn says which run is next, and a second pass begins
// again.
pub fn attempt_from(
    bins: &[u32],
    setup: Problem,
    runs: &[LentRun],
    lists: &[f64],
    table: &mut [f64],
) -> Result<FitAttempt, Refusal>
    ensures value { reply_of result
        ≡ attempt_from bins.now setup lists.now (length table.old)
        (run_in runs.now) (length runs.now) }
    ensures table_unchanged { drop (stands_from setup (number_in result)) table.new
        ≡ drop (stands_from setup (number_in result)) table.old }
{
    let mut t = begin_turns(bins, setup, runs.len(), table.len());
    while t.next < runs.len() {
        t = turn(t, runs[t.next], bins, setup, lists, table);
    }
    end_turns(t)
}
