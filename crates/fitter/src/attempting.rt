// What one configuration came to, over a run table of six slices of numbers.
// Ported from src/preprocessing/spectrum_fitter.rs of bacpop/sparrowhawk-asm, f1f8af1232, Apache-2.0; ported and
// changed: what can't be used is refused by number.
ghost use Rattle.std.specs.Prelude.{◌≡◌, length, drop};
ghost use Rattle.meaning.specs.Answers.{reply_of, number_in};
ghost use Rattle.fitter.specs.Columns.{count_of_runs, run_of};
ghost use Rattle.fitter.specs.Attempting.{attempt_from, stands_from};

use crate::attempts::FitAttempt;
use crate::run_columns::Columns;
use crate::settling::{finish, settle, with_held};
use meaning::refusals::Refusal;
use models::families::list_length;
use models::problems::Problem;

// The attempt over as many runs as the shortest slice has; 1, 2, 4, 5, 6, 7, 9 or 10 instead. 7 is a converged run's
// list that has the wrong length or does not lie in `lists`; 9 its cost, or the mass limit. A refusal leaves the
// shelf's table as it is, and so does a plain family; else it is written up to the window end.
pub fn attempt_from_numbers(
    bins: &[u32],
    setup: Problem,
    converged: &[u8],
    costs: &[f64],
    places: &[usize],
    lengths: &[usize],
    iterations: &[u64],
    caps: &[u8],
    lists: &[f64],
    table: &mut [f64],
) -> Result<FitAttempt, Refusal>
    ensures value { reply_of result
        ≡ attempt_from bins.now setup lists.now (length table.old)
        (run_of converged.now costs.now places.now lengths.now
        iterations.now caps.now) (count_of_runs converged.now costs.now
        places.now lengths.now iterations.now caps.now) }
    ensures table_unchanged { drop (stands_from setup (number_in result)) table.new
        ≡ drop (stands_from setup (number_in result)) table.old }
{
    let columns = Columns {
        converged,
        costs,
        places,
        lengths,
        iterations,
        caps,
    };
    let wanted = list_length(setup.error, setup.genome);
    let survey = columns.survey(lists.len(), wanted);
    let first = settle(bins, setup, columns.len(), survey, lists, table)?;
    if first.unsettled {
        let held = columns.retry(first.held, bins, setup, lists, table);
        return Ok(finish(with_held(first, held), survey));
    }
    Ok(finish(first, survey))
}
