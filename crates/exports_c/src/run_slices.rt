// Attempts over a run table that is an array of run structs, as C has them.
ghost use Rattle.std.specs.Prelude.{◌≡◌, length, drop};
ghost use Rattle.fitter.specs.Attempting.{attempt_from, stands_from};
ghost use Rattle.fitter.specs.Columns.{run_in};
ghost use Rattle.exports.specs.FlatTables.{say_attempt};
ghost use Rattle.exports.specs.FlatSetups.{setup_from};

use exports::run_slices::FlatSetup;
use exports::run_tables::FlatAttemptAnswer;
use fitter::runs::LentRun;

#[unsafe(no_mangle)]
pub extern "C" fn fog_attempt_from(
    bins: &[u32],
    setup: FlatSetup,
    runs: &[LentRun],
    lists: &[f64],
    table: &mut [f64],
) -> FlatAttemptAnswer
    ensures value { result
        ≡ say_attempt (attempt_from bins.now (setup_from setup) lists.now (length table.old)
        (run_in runs.now) (length runs.now)) }
    ensures table_unchanged { drop (stands_from (setup_from setup) result.number) table.new
        ≡ drop (stands_from (setup_from setup) result.number) table.old }
{
    exports::run_slices::fog_attempt_from(bins, setup, runs, lists, table)
}
