// Attempts over a run table that is an array of run structs, as C has them.
ghost use Rattle.std.specs.Prelude.{◌≡◌, length, drop};
ghost use Rattle.fitter.specs.Attempting.{attempt_from, stands_from};
ghost use Rattle.fitter.specs.Columns.{run_in};
ghost use Rattle.exports.specs.FlatTables.{say_attempt};
ghost use Rattle.exports.specs.FlatSetups.{setup_from};

use crate::run_tables::{FlatAttemptAnswer, flat_attempt_answer, setup_of};
use fitter::run_table::attempt_from;
use fitter::runs::LentRun;
use models::problems::Problem;

// The numbers of an attempt; the families are bytes.
#[repr(C)]
#[derive(Clone, Copy)]
pub struct FlatSetup {
    pub scale: f64,
    pub window_end: usize,
    pub valley: usize,
    pub peak: usize,
    pub error: u8,
    pub genome: u8,
    pub mass_limit: f64,
}

fn setup_from(setup: FlatSetup) -> Problem
    ensures { result ≡ setup_from setup }
{
    setup_of(
        setup.scale,
        setup.window_end,
        setup.valley,
        setup.peak,
        setup.error,
        setup.genome,
        setup.mass_limit,
    )
}

#[tactic(auto, unfolding(crate::specs::FlatTables::say_attempt))]
pub fn fog_attempt_from(
    bins: &[u32],
    setup: FlatSetup,
    runs: &[LentRun],
    lists: &[f64],
    table: &mut [f64],
) -> FlatAttemptAnswer
    ensures value { result
        ≡ say_attempt (attempt_from bins.now (setup_from setup) lists.now (length table.old)
        (run_in runs.now) (length runs.now)) }
    ensures table_unchanged { drop (stands_from (setup_from setup) result.number) table.new
        ≡ drop (stands_from (setup_from setup) result.number) table.old }
{
    let numbers = setup_from(setup);
    let answer = attempt_from(bins, numbers, runs, lists, table);
    flat_attempt_answer(answer)
}
