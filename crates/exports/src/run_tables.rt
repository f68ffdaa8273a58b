// Attempts over a run table, as C has them: the table is six arrays, and has as many runs as the shortest of them.
ghost use Rattle.std.specs.Prelude.{◌≡◌, length, drop};
ghost use Rattle.meaning.specs.Answers.{reply_of};
ghost use Rattle.fitter.specs.Attempting.{attempt_from, stands_from};
ghost use Rattle.fitter.specs.Columns.{count_of_runs, run_of};
ghost use Rattle.exports.specs.FlatTables.{of_attempt, empty_attempt, setup_of, say_attempt};

use crate::answers::number_in;
use crate::fits::flat_fit;
use crate::flat_attempts::FlatAttempt;
use crate::verdicts::rejection_number;
use fitter::attempting::attempt_from_numbers;
use fitter::attempts::{FitAttempt, make_attempt};
use meaning::flags::byte_of;
use meaning::refusals::Refusal;
use models::families::{ErrorModel, GenomeModel};
use models::problems::Problem;
use models::unpacking::empty_fit;

#[repr(C)]
#[derive(Clone, Copy)]
pub struct FlatAttemptAnswer {
    pub number: u8,
    pub attempt: FlatAttempt,
}

#[tactic(auto, unfolding(crate::specs::FlatTables::of_attempt))]
fn flat_attempt(attempt: FitAttempt) -> FlatAttempt
    ensures { result ≡ of_attempt attempt }
{
    FlatAttempt {
        error_model: u8::from(attempt.error_model),
        genome_model: u8::from(attempt.genome_model),
        has_candidate: byte_of(attempt.candidate.is_some()),
        candidate: flat_fit(attempt.candidate.unwrap_or(empty_fit())),
        rejection_present: byte_of(attempt.rejection.is_some()),
        rejection: rejection_number(attempt.rejection),
        total_iterations: attempt.total_iterations,
        capped_starts: attempt.capped_starts,
    }
}

// The attempt beside a number.
fn empty_attempt() -> FitAttempt
    ensures { result ≡ empty_attempt }
{
    let error = ErrorModel::FreeSingletonWeibull;
    let genome = GenomeModel::NegativeBinomial;
    make_attempt(error, genome, false, empty_fit(), None, 0, 0)
}

#[tactic(auto, unfolding(crate::specs::FlatTables::say_attempt))]
pub(crate) fn flat_attempt_answer(answer: Result<FitAttempt, Refusal>) -> FlatAttemptAnswer
    ensures { result ≡ say_attempt (reply_of answer) }
{
    FlatAttemptAnswer {
        number: number_in(answer),
        attempt: flat_attempt(answer.unwrap_or(empty_attempt())),
    }
}

pub(crate) fn setup_of(
    scale: f64,
    window_end: usize,
    valley: usize,
    peak: usize,
    error: u8,
    genome: u8,
    mass_limit: f64,
) -> Problem
    ensures { result ≡ setup_of scale window_end valley peak error genome mass_limit }
{
    Problem {
        scale,
        window_end,
        valley,
        peak,
        error: ErrorModel::from(error),
        genome: GenomeModel::from(genome),
        mass_limit,
    }
}

#[tactic(auto, unfolding(crate::specs::FlatTables::say_attempt))]
pub fn fog_attempt_from_numbers(
    bins: &[u32],
    scale: f64,
    window_end: usize,
    valley: usize,
    peak: usize,
    error: u8,
    genome: u8,
    mass_limit: f64,
    converged: &[u8],
    costs: &[f64],
    places: &[usize],
    lengths: &[usize],
    iterations: &[u64],
    caps: &[u8],
    lists: &[f64],
    table: &mut [f64],
) -> FlatAttemptAnswer
    ensures value { result
        ≡ say_attempt (attempt_from bins.now (setup_of scale window_end valley peak error genome
        mass_limit) lists.now (length table.old) (run_of converged.now costs.now places.now
        lengths.now iterations.now caps.now) (count_of_runs converged.now costs.now
        places.now lengths.now iterations.now caps.now)) }
    ensures table_unchanged { drop (stands_from (setup_of scale window_end valley peak error genome mass_limit)
        result.number)
        table.new
        ≡ drop (stands_from (setup_of scale window_end valley peak error genome mass_limit) result.number)
        table.old }
{
    let setup = setup_of(scale, window_end, valley, peak, error, genome, mass_limit);
    let answer = attempt_from_numbers(
        bins, setup, converged, costs, places, lengths, iterations, caps, lists, table,
    );
    flat_attempt_answer(answer)
}
