// What an attempt comes to once its run table was gone through: a refusal, the run of least cost where it is valid, or
// a second look at the others. Ported from src/preprocessing/spectrum_fitter.rs of bacpop/sparrowhawk-asm, f1f8af1232,
// Apache-2.0; ported and changed: what can't be used is refused by number.
ghost use Rattle.std.specs.Prelude.{◌≡◌, length, drop};
ghost use Rattle.meaning.specs.Answers.{reply_of, number_in};
ghost use Rattle.meaning.specs.Reply.{first_of};
ghost use Rattle.fitter.specs.Attempting.{survey_tests, stands_from};
ghost use Rattle.fitter.specs.Settling.{no_held, failed_attempt, kept_attempt, unheld_by, with_held};
ghost use Rattle.fitter.specs.Settling.{settle_of, finish_of};

use crate::attempts::{FitAttempt, make_attempt};
use crate::judging::{Held, JudgedFit, is_unrejected, judge_run};
use crate::rejections::FitRejection;
use crate::surveys::{Best, Survey, no_run};
use crate::validation::bad_limit;
use meaning::limits::MOST;
use meaning::refusals::Refusal;
use models::problems::Problem;
use models::refusals::{spectrum_refusal, table_refusal};
use models::unpacking::empty_fit;

// The first refusal of 1, 2, 4, 5, 6, 7, 9, 10 that applies to `runs` runs of that survey.
#[tactic(auto, unfolding(crate::specs::Attempting::setup_tests, models::specs::Refusals::bins_tests, models::specs::Refusals::spectrum_tests))]
pub(crate) fn attempt_refusal(
    bins: &[u32],
    setup: Problem,
    runs: usize,
    survey: Survey,
    room: usize,
) -> Result<(), Refusal>
    ensures { number_in result ≡ first_of (survey_tests bins.now setup runs survey room) }
{
    let peak = setup.peak;
    let valley = setup.valley;
    let end = setup.window_end;
    if peak < 2 || valley < 2 || bins.len() < 2 {
        return Err(Refusal::TooSmall);
    }
    if bins.len() > MOST || peak > MOST || valley > MOST || end > MOST || runs > MOST {
        return Err(Refusal::TooLarge);
    }
    spectrum_refusal(bins, setup.scale, end)?;
    if survey.wrong {
        return Err(Refusal::WrongLength);
    }
    if survey.bad || bad_limit(setup.mass_limit) {
        return Err(Refusal::WrongLimitOrCost);
    }
    table_refusal(setup.genome, end, room)
}

// No run converged.
pub(crate) fn failed_attempt(setup: Problem, survey: Survey) -> FitAttempt
    ensures { result ≡ failed_attempt setup survey }
{
    make_attempt(
        setup.error,
        setup.genome,
        false,
        empty_fit(),
        Some(FitRejection::OptimisationFailed),
        survey.iterations,
        survey.capped,
    )
}

// The run that is kept.
pub(crate) fn kept_attempt(setup: Problem, survey: Survey, held: Held) -> FitAttempt
    ensures { result ≡ kept_attempt setup survey held }
{
    let judged = held.judged;
    make_attempt(
        setup.error,
        setup.genome,
        true,
        judged.fit,
        judged.rejection,
        survey.iterations,
        survey.capped,
    )
}

// What nothing was refused of comes to. Where it is `unsettled`, the run held is the one of least cost, and rejected.
#[derive(Clone, Copy)]
pub struct Settled {
    pub unsettled: bool,
    pub setup: Problem,
    pub held: Held,
}

pub(crate) fn no_held() -> Held
    ensures { result ≡ no_held }
{
    Held {
        best: Best {
            run: no_run(),
            position: 0,
        },
        judged: JudgedFit {
            fit: empty_fit(),
            rejection: None,
        },
    }
}

// No run is held.
pub(crate) fn unheld(setup: Problem) -> Settled
    ensures { result ≡ unheld_by setup }
{
    Settled {
        unsettled: false,
        setup,
        held: no_held(),
    }
}

// Behind the first pass over `runs` runs: the refusals, and the run of least cost unpacked and judged.
#[tactic(auto, unfolding(crate::specs::Settling::settle_of))]
pub(crate) fn settle(
    bins: &[u32],
    setup: Problem,
    runs: usize,
    survey: Survey,
    lists: &[f64],
    table: &mut [f64],
) -> Result<Settled, Refusal>
    ensures value { reply_of result ≡ settle_of bins.now setup runs survey lists.now (length table.old) }
    ensures table_unchanged { drop (stands_from setup (number_in result)) table.new
        ≡ drop (stands_from setup (number_in result)) table.old }
{
    attempt_refusal(bins, setup, runs, survey, table.len())?;
    let least = survey.least;
    if !least.run.converged {
        return Ok(unheld(setup));
    }
    let judged = judge_run(bins, setup, least.run, lists, table);
    Ok(Settled {
        unsettled: !is_unrejected(judged.rejection),
        setup,
        held: Held {
            best: least,
            judged,
        },
    })
}

// Behind the second pass.
pub(crate) fn with_held(s: Settled, held: Held) -> Settled
    ensures { result ≡ with_held s held }
{
    Settled { held, ..s }
}

#[tactic(auto, unfolding(crate::specs::Settling::finish_of))]
pub(crate) fn finish(s: Settled, survey: Survey) -> FitAttempt
    ensures { result ≡ finish_of survey s }
{
    if s.held.best.run.converged {
        return kept_attempt(s.setup, survey, s.held);
    }
    failed_attempt(s.setup, survey)
}
