// Two passes over a run table, one run at a time: what scans a slice of run structs holds a `Turns` and hands it run
// after run. Ported from src/preprocessing/spectrum_fitter.rs of bacpop/sparrowhawk-asm, f1f8af1232, Apache-2.0; ported
// and changed: a turn takes a run by value.
ghost use Rattle.std.specs.Prelude.{◌≡◌, ◌<◌, length, drop};
ghost use Rattle.meaning.specs.Answers.{reply_of};
ghost use Rattle.meaning.specs.Onward.{onward};
ghost use Rattle.fitter.specs.Settling.{finish_of};
ghost use Rattle.fitter.specs.Retrying.{table_from};
ghost use Rattle.fitter.specs.Runs.{run_from};
ghost use Rattle.fitter.specs.Turns.{empty_settled, begin_of, second_from, first_stands, first_turn, second_turn};
ghost use Rattle.fitter.specs.Turns.{turn_of, turn_stands, turned_of, unsettled_in};

use crate::attempts::FitAttempt;
use crate::judging::retry_run;
use crate::runs::{LentRun, Run};
use crate::settling::{Settled, attempt_refusal, finish, settle, unheld, with_held};
use crate::surveys::{Survey, no_survey, survey_run};
use meaning::refusals::Refusal;
use models::families::list_length;
use models::problems::Problem;

#[derive(Clone, Copy)]
pub struct Turns {
    // The position of the run that the next turn takes; `runs` where none is left.
    pub next: usize,
    // How many runs there are.
    pub runs: usize,
    // The first pass is done, and `settled` is what it was settled to.
    pub surveyed: bool,
    pub survey: Survey,
    pub settled: Result<Settled, Refusal>,
}

// What an attempt over no runs is settled to; `room` is the length of the shelf's table.
pub(crate) fn settle_empty(bins: &[u32], setup: Problem, room: usize) -> Result<Settled, Refusal>
    ensures { reply_of result ≡ empty_settled bins.now setup room }
{
    attempt_refusal(bins, setup, 0, no_survey(), room)?;
    Ok(unheld(setup))
}

// Before the first turn.
pub(crate) fn begin_turns(bins: &[u32], setup: Problem, runs: usize, room: usize) -> Turns
    ensures { turned_of result ≡ begin_of bins.now setup runs room }
{
    Turns {
        next: 0,
        runs,
        surveyed: runs == 0,
        survey: no_survey(),
        settled: settle_empty(bins, setup, room),
    }
}

// Where the second pass begins; behind the last run where none is needed.
fn second_from(settled: Result<Settled, Refusal>, runs: usize) -> usize
    ensures { result ≡ second_from (unsettled_in (reply_of settled)) runs }
{
    match settled {
        Ok(s) if s.unsettled => 0,
        _ => runs,
    }
}

// A turn of the first pass; behind the last run the attempt is settled. That a run is left stands in the contract of
// each turn, and is no invariant of the state: the state behind the last run has none.
pub(crate) fn survey_turn(
    t: Turns,
    run: Run,
    bins: &[u32],
    setup: Problem,
    lists: &[f64],
    table: &mut [f64],
) -> Turns
    requires { t.next < t.runs }
    ensures value { turned_of result ≡ first_turn bins.now setup lists.now (length table.old) run (turned_of t) }
    ensures table_unchanged { drop (first_stands setup (turned_of result)) table.new
        ≡ drop (first_stands setup (turned_of result)) table.old }
{
    let wanted = list_length(setup.error, setup.genome);
    let survey = survey_run(t.survey, t.next, run, lists.len(), wanted);
    let next = t.next + 1;
    if next < t.runs {
        return Turns {
            next,
            surveyed: false,
            survey,
            ..t
        };
    }
    let settled = settle(bins, setup, t.runs, survey, lists, table);
    Turns {
        next: second_from(settled, t.runs),
        runs: t.runs,
        surveyed: true,
        survey,
        settled,
    }
}

// A turn of the second pass.
pub(crate) fn retry_turn(
    t: Turns,
    run: Run,
    bins: &[u32],
    setup: Problem,
    lists: &[f64],
    table: &mut [f64],
) -> Turns
    requires { t.next < t.runs }
    ensures value { turned_of result ≡ second_turn bins.now setup lists.now (length table.old) run (turned_of t) }
    ensures table_unchanged { drop (table_from setup) table.new ≡ drop (table_from setup) table.old }
{
    let settled = match t.settled {
        Ok(s) => {
            let held = retry_run(s.held, t.next, run, bins, setup, lists, table);
            Ok(with_held(s, held))
        }
        Err(refusal) => Err(refusal),
    };
    Turns {
        next: t.next + 1,
        surveyed: true,
        settled,
        ..t
    }
}

// One turn: the run at `t.next`.
pub(crate) fn turn(
    t: Turns,
    lent: LentRun,
    bins: &[u32],
    setup: Problem,
    lists: &[f64],
    table: &mut [f64],
) -> Turns
    requires { t.next < t.runs }
    ensures value { turned_of result
        ≡ turn_of bins.now setup lists.now (length table.old) (run_from lent) (turned_of t) }
    ensures table_unchanged { drop (turn_stands setup (turned_of t) (turned_of result)) table.new
        ≡ drop (turn_stands setup (turned_of t) (turned_of result)) table.old }
{
    let run = Run::from(lent);
    if t.surveyed {
        return retry_turn(t, run, bins, setup, lists, table);
    }
    survey_turn(t, run, bins, setup, lists, table)
}

// Behind the last turn.
pub(crate) fn end_turns(t: Turns) -> Result<FitAttempt, Refusal>
    ensures { reply_of result ≡ onward (finish_of t.survey) (reply_of t.settled) }
{
    Ok(finish(t.settled?, t.survey))
}
