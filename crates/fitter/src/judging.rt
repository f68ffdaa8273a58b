// A converged run as a fit, with what speaks against it, and the run that is kept.
// Ported from src/preprocessing/spectrum_fitter.rs of bacpop/sparrowhawk-asm, f1f8af1232, Apache-2.0; ported and
// changed: a search for the least stands for the stable sort.
ghost use Rattle.std.specs.Prelude.{◌≡◌, length, drop};
ghost use Rattle.fitter.specs.Attempts.{unrejected};
ghost use Rattle.fitter.specs.Judging.{judged_fit_of};
ghost use Rattle.fitter.specs.Retrying.{table_from, could_win, retry_step};

use crate::rejections::FitRejection;
use crate::runs::{Run, RunPoint, list_at, run_point};
use crate::surveys::Best;
use crate::validation::judge;
use models::fit::SpectrumFit;
use models::problems::Problem;
use models::unpacking::{empty_fit, unpack};

// A fit, and why it is not used; absent where it is valid.
#[derive(Clone, Copy)]
pub struct JudgedFit {
    pub fit: SpectrumFit,
    pub rejection: Option<FitRejection>,
}

// The run that is kept so far.
#[derive(Clone, Copy)]
pub struct Held {
    pub best: Best,
    pub judged: JudgedFit,
}

pub(crate) fn is_unrejected(rejection: Option<FitRejection>) -> bool
    ensures { result ≡ unrejected rejection }
{
    rejection.is_none()
}

// A run's list as a fit, judged. The shelf's table is written where there is a shelf.
pub(crate) fn judge_run(
    bins: &[u32],
    setup: Problem,
    run: Run,
    lists: &[f64],
    table: &mut [f64],
) -> JudgedFit
    ensures value { result ≡ judged_fit_of bins.now setup lists.now (length table.old) run }
    ensures table_unchanged { drop (table_from setup) table.new ≡ drop (table_from setup) table.old }
{
    let error = setup.error;
    let genome = setup.genome;
    let list = list_at(lists, run.place, run.length);
    let answer = unpack(
        bins,
        setup.scale,
        setup.window_end,
        setup.peak,
        error,
        genome,
        list,
        run.cost,
        run.iterations,
        table,
    );
    // `unpack` refuses no run of an attempt that passed; the empty fit is turned away.
    let fit = answer.unwrap_or(empty_fit());
    JudgedFit {
        fit,
        rejection: judge(fit, setup.valley, setup.peak, setup.mass_limit),
    }
}

// Whether a run of this cost is kept instead, should it be valid.
#[tactic(auto, unfolding(crate::specs::Retrying::could_win))]
fn could_win(held: Held, cost: f64) -> bool
    ensures { result ≡ could_win held cost }
{
    let best = held.best;
    let run = best.run;
    let judged = held.judged;
    let rejection = judged.rejection;
    if is_unrejected(rejection) {
        return cost < run.cost;
    }
    true
}

// One run more, behind the rejected one of least cost: what can't win is not unpacked.
#[tactic(auto, unfolding(crate::specs::Retrying::retry_step))]
pub(crate) fn retry_run(
    held: Held,
    position: usize,
    run: Run,
    bins: &[u32],
    setup: Problem,
    lists: &[f64],
    table: &mut [f64],
) -> Held
    ensures value { result
        ≡ retry_step bins.now setup lists.now (length table.old) position run held }
    ensures table_unchanged { drop (table_from setup) table.new ≡ drop (table_from setup) table.old }
{
    let Some(RunPoint { cost, .. }) = run_point(run) else {
        return held;
    };
    if !could_win(held, cost) {
        return held;
    }
    let judged = judge_run(bins, setup, run, lists, table);
    let rejection = judged.rejection;
    if !is_unrejected(rejection) {
        return held;
    }
    Held {
        best: Best { run, position },
        judged,
    }
}
