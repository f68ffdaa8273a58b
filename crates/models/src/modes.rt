// Where a fit's error component is highest.
// Ported from src/preprocessing/models.rs of bacpop/sparrowhawk-asm, f1f8af1232, Apache-2.0; ported and changed:
// a window end is refused by number, and so is a NaN among the heights compared.
ghost use Rattle.std.specs.Prelude.{◌≡◌, true, ◌<◌};
ghost use Rattle.std.specs.Float.Ieee.{lt};
ghost use Rattle.routines.specs.Ops.{◌⊕◌, of_count};
ghost use Rattle.helpers.specs.LogSums.{ln_sub_exp_of};
ghost use Rattle.models.specs.Hoists.{log_probability_between};
ghost use Rattle.models.specs.Modes.{later_wins, with_nan, higher_with, highest_of, error_mode_of};
ghost use Rattle.meaning.specs.Answers.{reply_of};

use crate::errors::ErrorParams;
use crate::fit::SpectrumFit;
use helpers::window_ends::window_end;
use meaning::refusals::Refusal;
use routines::ln::ln;

// The highest of the counts so far, and whether one of them was NaN.
#[derive(Clone, Copy)]
struct Standing {
    count: u32,
    log: f64,
    nan: bool,
}

// The order of all numbers that are not NaN, with -0 below +0: 1 / -0 is below 1 / +0.
#[tactic(auto, unfolding(crate::specs::Modes::later_wins))]
fn later_wins(best: f64, here: f64) -> bool
    ensures { result ≡ later_wins best here }
{
    if best < here {
        return true;
    }
    best == here && !(1.0 / here < 1.0 / best)
}

fn with_nan(nan: bool, here: f64) -> bool
    ensures { result ≡ with_nan nan here }
{
    nan || here.is_nan()
}

// `here` is the log probability of `count`.
#[tactic(auto, unfolding(crate::specs::Modes::higher_with))]
fn higher(best: Standing, count: u32, here: f64) -> Standing
    ensures { result ≡ higher_with here count best }
{
    let nan = with_nan(best.nan, here);
    if later_wins(best.log, here) {
        return Standing {
            count,
            log: here,
            nan,
        };
    }
    Standing { nan, ..best }
}

// Whether a count is sure to be below `best`: from 2 on, where the tail's log and the step to the next survival are not
// above 0, its log probability is at most its survival, and no NaN. Test by test: behind one chain of && the check
// leaves the goal of the clause open.
fn outdone(best: f64, ln_tail: f64, count: u32, survival: f64, next: f64) -> bool
    ensures { result ≡ true → (1 < count) × (lt (ln_tail ⊕ ln_sub_exp_of survival next) best ≡ true) }
{
    if count <= 1 {
        return false;
    }
    if !(survival < best) {
        return false;
    }
    if !(ln_tail <= 0.0) {
        return false;
    }
    if survival < next {
        return false;
    }
    next - survival <= 0.0
}

// The best with one more count. Its log probability is worked out only where it may win.
fn step(
    best: Standing,
    p: ErrorParams,
    ln_tail: f64,
    count: u32,
    survival: f64,
    next: f64,
) -> Standing
    ensures { result ≡ higher_with (log_probability_between p ln_tail (of_count count) survival next) count best }
{
    if outdone(best.log, ln_tail, count, survival, next) {
        return best;
    }
    let here = p.log_probability_between(ln_tail, count as f64, survival, next);
    higher(best, count, here)
}

// The survival of the next count is that count's own.
fn highest(p: ErrorParams, top: u16) -> Standing
    ensures { result ≡ highest_of p top }
{
    let mut best = Standing {
        count: 1,
        log: f64::NEG_INFINITY,
        nan: false,
    };
    let ln_tail = p.ln_tail();
    let mut survival = p.log_survival_from_two(1.0);
    for count in 1..=(top as u32) {
        let next = p.survival_with(ln(count as f64));
        best = step(best, p, ln_tail, count, survival, next);
        survival = next;
    }
    best
}

// The later of equal maxima, which the validator wants below the valley; 2 for a window end above 65,535, 5 for 0, 8
// for a NaN among the heights.
pub fn error_mode(fit: SpectrumFit) -> Result<u64, Refusal>
    ensures { reply_of result ≡ error_mode_of fit }
{
    let end = window_end(fit.fit_window_end)?;
    let best = highest(fit.error_params, end.count());
    if best.nan {
        return Err(Refusal::NanScanned);
    }
    Ok(best.count as u64)
}
