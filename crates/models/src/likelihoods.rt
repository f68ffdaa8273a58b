// The log-likelihood of the window.
// Ported from src/preprocessing/models.rs of bacpop/sparrowhawk-asm, f1f8af1232, Apache-2.0; ported and changed.
ghost use Rattle.std.specs.Prelude.{◌≡◌, ◌+◌, ◌≤◌, ◌<◌};
ghost use Rattle.meaning.specs.Rows.{most};
ghost use Rattle.helpers.specs.Kept.{Kept};
ghost use Rattle.models.specs.Hoists.{ahead_of, after_of, point_from, point_at, likelihood_at};
ghost use Rattle.models.specs.Spectra.{seen_term};
ghost use Rattle.routines.specs.Ops.{of_count, ◌⊗◌};

use crate::errors::ErrorParams;
use crate::params::Params;
use crate::spectra::recovered_at;
use crate::steady::Steady;
use crate::window_masses::WindowMasses;
use helpers::kept::density_at;
use helpers::log_sums::lse3;
use helpers::mixtures::mix_at;
use helpers::prepared::{gamma_at, ln_at, ln_next};

// What stands ready for a bin: the log of its count, and the error tail's survival from that count.
#[derive(Clone, Copy)]
struct Ahead {
    bin: u32,
    log: f64,
    survival: f64,
}

// The sum so far, and what it leaves ready.
#[derive(Clone, Copy)]
struct Reached {
    total: f64,
    ahead: Ahead,
}

fn ahead_of(error: ErrorParams, ready: &[f64], i: u16) -> Ahead
    ensures { result ≡ ahead_of error ready.now i }
{
    let bin = i as u32;
    let before = ln_at(ready, i);
    Ahead {
        bin,
        log: ln_next(ready, i),
        survival: error.survival_with(before),
    }
}

// What stands ready for bin i, worked out only where it does not.
fn ahead_at(ahead: Ahead, error: ErrorParams, ready: &[f64], i: u16) -> Ahead
    requires { ahead ≡ ahead_of error ready.now ahead.bin }
    ensures { result ≡ ahead_of error ready.now i }
{
    if ahead.bin == (i as u32) {
        return ahead;
    }
    ahead_of(error, ready, i)
}

// What stands ready for the bin after i, from the log of bin i's count.
fn ahead_after(log: f64, error: ErrorParams, ready: &[f64], i: u16) -> Ahead
    requires { i < most }
    ensures { result ≡ after_of log error ready.now i }
{
    let bin = (i as u32) + 1;
    let next = ln_next(ready, i + 1);
    Ahead {
        bin,
        log: next,
        survival: error.survival_with(log),
    }
}

// The mixture's log density at a count, with the error tail's survival from it and from the next, and lgamma(count +
// 1).
fn point(
    p: Params,
    m: WindowMasses,
    steady: Steady,
    count: u16,
    high: f64,
    low: f64,
    gamma: f64,
    kept: &[f64],
    table: &[f64],
) -> f64
    requires le_count { 1 ≤ count }
    requires kept { Kept steady.lobe steady.second kept.now (count + 1) }
    ensures { result ≡ point_from p m steady table.now count high low gamma }
{
    let shelf = p.shelf;
    let x = count as f64;
    let at = 2 * (count as usize);
    let lobe = density_at(steady.lobe, x, gamma, kept, at);
    let second = density_at(steady.second, x, gamma, kept, at + 1);
    let tail = p
        .error_params
        .log_probability_between(steady.ln_tail, x, high, low);
    let single = mix_at(lobe, count, shelf, steady.logs, table);
    lse3(
        p.ln_error + tail - m.error,
        p.ln_single + single - m.single,
        p.ln_repeat + second - m.repeat,
    )
}

// Nothing is worked out for an empty bin.
fn add_point(
    reached: Reached,
    n: u32,
    p: Params,
    m: WindowMasses,
    steady: Steady,
    i: u16,
    ready: &[f64],
    kept: &[f64],
    table: &[f64],
) -> Reached
    requires i_lt_most { i < most }
    requires kept { Kept steady.lobe steady.second kept.now (i + 2) }
    requires ahead_value { reached.ahead ≡ ahead_of p.error_params ready.now reached.ahead.bin }
    ensures total_value { result.total
        ≡ seen_term n reached.total (of_count n ⊗ point_at p m steady ready.now table.now i) }
    ensures ahead_value_2 { result.ahead ≡ ahead_of p.error_params ready.now result.ahead.bin }
{
    if n == 0 {
        return reached;
    }
    let error = p.error_params;
    let here = ahead_at(reached.ahead, error, ready, i);
    let next = ahead_after(here.log, error, ready, i);
    let count = i + 1;
    let gamma = gamma_at(ready, count, next.log);
    let term = point(
        p,
        m,
        steady,
        count,
        here.survival,
        next.survival,
        gamma,
        kept,
        table,
    );
    Reached {
        total: reached.total + (n as f64) * term,
        ahead: next,
    }
}

// `kept` is as the masses' loop leaves it.
pub(crate) fn likelihood(
    bins: &[u32],
    scale: f64,
    top: u16,
    p: Params,
    m: WindowMasses,
    steady: Steady,
    ready: &[f64],
    kept: &[f64],
    table: &[f64],
) -> f64
    requires { Kept steady.lobe steady.second kept.now (top + 1) }
    ensures { result ≡ likelihood_at bins.now scale top p m steady ready.now table.now }
{
    let error = p.error_params;
    let mut reached = Reached {
        total: -0.0,
        ahead: ahead_of(error, ready, 0),
    };
    // By number, and not over the bins: a window may end behind them, and `over_observed` counts on there.
    for i in 0..top {
        let n = recovered_at(bins, scale, i as usize);
        reached = add_point(reached, n, p, m, steady, i, ready, kept, table);
    }
    reached.total
}
