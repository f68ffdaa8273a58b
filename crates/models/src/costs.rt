// The cost of a parameter list. The shelf's table lies in a lent slice, and what can't be used is refused by number.
// Ported from src/preprocessing/models.rs of bacpop/sparrowhawk-asm, f1f8af1232, Apache-2.0; ported and changed.
ghost use Rattle.std.specs.Prelude.{◌≡◌, length};
ghost use Rattle.models.specs.Costs.{mode_held, table_with, cost_of, cost_table};
ghost use Rattle.models.specs.Prepared.{evaluated_at, cost_ready, prepared_cost_of, prepared_cost_table};
ghost use Rattle.models.specs.Tables.{entries_in};
ghost use Rattle.meaning.specs.Answers.{reply_of};

use crate::families::{ErrorModel, GenomeModel};
use crate::fit::roundtrip;
use crate::likelihoods::likelihood;
use crate::params::{Params, decode};
use crate::recovery::used_scale;
use crate::refusals::fit_refusal;
use crate::steady::steady_of;
use crate::tables::fill_table;
use crate::usable::params_usable;
use crate::window_masses::{masses_at, masses_usable};
use helpers::window_ends::WindowEnd;
use meaning::refusals::Refusal;
use routines::pick::is_finite;

// The mode that the mean gives back may lie this far from the mode it was made of.
pub const NB_MODE_ROUNDTRIP_TOLERANCE: f64 = 0.5;

#[tactic(auto, unfolding(crate::specs::Costs::mode_held))]
fn mode_held(p: Params) -> bool
    ensures { result ≡ mode_held p }
{
    !(roundtrip(p.mean, p.dispersion, p.target_mode) > NB_MODE_ROUNDTRIP_TOLERANCE)
}

// The places for what the masses keep of the lobes, two a count from 0 on: for the counts of every histogram file, and
// for those of a short window.
const MANY_KEPT: usize = 4096;

const FEW_KEPT: usize = 512;

// The negative log-likelihood, and +inf for masses or a log-likelihood that can't be used. `kept` may hold anything.
fn evaluate_in(
    bins: &[u32],
    scale: f64,
    end: WindowEnd,
    p: Params,
    ready: &[f64],
    kept: &mut [f64],
    table: &[f64],
) -> f64
    ensures { result ≡ evaluated_at bins.now scale end.count p ready.now table.now }
{
    let steady = steady_of(p);
    let m = masses_at(p, steady, ready, table, kept, end);
    if !masses_usable(m) {
        return f64::INFINITY;
    }
    let total = likelihood(bins, scale, end.count(), p, m, steady, ready, kept, table);
    if is_finite(total) && total <= 0.0 {
        return -total;
    }
    f64::INFINITY
}

// The same, with places of its own: few for a short window, since many take long to clear.
fn evaluate(
    bins: &[u32],
    scale: f64,
    end: WindowEnd,
    p: Params,
    ready: &[f64],
    table: &[f64],
) -> f64
    ensures { result ≡ evaluated_at bins.now scale end.count p ready.now table.now }
{
    if 2 * (end.count() as usize) < FEW_KEPT {
        let mut few = [0.0; FEW_KEPT];
        return evaluate_in(bins, scale, end, p, ready, &mut few, table);
    }
    let mut many = [0.0; MANY_KEPT];
    evaluate_in(bins, scale, end, p, ready, &mut many, table)
}

// The table stays as it is where the parameters are turned away.
fn cost_at(
    bins: &[u32],
    scale: f64,
    end: WindowEnd,
    p: Params,
    ready: &[f64],
    table: &mut [f64],
) -> f64
    ensures value { result
        ≡ cost_ready bins.now scale end.count p ready.now
        (entries_in p.shelf p.mean end.count (length table.old)) }
    ensures table_after { table.new
        ≡ table_with p (entries_in p.shelf p.mean end.count (length table.old)) table.old }
{
    if !params_usable(p) {
        return f64::INFINITY;
    }
    if !mode_held(p) {
        return f64::INFINITY;
    }
    let shelf = p.shelf;
    let items = fill_table(p.mean, shelf, end, table);
    evaluate(bins, scale, end, p, ready, &table[0..items])
}

// The negative log-likelihood of the window at the parameters of a list, and +inf for what the model can't use;
// 1, 2, 4, 5, 6, 7 or 10 instead.
pub fn cost(
    bins: &[u32],
    scale: f64,
    window_end: usize,
    peak: usize,
    error: ErrorModel,
    genome: GenomeModel,
    theta: &[f64],
    table: &mut [f64],
) -> Result<f64, Refusal>
    ensures result_value { reply_of result
        ≡ cost_of bins.now scale window_end peak error genome theta.now
        (length table.old) }
    ensures table_after { table.new
        ≡ cost_table bins.now scale window_end peak error genome theta.now table.old }
{
    let end = fit_refusal(
        bins,
        scale,
        window_end,
        peak,
        error,
        genome,
        theta.len(),
        table.len(),
    )?;
    let p = decode(error, genome, (peak as u16) as f64, theta);
    let used = used_scale(scale);
    Ok(cost_at(bins, used, end, p, &theta[0..0], table))
}

// The cost, with ln n and lgamma(n + 1) read from a slice as `prepare_window` fills it; 10 also where that slice is too
// short for the window. It stands beside `cost`: a function for what both do would take these nine parameters too.
pub fn cost_prepared(
    bins: &[u32],
    scale: f64,
    window_end: usize,
    peak: usize,
    error: ErrorModel,
    genome: GenomeModel,
    theta: &[f64],
    ready: &[f64],
    table: &mut [f64],
) -> Result<f64, Refusal>
    ensures result_value { reply_of result
        ≡ prepared_cost_of bins.now scale window_end peak error genome theta.now
        ready.now (length table.old) }
    ensures table_after { table.new
        ≡ prepared_cost_table bins.now scale window_end peak error genome theta.now
        ready.now table.old }
{
    let end = fit_refusal(
        bins,
        scale,
        window_end,
        peak,
        error,
        genome,
        theta.len(),
        table.len(),
    )?;
    if ready.len() < 2 * (window_end + 2) {
        return Err(Refusal::TooShort);
    }
    let p = decode(error, genome, (peak as u16) as f64, theta);
    let used = used_scale(scale);
    Ok(cost_at(bins, used, end, p, ready, table))
}
