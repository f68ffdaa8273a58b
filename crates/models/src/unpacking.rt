// From a converged list to a fit.
// Ported from src/preprocessing/models.rs of bacpop/sparrowhawk-asm, f1f8af1232, Apache-2.0; ported and changed:
// the shelf's table lies in a lent slice, and what can't be used is refused by number.
ghost use Rattle.std.specs.Prelude.{◌≡◌, length};
ghost use Rattle.meaning.specs.Answers.{reply_of};
ghost use Rattle.models.specs.Unpacking.{log_total, fit_of, empty_fit, unpack_of, unpack_table};

use crate::deviances::conditional_deviance;
use crate::errors::ErrorParams;
use crate::families::{ErrorModel, GenomeModel, list_length};
use crate::fit::SpectrumFit;
use crate::params::{Params, decode};
use crate::refusals::fit_refusal;
use crate::spectra::{Window, window_of};
use crate::tables::fill_table;
use crate::window_masses::{WindowMasses, masses_of};
use meaning::refusals::Refusal;
use routines::exp::exp;
use routines::ln::ln;

// A component's log total of k-mers over every count.
fn log_total(ln_weight: f64, ln_library: f64, mass: f64) -> f64
    ensures { result ≡ log_total ln_weight ln_library mass }
{
    ln_weight + ln_library - mass
}

// Totals and heights are the library's, for the cutoff's budget of k-mers; the BIC's penalty counts the sample that was
// observed. The deviance reads the rest, so it is put in last.
fn fit_of(
    bins: &[u32],
    window: Window,
    error: ErrorModel,
    genome: GenomeModel,
    p: Params,
    m: WindowMasses,
    cost: f64,
    iterations: u64,
) -> SpectrumFit
    ensures { result ≡ fit_of bins.now window error genome p m cost iterations }
{
    let shelf = p.shelf;
    let error_params = p.error_params;
    let library = window.observed * window.scale;
    let ln_library = ln(library);
    let total_error = log_total(p.ln_error, ln_library, m.error);
    let total_single = log_total(p.ln_single, ln_library, m.single);
    let total_repeat = log_total(p.ln_repeat, ln_library, m.repeat);
    let mut fit = SpectrumFit {
        error_model: error,
        genome_model: genome,
        w_error: exp(p.ln_error),
        w_single: exp(p.ln_single),
        w_repeat: exp(p.ln_repeat),
        mean: p.mean,
        dispersion: p.dispersion,
        target_mode: p.target_mode,
        error_params,
        shelf,
        repeat_ratio: p.repeat_ratio,
        genome_kmers: exp(total_single),
        error_kmers: exp(total_error),
        repeat_kmers: exp(total_repeat),
        log_likelihood: -cost,
        bic: 2.0 * cost + (list_length(error, genome) as f64) * ln(window.observed),
        deviance: 0.0,
        fit_window_end: window.end as usize,
        best_iterations: iterations,
        component_log_window_masses: [m.error, m.single, m.repeat],
        component_log_totals: [total_error, total_single, total_repeat],
        observed_total: library,
        full_distinct_total: window.full,
    };
    let deviance = conditional_deviance(bins, window.scale, window.end, fit);
    fit.deviance = deviance;
    fit
}

// The fit beside a number.
#[tactic(auto, unfolding(crate::specs::Unpacking::empty_fit))]
pub fn empty_fit() -> SpectrumFit
    ensures { result ≡ empty_fit }
{
    SpectrumFit {
        error_model: ErrorModel::FreeSingletonWeibull,
        genome_model: GenomeModel::NegativeBinomial,
        w_error: 0.0,
        w_single: 0.0,
        w_repeat: 0.0,
        mean: 0.0,
        dispersion: 0.0,
        target_mode: 0.0,
        error_params: ErrorParams {
            singleton_probability: 0.0,
            tail_exponent: 0.0,
            weibull_shape: None,
        },
        shelf: None,
        repeat_ratio: 0.0,
        genome_kmers: 0.0,
        error_kmers: 0.0,
        repeat_kmers: 0.0,
        log_likelihood: 0.0,
        bic: 0.0,
        deviance: 0.0,
        fit_window_end: 0,
        best_iterations: 0,
        component_log_window_masses: [0.0; 3],
        component_log_totals: [0.0; 3],
        observed_total: 0.0,
        full_distinct_total: 0.0,
    }
}

// A converged list as a fit, with its cost and its iterations; 1, 2, 4, 5, 6, 7 or 10 instead. The cost may be any f64.
// Where nothing is refused and there is a shelf, the table is always written.
pub fn unpack(
    bins: &[u32],
    scale: f64,
    window_end: usize,
    peak: usize,
    error: ErrorModel,
    genome: GenomeModel,
    theta: &[f64],
    cost: f64,
    iterations: u64,
    table: &mut [f64],
) -> Result<SpectrumFit, Refusal>
    ensures value { reply_of result
        ≡ unpack_of bins.now scale window_end peak error genome theta.now cost
        iterations (length table.old) }
    ensures table_after { table.new
        ≡ unpack_table bins.now scale window_end peak error genome theta.now cost iterations
        table.old }
{
    let end = fit_refusal(
        bins,
        scale,
        window_end,
        peak,
        error,
        genome,
        theta.len(),
        table.len(),
    )?;
    let window = window_of(bins, scale, end.count());
    let p = decode(error, genome, (peak as u16) as f64, theta);
    let shelf = p.shelf;
    let items = fill_table(p.mean, shelf, end, table);
    let m = masses_of(p, &table[0..items], end);
    Ok(fit_of(bins, window, error, genome, p, m, cost, iterations))
}
