// A fit, as C has it: presences beside the numbers, and 0 for a number that is not there.
ghost use Rattle.std.specs.Prelude.{◌≡◌};
ghost use Rattle.exports.specs.FlatFits.{errors_of, fit_of, of_errors, shelf_numbers, of_fit};

use crate::shelf::{FlatShelf, part_of};
use helpers::shelves::Shelf;
use models::errors::ErrorParams;
use models::families::{ErrorModel, GenomeModel};
use models::fit::SpectrumFit;
use models::parts::{shape_number, shape_of, shape_there, shelf_held, shelf_there};

#[repr(C)]
#[derive(Clone, Copy)]
pub struct FlatErrors {
    pub singleton_probability: f64,
    pub tail_exponent: f64,
    pub shape_present: u8,
    pub weibull_shape: f64,
}

#[repr(C)]
#[derive(Clone, Copy)]
pub struct FlatFit {
    pub error_model: u8,
    pub genome_model: u8,
    pub w_error: f64,
    pub w_single: f64,
    pub w_repeat: f64,
    pub mean: f64,
    pub dispersion: f64,
    pub target_mode: f64,
    pub error_params: FlatErrors,
    pub shelf_present: u8,
    pub shelf: FlatShelf,
    pub repeat_ratio: f64,
    pub genome_kmers: f64,
    pub error_kmers: f64,
    pub repeat_kmers: f64,
    pub log_likelihood: f64,
    pub bic: f64,
    pub deviance: f64,
    pub fit_window_end: usize,
    pub best_iterations: u64,
    pub component_log_window_masses: [f64; 3],
    pub component_log_totals: [f64; 3],
    pub observed_total: f64,
    pub full_distinct_total: f64,
}

pub fn errors_of(errors: FlatErrors) -> ErrorParams
    ensures { result ≡ errors_of errors }
{
    ErrorParams {
        singleton_probability: errors.singleton_probability,
        tail_exponent: errors.tail_exponent,
        weibull_shape: shape_of(errors.shape_present, errors.weibull_shape),
    }
}

#[tactic(auto, unfolding(crate::specs::FlatFits::fit_of))]
pub fn fit_of(fit: FlatFit) -> SpectrumFit
    ensures { result ≡ fit_of fit }
{
    let masses = fit.component_log_window_masses;
    let totals = fit.component_log_totals;
    SpectrumFit {
        error_model: ErrorModel::from(fit.error_model),
        genome_model: GenomeModel::from(fit.genome_model),
        w_error: fit.w_error,
        w_single: fit.w_single,
        w_repeat: fit.w_repeat,
        mean: fit.mean,
        dispersion: fit.dispersion,
        target_mode: fit.target_mode,
        error_params: errors_of(fit.error_params),
        shelf: part_of(fit.shelf_present, fit.shelf),
        repeat_ratio: fit.repeat_ratio,
        genome_kmers: fit.genome_kmers,
        error_kmers: fit.error_kmers,
        repeat_kmers: fit.repeat_kmers,
        log_likelihood: fit.log_likelihood,
        bic: fit.bic,
        deviance: fit.deviance,
        fit_window_end: fit.fit_window_end,
        best_iterations: fit.best_iterations,
        component_log_window_masses: masses,
        component_log_totals: totals,
        observed_total: fit.observed_total,
        full_distinct_total: fit.full_distinct_total,
    }
}

pub fn flat_errors(errors: ErrorParams) -> FlatErrors
    ensures { result ≡ of_errors errors }
{
    FlatErrors {
        singleton_probability: errors.singleton_probability,
        tail_exponent: errors.tail_exponent,
        shape_present: shape_there(errors.weibull_shape),
        weibull_shape: shape_number(errors.weibull_shape),
    }
}

pub fn shelf_numbers(shelf: Option<Shelf>) -> FlatShelf
    ensures { result ≡ shelf_numbers shelf }
{
    let s = shelf_held(shelf);
    FlatShelf {
        share: s.share,
        alpha: s.alpha,
        beta: s.beta,
    }
}

#[tactic(auto, unfolding(crate::specs::FlatFits::of_fit))]
pub(crate) fn flat_fit(fit: SpectrumFit) -> FlatFit
    ensures { result ≡ of_fit fit }
{
    let masses = fit.component_log_window_masses;
    let totals = fit.component_log_totals;
    FlatFit {
        error_model: u8::from(fit.error_model),
        genome_model: u8::from(fit.genome_model),
        w_error: fit.w_error,
        w_single: fit.w_single,
        w_repeat: fit.w_repeat,
        mean: fit.mean,
        dispersion: fit.dispersion,
        target_mode: fit.target_mode,
        error_params: flat_errors(fit.error_params),
        shelf_present: shelf_there(fit.shelf),
        shelf: shelf_numbers(fit.shelf),
        repeat_ratio: fit.repeat_ratio,
        genome_kmers: fit.genome_kmers,
        error_kmers: fit.error_kmers,
        repeat_kmers: fit.repeat_kmers,
        log_likelihood: fit.log_likelihood,
        bic: fit.bic,
        deviance: fit.deviance,
        fit_window_end: fit.fit_window_end,
        best_iterations: fit.best_iterations,
        component_log_window_masses: masses,
        component_log_totals: totals,
        observed_total: fit.observed_total,
        full_distinct_total: fit.full_distinct_total,
    }
}
