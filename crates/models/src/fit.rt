// A fit as its readers have it.
// Ported from src/preprocessing/models.rs of bacpop/sparrowhawk-asm, f1f8af1232, Apache-2.0; ported and changed.
ghost use Rattle.std.specs.Prelude.{◌≡◌};
ghost use Rattle.models.specs.Fits.{abs_of, roundtrip_of, total_ratio_of, roundtrip_error_of, primary_mode_of};
ghost use Rattle.models.specs.Fits.{repeat_mode_of};

use crate::errors::ErrorParams;
use crate::families::{ErrorModel, GenomeModel};
use helpers::lobes::discrete_nb_mode;
use helpers::log_sums::lse3;
use helpers::shelves::Shelf;
use routines::exp::exp;
use routines::ln::ln;

// The Rust's fields, in its order. Three of a kind are the errors', the single copies' and the repeats'.
#[derive(Clone, Copy)]
pub struct SpectrumFit {
    pub error_model: ErrorModel,
    pub genome_model: GenomeModel,
    // Each component's share of the k-mers inside the window.
    pub w_error: f64,
    pub w_single: f64,
    pub w_repeat: f64,
    // The single-copy lobe's mean, and the variance over the mean, which both lobes share.
    pub mean: f64,
    pub dispersion: f64,
    // The mode that the mean was made of. It is kept to show where rounding has lost it.
    pub target_mode: f64,
    pub error_params: ErrorParams,
    // It lies under the single-copy lobe, where the model has one.
    pub shelf: Option<Shelf>,
    // The repeat lobe's mean over the single-copy lobe's.
    pub repeat_ratio: f64,
    // Distinct k-mers of each component over every count, in the library.
    pub genome_kmers: f64,
    pub error_kmers: f64,
    pub repeat_kmers: f64,
    // The window's, in the sample.
    pub log_likelihood: f64,
    // The valid fit with the lowest is selected.
    pub bic: f64,
    // 2 times the sum of observed ln(observed / expected) over the window, in the sample.
    pub deviance: f64,
    // The last count fitted.
    pub fit_window_end: usize,
    // The search's, from the start that converged.
    pub best_iterations: u64,
    // Each component's log mass on the counts 1 to the window end: its density is divided by it, so that the mixture is
    // a distribution over the counts that were fitted.
    pub component_log_window_masses: [f64; 3],
    // Each component's log total of distinct k-mers over every count, in the library.
    pub component_log_totals: [f64; 3],
    // Distinct k-mers inside the window, and in the whole spectrum, in the library.
    pub observed_total: f64,
    pub full_distinct_total: f64,
}

// |x|: the sign off, and a NaN as it is.
pub fn abs(x: f64) -> f64
    ensures { result ≡ abs_of x }
{
    x.abs()
}

// How far the mode that the mean gives back lies from the mode the fit was at.
pub(crate) fn roundtrip(mean: f64, dispersion: f64, mode: f64) -> f64
    ensures { result ≡ roundtrip_of mean dispersion mode }
{
    abs(mean - (dispersion - 1.0) - mode)
}

// The components' totals over the spectrum's distinct k-mers. The validator tests the same in logs.
#[tactic(auto, unfolding(crate::specs::Fits::total_ratio_of))]
pub fn component_total_ratio(fit: SpectrumFit) -> f64
    ensures { result ≡ total_ratio_of fit }
{
    let totals = fit.component_log_totals;
    exp(lse3(totals[0], totals[1], totals[2]) - ln(fit.full_distinct_total))
}

// At a huge dispersion the subtraction cancels, and the validator turns the fit away.
pub fn mode_roundtrip_error(fit: SpectrumFit) -> f64
    ensures { result ≡ roundtrip_error_of fit }
{
    roundtrip(fit.mean, fit.dispersion, fit.target_mode)
}

// The single-copy lobe's mode.
pub fn primary_mode(fit: SpectrumFit) -> u64
    ensures { result ≡ primary_mode_of fit }
{
    discrete_nb_mode(fit.mean, fit.dispersion)
}

// The repeat lobe's mode.
pub fn repeat_mode(fit: SpectrumFit) -> u64
    ensures { result ≡ repeat_mode_of fit }
{
    discrete_nb_mode(fit.repeat_ratio * fit.mean, fit.dispersion)
}
