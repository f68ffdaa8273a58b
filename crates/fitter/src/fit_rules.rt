// Document 01's ten rules that turn a fit away, each a test of its own. They are not those of the Rust
// (docs/DIFFERENCES.md).
ghost use Rattle.std.specs.Prelude.{◌≡◌};
ghost use Rattle.meaning.specs.Answers.{reply_of};
ghost use Rattle.fitter.specs.Validation.{
  non_finite_likelihood,
  bad_weight,
  bad_mean,
  bad_dispersion,
  bad_shelf,
  invalid_components,
  bad_mass,
  invalid_window_mass,
  excess_of,
  above_or_nan,
  component_mass_exceeded,
  unstable_mode,
  outside_window,
  lobe_outside_window,
  past_valley,
  mode_past,
  error_mode_past_valley,
  outside_band,
  primary_mode_outside_band,
  repeat_mode_too_early,
  positive_log_likelihood,
};

use helpers::log_sums::lse3;
use helpers::shelves::Shelf;
use meaning::refusals::Refusal;
use models::fit::{SpectrumFit, mode_roundtrip_error, primary_mode, repeat_mode};
use models::modes::error_mode;
use models::params::{MU_LO, MU_SPAN};
use models::shelf_rules::shelf_is_valid;
use models::window_masses::WINDOW_LOG_MASS_TOLERANCE;
use routines::casts::from_u64;
use routines::ln::ln;
use routines::pick::is_finite;

// 1: the log-likelihood, the BIC or the deviance is not finite.
#[tactic(auto, unfolding(crate::specs::Validation::non_finite_likelihood))]
pub(crate) fn non_finite_likelihood(fit: SpectrumFit) -> bool
    ensures { result ≡ non_finite_likelihood fit }
{
    !is_finite(fit.log_likelihood) || !is_finite(fit.bic) || !is_finite(fit.deviance)
}

// Outside 0 to 1, both allowed, or NaN.
#[tactic(auto, unfolding(crate::specs::Validation::bad_weight))]
fn bad_weight(weight: f64) -> bool
    ensures { result ≡ bad_weight weight }
{
    !(0.0 <= weight && weight <= 1.0)
}

#[tactic(auto, unfolding(crate::specs::Validation::bad_mean))]
fn bad_mean(mean: f64) -> bool
    ensures { result ≡ bad_mean mean }
{
    !is_finite(mean) || mean <= 0.0
}

#[tactic(auto, unfolding(crate::specs::Validation::bad_dispersion))]
fn bad_dispersion(dispersion: f64) -> bool
    ensures { result ≡ bad_dispersion dispersion }
{
    !is_finite(dispersion) || dispersion < 1.0
}

fn bad_shelf(shelf: Option<Shelf>) -> bool
    ensures { result ≡ bad_shelf shelf }
{
    match shelf {
        None => false,
        Some(s) => !shelf_is_valid(s),
    }
}

// 2: a weight, the mean, the dispersion or the shelf is none.
#[tactic(auto, unfolding(crate::specs::Validation::invalid_components))]
pub(crate) fn invalid_components(fit: SpectrumFit) -> bool
    ensures { result ≡ invalid_components fit }
{
    bad_weight(fit.w_error)
        || bad_weight(fit.w_single)
        || bad_weight(fit.w_repeat)
        || bad_mean(fit.mean)
        || bad_dispersion(fit.dispersion)
        || bad_shelf(fit.shelf)
}

#[tactic(auto, unfolding(crate::specs::Validation::bad_mass))]
fn bad_mass(mass: f64) -> bool
    ensures { result ≡ bad_mass mass }
{
    !is_finite(mass) || mass > WINDOW_LOG_MASS_TOLERANCE
}

// 3: a component's log mass inside the window is not finite, or above 0 by more than rounding.
#[tactic(auto, unfolding(crate::specs::Validation::invalid_window_mass))]
pub(crate) fn invalid_window_mass(fit: SpectrumFit) -> bool
    ensures { result ≡ invalid_window_mass fit }
{
    let masses = fit.component_log_window_masses;
    bad_mass(masses[0]) || bad_mass(masses[1]) || bad_mass(masses[2])
}

// The logarithm of models' `component_total_ratio`.
#[tactic(auto, unfolding(crate::specs::Validation::excess_of))]
fn excess(fit: SpectrumFit) -> f64
    ensures { result ≡ excess_of fit }
{
    let totals = fit.component_log_totals;
    lse3(totals[0], totals[1], totals[2]) - ln(fit.full_distinct_total)
}

// NaN is above every bound.
#[tactic(auto, unfolding(crate::specs::Validation::above_or_nan))]
fn above_or_nan(x: f64, bound: f64) -> bool
    ensures { result ≡ above_or_nan x bound }
{
    x > bound || x != x
}

// 4: the components have more k-mers in all than the limit times the spectrum's, or a NaN.
#[tactic(auto, unfolding(crate::specs::Validation::component_mass_exceeded))]
pub(crate) fn component_mass_exceeded(fit: SpectrumFit, mass_limit: f64) -> bool
    ensures { result ≡ component_mass_exceeded fit mass_limit }
{
    above_or_nan(excess(fit), ln(mass_limit))
}

// 5: the mean does not give the mode back, so the mode that was fitted means nothing.
#[tactic(auto, unfolding(crate::specs::Validation::unstable_mode))]
pub(crate) fn unstable_mode(fit: SpectrumFit) -> bool
    ensures { result ≡ unstable_mode fit }
{
    above_or_nan(mode_roundtrip_error(fit), 0.5)
}

#[tactic(auto, unfolding(crate::specs::Validation::outside_window))]
fn outside_window(mode: u64, window_end: usize) -> bool
    ensures { result ≡ outside_window mode window_end }
{
    mode == 0 || mode > (window_end as u64)
}

// 6: the single-copy lobe has its mode at 0 or past the window.
#[tactic(auto, unfolding(crate::specs::Validation::lobe_outside_window))]
pub(crate) fn lobe_outside_window(fit: SpectrumFit) -> bool
    ensures { result ≡ lobe_outside_window fit }
{
    outside_window(primary_mode(fit), fit.fit_window_end)
}

fn past_valley(mode: u64, valley: usize) -> bool
    ensures { result ≡ past_valley mode valley }
{
    mode > (valley as u64)
}

// A mode that is refused for a NaN is past every valley.
fn mode_past(highest: Result<u64, Refusal>, valley: usize) -> bool
    ensures { result ≡ mode_past (reply_of highest) valley }
{
    match highest {
        Ok(mode) => past_valley(mode, valley),
        Err(_) => true,
    }
}

// 7: the error component is highest above the valley, or a NaN is among its heights.
#[tactic(auto, unfolding(crate::specs::Validation::error_mode_past_valley))]
pub(crate) fn error_mode_past_valley(fit: SpectrumFit, valley: usize) -> bool
    ensures { result ≡ error_mode_past_valley fit valley }
{
    mode_past(error_mode(fit), valley)
}

fn outside_band(mode: f64, peak: f64) -> bool
    ensures { result ≡ outside_band mode peak }
{
    mode + 1.0 < MU_LO * peak || mode > (MU_LO + MU_SPAN) * peak
}

// 8: the single-copy mode has left the band around the peak, by more than a count below it.
#[tactic(auto, unfolding(crate::specs::Validation::primary_mode_outside_band))]
pub(crate) fn primary_mode_outside_band(fit: SpectrumFit, peak: usize) -> bool
    ensures { result ≡ primary_mode_outside_band fit peak }
{
    outside_band(from_u64(primary_mode(fit)), from_u64(peak as u64))
}

// 9: the repeats' mode is not above the single copies'.
#[tactic(auto, unfolding(crate::specs::Validation::repeat_mode_too_early))]
pub(crate) fn repeat_mode_too_early(fit: SpectrumFit) -> bool
    ensures { result ≡ repeat_mode_too_early fit }
{
    !(repeat_mode(fit) > primary_mode(fit))
}

// 10: a probability above 1.
#[tactic(auto, unfolding(crate::specs::Validation::positive_log_likelihood))]
pub(crate) fn positive_log_likelihood(fit: SpectrumFit) -> bool
    ensures { result ≡ positive_log_likelihood fit }
{
    fit.log_likelihood > 0.0
}
