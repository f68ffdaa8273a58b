// Whether a fit is to be believed: the first of document 01's ten rules that turns it away.
// The rules are this project's own; those of src/preprocessing/spectrum_fitter.rs of bacpop/sparrowhawk-asm,
// f1f8af1232, Apache-2.0, are others (docs/DIFFERENCES.md).
ghost use Rattle.std.specs.Prelude.{◌≡◌};
ghost use Rattle.meaning.specs.Answers.{reply_as, number_in};
ghost use Rattle.meaning.specs.Reply.{first_of};
ghost use Rattle.fitter.specs.Validation.{bad_limit, validate_tests, judgement_in, verdict_of, validate_of};

use crate::fit_rules::{
    component_mass_exceeded, error_mode_past_valley, invalid_components, invalid_window_mass,
    lobe_outside_window, non_finite_likelihood, positive_log_likelihood, primary_mode_outside_band,
    repeat_mode_too_early, unstable_mode,
};
use crate::rejections::FitRejection;
use meaning::limits::MOST;
use meaning::refusals::Refusal;
use models::fit::SpectrumFit;
use routines::pick::is_finite;

// What a mass limit may not be: not finite, or below 1.
#[tactic(auto, unfolding(crate::specs::Validation::bad_limit))]
pub(crate) fn bad_limit(mass_limit: f64) -> bool
    ensures { result ≡ bad_limit mass_limit }
{
    !is_finite(mass_limit) || mass_limit < 1.0
}

// The first refusal of 1, 2, 5, 9 that applies.
#[tactic(auto, unfolding(crate::specs::Validation::validate_tests))]
fn validate_refusal(
    window_end: usize,
    valley: usize,
    peak: usize,
    mass_limit: f64,
) -> Result<(), Refusal>
    ensures { number_in result ≡ first_of (validate_tests window_end valley peak mass_limit) }
{
    if valley < 2 || peak < 2 {
        return Err(Refusal::TooSmall);
    }
    if valley > MOST || peak > MOST || window_end > MOST {
        return Err(Refusal::TooLarge);
    }
    if window_end == 0 {
        return Err(Refusal::NoWindow);
    }
    if bad_limit(mass_limit) {
        return Err(Refusal::WrongLimitOrCost);
    }
    Ok(())
}

// The ten rules in turn: why the fit is not used, and none where it is valid.
#[tactic(auto, unfolding(crate::specs::Validation::verdict_of))]
pub(crate) fn judge(
    fit: SpectrumFit,
    valley: usize,
    peak: usize,
    mass_limit: f64,
) -> Option<FitRejection>
    ensures { judgement_in result ≡ verdict_of fit valley peak mass_limit }
{
    if non_finite_likelihood(fit) {
        return Some(FitRejection::NonFiniteLikelihood);
    }
    if invalid_components(fit) {
        return Some(FitRejection::InvalidComponents);
    }
    if invalid_window_mass(fit) {
        return Some(FitRejection::InvalidWindowMass);
    }
    if component_mass_exceeded(fit, mass_limit) {
        return Some(FitRejection::ComponentMassExceeded);
    }
    if unstable_mode(fit) {
        return Some(FitRejection::UnstableModeParameterisation);
    }
    if lobe_outside_window(fit) {
        return Some(FitRejection::GenomeLobeOutsideFitWindow);
    }
    if error_mode_past_valley(fit, valley) {
        return Some(FitRejection::ErrorModePastValley);
    }
    if primary_mode_outside_band(fit, peak) {
        return Some(FitRejection::PrimaryModeOutsideBand);
    }
    if repeat_mode_too_early(fit) {
        return Some(FitRejection::RepeatModeTooEarly);
    }
    if positive_log_likelihood(fit) {
        return Some(FitRejection::PositiveLogLikelihood);
    }
    None
}

// 1 for a valley or a peak below 2; 2 for one of them or the fit's window end above 65,535; 5 for a window end of 0; 9
// for a mass limit that is not finite or is below 1.
pub fn validate_fit(
    fit: SpectrumFit,
    valley: usize,
    peak: usize,
    mass_limit: f64,
) -> Result<Option<FitRejection>, Refusal>
    ensures { reply_as judgement_in result ≡ validate_of fit valley peak mass_limit }
{
    validate_refusal(fit.fit_window_end, valley, peak, mass_limit)?;
    Ok(judge(fit, valley, peak, mass_limit))
}
