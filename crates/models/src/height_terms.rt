// What the heights of a fit have in common at every count, worked out once, and each height from it: for speed alone.
// proofs/HeightTerms.antt shows that a fit's own terms give its heights.
// Ported from src/preprocessing/models.rs of bacpop/sparrowhawk-asm, f1f8af1232, Apache-2.0; ported and changed.
ghost use Rattle.std.specs.Prelude.{◌≡◌};
ghost use Rattle.models.specs.HeightTerms.{height_terms_of, scaled_of, error_height_from, error_height_of};
ghost use Rattle.models.specs.HeightTerms.{single_height_with, single_height_of, repeat_height_with, repeat_height_of};
ghost use Rattle.models.specs.HeightTerms.{heights_from, heights_of};

use crate::errors::ErrorParams;
use crate::fit::SpectrumFit;
use helpers::hoists::{Lobe, density_with, lobe_of};
use helpers::single_copies::{SingleCopy, single_copy_of, single_density_with};
use routines::exp::exp;
use routines::lgamma::lgamma;

// Expected k-mers of each component inside the window.
#[derive(Clone, Copy)]
pub struct Heights {
    pub error: f64,
    pub single: f64,
    pub repeat: f64,
}

// The error component's parameters and its tail's log, both lobes; and for each component its k-mers inside the window
// and its log window mass.
#[derive(Clone, Copy)]
pub struct HeightTerms {
    pub error_params: ErrorParams,
    pub ln_tail: f64,
    pub single: SingleCopy,
    pub repeat: Lobe,
    pub error_inside: f64,
    pub single_inside: f64,
    pub repeat_inside: f64,
    pub error_mass: f64,
    pub single_mass: f64,
    pub repeat_mass: f64,
}

#[tactic(auto, unfolding(crate::specs::HeightTerms::height_terms_of))]
pub fn height_terms(fit: SpectrumFit) -> HeightTerms
    ensures { result ≡ height_terms_of fit }
{
    let error_params = fit.error_params;
    let shelf = fit.shelf;
    let masses = fit.component_log_window_masses;
    HeightTerms {
        error_params,
        ln_tail: error_params.ln_tail(),
        single: single_copy_of(fit.mean, fit.dispersion, shelf),
        repeat: lobe_of(fit.repeat_ratio * fit.mean, fit.dispersion),
        error_inside: fit.observed_total * fit.w_error,
        single_inside: fit.observed_total * fit.w_single,
        repeat_inside: fit.observed_total * fit.w_repeat,
        error_mass: masses[0],
        single_mass: masses[1],
        repeat_mass: masses[2],
    }
}

// The height of a component that has `inside` k-mers in the window, where its log density is `log`.
fn scaled(inside: f64, log: f64, mass: f64) -> f64
    ensures { result ≡ scaled_of inside log mass }
{
    inside * exp(log - mass)
}

// The error component's height at a count, from the log survivals of that count and of the next.
#[tactic(auto, unfolding(crate::specs::HeightTerms::error_height_from))]
pub fn error_height_from(t: HeightTerms, count: f64, here: f64, next: f64) -> f64
    ensures { result ≡ error_height_from t count here next }
{
    let log = t
        .error_params
        .log_probability_between(t.ln_tail, count, here, next);
    scaled(t.error_inside, log, t.error_mass)
}

#[tactic(auto, unfolding(crate::specs::HeightTerms::error_height_of))]
pub fn error_height(t: HeightTerms, count: f64) -> f64
    ensures { result ≡ error_height_of t count }
{
    let here = t.error_params.log_survival_from_two(count);
    let next = t.error_params.log_survival_from_two(count + 1.0);
    error_height_from(t, count, here, next)
}

// The single-copy component's height at a count, with lgamma(count + 1) at hand.
#[tactic(auto, unfolding(crate::specs::HeightTerms::single_height_with))]
pub(crate) fn single_height_with(t: HeightTerms, count: f64, gamma: f64) -> f64
    ensures { result ≡ single_height_with t count gamma }
{
    scaled(
        t.single_inside,
        single_density_with(t.single, count, gamma),
        t.single_mass,
    )
}

#[tactic(auto, unfolding(crate::specs::HeightTerms::single_height_of))]
pub fn single_height(t: HeightTerms, count: f64) -> f64
    ensures { result ≡ single_height_of t count }
{
    single_height_with(t, count, lgamma(count + 1.0))
}

// The repeat component's height at a count, with lgamma(count + 1) at hand. It has a lobe alone, where the single-copy
// component may have a shelf: so the two are of different types.
#[tactic(auto, unfolding(crate::specs::HeightTerms::repeat_height_with))]
fn repeat_height_with(t: HeightTerms, count: f64, gamma: f64) -> f64
    ensures { result ≡ repeat_height_with t count gamma }
{
    scaled(
        t.repeat_inside,
        density_with(t.repeat, count, gamma),
        t.repeat_mass,
    )
}

#[tactic(auto, unfolding(crate::specs::HeightTerms::repeat_height_of))]
pub fn repeat_height(t: HeightTerms, count: f64) -> f64
    ensures { result ≡ repeat_height_of t count }
{
    repeat_height_with(t, count, lgamma(count + 1.0))
}

// The three heights at a count, from the log survivals of that count and of the next, and lgamma(count + 1).
pub(crate) fn heights_from(t: HeightTerms, count: f64, here: f64, next: f64, gamma: f64) -> Heights
    ensures { result ≡ heights_from t count here next gamma }
{
    Heights {
        error: error_height_from(t, count, here, next),
        single: single_height_with(t, count, gamma),
        repeat: repeat_height_with(t, count, gamma),
    }
}

pub fn heights_of(t: HeightTerms, count: f64) -> Heights
    ensures { result ≡ heights_of t count }
{
    let here = t.error_params.log_survival_from_two(count);
    let next = t.error_params.log_survival_from_two(count + 1.0);
    heights_from(t, count, here, next, lgamma(count + 1.0))
}
