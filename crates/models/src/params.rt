// From a parameter list to the model's parameters.
// Ported from src/preprocessing/models.rs of bacpop/sparrowhawk-asm, f1f8af1232, Apache-2.0; ported and changed.
ghost use Rattle.std.specs.Prelude.{◌≡◌, get_or};
ghost use Rattle.std.specs.Float.{nan};
ghost use Rattle.models.specs.Params.{mode_of, error_params_of, ratio_of, shelf_at, shelf_part_of, params_of};
ghost use Rattle.models.specs.Params.{params_answer_of};
ghost use Rattle.meaning.specs.Answers.{reply_of};

use crate::errors::ErrorParams;
use crate::families::{ErrorModel, GenomeModel, list_length};
use crate::shelf_rules::{
    SHELF_MAX_SHARE, SHELF_MIN_RETAINED, from_retained, shelf_concentration_bounds,
};
use helpers::log_sums::{ln_softmax3, sigmoid};
use helpers::shelves::Shelf;
use meaning::limits::MOST;
use meaning::refusals::Refusal;
use routines::exp::exp;

// The single-copy mode is held within 0.75 to 1.33 times the peak.
pub const MU_LO: f64 = 0.75;

pub const MU_SPAN: f64 = 0.58;

// The repeat's mean is 1.5 to 2 times the single-copy mean.
pub const RATIO_LOW: f64 = 1.5;

pub const RATIO_HIGH: f64 = 2.0;

#[derive(Clone, Copy)]
pub struct Params {
    // The components' log shares inside the window.
    pub ln_error: f64,
    pub ln_single: f64,
    pub ln_repeat: f64,
    // The single-copy lobe's mode, which the search moves, and its mean, from the mode and the dispersion.
    pub target_mode: f64,
    pub mean: f64,
    pub dispersion: f64,
    pub error_params: ErrorParams,
    pub shelf: Option<Shelf>,
    pub repeat_ratio: f64,
}

// Entry i of a list, and a NaN past its end.
fn at(theta: &[f64], i: usize) -> f64
    ensures { result ≡ get_or theta.now i nan }
{
    theta.get(i).copied().unwrap_or(f64::NAN)
}

fn mode_at(peak: f64, t: f64) -> f64
    ensures { result ≡ mode_of peak t }
{
    peak * (MU_LO + MU_SPAN / (1.0 + exp(-t)))
}

fn error_params_at(family: ErrorModel, tail: f64, single: f64, shape: f64) -> ErrorParams
    ensures { result ≡ error_params_of family tail single shape }
{
    let singleton_probability = sigmoid(single);
    let tail_exponent = exp(tail);
    match family {
        ErrorModel::FreeSingletonWeibull => ErrorParams {
            singleton_probability,
            tail_exponent,
            weibull_shape: Some(exp(shape)),
        },
        ErrorModel::SingletonPareto => ErrorParams {
            singleton_probability,
            tail_exponent,
            weibull_shape: None,
        },
    }
}

fn ratio_at(t: f64) -> f64
    ensures { result ≡ ratio_of t }
{
    RATIO_LOW + (RATIO_HIGH - RATIO_LOW) * sigmoid(t)
}

fn shelf_at(share: f64, kept: f64, narrow: f64) -> Shelf
    ensures { result ≡ shelf_at share kept narrow }
{
    let retained = SHELF_MIN_RETAINED + (1.0 - SHELF_MIN_RETAINED) * sigmoid(kept);
    let bounds = shelf_concentration_bounds(retained);
    from_retained(
        SHELF_MAX_SHARE * sigmoid(share),
        retained,
        bounds.low + (bounds.high - bounds.low) * sigmoid(narrow),
    )
}

fn shelf_part_at(family: GenomeModel, share: f64, kept: f64, narrow: f64) -> Option<Shelf>
    ensures { result ≡ shelf_part_of family share kept narrow }
{
    match family {
        GenomeModel::NegativeBinomial => None,
        GenomeModel::ShelfNegativeBinomial => Some(shelf_at(share, kept, narrow)),
    }
}

// The list decoded: softmax weights with the error's logit at 0, and sigmoid or exponential maps into each range.
#[tactic(auto, unfolding(crate::specs::Params::params_of))]
pub(crate) fn decode(error: ErrorModel, genome: GenomeModel, peak: f64, theta: &[f64]) -> Params
    ensures { result ≡ params_of error genome peak theta.now }
{
    let base = error.parameter_count();
    let weights = ln_softmax3(0.0, at(theta, 0), at(theta, 1));
    let target_mode = mode_at(peak, at(theta, 2));
    let dispersion = 1.0 + exp(at(theta, 3));
    Params {
        ln_error: weights.first,
        ln_single: weights.second,
        ln_repeat: weights.third,
        target_mode,
        mean: target_mode + dispersion - 1.0,
        dispersion,
        error_params: error_params_at(error, at(theta, 4), at(theta, 5), at(theta, 6)),
        shelf: shelf_part_at(
            genome,
            at(theta, base + 1),
            at(theta, base + 2),
            at(theta, base + 3),
        ),
        repeat_ratio: ratio_at(at(theta, base)),
    }
}

// The parameters of a list; 1 and 2 for the peak, 7 for the list's length.
pub fn params_from(
    error: ErrorModel,
    genome: GenomeModel,
    peak: usize,
    theta: &[f64],
) -> Result<Params, Refusal>
    ensures { reply_of result ≡ params_answer_of error genome peak theta.now }
{
    if peak < 2 {
        return Err(Refusal::TooSmall);
    }
    if peak > MOST {
        return Err(Refusal::TooLarge);
    }
    if theta.len() != list_length(error, genome) {
        return Err(Refusal::WrongLength);
    }
    Ok(decode(error, genome, (peak as u16) as f64, theta))
}
