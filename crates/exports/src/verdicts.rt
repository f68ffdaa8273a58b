// The validator, and its reasons by their numbers.
ghost use Rattle.std.specs.Prelude.{◌≡◌};
ghost use Rattle.meaning.specs.Answers.{reply_as};
ghost use Rattle.fitter.specs.Validation.{validate_of, judgement_in};
ghost use Rattle.exports.specs.FlatFits.{fit_of};
ghost use Rattle.exports.specs.FlatAttempts.{say_verdict};
ghost use Rattle.exports.specs.FlatTables.{rejection_number};

use crate::answers::number_in;
use crate::fits::{FlatFit, fit_of};
use fitter::rejections::FitRejection;
use fitter::validation::validate_fit;
use meaning::refusals::Refusal;

#[repr(C)]
#[derive(Clone, Copy)]
pub struct FlatVerdict {
    pub number: u8,
    pub reason: u8,
}

pub(crate) fn rejection_number(rejection: Option<FitRejection>) -> u8
    ensures { result ≡ rejection_number rejection }
{
    match rejection {
        None => 0,
        Some(why) => u8::from(why),
    }
}

fn flat_verdict(verdict: Result<Option<FitRejection>, Refusal>) -> FlatVerdict
    ensures { result ≡ say_verdict (reply_as judgement_in verdict) }
{
    FlatVerdict {
        number: number_in(verdict),
        reason: rejection_number(verdict.unwrap_or(None)),
    }
}

pub fn fog_validate_fit(fit: FlatFit, valley: usize, peak: usize, mass_limit: f64) -> FlatVerdict
    ensures { result ≡ say_verdict (validate_of (fit_of fit) valley peak mass_limit) }
{
    flat_verdict(validate_fit(fit_of(fit), valley, peak, mass_limit))
}
