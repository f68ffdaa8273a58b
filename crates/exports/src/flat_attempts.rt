// An attempt, as C has it, and the fit that is used out of four. C makes an attempt by filling the struct in.
ghost use Rattle.std.specs.Prelude.{◌≡◌, [], ◌∷◌};
ghost use Rattle.meaning.specs.Flags.{byte_of};
ghost use Rattle.fitter.specs.Attempts.{valid_of};
ghost use Rattle.fitter.specs.Selection.{select_of};
ghost use Rattle.exports.specs.FlatAttempts.{rejection_of, attempt_of_flat, of_selected};

use crate::fits::{FlatFit, fit_of, flat_fit};
use fitter::attempts::{FitAttempt, is_valid, make_attempt};
use fitter::rejections::FitRejection;
use fitter::selection::select_fit;
use meaning::flags::byte_of;
use models::families::{ErrorModel, GenomeModel};
use models::fit::SpectrumFit;
use models::unpacking::empty_fit;

#[repr(C)]
#[derive(Clone, Copy)]
pub struct FlatAttempt {
    pub error_model: u8,
    pub genome_model: u8,
    pub has_candidate: u8,
    pub candidate: FlatFit,
    pub rejection_present: u8,
    pub rejection: u8,
    pub total_iterations: u64,
    pub capped_starts: u32,
}

#[repr(C)]
#[derive(Clone, Copy)]
pub struct FlatSelected {
    pub found: u8,
    pub fit: FlatFit,
}

fn rejection_of(present: u8, n: u8) -> Option<FitRejection>
    ensures { result ≡ rejection_of present n }
{
    (present != 0).then_some(FitRejection::from(n))
}

#[tactic(auto, unfolding(crate::specs::FlatAttempts::attempt_of_flat))]
fn attempt_of(attempt: FlatAttempt) -> FitAttempt
    ensures { result ≡ attempt_of_flat attempt }
{
    make_attempt(
        ErrorModel::from(attempt.error_model),
        GenomeModel::from(attempt.genome_model),
        attempt.has_candidate != 0,
        fit_of(attempt.candidate),
        rejection_of(attempt.rejection_present, attempt.rejection),
        attempt.total_iterations,
        attempt.capped_starts,
    )
}

#[tactic(auto, unfolding(crate::specs::FlatAttempts::of_selected))]
fn flat_selected(selected: Option<SpectrumFit>) -> FlatSelected
    ensures { result ≡ of_selected selected }
{
    FlatSelected {
        found: byte_of(selected.is_some()),
        fit: flat_fit(selected.unwrap_or(empty_fit())),
    }
}

pub fn fog_is_valid(attempt: FlatAttempt) -> u8
    ensures { result ≡ byte_of (valid_of (attempt_of_flat attempt)) }
{
    byte_of(is_valid(attempt_of(attempt)))
}

pub fn fog_select_fit(
    first: FlatAttempt,
    second: FlatAttempt,
    third: FlatAttempt,
    fourth: FlatAttempt,
) -> FlatSelected
    ensures { result
        ≡ of_selected
        (select_of (attempt_of_flat first ∷ attempt_of_flat second ∷ attempt_of_flat third ∷ attempt_of_flat fourth ∷
        [])) }
{
    let one = attempt_of(first);
    let two = attempt_of(second);
    let three = attempt_of(third);
    let four = attempt_of(fourth);
    flat_selected(select_fit([one, two, three, four]))
}
