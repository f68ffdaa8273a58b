// What one configuration came to.
// Ported from src/preprocessing/spectrum_fitter.rs of bacpop/sparrowhawk-asm, f1f8af1232, Apache-2.0; ported and
// changed.
ghost use Rattle.std.specs.Prelude.{◌≡◌};
ghost use Rattle.fitter.specs.Attempts.{attempt_of, held_as, valid_of};

use crate::rejections::FitRejection;
use models::families::{ErrorModel, GenomeModel};
use models::fit::SpectrumFit;

// The Rust's fields, in its order.
#[derive(Clone, Copy)]
pub struct FitAttempt {
    pub error_model: ErrorModel,
    pub genome_model: GenomeModel,
    // The valid fit of lowest cost, or else the rejected one; none where no start converged.
    pub candidate: Option<SpectrumFit>,
    // Why the candidate is not used; absent where it is valid.
    pub rejection: Option<FitRejection>,
    // The search's, over every start.
    pub total_iterations: u64,
    // The starts that ran into their iteration cap.
    pub capped_starts: u32,
}

// Every attempt is made here. A caller has a flag and a fit, as C has them: where the flag is false the fit is passed
// over, whatever it is.
pub fn make_attempt(
    error: ErrorModel,
    genome: GenomeModel,
    held: bool,
    candidate: SpectrumFit,
    rejection: Option<FitRejection>,
    iterations: u64,
    capped: u32,
) -> FitAttempt
    ensures { result ≡ attempt_of error genome (held_as held candidate) rejection iterations capped }
{
    FitAttempt {
        error_model: error,
        genome_model: genome,
        candidate: if held { Some(candidate) } else { None },
        rejection,
        total_iterations: iterations,
        capped_starts: capped,
    }
}

// There is a candidate, and nothing speaks against it.
#[tactic(auto, unfolding(crate::specs::Attempts::valid_of))]
pub fn is_valid(attempt: FitAttempt) -> bool
    ensures { result ≡ valid_of attempt }
{
    attempt.rejection.is_none() && attempt.candidate.is_some()
}
