// Why a fit is not used.
// Ported from src/preprocessing/spectrum_fitter.rs of bacpop/sparrowhawk-asm, f1f8af1232, Apache-2.0; ported and
// changed.
ghost use Rattle.std.specs.Prelude.{◌≡◌};
ghost use Rattle.fitter.specs.Validation.{reason_number, reason_at};

// The Rust's order: no run converged, or the first of the validator's ten rules that applies.
#[derive(Clone, Copy, Debug, PartialEq, Eq, Hash)]
pub enum FitRejection {
    OptimisationFailed = 0,
    NonFiniteLikelihood = 1,
    InvalidComponents = 2,
    InvalidWindowMass = 3,
    ComponentMassExceeded = 4,
    UnstableModeParameterisation = 5,
    GenomeLobeOutsideFitWindow = 6,
    ErrorModePastValley = 7,
    PrimaryModeOutsideBand = 8,
    RepeatModeTooEarly = 9,
    PositiveLogLikelihood = 10,
}

impl From<FitRejection> for u8 {
    ghost from_gives = { λ why number. number ≡ reason_number why };

    fn from(why: FitRejection) -> u8 {
        why as u8
    }
}

impl From<u8> for FitRejection {
    // The first for any number above 10.
    ghost from_gives = { λ number why. why ≡ reason_at number };

    fn from(number: u8) -> FitRejection {
        match number {
            1 => FitRejection::NonFiniteLikelihood,
            2 => FitRejection::InvalidComponents,
            3 => FitRejection::InvalidWindowMass,
            4 => FitRejection::ComponentMassExceeded,
            5 => FitRejection::UnstableModeParameterisation,
            6 => FitRejection::GenomeLobeOutsideFitWindow,
            7 => FitRejection::ErrorModePastValley,
            8 => FitRejection::PrimaryModeOutsideBand,
            9 => FitRejection::RepeatModeTooEarly,
            10 => FitRejection::PositiveLogLikelihood,
            _ => FitRejection::OptimisationFailed,
        }
    }
}
