// The validator, and its reasons by their numbers.
ghost use Rattle.std.specs.Prelude.{◌≡◌};
ghost use Rattle.fitter.specs.Validation.{validate_of};
ghost use Rattle.exports.specs.FlatFits.{fit_of};
ghost use Rattle.exports.specs.FlatAttempts.{say_verdict};

use exports::fits::FlatFit;
use exports::verdicts::FlatVerdict;

#[unsafe(no_mangle)]
pub extern "C" fn fog_validate_fit(
    fit: FlatFit,
    valley: usize,
    peak: usize,
    mass_limit: f64,
) -> FlatVerdict
    ensures { result ≡ say_verdict (validate_of (fit_of fit) valley peak mass_limit) }
{
    exports::verdicts::fog_validate_fit(fit, valley, peak, mass_limit)
}
