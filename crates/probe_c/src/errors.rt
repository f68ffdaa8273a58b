// The error component.
ghost use Rattle.std.specs.Prelude.{◌≡◌};
ghost use Rattle.models.specs.Errors.{log_probability_of, log_window_mass_of};
ghost use Rattle.exports.specs.Flat.{say_number};
ghost use Rattle.exports.specs.FlatFits.{errors_of};

use exports::answers::FlatNumber;
use exports::fits::FlatErrors;

#[unsafe(no_mangle)]
pub extern "C" fn fog_log_probability(errors: FlatErrors, count: f64) -> f64
    ensures { result ≡ log_probability_of (errors_of errors) count }
{
    probe::errors::fog_log_probability(errors, count)
}

#[unsafe(no_mangle)]
pub extern "C" fn fog_log_window_mass(errors: FlatErrors, top: usize) -> FlatNumber
    ensures { result ≡ say_number (log_window_mass_of (errors_of errors) top) }
{
    probe::errors::fog_log_window_mass(errors, top)
}
