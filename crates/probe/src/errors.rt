// The error component.
ghost use Rattle.std.specs.Prelude.{◌≡◌};
ghost use Rattle.models.specs.Errors.{log_probability_of, log_window_mass_of};
ghost use Rattle.exports.specs.Flat.{say_number};
ghost use Rattle.exports.specs.FlatFits.{errors_of};

use exports::answers::{FlatNumber, said_number};
use exports::fits::{FlatErrors, errors_of};

pub fn fog_log_probability(errors: FlatErrors, count: f64) -> f64
    ensures { result ≡ log_probability_of (errors_of errors) count }
{
    let p = errors_of(errors);
    p.log_probability(count)
}

pub fn fog_log_window_mass(errors: FlatErrors, top: usize) -> FlatNumber
    ensures { result ≡ say_number (log_window_mass_of (errors_of errors) top) }
{
    let p = errors_of(errors);
    said_number(p.log_window_mass(top))
}
