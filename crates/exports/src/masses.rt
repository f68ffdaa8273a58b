// Window masses: logs of the mass on the counts 1 to `top`.
ghost use Rattle.std.specs.Prelude.{◌≡◌};
ghost use Rattle.helpers.specs.Masses.{log_nb_mass_of, single_copy_log_mass_of};
ghost use Rattle.exports.specs.Flat.{part_of, say_number};

use crate::answers::{FlatNumber, said_number};
use crate::shelf::{FlatShelf, part_of};
use helpers::masses::{log_nb_mass, single_copy_log_mass};

pub fn fog_log_nb_mass(mean: f64, dispersion: f64, top: usize) -> FlatNumber
    ensures { result ≡ say_number (log_nb_mass_of mean dispersion top) }
{
    said_number(log_nb_mass(mean, dispersion, top))
}

pub fn fog_single_copy_log_mass(
    mean: f64,
    dispersion: f64,
    present: u8,
    shelf: FlatShelf,
    table: &[f64],
    top: usize,
) -> FlatNumber
    ensures { result ≡ say_number (single_copy_log_mass_of mean dispersion (part_of present shelf) table.now top) }
{
    said_number(single_copy_log_mass(mean, dispersion, part_of(present, shelf), table, top))
}
