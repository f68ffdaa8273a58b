// Log densities and the mode.
ghost use Rattle.std.specs.Prelude.{◌≡◌};
ghost use Rattle.helpers.specs.Lobes.{ln_dnbinom_of, discrete_nb_mode_of};
ghost use Rattle.helpers.specs.Shelves.{shelf_trials_of, ln_dbetabinom_of, ln_single_copy_of, mix_single_copy_of};
ghost use Rattle.exports.specs.Flat.{part_of};

use crate::shelf::{FlatShelf, part_of};
use helpers::lobes::{discrete_nb_mode, ln_dnbinom};
use helpers::shelves::{ln_dbetabinom, ln_single_copy, mix_single_copy, shelf_trials};

pub fn fog_ln_dnbinom(x: f64, mean: f64, dispersion: f64) -> f64
    ensures { result ≡ ln_dnbinom_of x mean dispersion }
{
    ln_dnbinom(x, mean, dispersion)
}

pub fn fog_discrete_nb_mode(mean: f64, dispersion: f64) -> u64
    ensures { result ≡ discrete_nb_mode_of mean dispersion }
{
    discrete_nb_mode(mean, dispersion)
}

pub fn fog_shelf_trials(mean: f64) -> f64
    ensures { result ≡ shelf_trials_of mean }
{
    shelf_trials(mean)
}

pub fn fog_ln_dbetabinom(x: f64, trials: f64, alpha: f64, beta: f64) -> f64
    ensures { result ≡ ln_dbetabinom_of x trials alpha beta }
{
    ln_dbetabinom(x, trials, alpha, beta)
}

pub fn fog_ln_single_copy(
    count: f64,
    mean: f64,
    dispersion: f64,
    present: u8,
    shelf: FlatShelf,
) -> f64
    ensures { result ≡ ln_single_copy_of count mean dispersion (part_of present shelf) }
{
    ln_single_copy(count, mean, dispersion, part_of(present, shelf))
}

pub fn fog_mix_single_copy(
    lobe: f64,
    count: f64,
    present: u8,
    shelf: FlatShelf,
    table: &[f64],
) -> f64
    ensures { result ≡ mix_single_copy_of lobe count (part_of present shelf) table.now }
{
    mix_single_copy(lobe, count, part_of(present, shelf), table)
}
