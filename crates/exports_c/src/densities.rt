// Log densities and the mode.
ghost use Rattle.std.specs.Prelude.{◌≡◌};
ghost use Rattle.helpers.specs.Lobes.{ln_dnbinom_of, discrete_nb_mode_of};
ghost use Rattle.helpers.specs.Shelves.{shelf_trials_of, ln_dbetabinom_of, ln_single_copy_of, mix_single_copy_of};
ghost use Rattle.exports.specs.Flat.{part_of};

use exports::shelf::FlatShelf;

#[unsafe(no_mangle)]
pub extern "C" fn fog_ln_dnbinom(x: f64, mean: f64, dispersion: f64) -> f64
    ensures { result ≡ ln_dnbinom_of x mean dispersion }
{
    exports::densities::fog_ln_dnbinom(x, mean, dispersion)
}

#[unsafe(no_mangle)]
pub extern "C" fn fog_discrete_nb_mode(mean: f64, dispersion: f64) -> u64
    ensures { result ≡ discrete_nb_mode_of mean dispersion }
{
    exports::densities::fog_discrete_nb_mode(mean, dispersion)
}

#[unsafe(no_mangle)]
pub extern "C" fn fog_shelf_trials(mean: f64) -> f64
    ensures { result ≡ shelf_trials_of mean }
{
    exports::densities::fog_shelf_trials(mean)
}

#[unsafe(no_mangle)]
pub extern "C" fn fog_ln_dbetabinom(x: f64, trials: f64, alpha: f64, beta: f64) -> f64
    ensures { result ≡ ln_dbetabinom_of x trials alpha beta }
{
    exports::densities::fog_ln_dbetabinom(x, trials, alpha, beta)
}

#[unsafe(no_mangle)]
pub extern "C" fn fog_ln_single_copy(
    count: f64,
    mean: f64,
    dispersion: f64,
    present: u8,
    shelf: FlatShelf,
) -> f64
    ensures { result ≡ ln_single_copy_of count mean dispersion (part_of present shelf) }
{
    exports::densities::fog_ln_single_copy(count, mean, dispersion, present, shelf)
}

#[unsafe(no_mangle)]
pub extern "C" fn fog_mix_single_copy(
    lobe: f64,
    count: f64,
    present: u8,
    shelf: FlatShelf,
    table: &[f64],
) -> f64
    ensures { result ≡ mix_single_copy_of lobe count (part_of present shelf) table.now }
{
    exports::densities::fog_mix_single_copy(lobe, count, present, shelf, table)
}
