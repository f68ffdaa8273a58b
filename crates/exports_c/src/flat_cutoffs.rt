// The cutoffs of a fit.
ghost use Rattle.std.specs.Prelude.{◌≡◌};
ghost use Rattle.models.specs.Cutoffs.{hole_cutoff_of, hole_cutoff_sure_of};
ghost use Rattle.models.specs.HeightCutoffs.{crossover_of, error_floor_of};
ghost use Rattle.exports.specs.FlatCutoffs.{say_cutoff, say_sure, say_floor};
ghost use Rattle.exports.specs.FlatFits.{fit_of};

use exports::fits::FlatFit;
use exports::flat_cutoffs::{FlatCutoff, FlatSureCutoff};

#[unsafe(no_mangle)]
pub extern "C" fn fog_hole_cutoff(fit: FlatFit, budget: f64) -> FlatCutoff
    ensures { result ≡ say_cutoff (hole_cutoff_of (fit_of fit) budget) }
{
    exports::flat_cutoffs::fog_hole_cutoff(fit, budget)
}

#[unsafe(no_mangle)]
pub extern "C" fn fog_hole_cutoff_sure(fit: FlatFit, budget: f64) -> FlatSureCutoff
    ensures { result ≡ say_sure (hole_cutoff_sure_of (fit_of fit) budget) }
{
    exports::flat_cutoffs::fog_hole_cutoff_sure(fit, budget)
}

#[unsafe(no_mangle)]
pub extern "C" fn fog_crossover(fit: FlatFit) -> FlatCutoff
    ensures { result ≡ say_cutoff (crossover_of (fit_of fit)) }
{
    exports::flat_cutoffs::fog_crossover(fit)
}

#[unsafe(no_mangle)]
pub extern "C" fn fog_error_floor_cutoff(fit: FlatFit) -> FlatCutoff
    ensures { result ≡ say_floor (error_floor_of (fit_of fit)) }
{
    exports::flat_cutoffs::fog_error_floor_cutoff(fit)
}
