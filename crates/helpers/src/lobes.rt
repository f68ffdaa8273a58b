// Poisson and negative binomial.
// Ported from src/preprocessing/math_helpers.rs of bacpop/sparrowhawk-asm, f1f8af1232, Apache-2.0; ported and changed.
ghost use Rattle.std.specs.Prelude.{◌≡◌};
ghost use Rattle.helpers.specs.Lobes.{ln_dpois_of, ln_dnbinom_of, discrete_nb_mode_of};

use crate::hoists::{density, lobe_of};
use routines::casts::to_u64;
use routines::lgamma::lgamma;
use routines::ln::ln;
use routines::pick::{is_finite, min};
use routines::whole::floor;

// The log of the Poisson density.
#[tactic(auto, unfolding(crate::specs::Lobes::ln_dpois_of))]
pub fn ln_dpois(x: f64, lambda: f64) -> f64
    ensures { result ≡ ln_dpois_of x lambda }
{
    x * ln(lambda) - lgamma(x + 1.0) - lambda
}

// The log of the negative-binomial density, by mean and dispersion.
pub fn ln_dnbinom(x: f64, mean: f64, dispersion: f64) -> f64
    ensures { result ≡ ln_dnbinom_of x mean dispersion }
{
    density(lobe_of(mean, dispersion), x)
}

// The negative binomial's mode as a count: floor(mean - (dispersion - 1)), or 0; 2^64-1 where it is 2^64 or more.
#[tactic(auto, unfolding(crate::specs::Lobes::discrete_nb_mode_of))]
pub fn discrete_nb_mode(mean: f64, dispersion: f64) -> u64
    ensures { result ≡ discrete_nb_mode_of mean dispersion }
{
    let mode = mean - (dispersion - 1.0);
    if is_finite(mode) {
        if mode > 0.0 {
            return to_u64(min(floor(mode), 18446744073709551616.0));
        }
    }
    0
}
