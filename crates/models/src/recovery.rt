// A bin as the sample had it: n over the scale, to the nearest whole number.
// Ported from src/preprocessing/spectrum_fitter.rs of bacpop/sparrowhawk-asm, f1f8af1232, Apache-2.0; ported and
// changed.
ghost use Rattle.std.specs.Prelude.{◌≡◌};
ghost use Rattle.models.specs.Recovery.{used_scale_of, rounded_quotient_of};

use routines::casts::to_u32;
use routines::pick::is_finite;
use routines::whole::round;

// A scale that is not finite or is below 1 becomes 1.
#[tactic(auto, unfolding(crate::specs::Recovery::used_scale_of))]
pub fn used_scale(scale: f64) -> f64
    ensures { result ≡ used_scale_of scale }
{
    if is_finite(scale) && scale >= 1.0 {
        scale
    } else {
        1.0
    }
}

// n / divisor, a half away from zero. Over 1 that is n.
pub fn rounded_quotient(n: u32, divisor: f64) -> u32
    ensures { result ≡ rounded_quotient_of n divisor }
{
    if divisor == 1.0 {
        return n;
    }
    to_u32(round((n as f64) / divisor))
}
