// lgamma where the logarithm is at hand: for speed alone. proofs/Logarithms.antt shows it equal to lgamma.
ghost use Rattle.std.specs.Prelude.{◌≡◌};
ghost use Rattle.routines.specs.Hoists.{lgamma_with};

use crate::lgamma::{lgamma, stirling};

// ln |Gamma(x)| from x and, from 4 on, its logarithm.
#[tactic(auto, unfolding(crate::specs::Hoists::lgamma_with))]
pub fn lgamma_with(x: f64, log: f64) -> f64
    ensures { result ≡ lgamma_with x log }
{
    if x < 4.0 {
        return lgamma(x);
    }
    stirling(x, log)
}
