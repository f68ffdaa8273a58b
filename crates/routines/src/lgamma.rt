// lgamma, in the steps of docs/ROUTINES.md and under its names: Stirling's series from 4 on; below, four steps up and a
// logarithm off; below 0, the reflection without a sine: Gamma(f) Gamma(1-f) over Gamma(1+a).
//
// Special values (proofs/AnnexF.antt): lgamma of 1 and 2 is +0; of either zero, of each negative whole number and of
// either infinity +inf; of a NaN a NaN.
// Accuracy, measured and not proved (docs/MEASUREMENTS.md; v is the exact value): at most 3e-15 (1 + |v|) for x below 8
// and above 0, 2.54 ulp from 8 to 2^1000, 8.4e-15 (1 + |v|) below 0.
ghost use Rattle.std.specs.Prelude.{◌≡◌};
ghost use Rattle.routines.specs.Lgamma.{lgamma_of, stirling_with, above_zero, below_zero};

use crate::ln::ln;
use crate::whole::floor;

// The coefficients of x times what Stirling's formula leaves, in powers of 1/x^2, without their signs.
const S0: f64 = 0.0833333333333029;

const S1: f64 = 0.0027777777589263228;

const S2: f64 = 0.0007936474005580868;

const S3: f64 = 0.0005949658648868027;

const S4: f64 = 0.0008302878749904084;

const S5: f64 = 0.0016464537495094853;

const S6: f64 = 0.0027324238438044194;

// ln(2 pi)/2 - 1/2.
const STIRLING_CONSTANT: f64 = 0.4189385332046727;

// ln Gamma(x) for x from 4 on, from x and its logarithm.
#[tactic(auto, unfolding(crate::specs::Lgamma::stirling_with))]
pub(crate) fn stirling(x: f64, log: f64) -> f64
    ensures { result ≡ stirling_with x log }
{
    let i = 1.0 / x;
    let z = i * i;
    let y = z * z;
    let s = (S0 - z * S1) + y * ((S2 - z * S3) + y * ((S4 - z * S5) + y * S6));
    (x - 0.5) * (log - 1.0) + (STIRLING_CONSTANT + i * s)
}

// ln Gamma(x) for x above 0; a NaN and +inf go through.
#[tactic(auto, unfolding(crate::specs::Lgamma::above_zero, crate::specs::Lgamma::four_up))]
fn above_zero(x: f64) -> f64
    ensures { result ≡ above_zero x }
{
    if x < 4.0 {
        if x == 1.0 {
            return 0.0;
        }
        if x == 2.0 {
            return 0.0;
        }
        let q = x * (x + 3.0);
        return stirling(x + 4.0, ln(x + 4.0)) - ln(q * (q + 2.0));
    }
    stirling(x, ln(x))
}

// Steps 2 to 4: ln |Gamma(x)| for x at or below 0.
#[tactic(auto, unfolding(crate::specs::Lgamma::below_zero, crate::specs::Lgamma::reflected))]
fn below_zero(x: f64) -> f64
    ensures { result ≡ below_zero x }
{
    let a = -x;
    let n = floor(a);
    if n == a {
        return f64::INFINITY;
    }
    let f = a - n;
    (above_zero(f) + above_zero(1.0 - f)) - above_zero(1.0 + a)
}

// ln |Gamma(x)|.
#[tactic(auto, unfolding(crate::specs::Lgamma::lgamma_of))]
pub fn lgamma(x: f64) -> f64
    ensures { result ≡ lgamma_of x }
{
    if x <= 0.0 {
        return below_zero(x);
    }
    above_zero(x)
}

pub fn fog_lgamma(x: f64) -> f64
    ensures { result ≡ lgamma_of x }
{
    lgamma(x)
}
