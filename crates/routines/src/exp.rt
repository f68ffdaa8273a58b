// exp, in the steps of docs/ROUTINES.md and under its names.
//
// x = k * ln2/32 + r with a whole k and |r| at most about ln2/64, so e^x is a power of two times a row of the table
// times e^r. Adding SHIFT to x * 32/ln2 rounds to the whole k and leaves it in the low bits of t.
//
// Special values (proofs/AnnexF.antt): exp of either zero is 1, of -inf +0, of +inf +inf, of a NaN a NaN; no other is.
// Accuracy, proved at every finite double (crates/accuracy): within 0.70 ulp of e^x, and 0.85 ulp up to 2^-1022; +inf
// where e^x is out of range; always one of the two doubles around e^x.
ghost use Rattle.std.specs.Prelude.{◌≡◌, not, T, is_nan};
ghost use Rattle.routines.specs.Exp.{exp_of, beside_one, scaled_up, out_of_range, exp_tail};

use crate::held::{at_least, at_most};
use crate::tables::power_at;

// 32 / ln 2, and ln 2 / 32 in two parts, the first of 37 bits, so that k times it is exact.
pub const PER_STEP: f64 = 46.16624130844683;

pub const STEP_HIGH: f64 = 0.021660849392446835;

pub const STEP_LOW: f64 = 5.145609244655338e-14;

// 1.5 * 2^52 + 2046 * 32, and 1,100 octaves to either side.
const SHIFT: f64 = 6755399441121216.0;

const LEAST: f64 = 6755399441086016.0;

const MOST: f64 = 6755399441156416.0;

// The polynomial's coefficients.
const C3: f64 = 0.1666666666654888;

const C4: f64 = 0.041666666666416184;

const C5: f64 = 0.008333365764865052;

const C6: f64 = 0.0013888939342807632;

// e^r - 1 - r for |r| at most about ln2/64.
#[tactic(auto, unfolding(crate::specs::Exp::exp_tail))]
pub fn tail(r: f64) -> f64
    ensures { result ≡ exp_tail r }
{
    let z = r * r;
    z * ((0.5 + r * C3) + z * ((C4 + r * C5) + z * C6))
}

// Steps 3 to 7: e^x from t. The power of two is put on in two parts, so that only the last product can underflow or
// overflow. The row has T[i] and D[i], and 0x10_0000_0000_0000 is 2^52.
#[tactic(auto, unfolding(crate::specs::Exp::scaled_up, crate::specs::Exp::reduced, crate::specs::Exp::scaled_by))]
fn scaled_up(x: f64, t: f64) -> f64
    requires { T (not (is_nan t)) }
    ensures { result ≡ scaled_up x t }
{
    let k = t - SHIFT;
    let r = (x - k * STEP_HIGH) - k * STEP_LOW;
    let u = f64::to_bits(t);
    let row = power_at(u);
    let m = u / 32 % 4096;
    let a = f64::from_bits(m / 2 * 0x10_0000_0000_0000);
    let b = f64::from_bits((m - m / 2) * 0x10_0000_0000_0000);
    let y = row.value * a;
    (y + y * ((row.rest + r) + tail(r))) * b
}

// Step 8: v on the side of 1 where e^x lies, and never below 0. It changes no value (`step-8-changes-nothing`); it
// makes the rule hold by its form.
#[tactic(auto, unfolding(crate::specs::Exp::beside_one))]
fn beside_one(x: f64, v: f64) -> f64
    ensures { result ≡ beside_one x v }
{
    if x < 0.0 {
        at_most(at_least(v, 0.0), 1.0)
    } else {
        at_least(v, 1.0)
    }
}

// Step 2: x too far out for the table, or a NaN.
#[tactic(auto, unfolding(crate::specs::Exp::out_of_range))]
fn out_of_range(x: f64) -> f64
    ensures { result ≡ out_of_range x }
{
    if x < 0.0 {
        0.0
    } else if x >= 0.0 {
        f64::INFINITY
    } else {
        x
    }
}

// e^x.
#[tactic(auto, unfolding(crate::specs::Exp::exp_of, crate::specs::Exp::tee))]
pub fn exp(x: f64) -> f64
    ensures { result ≡ exp_of x }
{
    let t = x * PER_STEP + SHIFT;
    if t >= LEAST {
        if t <= MOST {
            return beside_one(x, scaled_up(x, t));
        }
    }
    out_of_range(x)
}

pub fn fog_exp(x: f64) -> f64
    ensures { result ≡ exp_of x }
{
    exp(x)
}
