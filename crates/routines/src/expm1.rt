// expm1, in the steps of docs/ROUTINES.md and under its names: exp's table and polynomial, with 1 taken off before what
// is small is added.
//
// Special values (proofs/AnnexF.antt): expm1 of either zero is that zero, of -inf -1, of +inf +inf, of a NaN a NaN.
// Accuracy, measured and not proved: at most 0.642 ulp on 16 million inputs (docs/MEASUREMENTS.md).
ghost use Rattle.std.specs.Prelude.{◌≡◌, not, T, is_nan};
ghost use Rattle.routines.specs.Expm1.{expm1_of, less_one, beside_minus_one, far_out};

use crate::exp::{PER_STEP, STEP_HIGH, STEP_LOW, exp, tail};
use crate::held::{at_least, at_most};
use crate::tables::power_at;

// 1.5 * 2^52 + 1023 * 32, and 55 octaves to either side.
const SHIFT: f64 = 6755399441088480.0;

const LEAST: f64 = 6755399441086720.0;

const MOST: f64 = 6755399441090240.0;

// Steps 4 to 9: e^x - 1 from t. `big` and `small` are the power of two and its correction; less + g is big - 1, and s +
// e is less + y, both exactly. The row has T[i] and D[i], and 0x10_0000_0000_0000 is 2^52.
#[tactic(auto, unfolding(crate::specs::Expm1::less_one))]
fn less_one(x: f64, t: f64) -> f64
    requires { T (not (is_nan t)) }
    ensures { result ≡ less_one x t }
{
    let k = t - SHIFT;
    let y = x - k * STEP_HIGH;
    let l = k * STEP_LOW;
    let r = y - l;
    let u = f64::to_bits(t);
    let row = power_at(u);
    let a = f64::from_bits(u / 32 % 2048 * 0x10_0000_0000_0000);
    let big = row.value * a;
    let small = big * row.rest;
    let h = tail(r);
    let less = big - 1.0;
    let back = less - big;
    let g = (big - (less - back)) - (1.0 + back);
    let s = less + y;
    let e = y - (s - less);
    s + ((h + (less + small) * (r + h)) + ((e + g) + (small - l)))
}

// Step 10: below 0, v held to -1 .. 0; above 0, to 0 and above. No value was ever met that needs it; it makes the rule
// hold by its form.
#[tactic(auto, unfolding(crate::specs::Expm1::beside_minus_one))]
fn beside_minus_one(x: f64, v: f64) -> f64
    ensures { result ≡ beside_minus_one x v }
{
    if x < 0.0 {
        at_most(at_least(v, -1.0), 0.0)
    } else {
        at_least(v, 0.0)
    }
}

// Step 3: x more than 55 octaves out, where 1 is lost in e^x or e^x in 1; or a NaN.
#[tactic(auto, unfolding(crate::specs::Expm1::far_out))]
fn far_out(x: f64) -> f64
    ensures { result ≡ far_out x }
{
    if x < 0.0 {
        -1.0
    } else if x >= 0.0 {
        exp(x)
    } else {
        x
    }
}

// e^x - 1.
#[tactic(auto, unfolding(crate::specs::Expm1::expm1_of, crate::specs::Expm1::tee_m))]
pub fn expm1(x: f64) -> f64
    ensures { result ≡ expm1_of x }
{
    if x == 0.0 {
        return x;
    }
    let t = x * PER_STEP + SHIFT;
    if t >= LEAST {
        if t <= MOST {
            return beside_minus_one(x, less_one(x, t));
        }
    }
    far_out(x)
}

pub fn fog_expm1(x: f64) -> f64
    ensures { result ≡ expm1_of x }
{
    expm1(x)
}
