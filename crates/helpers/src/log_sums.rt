// Log sums and their kin.
// Ported from src/preprocessing/math_helpers.rs of bacpop/sparrowhawk-asm, f1f8af1232, Apache-2.0; ported and changed.
ghost use Rattle.std.specs.Prelude.{◌≡◌, true, ◌⊎◌, T};
ghost use Rattle.std.specs.Float.{nan};
ghost use Rattle.std.specs.Float.Ieee.{le};
ghost use Rattle.std.specs.Float.Ieee.Scale.{finite};
ghost use Rattle.routines.specs.Constants.{one};
ghost use Rattle.routines.specs.Exp.{exp_of};
ghost use Rattle.routines.specs.Ln.{ln_of};
ghost use Rattle.routines.specs.Ops.{◌⊕◌};
ghost use Rattle.routines.specs.Pick.{max_of};
ghost use Rattle.helpers.specs.LogSums.{weight_of, lse2_of, lse3_of, softmax3_of, ln_sub_exp_of, sigmoid_of};

use routines::exp::exp;
use routines::expm1::expm1;
use routines::ln::ln;
use routines::pick::{is_finite, max};

// An exponential of less than this, added to 1 or more, changes nothing.
const FAR: f64 = -40.0;

// s + e^d for an s that is 1 or more, or a NaN.
fn added(s: f64, d: f64) -> f64
    requires { (s ≡ nan) ⊎ T (le one s) }
    ensures { result ≡ s ⊕ exp_of d }
{
    if d < FAR { s } else { s + exp(d) }
}

// (e^x + e^y) + 1.
fn beside_one(x: f64, y: f64) -> f64
    ensures { result ≡ exp_of x ⊕ exp_of y ⊕ one }
{
    if x < FAR {
        if y < FAR {
            return 1.0;
        }
    }
    exp(x) + exp(y) + 1.0
}

// The weights of a and b under their maximum: the larger one's is 1.
fn weights(a: f64, b: f64) -> f64
    requires { finite (max_of a b) ≡ true }
    ensures { result ≡ weight_of a (max_of a b) ⊕ weight_of b (max_of a b) }
{
    if a < b {
        added(1.0, a - b)
    } else {
        added(1.0, b - a)
    }
}

// m + ln(s), where ln(1) is +0.
fn with_log(m: f64, s: f64) -> f64
    ensures { result ≡ m ⊕ ln_of s }
{
    if s == 1.0 { m + 0.0 } else { m + ln(s) }
}

// ln(e^a + e^b), shifted by the larger so that no exponential overflows.
#[tactic(auto, unfolding(crate::specs::LogSums::lse2_of))]
pub fn lse2(a: f64, b: f64) -> f64
    ensures { result ≡ lse2_of a b }
{
    let m = max(a, b);
    if is_finite(m) {
        return with_log(m, weights(a, b));
    }
    m
}

// ln(e^a + e^b + e^c), shifted by the largest.
#[tactic(auto, unfolding(crate::specs::LogSums::lse3_of))]
pub fn lse3(a: f64, b: f64, c: f64) -> f64
    ensures { result ≡ lse3_of a b c }
{
    let m = max(max(a, b), c);
    if is_finite(m) {
        if c == m {
            return with_log(m, beside_one(a - m, b - m));
        }
        return with_log(m, added(weights(a, b), c - m));
    }
    m
}

// The logs of the three softmax weights.
#[derive(Clone, Copy)]
pub struct Logs3 {
    pub first: f64,
    pub second: f64,
    pub third: f64,
}

pub fn ln_softmax3(a: f64, b: f64, c: f64) -> Logs3
    ensures { result ≡ softmax3_of a b c }
{
    let norm = lse3(a, b, c);
    Logs3 {
        first: a - norm,
        second: b - norm,
        third: c - norm,
    }
}

// ln(e^high - e^low): -inf where high is, and a NaN where low is larger or a NaN.
pub fn ln_sub_exp(high: f64, low: f64) -> f64
    ensures { result ≡ ln_sub_exp_of high low }
{
    if high == f64::NEG_INFINITY {
        return high;
    }
    if low > high {
        return f64::NAN;
    }
    if low.is_nan() {
        return f64::NAN;
    }
    high + ln(-expm1(low - high))
}

// 1 / (1 + e^-v); below 0 as e^v / (1 + e^v), so that the exponential stays at most 1.
#[tactic(auto, unfolding(crate::specs::LogSums::sigmoid_of))]
pub fn sigmoid(value: f64) -> f64
    ensures { result ≡ sigmoid_of value }
{
    if value >= 0.0 {
        return 1.0 / (1.0 + exp(-value));
    }
    let scaled = exp(value);
    scaled / (1.0 + scaled)
}
