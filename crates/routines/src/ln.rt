// ln, in the steps of docs/ROUTINES.md and under its names.
//
// x = 2^k * z with z between 0.7089.. and 1.4179.., both cut out of the bits of x. The table has a c near z:
// z = c * (1 + r), so ln x = k ln 2 + ln c + ln(1 + r), and |r| is below 1/200.
//
// Special values (proofs/AnnexF.antt): ln of either zero is -inf, of 1 +0, of what lies below 0 a NaN, of +inf +inf, of
// a NaN a NaN.
// Accuracy, measured and not proved: at most 0.632 ulp on 24 million inputs (docs/MEASUREMENTS.md).
ghost use Rattle.std.specs.Prelude.{◌≡◌, ◌≤◌, not, T, is_nan};
ghost use Rattle.routines.specs.Ln.{ln_of, ln_core, ln_tail, beside_zero, not_above_zero, OFFSET};

use crate::ln_table::{log_at, piece_at};

// ln 2 in two parts: k times the first is exact.
const LN2_HIGH: f64 = 0.6931471805598903;

const LN2_LOW: f64 = 5.497923018708371e-14;

// The least normal value, the largest, and 2^54, which makes each subnormal value normal.
const NORMAL: f64 = 2.2250738585072014e-308;

const LARGEST: f64 = 1.7976931348623157e308;

const SCALE: f64 = 18014398509481984.0;

// 2^52 + 1023 + 64.
const BIAS: f64 = 4503599627371583.0;

// The offset moves the octave's start from 1 to z's least value, and keeps 64 octaves in hand, of which a scaled x
// uses 54.
const OFFSET: u64 = 0x409_5000_0000_0000;

const SCALED_OFFSET: u64 = 0xa9_5000_0000_0000;

// The coefficients, without their signs.
const B1: f64 = 0.3333333333333337;

const B2: f64 = 0.24999999995751013;

const B3: f64 = 0.19999999990379436;

const B4: f64 = 0.16667155552646487;

const B5: f64 = 0.14286322620881653;

// The fourth power and up of ln(1 + r) for |r| below 1/200, from t = r * r.
#[tactic(auto, unfolding(crate::specs::Ln::ln_tail))]
fn tail(r: f64, t: f64) -> f64
    ensures { result ≡ ln_tail r t }
{
    (t * t) * ((r * B3 - B2) - t * (B4 - r * B5))
}

// Steps 3 to 8: ln w from a normal w and the offset that goes with it. The piece has C[i] and B[i], and the log H[i]
// and L[i]; 0x10_0000_0000_0000 is 2^52, and 0x2000_0000_0000 is 2^45. The signs in the last step keep LLVM from
// packing its terms in pairs, which is slower.
#[tactic(auto, unfolding(crate::specs::Ln::ln_core))]
fn core(w: f64, offset: u64) -> f64
    requires fact_1 { T (not (is_nan w)) }
    requires fact_2 { offset ≤ OFFSET }
    ensures { result ≡ ln_core w offset }
{
    let q = f64::to_bits(w) % 0x8000_0000_0000_0000 + offset;
    let k = f64::from_bits(0x4330_0000_0000_0000 + q / 0x10_0000_0000_0000) - BIAS;
    let digits = q % 0x10_0000_0000_0000;
    let z = f64::from_bits(digits + 0x3fe6_b000_0000_0000);
    let piece = piece_at(digits / 0x2000_0000_0000);
    let log = log_at(digits / 0x2000_0000_0000);
    let r = (z - piece.0) * piece.1;
    let high = k * LN2_HIGH + log.0;
    let sum = high + r;
    let rest = (high - sum) + r;
    let t = r * r;
    sum + ((rest + ((log.1 + k * LN2_LOW) - t * (0.5 - r * B1))) + tail(r, t))
}

// Step 9: v where v * x is above it, so that v lies on the side of 0 where ln x lies, and otherwise +0. 1 is the
// only x that was ever met that needs it; it makes the rule hold by its form.
#[tactic(auto, unfolding(crate::specs::Ln::beside_zero))]
fn beside_zero(x: f64, v: f64) -> f64
    ensures { result ≡ beside_zero x v }
{
    if v * x > v { v } else { 0.0 }
}

// Step 2 for an x that is not above 0, or a NaN.
fn not_above_zero(x: f64) -> f64
    ensures { result ≡ not_above_zero x }
{
    if x == 0.0 {
        f64::NEG_INFINITY
    } else {
        f64::NAN
    }
}

// The natural logarithm of x.
#[tactic(auto, unfolding(crate::specs::Ln::ln_of))]
pub fn ln(x: f64) -> f64
    ensures { result ≡ ln_of x }
{
    let mut w = x;
    let mut offset = OFFSET;
    if x >= NORMAL {
        if x > LARGEST {
            return x;
        }
    } else {
        if x > 0.0 {
            w = x * SCALE;
            offset = SCALED_OFFSET;
        } else {
            return not_above_zero(x);
        }
    }
    beside_zero(x, core(w, offset))
}

pub fn fog_ln(x: f64) -> f64
    ensures { result ≡ ln_of x }
{
    ln(x)
}
