// Rust's `f64::round` and `f64::floor`, on every `f64`.
ghost use Rattle.std.specs.Prelude.{◌≡◌, false, T, pos};
ghost use Rattle.std.specs.Float.Ieee as Ieee;
ghost use Rattle.std.specs.Float.{fin, binary64};
ghost use Rattle.std.specs.Float.Ieee.Positive.{num, den, positive};
ghost use Rattle.routines.specs.Whole.{round_of, floor_of, half_up, ceiling};

// From here on, 2^52, every `f64` is a whole number.
const WHOLE: f64 = 4503599627370496.0;

// x to the nearest whole number, a half up, for 0 < x < 2^52. Twice x, without its fraction, says in
// which half x lies.
fn round_small(x: f64) -> f64
    requires fact_1 { T (positive x) }
    requires fact_2 { T (Ieee.lt x (fin false 1 (pos 52))) }
    ensures { result ≡ Ieee.round binary64 false (half_up (num x) (den x)) 1 }
{
    let halves = std::num::truncating_f64_to_u64(x * 2.0);
    std::num::nearest_u64_to_f64((halves + 1) / 2)
}

// x to the nearest whole number, a half away from zero: a NaN, an infinity, a zero of either sign
// and what is whole by its size stay as they are.
pub fn round(x: f64) -> f64
    ensures { result ≡ round_of x }
{
    if x > 0.0 && x < WHOLE {
        round_small(x)
    } else if x < 0.0 && x > -WHOLE {
        -round_small(-x)
    } else {
        x
    }
}

// x up to a whole number, for 0 < x < 2^52.
fn ceil_small(x: f64) -> f64
    requires fact_1 { T (positive x) }
    requires fact_2 { T (Ieee.lt x (fin false 1 (pos 52))) }
    ensures { result ≡ Ieee.round binary64 false (ceiling (num x) (den x)) 1 }
{
    let n = std::num::truncating_f64_to_u64(x);
    let t = std::num::nearest_u64_to_f64(n);
    if t < x {
        std::num::nearest_u64_to_f64(n + 1)
    } else {
        t
    }
}

// The largest whole number that is at most x.
pub fn floor(x: f64) -> f64
    ensures { result ≡ floor_of x }
{
    if x > 0.0 && x < WHOLE {
        std::num::nearest_u64_to_f64(std::num::truncating_f64_to_u64(x))
    } else if x < 0.0 && x > -WHOLE {
        -ceil_small(-x)
    } else {
        x
    }
}
