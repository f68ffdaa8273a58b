// Rust's `f64::max`, `f64::min` and `f64::is_finite`, on every `f64`. Of two zeros `max` and `min` answer the first,
// which those of std leave open; `max_of` and `min_of` say so.
ghost use Rattle.std.specs.Prelude.{◌≡◌};
ghost use Rattle.std.specs.Float.Ieee.Scale.{finite};
ghost use Rattle.routines.specs.Pick.{max_of, min_of};

// The larger of a and b, the first where they are level, and the other where one is a NaN.
#[tactic(auto, unfolding(crate::specs::Pick::max_of))]
pub fn max(a: f64, b: f64) -> f64
    ensures { result ≡ max_of a b }
{
    if a.is_nan() {
        b
    } else if a < b {
        b
    } else {
        a
    }
}

// The smaller of a and b, the first where they are level, and the other where one is a NaN.
#[tactic(auto, unfolding(crate::specs::Pick::min_of))]
pub fn min(a: f64, b: f64) -> f64
    ensures { result ≡ min_of a b }
{
    if a.is_nan() {
        b
    } else if b < a {
        b
    } else {
        a
    }
}

// Whether x is neither a NaN nor an infinity: only then is x * 0.0 a zero.
pub fn is_finite(x: f64) -> bool
    ensures { result ≡ finite x }
{
    x * 0.0 == 0.0
}
