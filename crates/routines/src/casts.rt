// Rust's saturating `as` from `f64`, and its `as f64` of a `u64`, on every input.
ghost use Rattle.std.specs.Prelude.{◌≡◌, pos};
ghost use Rattle.std.specs.Float.Ieee as Ieee;
ghost use Rattle.std.specs.Float.{binary64};

// Rust's `x as u64`: toward zero, to the nearest end of the range, and 0 for a NaN.
pub fn to_u64(x: f64) -> u64
    ensures { result ≡ Ieee.to_unsigned 64 x }
{
    std::num::saturating_f64_to_u64(x)
}

// Rust's `x as u32`.
pub fn to_u32(x: f64) -> u32
    ensures { result ≡ Ieee.to_unsigned 32 x }
{
    std::num::saturating_f64_to_u32(x)
}

// Rust's `n as f64`: the nearest `f64`, the even one of two.
pub fn from_u64(n: u64) -> f64
    ensures { result ≡ Ieee.of_int binary64 (pos n) }
{
    std::num::nearest_u64_to_f64(n)
}
