// A float as its bits, every NaN as one.
ghost use Rattle.std.specs.Prelude.{◌≡◌};
ghost use Rattle.routines.specs.Bits.{pattern_of};

#[tactic(auto, unfolding(crate::specs::Bits::pattern_of))]
pub fn pattern(x: f64) -> u64
    ensures { result ≡ pattern_of x }
{
    if x.is_nan() {
        return 0x7ff8_0000_0000_0000;
    }
    f64::to_bits(x)
}
