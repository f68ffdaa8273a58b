// A bin as the sample had it.
ghost use Rattle.std.specs.Prelude.{◌≡◌};
ghost use Rattle.models.specs.Recovery.{used_scale_of, rounded_quotient_of};

#[unsafe(no_mangle)]
pub extern "C" fn fog_used_scale(scale: f64) -> f64
    ensures { result ≡ used_scale_of scale }
{
    probe::recovery::fog_used_scale(scale)
}

#[unsafe(no_mangle)]
pub extern "C" fn fog_rounded_quotient(n: u32, divisor: f64) -> u32
    ensures { result ≡ rounded_quotient_of n divisor }
{
    probe::recovery::fog_rounded_quotient(n, divisor)
}
