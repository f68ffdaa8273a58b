// expm1, in the steps of docs/ROUTINES.md and under its names: exp's table and polynomial, with 1 taken off before what
ghost use Rattle.std.specs.Prelude.{◌≡◌};
ghost use Rattle.routines.specs.Expm1.{expm1_of};

#[unsafe(no_mangle)]
pub extern "C" fn fog_expm1(x: f64) -> f64
    ensures { result ≡ expm1_of x }
{
    routines::expm1::fog_expm1(x)
}
