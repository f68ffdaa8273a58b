// lgamma, in the steps of docs/ROUTINES.md and under its names: Stirling's series from 4 on; below, four steps up and a
ghost use Rattle.std.specs.Prelude.{◌≡◌};
ghost use Rattle.routines.specs.Lgamma.{lgamma_of};

#[unsafe(no_mangle)]
pub extern "C" fn fog_lgamma(x: f64) -> f64
    ensures { result ≡ lgamma_of x }
{
    routines::lgamma::fog_lgamma(x)
}
