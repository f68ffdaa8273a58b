// ln, in the steps of docs/ROUTINES.md and under its names.
ghost use Rattle.std.specs.Prelude.{◌≡◌};
ghost use Rattle.routines.specs.Ln.{ln_of};

#[unsafe(no_mangle)]
pub extern "C" fn fog_ln(x: f64) -> f64
    ensures { result ≡ ln_of x }
{
    routines::ln::fog_ln(x)
}
