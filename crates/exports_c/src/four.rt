// The four routines again: a static library has the exported functions of its own crate alone.
ghost use Rattle.std.specs.Prelude.{◌≡◌};
ghost use Rattle.routines.specs.Exp.{exp_of};
ghost use Rattle.routines.specs.Expm1.{expm1_of};
ghost use Rattle.routines.specs.Lgamma.{lgamma_of};
ghost use Rattle.routines.specs.Ln.{ln_of};

#[unsafe(no_mangle)]
pub extern "C" fn fog_exp(x: f64) -> f64
    ensures { result ≡ exp_of x }
{
    exports::four::fog_exp(x)
}

#[unsafe(no_mangle)]
pub extern "C" fn fog_ln(x: f64) -> f64
    ensures { result ≡ ln_of x }
{
    exports::four::fog_ln(x)
}

#[unsafe(no_mangle)]
pub extern "C" fn fog_expm1(x: f64) -> f64
    ensures { result ≡ expm1_of x }
{
    exports::four::fog_expm1(x)
}

#[unsafe(no_mangle)]
pub extern "C" fn fog_lgamma(x: f64) -> f64
    ensures { result ≡ lgamma_of x }
{
    exports::four::fog_lgamma(x)
}
