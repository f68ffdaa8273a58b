// The four routines again: a static library has the exported functions of its own crate alone.
ghost use Rattle.std.specs.Prelude.{◌≡◌};
ghost use Rattle.routines.specs.Exp.{exp_of};
ghost use Rattle.routines.specs.Expm1.{expm1_of};
ghost use Rattle.routines.specs.Lgamma.{lgamma_of};
ghost use Rattle.routines.specs.Ln.{ln_of};

use routines::exp::exp;
use routines::expm1::expm1;
use routines::lgamma::lgamma;
use routines::ln::ln;

pub fn fog_exp(x: f64) -> f64
    ensures { result ≡ exp_of x }
{
    exp(x)
}

pub fn fog_ln(x: f64) -> f64
    ensures { result ≡ ln_of x }
{
    ln(x)
}

pub fn fog_expm1(x: f64) -> f64
    ensures { result ≡ expm1_of x }
{
    expm1(x)
}

pub fn fog_lgamma(x: f64) -> f64
    ensures { result ≡ lgamma_of x }
{
    lgamma(x)
}
