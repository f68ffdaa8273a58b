// exp, in the steps of docs/ROUTINES.md and under its names.
ghost use Rattle.std.specs.Prelude.{◌≡◌};
ghost use Rattle.routines.specs.Exp.{exp_of};

#[unsafe(no_mangle)]
pub extern "C" fn fog_exp(x: f64) -> f64
    ensures { result ≡ exp_of x }
{
    routines::exp::fog_exp(x)
}
