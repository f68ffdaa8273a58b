// Layer 1 but for the four routines and the tables: rounding, maximum and minimum, casts, bounds.
ghost use Rattle.std.specs.Prelude.{◌≡◌, pos};
ghost use Rattle.std.specs.Float.{binary64};
ghost use Rattle.std.specs.Float.Ieee.{of_int, to_unsigned};
ghost use Rattle.std.specs.Float.Ieee.Scale.{finite};
ghost use Rattle.routines.specs.Exp.{exp_tail};
ghost use Rattle.routines.specs.Held.{at_least, at_most};
ghost use Rattle.routines.specs.Pick.{max_of, min_of};
ghost use Rattle.routines.specs.Whole.{round_of, floor_of};

#[unsafe(no_mangle)]
pub extern "C" fn fog_round(x: f64) -> f64
    ensures { result ≡ round_of x }
{
    probe::numbers::fog_round(x)
}

#[unsafe(no_mangle)]
pub extern "C" fn fog_floor(x: f64) -> f64
    ensures { result ≡ floor_of x }
{
    probe::numbers::fog_floor(x)
}

#[unsafe(no_mangle)]
pub extern "C" fn fog_max(a: f64, b: f64) -> f64
    ensures { result ≡ max_of a b }
{
    probe::numbers::fog_max(a, b)
}

#[unsafe(no_mangle)]
pub extern "C" fn fog_min(a: f64, b: f64) -> f64
    ensures { result ≡ min_of a b }
{
    probe::numbers::fog_min(a, b)
}

#[unsafe(no_mangle)]
pub extern "C" fn fog_is_finite(x: f64) -> bool
    ensures { result ≡ finite x }
{
    probe::numbers::fog_is_finite(x)
}

#[unsafe(no_mangle)]
pub extern "C" fn fog_to_u64(x: f64) -> u64
    ensures { result ≡ to_unsigned 64 x }
{
    probe::numbers::fog_to_u64(x)
}

#[unsafe(no_mangle)]
pub extern "C" fn fog_to_u32(x: f64) -> u32
    ensures { result ≡ to_unsigned 32 x }
{
    probe::numbers::fog_to_u32(x)
}

#[unsafe(no_mangle)]
pub extern "C" fn fog_from_u64(n: u64) -> f64
    ensures { result ≡ of_int binary64 (pos n) }
{
    probe::numbers::fog_from_u64(n)
}

#[unsafe(no_mangle)]
pub extern "C" fn fog_at_least(v: f64, bound: f64) -> f64
    ensures { result ≡ at_least v bound }
{
    probe::numbers::fog_at_least(v, bound)
}

#[unsafe(no_mangle)]
pub extern "C" fn fog_at_most(v: f64, bound: f64) -> f64
    ensures { result ≡ at_most v bound }
{
    probe::numbers::fog_at_most(v, bound)
}

#[unsafe(no_mangle)]
pub extern "C" fn fog_tail(r: f64) -> f64
    ensures { result ≡ exp_tail r }
{
    probe::numbers::fog_tail(r)
}
