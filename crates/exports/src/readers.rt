// What is read off a fit.
ghost use Rattle.std.specs.Prelude.{◌≡◌, length};
ghost use Rattle.meaning.specs.Lent.{laid, counted};
ghost use Rattle.models.specs.Fits.{total_ratio_of, roundtrip_error_of, primary_mode_of, repeat_mode_of};
ghost use Rattle.models.specs.Heights.{component_heights_of, heights_to_of};
ghost use Rattle.models.specs.Modes.{error_mode_of};
ghost use Rattle.exports.specs.Flat.{say_count, say_written};
ghost use Rattle.exports.specs.FlatFits.{fit_of, say_heights};

use crate::answers::{FlatCount, FlatHeights, FlatWritten, flat_count, flat_heights, said_written};
use crate::fits::{FlatFit, fit_of};
use models::fit::{component_total_ratio, mode_roundtrip_error, primary_mode, repeat_mode};
use models::heights::{component_heights, component_heights_to};
use models::modes::error_mode;

pub fn fog_component_total_ratio(fit: FlatFit) -> f64
    ensures { result ≡ total_ratio_of (fit_of fit) }
{
    component_total_ratio(fit_of(fit))
}

pub fn fog_mode_roundtrip_error(fit: FlatFit) -> f64
    ensures { result ≡ roundtrip_error_of (fit_of fit) }
{
    mode_roundtrip_error(fit_of(fit))
}

pub fn fog_primary_mode(fit: FlatFit) -> u64
    ensures { result ≡ primary_mode_of (fit_of fit) }
{
    primary_mode(fit_of(fit))
}

pub fn fog_repeat_mode(fit: FlatFit) -> u64
    ensures { result ≡ repeat_mode_of (fit_of fit) }
{
    repeat_mode(fit_of(fit))
}

pub fn fog_error_mode(fit: FlatFit) -> FlatCount
    ensures { result ≡ say_count (error_mode_of (fit_of fit)) }
{
    flat_count(error_mode(fit_of(fit)))
}

pub fn fog_component_heights(fit: FlatFit, count: usize) -> FlatHeights
    ensures { result ≡ say_heights (component_heights_of (fit_of fit) count) }
{
    flat_heights(component_heights(fit_of(fit), count))
}

pub fn fog_component_heights_to(fit: FlatFit, last: usize, out: &mut [f64]) -> FlatWritten
    ensures value { result ≡ say_written (counted (heights_to_of (fit_of fit) last (length out.old))) }
    ensures out_after { out.new ≡ laid (heights_to_of (fit_of fit) last (length out.old)) out.old }
{
    said_written(component_heights_to(fit_of(fit), last, out))
}
