// What the searches for a cutoff have in common: whether a fit has counts to search, and where a search ends at the
// latest.
// Ported from src/preprocessing/models.rs of bacpop/sparrowhawk-asm, f1f8af1232, Apache-2.0; ported and changed.
ghost use Rattle.std.specs.Prelude.{◌≡◌, min};
ghost use Rattle.std.specs.Float.Ieee.{to_unsigned};
ghost use Rattle.models.specs.HeightCutoffs.{crossover_starts};

use crate::fit::SpectrumFit;
use routines::casts::to_u64;
use routines::pick::is_finite;

// A finite mean of 2 at least, and a window end of 2 at least.
#[tactic(auto, unfolding(crate::specs::HeightCutoffs::crossover_starts))]
pub(crate) fn crossover_starts(fit: SpectrumFit) -> bool
    ensures { result ≡ crossover_starts fit }
{
    is_finite(fit.mean) && !(fit.mean < 2.0) && fit.fit_window_end >= 2
}

// A float as a whole number, and `end` at most.
pub(crate) fn whole_up_to(x: f64, end: u16) -> u16
    ensures { result ≡ min (to_unsigned 64 x) end }
{
    to_u64(x).min(end as u64) as u16
}
