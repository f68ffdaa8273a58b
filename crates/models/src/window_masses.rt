// Each component's log mass inside the window.
// Ported from src/preprocessing/models.rs of bacpop/sparrowhawk-asm, f1f8af1232, Apache-2.0; ported and changed.
ghost use Rattle.std.specs.Prelude.{◌≡◌, ◌+◌};
ghost use Rattle.helpers.specs.Kept.{Kept};
ghost use Rattle.models.specs.Hoists.{masses_at};
ghost use Rattle.models.specs.Masses.{window_masses_of, mass_usable, masses_usable};

use crate::params::Params;
use crate::steady::{Steady, steady_of};
use helpers::mixtures::mix_mass;
use helpers::pairs::lobe_masses;
use helpers::prepared::ln_at;
use helpers::window_ends::WindowEnd;
use routines::pick::is_finite;

// A log mass may pass 0 by this much: rounding.
pub const WINDOW_LOG_MASS_TOLERANCE: f64 = 1e-12;

#[derive(Clone, Copy)]
pub(crate) struct WindowMasses {
    pub error: f64,
    pub single: f64,
    pub repeat: f64,
}

// `table` holds the shelf's entries and nothing else, and `steady` is the list's. The lobes' growths are left in
// `kept`.
pub(crate) fn masses_at(
    p: Params,
    steady: Steady,
    ready: &[f64],
    table: &[f64],
    kept: &mut [f64],
    end: WindowEnd,
) -> WindowMasses
    ensures value { result ≡ masses_at p steady ready.now table.now end.count }
    ensures kept { Kept steady.lobe steady.second kept.new (end.count + 1) }
{
    let shelf = p.shelf;
    let log = ln_at(ready, end.count());
    let error = p.error_params.window_mass_with(steady.ln_tail, log);
    let lobes = lobe_masses(steady.lobe, steady.second, ready, kept, end);
    let single = mix_mass(lobes.first, shelf, steady.logs, table, end);
    WindowMasses {
        error,
        single,
        repeat: lobes.second,
    }
}

// `table` holds the shelf's entries and nothing else.
pub(crate) fn masses_of(p: Params, table: &[f64], end: WindowEnd) -> WindowMasses
    ensures { result ≡ window_masses_of p table.now end.count }
{
    let mut none = [0.0; 1];
    masses_at(p, steady_of(p), &table[0..0], table, &mut none, end)
}

fn mass_usable(mass: f64) -> bool
    ensures { result ≡ mass_usable mass }
{
    is_finite(mass) && !(mass > WINDOW_LOG_MASS_TOLERANCE)
}

#[tactic(auto, unfolding(crate::specs::Masses::masses_usable))]
pub(crate) fn masses_usable(m: WindowMasses) -> bool
    ensures { result ≡ masses_usable m }
{
    mass_usable(m.error) && mass_usable(m.single) && mass_usable(m.repeat)
}
