// The single-copy component at a whole count and its window mass, with what does not change at hand: for speed alone.
// proofs/Ready.antt shows each equal to the plain form.
// Ported from src/preprocessing/math_helpers.rs of bacpop/sparrowhawk-asm, f1f8af1232, Apache-2.0; ported and changed.
ghost use Rattle.std.specs.Prelude.{◌≡◌};
ghost use Rattle.helpers.specs.Mixtures.{mix_at_of, mix_mass_of};

use crate::log_sums::lse2;
use crate::masses::log_shelf_mass;
use crate::shelves::{Shelf, ShelfLogs, mix_nth};
use crate::window_ends::WindowEnd;

// The single-copy log density at count n, from its lobe's.
pub fn mix_at(lobe: f64, n: u16, shelf: Option<Shelf>, logs: ShelfLogs, table: &[f64]) -> f64
    ensures { result ≡ mix_at_of lobe n shelf logs table.now }
{
    mix_nth(lobe, n as usize, shelf, logs, table)
}

// ln of the single-copy component's mass on 1 to the window end, from its lobe's.
pub fn mix_mass(
    lobe: f64,
    shelf: Option<Shelf>,
    logs: ShelfLogs,
    table: &[f64],
    end: WindowEnd,
) -> f64
    ensures { result ≡ mix_mass_of lobe shelf logs table.now end.count }
{
    match shelf {
        None => lobe,
        Some(_) => {
            let mass = log_shelf_mass(table, end.count);
            lse2(logs.rest + lobe, logs.share + mass)
        }
    }
}
