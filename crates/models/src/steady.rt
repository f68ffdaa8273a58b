// What does not change with the count, worked out once an evaluation: for speed alone. proofs/Points.antt shows that it
// changes no number.
ghost use Rattle.std.specs.Prelude.{◌≡◌};
ghost use Rattle.models.specs.Hoists.{steady_of};

use crate::params::Params;
use helpers::hoists::Lobe;
use helpers::pairs::lobes_of;
use helpers::shelves::{ShelfLogs, shelf_logs};

#[derive(Clone, Copy)]
pub(crate) struct Steady {
    pub lobe: Lobe,
    pub second: Lobe,
    pub ln_tail: f64,
    pub logs: ShelfLogs,
}

pub(crate) fn steady_of(p: Params) -> Steady
    ensures { result ≡ steady_of p }
{
    let shelf = p.shelf;
    let lobes = lobes_of(p.mean, p.repeat_ratio * p.mean, p.dispersion);
    let lobe = lobes.first;
    let second = lobes.second;
    Steady {
        lobe,
        second,
        ln_tail: p.error_params.ln_tail(),
        logs: shelf_logs(shelf),
    }
}
