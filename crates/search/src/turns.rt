// A run of the search, turn by turn.
ghost use Rattle.std.specs.Prelude.{◌≡◌, ◌*◌, ◌<◌, ◌≤◌, length};
ghost use Rattle.search.specs.Priced.{price_in, IsKept};
ghost use Rattle.search.specs.Progress.{state_of, ended_at};
ghost use Rattle.search.specs.Simplex.{state_in, IsSame};
ghost use Rattle.search.specs.Turns.{next_of, turns_of};

use crate::order::order;
use crate::prices::Prices;
use crate::rows::Simplex;
use crate::spread::is_settled;
use crate::steps::step;

// How far a run has come: the iterations made, and whether the test stopped it.
#[derive(Clone, Copy)]
pub struct Progress {
    pub iterations: u64,
    pub stopped: bool,
}

// A run that has stopped, or has come to its cap, stays as it is.
pub(crate) fn has_ended(progress: Progress, cap: u64) -> bool
    ensures { result ≡ ended_at cap progress }
{
    progress.stopped || cap <= progress.iterations
}

// The vertices are put in order and tested; where they have not settled, an iteration.
fn turn(prices: &mut Prices<'_>, progress: Progress, simplex: &mut Simplex<'_>) -> Progress
    requires { progress.iterations < 2000 }
    ensures result_after { state_in simplex.new result
        ≡ next_of (price_in prices.old) (state_in simplex.old progress) }
    ensures same { IsSame simplex.old simplex.new }
    ensures kept { IsKept prices.old prices.new }
{
    order(simplex);
    if is_settled(simplex) {
        return Progress {
            iterations: progress.iterations,
            stopped: true,
        };
    }
    step(prices, simplex);
    Progress {
        iterations: progress.iterations + 1,
        stopped: false,
    }
}

// At most `limit` turns. A limit that is reached ends the call untested. It takes rows and their width and makes the
// simplex: of a part of a slice that stands in a struct, the proof of `run_all` would keep the length and no element.
pub(crate) fn run(
    prices: &mut Prices<'_>,
    w: usize,
    cap: u64,
    limit: u64,
    progress: Progress,
    rows: &mut [f64],
) -> Progress
    requires { (length rows.old ≡ w * w) × (1 < w) × (w ≤ 12) × (cap ≤ 2000) }
    ensures result_after { state_of w rows.new result
        ≡ turns_of (price_in prices.old) cap limit (state_of w rows.old progress) }
    ensures kept { IsKept prices.old prices.new }
{
    let mut simplex = Simplex { rows, w };
    let mut now = progress;
    for _ in 0..limit {
        if has_ended(now, cap) {
            return now;
        }
        now = turn(prices, now, &mut simplex);
    }
    now
}
