// The runs of many starts, as they begin, in the lent slices that `run_searches` goes on with.
ghost use Rattle.std.specs.Prelude.{◌≡◌, ◌*◌, ◌-◌, ◌<◌, ◌≤◌, length, drop};
ghost use Rattle.meaning.specs.Lent.{on_give};
ghost use Rattle.meaning.specs.Rows.{most};
ghost use Rattle.search.specs.Beginning.{simplexes_begun, iterations_begun, stopped_begun, begin_searches_of, size_of};
ghost use Rattle.search.specs.Beginning.{runs_in};
ghost use Rattle.search.specs.Priced.{price_in, IsKept};
ghost use Rattle.search.specs.Prices.{price_of};
ghost use Rattle.search.specs.Searches.{lent_of, stood_from, ready_after};
ghost use Rattle.meaning.specs.Answers.{reply_of};

use crate::firsts::first_simplex;
use crate::prices::{Prices, width};
use crate::refusing::{Lent, search_refusal};
use meaning::refusals::Refusal;
use models::prepared::prepare_window;
use models::problems::Problem;

// Each run begins at its start.
fn begin_all(
    prices: &mut Prices<'_>,
    w: usize,
    runs: usize,
    starts: &[f64],
    simplexes: &mut [f64],
    iterations: &mut [u64],
    stopped: &mut [u8],
)
    requires { (1 < w) × (w ≤ 12) × (runs ≤ most) × (runs * (w - 1) ≤ length starts.now)
        × (runs * (w * w) ≤ length simplexes.old) × (runs ≤ length iterations.old)
        × (runs ≤ length stopped.old) }
    ensures simplexes_after { simplexes.new
        ≡ simplexes_begun (price_in prices.old)
        (w - 1) starts.now runs simplexes.old }
    ensures iterations_after { iterations.new ≡ iterations_begun runs iterations.old }
    ensures stopped_after { stopped.new ≡ stopped_begun runs stopped.old }
    ensures kept { IsKept prices.old prices.new }
{
    let d = w - 1;
    let size = w * w;
    // By index: a proof knows nothing of what was written through chunks_mut.
    for i in 0..runs {
        let begin = i * d;
        let end = begin + d;
        let from = i * size;
        let to = from + size;
        first_simplex(prices, w, &starts[begin..end], &mut simplexes[from..to]);
    }
    iterations[..runs].fill(0);
    stopped[..runs].fill(0);
}

// One run for each start, a list of numbers one behind the other, and the answer is how many runs there are; 1, 2, 4,
// 5, 6, 7 or 10 instead. A refusal changes nothing that is lent. `ready` is filled as `prepare_window` fills it,
// whatever it held; the shelf's table stands as found past the window end, and all of it where the family is plain.
pub fn begin_searches(
    bins: &[u32],
    problem: Problem,
    starts: &[f64],
    simplexes: &mut [f64],
    iterations: &mut [u64],
    stopped: &mut [u8],
    ready: &mut [f64],
    table: &mut [f64],
) -> Result<usize, Refusal>
    ensures result_value { reply_of result
        ≡ begin_searches_of bins.now problem starts.now (lent_of simplexes.old
        iterations.old stopped.old ready.old table.old) }
    ensures simplexes_after { simplexes.new
        ≡ on_give (begin_searches_of bins.now problem starts.now (lent_of simplexes.old
        iterations.old stopped.old ready.old table.old)) (simplexes_begun
        (price_of bins.now problem (length table.old)) (size_of problem) starts.now
        (runs_in problem starts.now) simplexes.old) simplexes.old }
    ensures iterations_after { iterations.new
        ≡ on_give (begin_searches_of bins.now problem starts.now (lent_of simplexes.old
        iterations.old stopped.old ready.old table.old)) (iterations_begun
        (runs_in problem starts.now) iterations.old) iterations.old }
    ensures stopped_after { stopped.new
        ≡ on_give (begin_searches_of bins.now problem starts.now (lent_of simplexes.old
        iterations.old stopped.old ready.old table.old)) (stopped_begun
        (runs_in problem starts.now) stopped.old) stopped.old }
    ensures ready_after { ready.new
        ≡ ready_after problem (begin_searches_of bins.now problem starts.now (lent_of
        simplexes.old iterations.old stopped.old ready.old
        table.old)) ready.old }
    ensures table_unchanged { drop (stood_from problem (begin_searches_of bins.now problem starts.now (lent_of
        simplexes.old iterations.old stopped.old ready.old
        table.old))) table.new
        ≡ drop (stood_from problem (begin_searches_of bins.now problem starts.now (lent_of
        simplexes.old iterations.old stopped.old ready.old
        table.old))) table.old }
{
    let lent = Lent {
        simplexes: simplexes.len(),
        iterations: iterations.len(),
        stopped: stopped.len(),
        ready: ready.len(),
        table: table.len(),
    };
    let w = width(problem);
    let d = w - 1;
    let runs = starts.len() / d;
    let wrong = starts.len() % d != 0;
    search_refusal(bins, problem, runs, wrong, lent)?;
    prepare_window(problem.window_end, ready)?;
    let mut prices = Prices {
        bins,
        problem,
        ready,
        table,
    };
    begin_all(&mut prices, w, runs, starts, simplexes, iterations, stopped);
    Ok(runs)
}
