// Many runs of the search at once, in lent slices: for each its rows, its iterations, and whether the test stopped it.
// That is all that is to be stored of a run that is to go on later.
ghost use Rattle.std.specs.Prelude.{◌≡◌, ◌*◌, ◌<◌, ◌≤◌, length, drop};
ghost use Rattle.meaning.specs.Lent.{on_give};
ghost use Rattle.meaning.specs.Rows.{most};
ghost use Rattle.search.specs.Priced.{price_in, IsKept};
ghost use Rattle.search.specs.Prices.{price_of, cap_of, width_of};
ghost use Rattle.search.specs.Searches.{simplexes_after, iterations_after, stopped_after, lent_of, run_searches_of};
ghost use Rattle.search.specs.Searches.{stood_from, ready_after};
ghost use Rattle.meaning.specs.Answers.{reply_of};

use crate::prices::{Prices, iteration_cap, width};
use crate::refusing::{Lent, search_refusal};
use crate::turns::{Progress, run};
use meaning::flags::{byte_of, is_set};
use meaning::refusals::Refusal;
use models::prepared::prepare_window;
use models::problems::Problem;

// Each run goes on for at most `limit` turns.
fn run_all(
    prices: &mut Prices<'_>,
    w: usize,
    cap: u64,
    runs: usize,
    limit: u64,
    simplexes: &mut [f64],
    iterations: &mut [u64],
    stopped: &mut [u8],
)
    requires { (1 < w) × (w ≤ 12) × (cap ≤ 2000) × (runs ≤ most) × (runs * (w * w) ≤ length simplexes.old)
        × (runs ≤ length iterations.old) × (runs ≤ length stopped.old) }
    ensures simplexes_after { simplexes.new
        ≡ simplexes_after w simplexes.old iterations.old stopped.old runs
        (price_in prices.old) cap limit }
    ensures iterations_after { iterations.new
        ≡ iterations_after w simplexes.old iterations.old stopped.old runs
        (price_in prices.old) cap limit }
    ensures stopped_after { stopped.new
        ≡ stopped_after w simplexes.old iterations.old stopped.old runs
        (price_in prices.old) cap limit }
    ensures kept { IsKept prices.old prices.new }
{
    let size = w * w;
    // By index: a proof knows nothing of what was written through chunks_mut, or through a zip of the three.
    for i in 0..runs {
        let from = i * size;
        let to = from + size;
        let before = Progress {
            iterations: iterations[i],
            stopped: is_set(stopped[i]),
        };
        let after = run(prices, w, cap, limit, before, &mut simplexes[from..to]);
        iterations[i] = after.iterations;
        stopped[i] = byte_of(after.stopped);
    }
}

// Each of the first `runs` runs goes on for at most `limit` turns, and the answer is how many runs there are; 1, 2, 4,
// 5, 6 or 10 instead. A refusal changes nothing that is lent. `ready` is filled as `prepare_window` fills it, whatever
// it held; the shelf's table stands as found past the window end, and all of it where the family is plain.
pub fn run_searches(
    bins: &[u32],
    problem: Problem,
    runs: usize,
    limit: u64,
    simplexes: &mut [f64],
    iterations: &mut [u64],
    stopped: &mut [u8],
    ready: &mut [f64],
    table: &mut [f64],
) -> Result<usize, Refusal>
    ensures result_value { reply_of result
        ≡ run_searches_of bins.now problem runs (lent_of simplexes.old iterations.old
        stopped.old ready.old table.old) }
    ensures simplexes_after { simplexes.new
        ≡ on_give (run_searches_of bins.now problem runs (lent_of simplexes.old
        iterations.old stopped.old ready.old table.old)) (simplexes_after
        (width_of problem) simplexes.old iterations.old stopped.old runs (price_of
        bins.now problem (length table.old)) (cap_of problem.genome) limit) simplexes.old }
    ensures iterations_after { iterations.new
        ≡ on_give (run_searches_of bins.now problem runs (lent_of simplexes.old
        iterations.old stopped.old ready.old table.old)) (iterations_after
        (width_of problem) simplexes.old iterations.old stopped.old runs (price_of
        bins.now problem (length table.old)) (cap_of problem.genome) limit) iterations.old }
    ensures stopped_after { stopped.new
        ≡ on_give (run_searches_of bins.now problem runs (lent_of simplexes.old
        iterations.old stopped.old ready.old table.old)) (stopped_after
        (width_of problem) simplexes.old iterations.old stopped.old runs (price_of
        bins.now problem (length table.old)) (cap_of problem.genome) limit) stopped.old }
    ensures ready_after { ready.new
        ≡ ready_after problem (run_searches_of bins.now problem runs (lent_of simplexes.old
        iterations.old stopped.old ready.old table.old)) ready.old }
    ensures table_unchanged { drop (stood_from problem (run_searches_of bins.now problem runs (lent_of simplexes.old
        iterations.old stopped.old ready.old table.old))) table.new
        ≡ drop (stood_from problem (run_searches_of bins.now problem runs (lent_of simplexes.old
        iterations.old stopped.old ready.old table.old))) table.old }
{
    let lent = Lent {
        simplexes: simplexes.len(),
        iterations: iterations.len(),
        stopped: stopped.len(),
        ready: ready.len(),
        table: table.len(),
    };
    search_refusal(bins, problem, runs, false, lent)?;
    prepare_window(problem.window_end, ready)?;
    let genome = problem.genome;
    let cap = iteration_cap(genome);
    let w = width(problem);
    let mut prices = Prices {
        bins,
        problem,
        ready,
        table,
    };
    run_all(
        &mut prices,
        w,
        cap,
        runs,
        limit,
        simplexes,
        iterations,
        stopped,
    );
    Ok(runs)
}
