// The runs of a search as a run table: five of the columns that `fitter::attempting::attempt_from_numbers` takes. The
// sixth is the search's own `iterations`, and `simplexes` are the `lists` that the places speak of.
ghost use Rattle.std.specs.Prelude.{◌≡◌, ℕ, ◌-◌, ◌*◌, ◌<◌, ◌≤◌, length};
ghost use Rattle.meaning.specs.Flags.{byte_of};
ghost use Rattle.meaning.specs.Lent.{on_give};
ghost use Rattle.meaning.specs.Over.{over};
ghost use Rattle.meaning.specs.Reply.{first_of};
ghost use Rattle.meaning.specs.Rows.{most};
ghost use Rattle.models.specs.Families.{list_length_of};
ghost use Rattle.search.specs.Lists.{list_of};
ghost use Rattle.search.specs.Reporting.{least_place, converged_at, capped_at, found_of, reported_at};
ghost use Rattle.search.specs.Reporting.{report_tests, columns_of, report_of};
ghost use Rattle.search.specs.Tables.{found_in, IsLent};
ghost use Rattle.search.specs.Vertices.{rows_in};
ghost use Rattle.meaning.specs.Answers.{reply_of, number_in};

use crate::prices::iteration_cap;
use meaning::flags::{byte_of, is_set};
use meaning::limits::MOST;
use meaning::refusals::Refusal;
use models::families::{ErrorModel, GenomeModel, list_length};
use routines::pick::is_finite;

// What a run has come to: its best cost, and where the list with that cost lies; the flags as the columns have them,
// which are C's.
#[derive(Clone, Copy)]
pub struct Found {
    pub converged: bool,
    pub cost: f64,
    pub place: usize,
    pub hit_cap: bool,
}

// What stands of many runs, one behind the other.
#[derive(Drop)]
struct Stored<'a> {
    simplexes: &'a [f64],
    iterations: &'a [u64],
    stopped: &'a [u8],
}

// The columns that are written.
#[derive(Drop)]
struct Table<'a> {
    converged: &'a mut [u8],
    costs: &'a mut [f64],
    places: &'a mut [usize],
    lengths: &'a mut [usize],
    caps: &'a mut [u8],
}

// The lengths of what is lent.
#[derive(Clone, Copy)]
pub struct Columns {
    pub simplexes: usize,
    pub iterations: usize,
    pub stopped: usize,
    pub converged: usize,
    pub costs: usize,
    pub places: usize,
    pub lengths: usize,
    pub caps: usize,
}

// The row that costs least, the earlier on ties. The rows are lent for reading alone, and so are no `Simplex`.
fn least_row(rows: &[f64], w: usize) -> usize
    requires { (length rows.now ≡ w * w) × (0 < w) }
    ensures { result ≡ least_place (rows_in w w rows.now) }
{
    let mut least: usize = 0;
    // By number, which is the answer: chunks of the rows would need one beside them, and one of the least row.
    for i in 1..w {
        if rows[i * w] < rows[least * w] {
            least = i;
        }
    }
    least
}

#[tactic(auto, unfolding(crate::specs::Reporting::converged_at))]
fn has_converged(stopped: bool, cost: f64) -> bool
    ensures { result ≡ converged_at stopped cost }
{
    stopped && is_finite(cost) && 0.0 < cost
}

#[tactic(auto, unfolding(crate::specs::Reporting::capped_at))]
fn is_capped(cap: u64, iterations: u64, stopped: bool) -> bool
    ensures { result ≡ capped_at cap iterations stopped }
{
    !stopped && cap <= iterations
}

// Out of a run's rows, which begin at a place of the slice.
fn find(w: usize, cap: u64, rows: &[f64], from: usize, iterations: u64, stopped: bool) -> Found
    requires { (length rows.now ≡ w * w) × (0 < w) × (w ≤ 12) × (from ≤ most * 144) }
    ensures { result ≡ found_of w cap (rows_in w w rows.now) from iterations stopped }
{
    let at = least_row(rows, w) * w;
    let cost = rows[at];
    Found {
        converged: has_converged(stopped, cost),
        cost,
        place: from + at + 1,
        hit_cap: is_capped(cap, iterations, stopped),
    }
}

fn write_found(w: usize, cap: u64, runs: usize, stored: &Stored<'_>, table: &mut Table<'_>)
    requires w_nonzero { (0 < w) × (w ≤ 12) × (runs ≤ most) }
    requires w_in_bounds { (runs * (w * w) ≤ length stored.now.simplexes.now)
        × (runs ≤ length stored.now.iterations.now) × (runs ≤ length stored.now.stopped.now) }
    requires runs_in_bounds { (runs ≤ length table.old.converged.now) × (runs ≤ length table.old.costs.now)
        × (runs ≤ length table.old.places.now) × (runs ≤ length table.old.lengths.now)
        × (runs ≤ length table.old.caps.now) }
    ensures converged_after { table.new.converged.now
        ≡ over (list_of (λ (i : ℕ). byte_of (found_in w cap runs stored.now i).converged) runs)
        table.old.converged.now }
    ensures costs_after { table.new.costs.now
        ≡ over (list_of (λ (i : ℕ). (found_in w cap runs stored.now i).cost) runs) table.old.costs.now }
    ensures places_after { table.new.places.now
        ≡ over (list_of (λ (i : ℕ). (found_in w cap runs stored.now i).place) runs) table.old.places.now }
    ensures lengths_after { table.new.lengths.now ≡ over (list_of (λ (i : ℕ). w - 1) runs) table.old.lengths.now }
    ensures caps_after { table.new.caps.now
        ≡ over (list_of (λ (i : ℕ). byte_of (found_in w cap runs stored.now i).hit_cap) runs) table.old.caps.now }
    ensures lent { IsLent table.old table.new }
{
    let square = w * w;
    let length = w - 1;
    // By index: a proof knows nothing of what was written through a zip of the columns.
    for i in 0..runs {
        let from = i * square;
        let to = from + square;
        let found = find(
            w,
            cap,
            &stored.simplexes[from..to],
            from,
            stored.iterations[i],
            is_set(stored.stopped[i]),
        );
        table.converged[i] = byte_of(found.converged);
        table.costs[i] = found.cost;
        table.places[i] = found.place;
        table.lengths[i] = length;
        table.caps[i] = byte_of(found.hit_cap);
    }
}

// 2 or 10, or none.
#[tactic(auto, unfolding(crate::specs::Reporting::report_tests))]
fn report_refusal(w: usize, runs: usize, lent: Columns) -> Result<(), Refusal>
    requires { w ≤ 12 }
    ensures { number_in result ≡ first_of (report_tests w runs lent) }
{
    if runs > MOST {
        return Err(Refusal::TooLarge);
    }
    if lent.simplexes < runs * (w * w) {
        return Err(Refusal::TooShort);
    }
    if lent.iterations < runs || lent.stopped < runs || lent.converged < runs {
        return Err(Refusal::TooShort);
    }
    if lent.costs < runs || lent.places < runs || lent.lengths < runs || lent.caps < runs {
        return Err(Refusal::TooShort);
    }
    Ok(())
}

// The number of runs, each with its row of the run table; or 2 for more than 65,535, or 10 where a slice is too short.
// A refusal leaves every slice as it is, and an answer what lies behind the last run.
pub fn report_searches(
    error: ErrorModel,
    genome: GenomeModel,
    runs: usize,
    simplexes: &[f64],
    iterations: &[u64],
    stopped: &[u8],
    converged: &mut [u8],
    costs: &mut [f64],
    places: &mut [usize],
    lengths: &mut [usize],
    caps: &mut [u8],
) -> Result<usize, Refusal>
    ensures result_value { reply_of result
        ≡ report_of error genome runs (columns_of simplexes.now iterations.now
        stopped.now converged.old costs.old places.old
        lengths.old caps.old) }
    ensures converged_after { converged.new
        ≡ on_give (report_of error genome runs (columns_of simplexes.now iterations.now stopped.now converged.old
        costs.old places.old lengths.old
        caps.old)) (over (list_of (λ (i : ℕ). byte_of (reported_at error genome runs simplexes.now
        iterations.now stopped.now i).converged) runs) converged.old) converged.old }
    ensures costs_after { costs.new
        ≡ on_give (report_of error genome runs (columns_of simplexes.now iterations.now stopped.now converged.old
        costs.old places.old lengths.old
        caps.old)) (over (list_of (λ (i : ℕ). (reported_at error genome runs simplexes.now
        iterations.now stopped.now i).cost) runs) costs.old) costs.old }
    ensures places_after { places.new
        ≡ on_give (report_of error genome runs (columns_of simplexes.now iterations.now stopped.now converged.old
        costs.old places.old lengths.old
        caps.old)) (over (list_of (λ (i : ℕ). (reported_at error genome runs simplexes.now
        iterations.now stopped.now i).place) runs) places.old) places.old }
    ensures lengths_after { lengths.new
        ≡ on_give (report_of error genome runs (columns_of simplexes.now iterations.now
        stopped.now converged.old costs.old places.old
        lengths.old caps.old)) (over (list_of (λ (i : ℕ). list_length_of error genome) runs) lengths.old) lengths.old }
    ensures caps_after { caps.new
        ≡ on_give (report_of error genome runs (columns_of simplexes.now iterations.now stopped.now converged.old
        costs.old places.old lengths.old
        caps.old)) (over (list_of (λ (i : ℕ). byte_of (reported_at error genome runs simplexes.now
        iterations.now stopped.now i).hit_cap) runs) caps.old) caps.old }
{
    let w = list_length(error, genome) + 1;
    report_refusal(
        w,
        runs,
        Columns {
            simplexes: simplexes.len(),
            iterations: iterations.len(),
            stopped: stopped.len(),
            converged: converged.len(),
            costs: costs.len(),
            places: places.len(),
            lengths: lengths.len(),
            caps: caps.len(),
        },
    )?;
    let cap = iteration_cap(genome);
    let stored = Stored {
        simplexes,
        iterations,
        stopped,
    };
    let mut table = Table {
        converged,
        costs,
        places,
        lengths,
        caps,
    };
    write_found(w, cap, runs, &stored, &mut table);
    Ok(runs)
}
