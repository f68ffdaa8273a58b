// The simplex search, as C has it: many runs at once in lent arrays.
ghost use Rattle.std.specs.Prelude.{◌≡◌, ℕ, length, drop};
ghost use Rattle.meaning.specs.Flags.{byte_of};
ghost use Rattle.meaning.specs.Lent.{on_give};
ghost use Rattle.meaning.specs.Over.{over};
ghost use Rattle.models.specs.Families.{list_length_of};
ghost use Rattle.search.specs.Beginning.{simplexes_begun, iterations_begun, stopped_begun, begin_searches_of, size_of};
ghost use Rattle.search.specs.Beginning.{runs_in};
ghost use Rattle.search.specs.Lists.{list_of};
ghost use Rattle.search.specs.Prices.{price_of, cap_of, width_of};
ghost use Rattle.search.specs.Reporting.{reported_at, columns_of, report_of};
ghost use Rattle.search.specs.Searches.{simplexes_after, iterations_after, stopped_after, lent_of, run_searches_of};
ghost use Rattle.search.specs.Searches.{stood_from, ready_after};
ghost use Rattle.exports.specs.Flat.{say_written};
ghost use Rattle.models.specs.Parts.{error_of, genome_of};
ghost use Rattle.exports.specs.FlatSearches.{problem_of};

use crate::answers::{FlatWritten, said_written};
use crate::run_tables::setup_of;
use models::families::{ErrorModel, GenomeModel};
use models::problems::Problem;
use search::beginning::begin_searches;
use search::reporting::report_searches;
use search::searching::run_searches;

// A search reads neither valley nor mass limit.
fn problem_of(scale: f64, window_end: usize, peak: usize, error: u8, genome: u8) -> Problem
    ensures { result ≡ problem_of scale window_end peak error genome }
{
    setup_of(scale, window_end, 2, peak, error, genome, 1.0)
}

pub fn fog_begin_searches(
    bins: &[u32],
    scale: f64,
    window_end: usize,
    peak: usize,
    error: u8,
    genome: u8,
    starts: &[f64],
    simplexes: &mut [f64],
    iterations: &mut [u64],
    stopped: &mut [u8],
    ready: &mut [f64],
    table: &mut [f64],
) -> FlatWritten
    ensures value { result
        ≡ say_written (begin_searches_of bins.now (problem_of scale window_end peak error genome) starts.now (lent_of
        simplexes.old iterations.old stopped.old
        ready.old table.old)) }
    ensures simplexes_after { simplexes.new
        ≡ on_give (begin_searches_of bins.now (problem_of scale window_end peak error genome) starts.now (lent_of
        simplexes.old iterations.old stopped.old
        ready.old table.old)) (simplexes_begun (price_of bins.now
        (problem_of scale window_end peak error genome) (length table.old)) (size_of
        (problem_of scale window_end peak error genome)) starts.now (runs_in
        (problem_of scale window_end peak error genome) starts.now) simplexes.old) simplexes.old }
    ensures iterations_after { iterations.new
        ≡ on_give (begin_searches_of bins.now (problem_of scale window_end peak error genome) starts.now (lent_of
        simplexes.old iterations.old stopped.old
        ready.old table.old)) (iterations_begun (runs_in
        (problem_of scale window_end peak error genome) starts.now) iterations.old) iterations.old }
    ensures stopped_after { stopped.new
        ≡ on_give (begin_searches_of bins.now (problem_of scale window_end peak error genome) starts.now (lent_of
        simplexes.old iterations.old stopped.old
        ready.old table.old)) (stopped_begun (runs_in
        (problem_of scale window_end peak error genome) starts.now) stopped.old) stopped.old }
    ensures ready_after { ready.new
        ≡ ready_after (problem_of scale window_end peak error genome) (begin_searches_of bins.now (problem_of
        scale window_end peak error genome) starts.now (lent_of simplexes.old
        iterations.old stopped.old ready.old table.old)) ready.old }
    ensures table_unchanged { drop (stood_from (problem_of scale window_end peak error genome) (begin_searches_of
        bins.now
        (problem_of scale window_end peak error genome) starts.now (lent_of simplexes.old
        iterations.old stopped.old ready.old table.old))) table.new
        ≡ drop (stood_from (problem_of scale window_end peak error genome) (begin_searches_of bins.now
        (problem_of scale window_end peak error genome) starts.now (lent_of simplexes.old
        iterations.old stopped.old ready.old table.old))) table.old }
{
    let problem = problem_of(scale, window_end, peak, error, genome);
    let answer = begin_searches(
        bins, problem, starts, simplexes, iterations, stopped, ready, table,
    );
    said_written(answer)
}

pub fn fog_run_searches(
    bins: &[u32],
    scale: f64,
    window_end: usize,
    peak: usize,
    error: u8,
    genome: u8,
    runs: usize,
    limit: u64,
    simplexes: &mut [f64],
    iterations: &mut [u64],
    stopped: &mut [u8],
    ready: &mut [f64],
    table: &mut [f64],
) -> FlatWritten
    ensures value { result
        ≡ say_written (run_searches_of bins.now (problem_of scale window_end peak error genome) runs (lent_of
        simplexes.old iterations.old stopped.old ready.old
        table.old)) }
    ensures simplexes_after { simplexes.new
        ≡ on_give (run_searches_of bins.now (problem_of scale window_end peak error genome) runs (lent_of
        simplexes.old iterations.old stopped.old ready.old
        table.old)) (simplexes_after (width_of (problem_of scale window_end peak error genome)) simplexes.old
        iterations.old stopped.old runs (price_of bins.now
        (problem_of scale window_end peak error genome) (length table.old)) (cap_of (genome_of genome))
        limit) simplexes.old }
    ensures iterations_after { iterations.new
        ≡ on_give (run_searches_of bins.now (problem_of scale window_end peak error genome) runs (lent_of
        simplexes.old iterations.old stopped.old ready.old
        table.old)) (iterations_after (width_of (problem_of scale window_end peak error genome)) simplexes.old
        iterations.old stopped.old runs (price_of bins.now
        (problem_of scale window_end peak error genome) (length table.old)) (cap_of (genome_of genome))
        limit) iterations.old }
    ensures stopped_after { stopped.new
        ≡ on_give (run_searches_of bins.now (problem_of scale window_end peak error genome) runs (lent_of
        simplexes.old iterations.old stopped.old ready.old
        table.old)) (stopped_after (width_of (problem_of scale window_end peak error genome)) simplexes.old
        iterations.old stopped.old runs (price_of bins.now
        (problem_of scale window_end peak error genome) (length table.old)) (cap_of (genome_of genome))
        limit) stopped.old }
    ensures ready_after { ready.new
        ≡ ready_after (problem_of scale window_end peak error genome) (run_searches_of bins.now (problem_of
        scale window_end peak error genome) runs (lent_of simplexes.old iterations.old
        stopped.old ready.old table.old)) ready.old }
    ensures table_unchanged { drop (stood_from (problem_of scale window_end peak error genome) (run_searches_of bins.now
        (problem_of scale window_end peak error genome) runs (lent_of simplexes.old
        iterations.old stopped.old ready.old table.old))) table.new
        ≡ drop (stood_from (problem_of scale window_end peak error genome) (run_searches_of bins.now
        (problem_of scale window_end peak error genome) runs (lent_of simplexes.old
        iterations.old stopped.old ready.old table.old))) table.old }
{
    let problem = problem_of(scale, window_end, peak, error, genome);
    let answer = run_searches(
        bins, problem, runs, limit, simplexes, iterations, stopped, ready, table,
    );
    said_written(answer)
}

pub fn fog_report_searches(
    error: u8,
    genome: u8,
    runs: usize,
    simplexes: &[f64],
    iterations: &[u64],
    stopped: &[u8],
    converged: &mut [u8],
    costs: &mut [f64],
    places: &mut [usize],
    lengths: &mut [usize],
    caps: &mut [u8],
) -> FlatWritten
    ensures value { result
        ≡ say_written (report_of (error_of error) (genome_of genome) runs (columns_of simplexes.now
        iterations.now stopped.now converged.old costs.old
        places.old lengths.old caps.old)) }
    ensures converged_after { converged.new
        ≡ on_give (report_of (error_of error) (genome_of genome) runs (columns_of simplexes.now iterations.now
        stopped.now converged.old costs.old places.old lengths.old caps.old)) (over (list_of (λ (i : ℕ). byte_of
        (reported_at (error_of error)
        (genome_of genome) runs simplexes.now iterations.now stopped.now i
        ).converged) runs) converged.old) converged.old }
    ensures costs_after { costs.new
        ≡ on_give (report_of (error_of error) (genome_of genome) runs (columns_of simplexes.now iterations.now
        stopped.now converged.old costs.old places.old lengths.old caps.old)) (over (list_of (λ (i : ℕ). (reported_at
        (error_of error) (genome_of genome) runs simplexes.now iterations.now
        stopped.now i).cost) runs) costs.old) costs.old }
    ensures places_after { places.new
        ≡ on_give (report_of (error_of error) (genome_of genome) runs (columns_of simplexes.now iterations.now
        stopped.now converged.old costs.old places.old lengths.old caps.old)) (over (list_of (λ (i : ℕ). (reported_at
        (error_of error) (genome_of genome) runs simplexes.now iterations.now
        stopped.now i).place) runs) places.old) places.old }
    ensures lengths_after { lengths.new
        ≡ on_give (report_of (error_of error) (genome_of genome) runs (columns_of simplexes.now
        iterations.now stopped.now converged.old costs.old
        places.old lengths.old caps.old)) (over (list_of
        (λ (i : ℕ). list_length_of (error_of error) (genome_of genome)) runs) lengths.old) lengths.old }
    ensures caps_after { caps.new
        ≡ on_give (report_of (error_of error) (genome_of genome) runs (columns_of simplexes.now iterations.now
        stopped.now converged.old costs.old places.old lengths.old caps.old)) (over (list_of (λ (i : ℕ). byte_of
        (reported_at (error_of error)
        (genome_of genome) runs simplexes.now iterations.now stopped.now i
        ).hit_cap) runs) caps.old) caps.old }
{
    let tail = ErrorModel::from(error);
    let lobes = GenomeModel::from(genome);
    let answer = report_searches(
        tail, lobes, runs, simplexes, iterations, stopped, converged, costs, places, lengths, caps,
    );
    said_written(answer)
}
