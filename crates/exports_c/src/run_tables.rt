// Attempts over a run table, as C has them: the table is six arrays, and has as many runs as the shortest of them.
ghost use Rattle.std.specs.Prelude.{◌≡◌, length, drop};
ghost use Rattle.fitter.specs.Attempting.{attempt_from, stands_from};
ghost use Rattle.fitter.specs.Columns.{count_of_runs, run_of};
ghost use Rattle.exports.specs.FlatTables.{setup_of, say_attempt};

use exports::run_tables::FlatAttemptAnswer;

#[unsafe(no_mangle)]
pub extern "C" fn fog_attempt_from_numbers(
    bins: &[u32],
    scale: f64,
    window_end: usize,
    valley: usize,
    peak: usize,
    error: u8,
    genome: u8,
    mass_limit: f64,
    converged: &[u8],
    costs: &[f64],
    places: &[usize],
    lengths: &[usize],
    iterations: &[u64],
    caps: &[u8],
    lists: &[f64],
    table: &mut [f64],
) -> FlatAttemptAnswer
    ensures value { result
        ≡ say_attempt (attempt_from bins.now (setup_of scale window_end valley peak error genome
        mass_limit) lists.now (length table.old) (run_of converged.now costs.now places.now
        lengths.now iterations.now caps.now) (count_of_runs converged.now costs.now
        places.now lengths.now iterations.now caps.now)) }
    ensures table_unchanged { drop (stands_from (setup_of scale window_end valley peak error genome mass_limit)
        result.number)
        table.new
        ≡ drop (stands_from (setup_of scale window_end valley peak error genome mass_limit) result.number)
        table.old }
{
    exports::run_tables::fog_attempt_from_numbers(
        bins, scale, window_end, valley, peak, error, genome, mass_limit, converged, costs, places,
        lengths, iterations, caps, lists, table,
    )
}
