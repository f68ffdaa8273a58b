// The starts of a search, written one behind the other into a lent buffer.
// Ported from src/preprocessing/spectrum_fitter.rs of bacpop/sparrowhawk-asm, f1f8af1232, Apache-2.0; ported and
// changed.
ghost use Rattle.std.specs.Prelude.{◌≡◌, [], ◌+◌, ◌*◌, ◌/◌, ◌<◌, ltb, length};
ghost use Rattle.meaning.specs.Lent.{counted, laid};
ghost use Rattle.meaning.specs.Reply.{first_of};
ghost use Rattle.routines.specs.Starts.{pareto_starts, weibull_starts};
ghost use Rattle.fitter.specs.StartTables.{table_of, not_rows, wrong_tables};
ghost use Rattle.fitter.specs.Starts.{per_row, starts_of};
ghost use Rattle.meaning.specs.Answers.{reply_of, number_in};

use crate::start_writers::{StartPlan, used_hint};
use meaning::refusals::Refusal;
use models::families::{ErrorModel, GenomeModel, list_length};
use routines::tables::{pareto_starts, weibull_starts};

fn not_rows(n: usize) -> bool
    ensures { result ≡ not_rows n }
{
    n == 0 || n % 3 != 0
}

// 7 where either of the tables is not one or more rows of three, whichever family is asked, or none.
pub fn start_tables_refusal(pareto: &[f64], weibull: &[f64]) -> Result<(), Refusal>
    ensures { number_in result ≡ first_of (wrong_tables (length pareto.now) (length weibull.now)) }
{
    if not_rows(pareto.len()) || not_rows(weibull.len()) {
        return Err(Refusal::WrongLength);
    }
    Ok(())
}

// The one of the two lent tables that belongs to the family, as the caller's own memory; an empty part, which no table
// is, for the number 7 of `start_tables_refusal`.
pub fn start_table<'a>(error: ErrorModel, pareto: &'a [f64], weibull: &'a [f64]) -> &'a [f64]
    ensures value { 0 ≡ first_of (wrong_tables (length pareto.now) (length weibull.now)) → result ≡ table_of
        error pareto.entry weibull.entry }
    ensures result_value { 7 ≡ first_of (wrong_tables (length pareto.now) (length weibull.now)) → result.now ≡ [] }
{
    let Ok(()) = start_tables_refusal(pareto, weibull) else {
        return &pareto[0..0];
    };
    match error {
        ErrorModel::FreeSingletonWeibull => weibull,
        ErrorModel::SingletonPareto => pareto,
    }
}

// How many starts an error start has: one, or one for each pair of a shelf's shapes.
fn per_row(genome: GenomeModel, shapes: usize) -> usize
    ensures { result ≡ per_row genome shapes }
{
    match genome {
        GenomeModel::NegativeBinomial => 1,
        GenomeModel::ShelfNegativeBinomial => shapes / 2,
    }
}

// Whether the room is too short for `seeds` + 1 times as many starts. What is needed may be 2^64 or more, so the room
// is divided.
fn too_short(room: usize, width: usize, each: usize, rows: usize, seeds: usize) -> bool
    requires width_nonzero { 0 < width }
    requires rows_nonzero { 0 < rows }
    ensures { result ≡ ltb room ((seeds + 1) * (rows * (each * width))) }
{
    if each == 0 {
        return false;
    }
    room / width / each / rows <= seeds
}

// Every start of the search, one behind the other: those of the seeds and then of the hint. The answer counts numbers,
// not starts, as `Written` does everywhere. 7 for either table or for shapes that are no pairs, whichever families are
// asked; 10 where the buffer is too short. A refusal writes nothing, and what lies past the starts stands as found.
pub fn fit_starts_lent<'a>(
    error: ErrorModel,
    genome: GenomeModel,
    pareto: &'a [f64],
    weibull: &'a [f64],
    seeds: &[f64],
    hint: f64,
    share: f64,
    shapes: &[f64],
    out: &mut [f64],
) -> Result<usize, Refusal>
    ensures result_value { reply_of result
        ≡ counted (starts_of error genome pareto.now weibull.now seeds.now hint share
        shapes.now (length out.old)) }
    ensures out_after { out.new
        ≡ laid (starts_of error genome pareto.now weibull.now seeds.now hint share
        shapes.now (length out.old)) out.old }
{
    let table = start_table(error, pareto, weibull);
    if table.is_empty() {
        return Err(Refusal::WrongLength);
    }
    if shapes.len() % 2 != 0 {
        return Err(Refusal::WrongLength);
    }
    let width = list_length(error, genome);
    let each = per_row(genome, shapes.len());
    if too_short(out.len(), width, each, table.len() / 3, seeds.len()) {
        return Err(Refusal::TooShort);
    }
    let plan = StartPlan {
        error,
        genome,
        table,
        share,
        shapes,
    };
    Ok(plan.write_starts(out, seeds, used_hint(hint)))
}

// The same over the fixed tables.
pub fn fit_starts(
    error: ErrorModel,
    genome: GenomeModel,
    seeds: &[f64],
    hint: f64,
    share: f64,
    shapes: &[f64],
    out: &mut [f64],
) -> Result<usize, Refusal>
    ensures result_value { reply_of result
        ≡ counted (starts_of error genome pareto_starts weibull_starts seeds.now hint share
        shapes.now (length out.old)) }
    ensures out_after { out.new
        ≡ laid (starts_of error genome pareto_starts weibull_starts seeds.now hint share shapes.now
        (length out.old)) out.old }
{
    let pareto = pareto_starts();
    let weibull = weibull_starts();
    fit_starts_lent(
        error, genome, &pareto, &weibull, seeds, hint, share, shapes, out,
    )
}
