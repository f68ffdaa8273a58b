// The starts of a search, and the tables that they are made from. An exported function can't return a reference, so
// `start_table` has no C form.
ghost use Rattle.std.specs.Prelude.{◌≡◌, length};
ghost use Rattle.meaning.specs.Lent.{counted, laid};
ghost use Rattle.meaning.specs.Reply.{first_of};
ghost use Rattle.routines.specs.Starts.{pareto_starts, weibull_starts};
ghost use Rattle.fitter.specs.StartTables.{wrong_tables};
ghost use Rattle.fitter.specs.Starts.{starts_of};
ghost use Rattle.exports.specs.Flat.{say_written};
ghost use Rattle.models.specs.Parts.{error_of, genome_of};

use crate::answers::{FlatWritten, number_in, said_written};
use fitter::starts::{fit_starts, fit_starts_lent, start_tables_refusal};
use models::families::{ErrorModel, GenomeModel};

pub fn fog_start_tables_refusal(pareto: &[f64], weibull: &[f64]) -> u8
    ensures { result ≡ first_of (wrong_tables (length pareto.now) (length weibull.now)) }
{
    number_in(start_tables_refusal(pareto, weibull))
}

pub fn fog_fit_starts(
    error: u8,
    genome: u8,
    seeds: &[f64],
    hint: f64,
    share: f64,
    shapes: &[f64],
    out: &mut [f64],
) -> FlatWritten
    ensures value { result
        ≡ say_written (counted (starts_of (error_of error) (genome_of genome) pareto_starts weibull_starts
        seeds.now hint share shapes.now (length out.old))) }
    ensures out_after { out.new
        ≡ laid (starts_of (error_of error) (genome_of genome) pareto_starts weibull_starts seeds.now hint share
        shapes.now (length out.old)) out.old }
{
    let tail = ErrorModel::from(error);
    let lobes = GenomeModel::from(genome);
    said_written(fit_starts(tail, lobes, seeds, hint, share, shapes, out))
}

pub fn fog_fit_starts_lent<'a>(
    error: u8,
    genome: u8,
    pareto: &'a [f64],
    weibull: &'a [f64],
    seeds: &[f64],
    hint: f64,
    share: f64,
    shapes: &[f64],
    out: &mut [f64],
) -> FlatWritten
    ensures value { result
        ≡ say_written (counted (starts_of (error_of error) (genome_of genome) pareto.now weibull.now
        seeds.now hint share shapes.now (length out.old))) }
    ensures out_after { out.new
        ≡ laid (starts_of (error_of error) (genome_of genome) pareto.now weibull.now
        seeds.now hint share shapes.now (length out.old)) out.old }
{
    let tail = ErrorModel::from(error);
    let lobes = GenomeModel::from(genome);
    said_written(fit_starts_lent(
        tail, lobes, pareto, weibull, seeds, hint, share, shapes, out,
    ))
}
