// The cost of a parameter list, and a converged list as a fit.
ghost use Rattle.std.specs.Prelude.{◌≡◌, length};
ghost use Rattle.meaning.specs.Answers.{reply_of};
ghost use Rattle.meaning.specs.Lent.{laid, counted};
ghost use Rattle.models.specs.Costs.{cost_of, cost_table};
ghost use Rattle.models.specs.Prepared.{prepare_of, prepared_cost_of, prepared_cost_table};
ghost use Rattle.models.specs.Unpacking.{unpack_of, unpack_table};
ghost use Rattle.exports.specs.Flat.{say_number, say_written};
ghost use Rattle.models.specs.Parts.{error_of, genome_of};
ghost use Rattle.exports.specs.FlatFits.{say_fit};

use crate::answers::{FlatNumber, FlatWritten, number_in, said_number, said_written};
use crate::fits::{FlatFit, flat_fit};
use meaning::refusals::Refusal;
use models::costs::{cost, cost_prepared};
use models::families::{ErrorModel, GenomeModel};
use models::fit::SpectrumFit;
use models::prepared::prepare_window;
use models::unpacking::{empty_fit, unpack};

#[repr(C)]
#[derive(Clone, Copy)]
pub struct FlatFitAnswer {
    pub number: u8,
    pub fit: FlatFit,
}

fn flat_fit_answer(answer: Result<SpectrumFit, Refusal>) -> FlatFitAnswer
    ensures { result ≡ say_fit (reply_of answer) }
{
    FlatFitAnswer {
        number: number_in(answer),
        fit: flat_fit(answer.unwrap_or(empty_fit())),
    }
}

pub fn fog_cost(
    bins: &[u32],
    scale: f64,
    window_end: usize,
    peak: usize,
    error: u8,
    genome: u8,
    theta: &[f64],
    table: &mut [f64],
) -> FlatNumber
    ensures value { result
        ≡ say_number (cost_of bins.now scale window_end peak (error_of error) (genome_of genome)
        theta.now (length table.old)) }
    ensures table_after { table.new
        ≡ cost_table bins.now scale window_end peak (error_of error) (genome_of genome) theta.now
        table.old }
{
    let tail = ErrorModel::from(error);
    let lobes = GenomeModel::from(genome);
    said_number(cost(bins, scale, window_end, peak, tail, lobes, theta, table))
}

pub fn fog_prepare_window(window_end: usize, out: &mut [f64]) -> FlatWritten
    ensures value { result ≡ say_written (counted (prepare_of window_end (length out.old))) }
    ensures out_after { out.new ≡ laid (prepare_of window_end (length out.old)) out.old }
{
    said_written(prepare_window(window_end, out))
}

pub fn fog_cost_prepared(
    bins: &[u32],
    scale: f64,
    window_end: usize,
    peak: usize,
    error: u8,
    genome: u8,
    theta: &[f64],
    ready: &[f64],
    table: &mut [f64],
) -> FlatNumber
    ensures value { result
        ≡ say_number (prepared_cost_of bins.now scale window_end peak (error_of error) (genome_of genome)
        theta.now ready.now (length table.old)) }
    ensures table_after { table.new
        ≡ prepared_cost_table bins.now scale window_end peak (error_of error) (genome_of genome)
        theta.now ready.now table.old }
{
    let tail = ErrorModel::from(error);
    let lobes = GenomeModel::from(genome);
    said_number(cost_prepared(
        bins, scale, window_end, peak, tail, lobes, theta, ready, table,
    ))
}

pub fn fog_unpack(
    bins: &[u32],
    scale: f64,
    window_end: usize,
    peak: usize,
    error: u8,
    genome: u8,
    theta: &[f64],
    cost: f64,
    iterations: u64,
    table: &mut [f64],
) -> FlatFitAnswer
    ensures value { result
        ≡ say_fit (unpack_of bins.now scale window_end peak (error_of error) (genome_of genome)
        theta.now cost iterations (length table.old)) }
    ensures table_after { table.new
        ≡ unpack_table bins.now scale window_end peak (error_of error) (genome_of genome)
        theta.now cost iterations table.old }
{
    let tail = ErrorModel::from(error);
    let lobes = GenomeModel::from(genome);
    flat_fit_answer(unpack(
        bins, scale, window_end, peak, tail, lobes, theta, cost, iterations, table,
    ))
}
