// A fit as 6 wholes and 27 floats, and back: both families, both presences, the window end and the iterations; the
// floats in the Rust's order. What is absent has zeros.
ghost use Rattle.std.specs.Prelude.{◌≡◌};
ghost use Rattle.models.specs.FitWords.{wholes_of, floats_of, bit_of, fit_words_of, fit_of_words};

use crate::errors::ErrorParams;
use crate::families::{ErrorModel, GenomeModel};
use crate::fit::SpectrumFit;
use crate::parts::{shape_number, shape_of, shape_there, shelf_from, shelf_held, shelf_there};
use helpers::shelves::Shelf;

#[derive(Clone, Copy)]
pub struct FitWords {
    pub wholes: [u64; 6],
    pub floats: [f64; 27],
}

fn wholes_of(fit: SpectrumFit) -> [u64; 6]
    ensures { result ≡ wholes_of fit }
{
    let errors = fit.error_params;
    let shape = errors.weibull_shape;
    let shelf = fit.shelf;
    let error = fit.error_model;
    let genome = fit.genome_model;
    [
        u64::from(u8::from(error)),
        u64::from(u8::from(genome)),
        u64::from(shape_there(shape)),
        u64::from(shelf_there(shelf)),
        fit.fit_window_end as u64,
        fit.best_iterations,
    ]
}

#[tactic(auto, unfolding(crate::specs::FitWords::floats_of))]
fn floats_of(fit: SpectrumFit) -> [f64; 27]
    ensures { result ≡ floats_of fit }
{
    let errors = fit.error_params;
    let shape = errors.weibull_shape;
    let part = fit.shelf;
    let shelf = shelf_held(part);
    let masses = fit.component_log_window_masses;
    let totals = fit.component_log_totals;
    [
        fit.w_error,
        fit.w_single,
        fit.w_repeat,
        fit.mean,
        fit.dispersion,
        fit.target_mode,
        errors.singleton_probability,
        errors.tail_exponent,
        shape_number(shape),
        shelf.share,
        shelf.alpha,
        shelf.beta,
        fit.repeat_ratio,
        fit.genome_kmers,
        fit.error_kmers,
        fit.repeat_kmers,
        fit.log_likelihood,
        fit.bic,
        fit.deviance,
        masses[0],
        masses[1],
        masses[2],
        totals[0],
        totals[1],
        totals[2],
        fit.observed_total,
        fit.full_distinct_total,
    ]
}

pub fn fit_words(fit: SpectrumFit) -> FitWords
    ensures { result ≡ fit_words_of fit }
{
    FitWords {
        wholes: wholes_of(fit),
        floats: floats_of(fit),
    }
}

// Any whole but 0 is a second family, or a presence.
fn bit_of(n: u64) -> u8
    ensures { result ≡ bit_of n }
{
    if n == 0 { 0 } else { 1 }
}

pub fn fit_of_words(words: FitWords) -> SpectrumFit
    ensures { result ≡ fit_of_words words }
{
    let n = words.wholes;
    let x = words.floats;
    let error = ErrorModel::from(bit_of(n[0]));
    let genome = GenomeModel::from(bit_of(n[1]));
    let shape = shape_of(bit_of(n[2]), x[8]);
    let held = Shelf {
        share: x[9],
        alpha: x[10],
        beta: x[11],
    };
    let shelf = shelf_from(bit_of(n[3]), held);
    SpectrumFit {
        error_model: error,
        genome_model: genome,
        w_error: x[0],
        w_single: x[1],
        w_repeat: x[2],
        mean: x[3],
        dispersion: x[4],
        target_mode: x[5],
        error_params: ErrorParams {
            singleton_probability: x[6],
            tail_exponent: x[7],
            weibull_shape: shape,
        },
        shelf,
        repeat_ratio: x[12],
        genome_kmers: x[13],
        error_kmers: x[14],
        repeat_kmers: x[15],
        log_likelihood: x[16],
        bic: x[17],
        deviance: x[18],
        fit_window_end: n[4] as usize,
        best_iterations: n[5],
        component_log_window_masses: [x[19], x[20], x[21]],
        component_log_totals: [x[22], x[23], x[24]],
        observed_total: x[25],
        full_distinct_total: x[26],
    }
}
