// The parameters of a list, as C has them.
ghost use Rattle.std.specs.Prelude.{◌≡◌};
ghost use Rattle.models.specs.Params.{params_answer_of};
ghost use Rattle.models.specs.Parts.{error_of, genome_of};
ghost use Rattle.probe.specs.FlatModels.{of_params, no_params, say_params};
ghost use Rattle.meaning.specs.Answers.{reply_of};

use exports::fits::{FlatErrors, flat_errors, shelf_numbers};
use exports::shelf::FlatShelf;
use meaning::refusals::Refusal;
use models::families::{ErrorModel, GenomeModel};
use models::params::{Params, params_from};
use models::parts::shelf_there;

#[repr(C)]
#[derive(Clone, Copy)]
pub struct FlatParams {
    pub ln_error: f64,
    pub ln_single: f64,
    pub ln_repeat: f64,
    pub target_mode: f64,
    pub mean: f64,
    pub dispersion: f64,
    pub error_params: FlatErrors,
    pub shelf_present: u8,
    pub shelf: FlatShelf,
    pub repeat_ratio: f64,
}

#[repr(C)]
#[derive(Clone, Copy)]
pub struct FlatParamsAnswer {
    pub number: u8,
    pub params: FlatParams,
}

fn flat_params(p: Params) -> FlatParams
    ensures { result ≡ of_params p }
{
    let shelf = p.shelf;
    let error_params = flat_errors(p.error_params);
    FlatParams {
        ln_error: p.ln_error,
        ln_single: p.ln_single,
        ln_repeat: p.ln_repeat,
        target_mode: p.target_mode,
        mean: p.mean,
        dispersion: p.dispersion,
        error_params,
        shelf_present: shelf_there(shelf),
        shelf: shelf_numbers(shelf),
        repeat_ratio: p.repeat_ratio,
    }
}

fn no_params(number: u8) -> FlatParamsAnswer
    ensures { result ≡ no_params number }
{
    FlatParamsAnswer {
        number,
        params: FlatParams {
            ln_error: 0.0,
            ln_single: 0.0,
            ln_repeat: 0.0,
            target_mode: 0.0,
            mean: 0.0,
            dispersion: 0.0,
            error_params: FlatErrors {
                singleton_probability: 0.0,
                tail_exponent: 0.0,
                shape_present: 0,
                weibull_shape: 0.0,
            },
            shelf_present: 0,
            shelf: FlatShelf {
                share: 0.0,
                alpha: 0.0,
                beta: 0.0,
            },
            repeat_ratio: 0.0,
        },
    }
}

fn flat_params_answer(answer: Result<Params, Refusal>) -> FlatParamsAnswer
    ensures { result ≡ say_params (reply_of answer) }
{
    match answer {
        Ok(p) => FlatParamsAnswer {
            number: 0,
            params: flat_params(p),
        },
        Err(refusal) => no_params(u8::from(refusal)),
    }
}

pub fn fog_params_from(error: u8, genome: u8, peak: usize, theta: &[f64]) -> FlatParamsAnswer
    ensures { result ≡ say_params (params_answer_of (error_of error) (genome_of genome) peak theta.now) }
{
    let (error, genome) = (ErrorModel::from(error), GenomeModel::from(genome));
    flat_params_answer(params_from(error, genome, peak, theta))
}
