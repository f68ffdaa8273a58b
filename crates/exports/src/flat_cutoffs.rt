// The cutoffs of a fit.
ghost use Rattle.std.specs.Prelude.{◌≡◌};
ghost use Rattle.meaning.specs.Answers.{reply_of, reply_as};
ghost use Rattle.models.specs.Cutoffs.{sure_says, hole_cutoff_of, hole_cutoff_sure_of};
ghost use Rattle.models.specs.HeightCutoffs.{crossover_of, error_floor_of};
ghost use Rattle.exports.specs.FlatCutoffs.{say_cutoff, say_sure, say_floor};
ghost use Rattle.exports.specs.FlatFits.{fit_of};

use crate::answers::number_in;
use crate::fits::{FlatFit, fit_of};
use meaning::refusals::Refusal;
use models::cutoffs::{SureCutoff, hole_cutoff, hole_cutoff_sure};
use models::height_cutoffs::{crossover, error_floor_cutoff};

// A cutoff is 2 at least, so 0 stands for none.
#[repr(C)]
#[derive(Clone, Copy)]
pub struct FlatCutoff {
    pub number: u8,
    pub cutoff: u16,
}

// `walk` is 1 where the walk started, and `sure` is 1 where the guarantee holds of the cutoff.
#[repr(C)]
#[derive(Clone, Copy)]
pub struct FlatSureCutoff {
    pub number: u8,
    pub walk: u8,
    pub sure: u8,
    pub cutoff: u16,
}

pub(crate) fn flat_cutoff(answer: Result<Option<u16>, Refusal>) -> FlatCutoff
    ensures { result ≡ say_cutoff (reply_of answer) }
{
    FlatCutoff {
        number: number_in(answer),
        cutoff: answer.unwrap_or(None).unwrap_or(0),
    }
}

fn flat_sure(answer: Result<SureCutoff, Refusal>) -> FlatSureCutoff
    ensures { result ≡ say_sure (reply_as sure_says answer) }
{
    let (walk, sure, found) = match answer.unwrap_or(SureCutoff::NoWalk) {
        SureCutoff::Sure(found) => (1, 1, found),
        SureCutoff::NotSure(found) => (1, 0, found),
        SureCutoff::NoWalk => (0, 0, None),
    };
    FlatSureCutoff {
        number: number_in(answer),
        walk,
        sure,
        cutoff: found.unwrap_or(0),
    }
}

pub fn fog_hole_cutoff(fit: FlatFit, budget: f64) -> FlatCutoff
    ensures { result ≡ say_cutoff (hole_cutoff_of (fit_of fit) budget) }
{
    flat_cutoff(hole_cutoff(fit_of(fit), budget))
}

pub fn fog_hole_cutoff_sure(fit: FlatFit, budget: f64) -> FlatSureCutoff
    ensures { result ≡ say_sure (hole_cutoff_sure_of (fit_of fit) budget) }
{
    flat_sure(hole_cutoff_sure(fit_of(fit), budget))
}

fn flat_floor(answer: Result<u16, Refusal>) -> FlatCutoff
    ensures { result ≡ say_floor (reply_of answer) }
{
    FlatCutoff {
        number: number_in(answer),
        cutoff: answer.unwrap_or(0),
    }
}

pub fn fog_crossover(fit: FlatFit) -> FlatCutoff
    ensures { result ≡ say_cutoff (crossover_of (fit_of fit)) }
{
    flat_cutoff(crossover(fit_of(fit)))
}

pub fn fog_error_floor_cutoff(fit: FlatFit) -> FlatCutoff
    ensures { result ≡ say_floor (error_floor_of (fit_of fit)) }
{
    flat_floor(error_floor_cutoff(fit_of(fit)))
}
