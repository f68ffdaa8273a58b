// The numbers that a record's marks take, for what is no number itself.
ghost use Rattle.std.specs.Prelude.{◌≡◌, Some};
ghost use Rattle.models.specs.Cutoffs.{allowed_of, sure_says};
ghost use Rattle.models.specs.HeightCutoffs.{crossover_of, error_floor_of};
ghost use Rattle.record.specs.Values.{rejection_number};
ghost use Rattle.record.specs.Values.{place_numbers, sure_number, place_in, crossover_place, floor_place, why_not};
ghost use Rattle.record.specs.Values.{hole_in, hole_of};
ghost use Rattle.meaning.specs.Answers.{reply_as};

use fitter::rejections::FitRejection;
use meaning::refusals::Refusal;
use models::cutoffs::{SureCutoff, hole_cutoff_sure};
use models::fit::SpectrumFit;
use models::height_cutoffs::{crossover, error_floor_cutoff};
use routines::pick::is_finite;

// A cutoff: none, a count, or unknown, where there is no fit to ask, or it is refused.
#[derive(Clone, Copy)]
pub enum Place {
    Nothing,
    At(u64),
    Unknown,
}

// How sure a hole cutoff is, and the number where it is refused.
#[derive(Clone, Copy)]
pub enum HowSure {
    Sure,
    // The allowed share.
    NotFinite,
    // A probability that is not from 0 to 2.
    NotProbable,
    NoWalk,
    Refused(u64),
    NoFit,
}

#[derive(Clone, Copy)]
pub struct Hole {
    pub place: Place,
    pub how: HowSure,
}

// What the mark `{none|#|-}` takes.
#[derive(Clone, Copy)]
pub struct PlaceNumbers {
    pub part: u64,
    pub at: u64,
}

pub(crate) fn rejection_number(rejection: Option<FitRejection>) -> u64
    ensures { result ≡ rejection_number rejection }
{
    match rejection {
        None => 0,
        Some(reason) => 1 + u64::from(u8::from(reason)),
    }
}

pub(crate) fn place_numbers(place: Place) -> PlaceNumbers
    ensures { result ≡ place_numbers place }
{
    match place {
        Place::Nothing => PlaceNumbers { part: 0, at: 0 },
        Place::At(c) => PlaceNumbers { part: 1, at: c },
        Place::Unknown => PlaceNumbers { part: 2, at: 0 },
    }
}

// The part of the line `hole`: a match, since the definition has the numbers.
pub(crate) fn sure_number(how: HowSure) -> u64
    ensures { result ≡ sure_number how }
{
    match how {
        HowSure::Sure => 0,
        HowSure::NotFinite => 1,
        HowSure::NotProbable => 2,
        HowSure::NoWalk => 3,
        HowSure::Refused(_) => 4,
        HowSure::NoFit => 5,
    }
}

fn place_in(found: Option<u16>) -> Place
    ensures { result ≡ place_in found }
{
    match found {
        None => Place::Nothing,
        Some(c) => Place::At(u64::from(c)),
    }
}

// Why a hole cutoff is not sure, where there is a walk.
#[tactic(auto, unfolding(crate::specs::Values::why_not))]
fn why_not(allowed: f64) -> HowSure
    ensures { result ≡ why_not allowed }
{
    if is_finite(allowed) {
        return HowSure::NotProbable;
    }
    HowSure::NotFinite
}

fn hole_in(why: HowSure, answer: Result<SureCutoff, Refusal>) -> Hole
    ensures { result ≡ hole_in why (reply_as sure_says answer) }
{
    match answer {
        Ok(SureCutoff::Sure(found)) => Hole {
            place: place_in(found),
            how: HowSure::Sure,
        },
        Ok(SureCutoff::NotSure(found)) => Hole {
            place: place_in(found),
            how: why,
        },
        Ok(SureCutoff::NoWalk) => Hole {
            place: Place::Nothing,
            how: HowSure::NoWalk,
        },
        Err(refusal) => Hole {
            place: Place::Unknown,
            how: HowSure::Refused(u64::from(u8::from(refusal))),
        },
    }
}

pub(crate) fn hole_of(fit: SpectrumFit, budget: f64) -> Hole
    ensures { result ≡ hole_of fit budget }
{
    let why = why_not(budget / fit.genome_kmers);
    hole_in(why, hole_cutoff_sure(fit, budget))
}

pub(crate) fn crossover_of(fit: SpectrumFit) -> Place
    ensures { result ≡ crossover_place (crossover_of fit) }
{
    match crossover(fit) {
        Ok(found) => place_in(found),
        Err(_) => Place::Unknown,
    }
}

pub(crate) fn floor_of(fit: SpectrumFit) -> Place
    ensures { result ≡ floor_place (error_floor_of fit) }
{
    match error_floor_cutoff(fit) {
        Ok(c) => Place::At(u64::from(c)),
        Err(_) => Place::Unknown,
    }
}
