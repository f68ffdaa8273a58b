// The answer of a pick: the smaller of the valley and the hole cutoff, and whether a theorem backs it.
ghost use Rattle.std.specs.Prelude.{◌≡◌};
ghost use Rattle.record.specs.Answers.{smaller_of, answer_place, by_hole, is_under, is_below, answer_of};
ghost use Rattle.record.specs.Answers.{least_removed, least_at, least_kind, from_three, is_low, backed_by, last_in};
ghost use Rattle.record.specs.Answers.{last_number, last_place};

use crate::attempt_lines::Cutoffs;
use crate::values::{HowSure, Place};
use helpers::single_copies::single_copy_of;
use models::fit::SpectrumFit;
use models::walk::probability;

// The cutoff; whether the hole decides it, and not the valley; whether it is a count under the error floor.
#[derive(Clone, Copy)]
pub struct Answer {
    pub place: Place,
    pub hole: bool,
    pub below: bool,
}

// The last line, which is a cutoff only where a theorem backs it; a refusal has its number.
#[derive(Clone, Copy)]
pub enum Last {
    Cutoff(Place),
    Unsure(Place),
    NoFit,
    Refused(u64),
}

// The hole cutoff is the largest that keeps the budget, so a smaller one keeps it too. No cutoff is below 2.
#[tactic(auto, unfolding(crate::specs::Answers::smaller_of))]
fn smaller(valley: u64, hole: u64) -> u64
    ensures { result ≡ smaller_of valley hole }
{
    valley.min(hole).max(2)
}

fn answer_place(valley: u64, hole: Place) -> Place
    ensures { result ≡ answer_place valley hole }
{
    match hole {
        Place::At(c) => Place::At(smaller(valley, c)),
        Place::Nothing | Place::Unknown => hole,
    }
}

fn by_hole(valley: u64, hole: Place) -> bool
    ensures { result ≡ by_hole valley hole }
{
    match hole {
        Place::At(c) => c < valley,
        Place::Nothing | Place::Unknown => true,
    }
}

fn is_under(count: u64, floor: Place) -> bool
    ensures { result ≡ is_under count floor }
{
    match floor {
        Place::At(f) => count < f,
        Place::Nothing | Place::Unknown => false,
    }
}

fn is_below(answer: Place, floor: Place) -> bool
    ensures { result ≡ is_below answer floor }
{
    match answer {
        Place::At(c) => is_under(c, floor),
        Place::Nothing | Place::Unknown => false,
    }
}

#[tactic(auto, unfolding(crate::specs::Answers::answer_of))]
pub(crate) fn answer_of(valley: u64, c: Cutoffs) -> Answer
    ensures { result ≡ answer_of valley c }
{
    let hole = c.hole.place;
    let place = answer_place(valley, hole);
    Answer {
        place,
        hole: by_hole(valley, hole),
        below: is_below(place, c.floor),
    }
}

// What 2 removes, as the walk adds it up.
pub(crate) fn least_removed(fit: SpectrumFit) -> f64
    ensures { result ≡ least_removed fit }
{
    let shelf = fit.shelf;
    let single = single_copy_of(fit.mean, fit.dispersion, shelf);
    let none = probability(single, 0);
    none + probability(single, 1)
}

// The parts of `{|\nleast_cutoff kept|\nleast_cutoff broken ~}` by their numbers, as in the definition.
#[tactic(auto, unfolding(crate::specs::Answers::least_at))]
fn least_at(count: u64, allowed: f64, removed: f64) -> u64
    ensures { result ≡ least_at count allowed removed }
{
    if count != 2 {
        return 0;
    }
    if removed > allowed {
        return 2;
    }
    1
}

// Whether the walk stopped at count 1, and so broke the budget, is lost in an answer of 2, which it may have kept.
pub(crate) fn least_kind(answer: Place, allowed: f64, removed: f64) -> u64
    ensures { result ≡ least_kind answer allowed removed }
{
    match answer {
        Place::At(c) => least_at(c, allowed, removed),
        Place::Nothing | Place::Unknown => 0,
    }
}

fn from_three(place: Place) -> bool
    ensures { result ≡ from_three place }
{
    match place {
        Place::At(c) => c >= 3,
        Place::Nothing | Place::Unknown => false,
    }
}

// Where the errors are as high as the genome, a count of 3 or more removes what no theorem tells from errors.
pub(crate) fn is_low(a: Answer) -> bool
    ensures { result ≡ is_low a }
{
    a.below && from_three(a.place)
}

// Of a hole that is sure.
#[tactic(auto, unfolding(crate::specs::Answers::backed_by))]
fn backed(a: Answer) -> Last
    ensures { result ≡ backed_by a }
{
    let place = a.place;
    if is_low(a) {
        return Last::Unsure(place);
    }
    Last::Cutoff(place)
}

pub(crate) fn last_in(how: HowSure, a: Answer) -> Last
    ensures { result ≡ last_in how a }
{
    let place = a.place;
    match how {
        HowSure::Sure => backed(a),
        HowSure::NotFinite | HowSure::NotProbable | HowSure::NoWalk => Last::Unsure(place),
        HowSure::Refused(n) => Last::Refused(n),
        HowSure::NoFit => Last::NoFit,
    }
}

// The part of `{cutoff |unsure |no fit|refused }`: a match, since the definition has the numbers.
pub(crate) fn last_number(last: Last) -> u64
    ensures { result ≡ last_number last }
{
    match last {
        Last::Cutoff(_) => 0,
        Last::Unsure(_) => 1,
        Last::NoFit => 2,
        Last::Refused(_) => 3,
    }
}

// What stands behind the word.
pub(crate) fn last_place(last: Last) -> Place
    ensures { result ≡ last_place last }
{
    match last {
        Last::Cutoff(place) | Last::Unsure(place) => place,
        Last::NoFit => Place::Unknown,
        Last::Refused(n) => Place::At(n),
    }
}
