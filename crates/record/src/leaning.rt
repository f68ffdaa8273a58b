// How far the answer can be leant on: how many of the valid attempts give the same hole cutoff, and the spread.
ghost use Rattle.std.specs.Prelude.{◌≡◌, ◌<◌};
ghost use Rattle.record.specs.Leaning.{is_walked, count_vote, vote_of, least_of, largest_of, leant_on, lean_step};
ghost use Rattle.record.specs.Leaning.{unleant, leaning_of};

use crate::values::{Hole, HowSure, Place, hole_of};
use fitter::attempts::{FitAttempt, is_valid};

// Above every cutoff, and no cutoff at all. The definitions of specs/Leaning.antt name both numbers.
pub(crate) const NONE: u64 = 65536;

pub(crate) const NO_WALK: u64 = 65537;

#[derive(Clone, Copy)]
pub struct Leaning {
    pub valid: u8,
    pub same: u8,
    pub least: u64,
    pub largest: u64,
}

fn is_walked(how: HowSure) -> bool
    ensures { result ≡ is_walked how }
{
    !matches!(how, HowSure::NoWalk)
}

fn count_vote(place: Place) -> u64
    ensures { result ≡ count_vote place }
{
    match place {
        Place::At(c) => c,
        Place::Nothing | Place::Unknown => NONE,
    }
}

// What an attempt says of the hole cutoff.
#[tactic(auto, unfolding(crate::specs::Leaning::vote_of))]
pub(crate) fn vote(h: Hole) -> u64
    ensures { result ≡ vote_of h }
{
    let how = h.how;
    let place = h.place;
    if is_walked(how) {
        return count_vote(place);
    }
    NO_WALK
}

#[tactic(auto, unfolding(crate::specs::Leaning::least_of))]
fn least(a: u64, b: u64) -> u64
    ensures { result ≡ least_of a b }
{
    a.min(b)
}

#[tactic(auto, unfolding(crate::specs::Leaning::largest_of))]
fn largest(a: u64, b: u64) -> u64
    ensures { result ≡ largest_of a b }
{
    if a < b && b != NO_WALK { b } else { a }
}

#[tactic(auto, unfolding(crate::specs::Leaning::leant_on))]
fn lean_on(answer: u64, l: Leaning, v: u64) -> Leaning
    requires { (l.valid < 4) × (l.same < 4) }
    ensures { result ≡ leant_on answer l v }
{
    let same = if v == answer { l.same + 1 } else { l.same };
    Leaning {
        valid: l.valid + 1,
        same,
        least: least(l.least, v),
        largest: largest(l.largest, v),
    }
}

#[tactic(auto, unfolding(crate::specs::Leaning::lean_step, fitter::specs::Attempts::valid_of))]
fn lean(budget: f64, answer: u64, l: Leaning, attempt: FitAttempt) -> Leaning
    requires { (l.valid < 4) × (l.same < 4) }
    ensures { result ≡ lean_step budget answer l attempt }
{
    match attempt.candidate {
        Some(fit) if is_valid(attempt) => lean_on(answer, l, vote(hole_of(fit, budget))),
        _ => l,
    }
}

// Over the attempts, beside the answer's vote.
pub(crate) fn leaning_of(budget: f64, answer: u64, attempts: [FitAttempt; 4]) -> Leaning
    ensures { result ≡ leaning_of budget answer attempts unleant }
{
    let mut l = Leaning {
        valid: 0,
        same: 0,
        least: NO_WALK,
        largest: 0,
    };
    for attempt in &attempts {
        l = lean(budget, answer, l, *attempt);
    }
    l
}
