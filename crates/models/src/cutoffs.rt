// The cutoff that a fit's genome allows.
// Ported from src/preprocessing/models.rs of bacpop/sparrowhawk-asm, f1f8af1232, Apache-2.0; ported and changed:
// a window end is refused by number.
ghost use Rattle.std.specs.Prelude.{◌≡◌};
ghost use Rattle.models.specs.ClaimsCutoff.{Demanded, DemandedSure};
ghost use Rattle.models.specs.Cutoffs.{sure_says, walk_starts, hole_ceiling, hole_walk_of, sure_of};
ghost use Rattle.models.specs.Cutoffs.{hole_cutoff_of, hole_cutoff_sure_of};
ghost use Rattle.meaning.specs.Answers.{reply_of, reply_as};

use crate::fit::SpectrumFit;
use crate::scans::{crossover_starts, whole_up_to};
use crate::walk::{all_probable, walk};
use helpers::single_copies::single_copy_of;
use helpers::window_ends::{WindowEnd, window_end};
use meaning::refusals::Refusal;
use routines::pick::is_finite;
use routines::whole::round;

// What the walk answered, where its guarantee is known to hold and where it is not; or no walk.
#[derive(Clone, Copy, Debug, PartialEq, Eq)]
pub enum SureCutoff {
    Sure(Option<u16>),
    NotSure(Option<u16>),
    NoWalk,
}

#[tactic(auto, unfolding(crate::specs::Cutoffs::walk_starts, crate::specs::HeightCutoffs::crossover_starts))]
fn walk_starts(fit: SpectrumFit) -> bool
    ensures { result ≡ walk_starts fit }
{
    !(fit.genome_kmers <= 0.0) && crossover_starts(fit)
}

// The smaller of the rounded mean and the window end.
fn ceiling(mean: f64, end: u16) -> u16
    ensures { result ≡ hole_ceiling mean end }
{
    whole_up_to(round(mean), end)
}

fn hole_walk(fit: SpectrumFit, budget: f64, end: WindowEnd) -> Option<u16>
    requires { end.count ≡ fit.fit_window_end }
    ensures { result ≡ hole_walk_of fit budget }
{
    let shelf = fit.shelf;
    let single = single_copy_of(fit.mean, fit.dispersion, shelf);
    let top = ceiling(fit.mean, end.count());
    walk(single, budget / fit.genome_kmers, top)
}

// What the guarantee asks besides that the walk starts.
fn is_sure(fit: SpectrumFit, budget: f64, end: WindowEnd) -> bool
    requires { end.count ≡ fit.fit_window_end }
    ensures { result ≡ sure_of fit budget }
{
    let shelf = fit.shelf;
    if !is_finite(budget / fit.genome_kmers) {
        return false;
    }
    let single = single_copy_of(fit.mean, fit.dispersion, shelf);
    let top = ceiling(fit.mean, end.count());
    all_probable(single, top)
}

// The largest cutoff that removes at most `budget` of the genome's k-mers by the fit, and 2 at least; none where each
// cutoff up to the ceiling removes at most that. 2 for a window end above 65,535, 5 for 0. `Demanded` is demand 3.
pub fn hole_cutoff(fit: SpectrumFit, budget: f64) -> Result<Option<u16>, Refusal>
    ensures result_value { reply_of result ≡ hole_cutoff_of fit budget }
    ensures demanded { Demanded fit budget (reply_of result) }
{
    let end = window_end(fit.fit_window_end)?;
    if !walk_starts(fit) {
        return Ok(None);
    }
    Ok(hole_walk(fit, budget, end))
}

// The same cutoff, and whether it is sure: then demand 3 holds of it, and nothing is supposed.
pub fn hole_cutoff_sure(fit: SpectrumFit, budget: f64) -> Result<SureCutoff, Refusal>
    ensures result_value { reply_as sure_says result ≡ hole_cutoff_sure_of fit budget }
    ensures demanded_sure { DemandedSure fit budget (reply_as sure_says result) }
{
    let end = window_end(fit.fit_window_end)?;
    if !walk_starts(fit) {
        return Ok(SureCutoff::NoWalk);
    }
    let found = hole_walk(fit, budget, end);
    if is_sure(fit, budget, end) {
        return Ok(SureCutoff::Sure(found));
    }
    Ok(SureCutoff::NotSure(found))
}
