// The lines of an attempt.
ghost use Rattle.std.specs.Prelude.{◌≡◌, length};
ghost use Rattle.templates.specs.Cut.{put_at, end_at};
ghost use Rattle.record.specs.Attempts.{cutoffs_of, own_cutoffs, cutoff_numbers, families_text, costs_text};
ghost use Rattle.record.specs.Attempts.{own_cutoffs_text, attempt_text};

use crate::values::{
    Hole, HowSure, Place, PlaceNumbers, crossover_of, floor_of, hole_of, place_numbers,
    rejection_number, sure_number,
};
use fitter::attempts::FitAttempt;
use models::fit::SpectrumFit;
use models::unpacking::empty_fit;
use routines::bits::pattern;
use templates::filling::fill;

#[derive(Clone, Copy)]
pub struct Cutoffs {
    pub hole: Hole,
    pub crossover: Place,
    pub floor: Place,
}

pub(crate) fn cutoffs_of(fit: SpectrumFit, budget: f64) -> Cutoffs
    ensures { result ≡ cutoffs_of fit budget }
{
    Cutoffs {
        hole: hole_of(fit, budget),
        crossover: crossover_of(fit),
        floor: floor_of(fit),
    }
}

// Of an attempt's own fit, where it has one.
pub(crate) fn own_cutoffs(candidate: Option<SpectrumFit>, budget: f64) -> Cutoffs
    ensures { result ≡ own_cutoffs candidate budget }
{
    match candidate {
        Some(fit) => cutoffs_of(fit, budget),
        None => Cutoffs {
            hole: Hole {
                place: Place::Unknown,
                how: HowSure::NoFit,
            },
            crossover: Place::Unknown,
            floor: Place::Unknown,
        },
    }
}

// What the marks of the lines `hole`, `crossover` and `error_floor` take.
#[derive(Clone, Copy)]
pub struct CutoffNumbers {
    pub hole: PlaceNumbers,
    pub how: u64,
    pub crossover: PlaceNumbers,
    pub floor: PlaceNumbers,
}

#[tactic(auto, unfolding(crate::specs::Attempts::cutoff_numbers))]
pub(crate) fn cutoff_numbers(c: Cutoffs) -> CutoffNumbers
    ensures { result ≡ cutoff_numbers c }
{
    let hole = c.hole;
    let how = hole.how;
    let place = hole.place;
    let over = c.crossover;
    let under = c.floor;
    CutoffNumbers {
        hole: place_numbers(place),
        how: sure_number(how),
        crossover: place_numbers(over),
        floor: place_numbers(under),
    }
}

fn put_families(out: &mut [u8], at: usize, k: u64, a: FitAttempt) -> usize
    ensures value { result ≡ end_at at (families_text k a) (length out.old) }
    ensures out_after { out.new ≡ put_at at (families_text k a) out.old }
{
    let values = [
        k,
        u64::from(u8::from(a.error_model)),
        k,
        u64::from(u8::from(a.genome_model)),
        k,
        rejection_number(a.rejection),
    ];
    fill(
        out,
        at,
        b"attempt.#.error_model {FreeSingletonWeibull|SingletonPareto}
attempt.#.genome_model {NegativeBinomial|ShelfNegativeBinomial}
attempt.#.reason {valid|OptimisationFailed|NonFiniteLikelihood|InvalidComponents|InvalidWindowMass|ComponentMassExceeded|UnstableModeParameterisation|GenomeLobeOutsideFitWindow|ErrorModePastValley|PrimaryModeOutsideBand|RepeatModeTooEarly|PositiveLogLikelihood}
",
        &values,
    )
}

// What the search came to, and what it took.
fn put_costs(out: &mut [u8], at: usize, k: u64, a: FitAttempt) -> usize
    ensures value { result ≡ end_at at (costs_text k a) (length out.old) }
    ensures out_after { out.new ≡ put_at at (costs_text k a) out.old }
{
    let fit = a.candidate.unwrap_or(empty_fit());
    let held = u64::from(a.candidate.is_some());
    let values = [
        k,
        held,
        pattern(-fit.log_likelihood),
        k,
        held,
        pattern(fit.bic),
        k,
        a.total_iterations,
        k,
        u64::from(a.capped_starts),
    ];
    fill(
        out,
        at,
        b"attempt.#.cost {-|~}
attempt.#.bic {-|~}
attempt.#.total_iterations #
attempt.#.capped_starts #
",
        &values,
    )
}

#[tactic(auto, unfolding(crate::specs::Attempts::own_cutoffs_text))]
fn put_own_cutoffs(out: &mut [u8], at: usize, k: u64, c: Cutoffs) -> usize
    ensures value { result ≡ end_at at (own_cutoffs_text k c) (length out.old) }
    ensures out_after { out.new ≡ put_at at (own_cutoffs_text k c) out.old }
{
    let n = cutoff_numbers(c);
    let hole = n.hole;
    let over = n.crossover;
    let under = n.floor;
    let values = [
        k, hole.part, hole.at, n.how, k, over.part, over.at, k, under.part, under.at,
    ];
    fill(
        out,
        at,
        b"attempt.#.hole {none|#|-}{ sure| unsure: the allowed share is not finite| unsure: a probability is not from 0 to 2| no walk| refused|}
attempt.#.crossover {none|#|-}
attempt.#.error_floor {none|#|-}
",
        &values,
    )
}

// The lines of the k-th attempt, from a place of the lent bytes on; the answer is the place behind them.
#[tactic(auto, using(crate::proofs::Joins::joins), unfolding(crate::specs::Attempts::attempt_text))]
pub(crate) fn put_attempt(out: &mut [u8], at: usize, k: u64, a: FitAttempt, budget: f64) -> usize
    ensures value { result ≡ end_at at (attempt_text k a budget) (length out.old) }
    ensures out_after { out.new ≡ put_at at (attempt_text k a budget) out.old }
{
    let c = own_cutoffs(a.candidate, budget);
    let first = put_families(out, at, k, a);
    let second = put_costs(out, first, k, a);
    put_own_cutoffs(out, second, k, c)
}
