// The cutoffs that a fit's heights give: where the single copies outgrow the errors, and where the errors sink below
// the single-copy peak.
// Ported from src/preprocessing/models.rs of bacpop/sparrowhawk-asm, f1f8af1232, Apache-2.0; ported and changed:
// a window end is refused by number.
ghost use Rattle.std.specs.Prelude.{◌≡◌, ℕ};
ghost use Rattle.routines.specs.Ops.{of_count};
ghost use Rattle.models.specs.HeightTerms.{error_height_of, heights_of};
ghost use Rattle.models.specs.HeightCutoffs.{crossover_ceiling, crossing_of, crossover_of};
ghost use Rattle.models.specs.HeightCutoffs.{later_bad, last_bad_of, floor_behind_of, error_floor_of};
ghost use Rattle.meaning.specs.Answers.{reply_of};

use crate::fit::{SpectrumFit, primary_mode};
use crate::height_terms::{HeightTerms, error_height_from, height_terms, single_height};
use crate::scans::{crossover_starts, whole_up_to};
use crate::walk::at_least_two;
use helpers::window_ends::window_end;
use meaning::refusals::Refusal;
use routines::casts::from_u64;
use routines::ln::ln;
use routines::pick::max;
use routines::whole::round;

// The smaller of the rounded mean, 2 at least, and the window end.
fn crossover_ceiling(mean: f64, end: u16) -> u16
    ensures { result ≡ crossover_ceiling mean end }
{
    whole_up_to(max(round(mean), 2.0), end)
}

// The first count from 1 to ceiling - 1 where the single copies stand above the errors, and 2 at least.
fn crossing(t: HeightTerms, ceiling: u16) -> Option<u16>
    ensures { result ≡ crossing_of (λ (k : ℕ). heights_of t (of_count k)) ceiling }
{
    let p = t.error_params;
    let mut here = p.log_survival_from_two(1.0);
    // A loop, and no `find`: the survival goes from count to count.
    for count in 1..ceiling {
        let next = p.survival_with(ln(count as f64));
        let error = error_height_from(t, count as f64, here, next);
        if single_height(t, count as f64) > error {
            return Some(at_least_two(count));
        }
        here = next;
    }
    None
}

// Where the single copies outgrow the errors: ideally the valley of the spectrum. 2 for a window end above 65,535, 5
// for 0.
pub fn crossover(fit: SpectrumFit) -> Result<Option<u16>, Refusal>
    ensures { reply_of result ≡ crossover_of fit }
{
    let end = window_end(fit.fit_window_end)?;
    if !crossover_starts(fit) {
        return Ok(None);
    }
    let ceiling = crossover_ceiling(fit.mean, end.count());
    Ok(crossing(height_terms(fit), ceiling))
}

// A count is bad where the errors alone reach the reference height.
#[tactic(auto, unfolding(crate::specs::HeightCutoffs::later_bad))]
fn later_bad(last: u16, count: u16, error: f64, reference: f64) -> u16
    ensures { result ≡ later_bad reference error count last }
{
    if error >= reference {
        return count;
    }
    last
}

// The last bad count of 1 to `top`, and 0 where none is.
fn last_bad(t: HeightTerms, reference: f64, top: u16) -> u16
    ensures { result ≡ last_bad_of (λ (k : ℕ). error_height_of t (of_count k)) reference top }
{
    let p = t.error_params;
    let mut here = p.log_survival_from_two(1.0);
    let mut last: u16 = 0;
    // A loop, and no `rev().find`: the survival goes from count to count, upwards.
    for count in 1..=top {
        let next = p.survival_with(ln(count as f64));
        last = later_bad(
            last,
            count,
            error_height_from(t, count as f64, here, next),
            reference,
        );
        here = next;
    }
    last
}

// One past the last bad count, 65,535 at most and 2 at least.
fn floor_behind(last: u16) -> u16
    ensures { result ≡ floor_behind_of last }
{
    at_least_two(last.saturating_add(1))
}

// One past the last count of the window where the errors stand as high as the single copies at their mode, which may
// lie far above 65,535; 65,535 at most and 2 at least. 2 for a window end above 65,535, 5 for 0.
pub fn error_floor_cutoff(fit: SpectrumFit) -> Result<u16, Refusal>
    ensures { reply_of result ≡ error_floor_of fit }
{
    let end = window_end(fit.fit_window_end)?;
    let t = height_terms(fit);
    let reference = single_height(t, from_u64(primary_mode(fit)));
    Ok(floor_behind(last_bad(t, reference, end.count())))
}
