// The fit that is used, out of four attempts.
// Ported from src/preprocessing/spectrum_fitter.rs of bacpop/sparrowhawk-asm, f1f8af1232, Apache-2.0; ported and
// changed.
ghost use Rattle.std.specs.Prelude.{◌≡◌};
ghost use Rattle.fitter.specs.Selection.{replaces_of, wins_of, replace_of, select_of};

use crate::attempts::{FitAttempt, is_valid};
use models::fit::{SpectrumFit, abs};
use models::unpacking::empty_fit;
use routines::pick::max;

// A tie within round-off keeps the earlier configuration.
const TOLERANCE: f64 = 1e-9;

// Whether a BIC is so far below the best that it takes its place. A NaN or an infinity never does, and keeps its own.
fn replaces(best: f64, next: f64) -> bool
    ensures { result ≡ replaces_of best next }
{
    let tolerance = TOLERANCE * (1.0 + max(abs(best), abs(next)));
    next < best - tolerance
}

#[tactic(auto, unfolding(crate::specs::Selection::wins_of))]
fn wins(best: Option<SpectrumFit>, next: FitAttempt) -> bool
    ensures { result ≡ wins_of best next }
{
    if !is_valid(next) {
        return false;
    }
    match best {
        None => true,
        Some(held) => replaces(held.bic, next.candidate.unwrap_or(empty_fit()).bic),
    }
}

fn replace(best: Option<SpectrumFit>, next: FitAttempt) -> Option<SpectrumFit>
    ensures { result ≡ replace_of best next }
{
    if wins(best, next) {
        return next.candidate;
    }
    best
}

// The valid candidate of lowest BIC, up to the tolerance, the attempts being gone through in order.
pub fn select_fit(attempts: [FitAttempt; 4]) -> Option<SpectrumFit>
    ensures { result ≡ select_of attempts }
{
    let mut best = None;
    for attempt in &attempts {
        best = replace(best, *attempt);
    }
    best
}
