// The single-copy component at many counts: what does not change with the count is worked out once, and lgamma(x + 1),
// which is the lobe's and the shelf's, once a count. For speed alone; proofs/SingleCopies.antt shows it equal to the
// plain form.
// Ported from src/preprocessing/math_helpers.rs of bacpop/sparrowhawk-asm, f1f8af1232, Apache-2.0; ported and changed.
ghost use Rattle.std.specs.Prelude.{◌≡◌};
ghost use Rattle.helpers.specs.SingleCopies.{beta_binomial_of, beta_density_of, beta_part_of, single_copy_of};
ghost use Rattle.helpers.specs.SingleCopies.{single_density_with, single_density_of};

use crate::hoists::{Lobe, density_with, lobe_of};
use crate::log_sums::lse2;
use crate::shelves::{Shelf, ShelfLogs, shelf_logs, shelf_trials};
use routines::lgamma::lgamma;

// What a beta-binomial's density has in common at every count: lgamma(trials + 1), lgamma(trials + alpha + beta), and
// lgamma(alpha) + lgamma(beta) - lgamma(alpha + beta).
#[derive(Clone, Copy)]
pub struct BetaBinomial {
    pub trials: f64,
    pub alpha: f64,
    pub beta: f64,
    pub all: f64,
    pub spread: f64,
    pub shape: f64,
}

pub fn beta_binomial_of(trials: f64, alpha: f64, beta: f64) -> BetaBinomial
    ensures { result ≡ beta_binomial_of trials alpha beta }
{
    BetaBinomial {
        trials,
        alpha,
        beta,
        all: lgamma(trials + 1.0),
        spread: lgamma(trials + alpha + beta),
        shape: lgamma(alpha) + lgamma(beta) - lgamma(alpha + beta),
    }
}

// The log density of a beta-binomial at x, with lgamma(x + 1) at hand; -inf above its trials.
#[tactic(auto, unfolding(crate::specs::SingleCopies::beta_density_of))]
pub fn beta_density(b: BetaBinomial, x: f64, gamma: f64) -> f64
    ensures { result ≡ beta_density_of b x gamma }
{
    if x > b.trials {
        return f64::NEG_INFINITY;
    }
    b.all - gamma - lgamma(b.trials - x + 1.0) + lgamma(x + b.alpha) + lgamma(b.trials - x + b.beta)
        - b.spread
        - b.shape
}

fn beta_part(mean: f64, shelf: Option<Shelf>) -> Option<BetaBinomial>
    ensures { result ≡ beta_part_of mean shelf }
{
    match shelf {
        None => None,
        Some(s) => { Some(beta_binomial_of(shelf_trials(mean), s.alpha, s.beta)) }
    }
}

// What the single-copy component's density has in common at every count.
#[derive(Clone, Copy)]
pub struct SingleCopy {
    pub lobe: Lobe,
    pub logs: ShelfLogs,
    pub beta: Option<BetaBinomial>,
}

#[tactic(auto, unfolding(crate::specs::SingleCopies::single_copy_of))]
pub fn single_copy_of(mean: f64, dispersion: f64, shelf: Option<Shelf>) -> SingleCopy
    ensures { result ≡ single_copy_of mean dispersion shelf }
{
    SingleCopy {
        lobe: lobe_of(mean, dispersion),
        logs: shelf_logs(shelf),
        beta: beta_part(mean, shelf),
    }
}

// The log density of the single-copy component at x, with lgamma(x + 1) at hand.
#[tactic(auto, unfolding(crate::specs::SingleCopies::single_density_with))]
pub fn single_density_with(single: SingleCopy, x: f64, gamma: f64) -> f64
    ensures { result ≡ single_density_with single x gamma }
{
    let logs = single.logs;
    let beta = single.beta;
    let lobe = density_with(single.lobe, x, gamma);
    match beta {
        None => lobe,
        Some(b) => lse2(logs.rest + lobe, logs.share + beta_density(b, x, gamma)),
    }
}

// The log density of the single-copy component at x.
#[tactic(auto, unfolding(crate::specs::SingleCopies::single_density_of))]
pub fn single_density(single: SingleCopy, x: f64) -> f64
    ensures { result ≡ single_density_of single x }
{
    single_density_with(single, x, lgamma(x + 1.0))
}
