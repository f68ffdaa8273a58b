// The walk of the hole cutoff: the single-copy probabilities added one after another, from count 0.
// Ported from src/preprocessing/models.rs of bacpop/sparrowhawk-asm, f1f8af1232, Apache-2.0; ported and changed.
ghost use Rattle.std.specs.Prelude.{◌≡◌, suc, max};
ghost use Rattle.models.specs.WalkHoists.{probability_of};
ghost use Rattle.models.specs.Walk.{walk_of, all_probable};

use helpers::single_copies::{SingleCopy, single_density};
use routines::exp::exp;

// No cutoff is below 2.
pub(crate) fn at_least_two(count: u16) -> u16
    ensures { result ≡ max count 2 }
{
    count.max(2)
}

// The single-copy component's probability of a count.
pub fn probability(single: SingleCopy, count: u16) -> f64
    ensures { result ≡ probability_of single count }
{
    exp(single_density(single, count as f64))
}

// The first count from 1 to ceiling - 1 whose sum through it is above what is allowed, and 2 at least.
pub(crate) fn walk(single: SingleCopy, allowed: f64, ceiling: u16) -> Option<u16>
    ensures { result ≡ walk_of (probability_of single) allowed ceiling }
{
    let mut cdf = probability(single, 0);
    // A loop, and no `find`: the sum goes from count to count.
    for count in 1..ceiling {
        let next = cdf + probability(single, count);
        if next > allowed {
            return Some(at_least_two(count));
        }
        cdf = next;
    }
    None
}

// Whether each probability from count 0 to the ceiling lies between 0 and 2. exp is never negative, so only a NaN and
// what is above 2 do not.
pub(crate) fn all_probable(single: SingleCopy, ceiling: u16) -> bool
    ensures { result ≡ all_probable (probability_of single) (suc ceiling) }
{
    // A loop, and no `all`: std has no law of what an inclusive range yields, so the goal `returns` stays open.
    for count in 0..=ceiling {
        if !(probability(single, count) <= 2.0) {
            return false;
        }
    }
    true
}
