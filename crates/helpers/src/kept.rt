// A slice in which the masses' loop leaves ln(n + r) of two lobes for the density at n, at 2 n and behind it: for speed
// alone. What does not fit in is worked out again. proofs/Growths.antt shows that a slice filled so changes no number.
ghost use Rattle.std.specs.Prelude.{◌≡◌, set};
ghost use Rattle.helpers.specs.Kept.{growth_of, density_from, density_at};

use crate::hoists::{Lobe, density_with};
use routines::hoists::lgamma_with;
use routines::ln::ln;

// ln(count + r), which the step to the next term and the density have in common; a Poisson's rate.
#[tactic(auto, unfolding(crate::specs::Kept::growth_of))]
pub fn growth_of(lobe: Lobe, count: f64) -> f64
    ensures { result ≡ growth_of lobe count }
{
    if lobe.poisson {
        return lobe.rate;
    }
    ln(count + lobe.size)
}

// A number into its place, where the slice is long enough.
pub(crate) fn keep(kept: &mut [f64], i: usize, growth: f64)
    ensures { kept.new ≡ set kept.old i growth }
{
    if i < kept.len() {
        kept[i] = growth;
    }
}

// The log density of a lobe at x, with lgamma(x + 1) and the growth at hand.
#[tactic(auto, unfolding(crate::specs::Kept::density_from))]
fn density_from(lobe: Lobe, x: f64, gamma: f64, growth: f64) -> f64
    ensures { result ≡ density_from lobe x gamma growth }
{
    if lobe.poisson {
        return x * lobe.rate - gamma - lobe.mean;
    }
    lgamma_with(x + lobe.size, growth) - gamma - lobe.gamma + lobe.start + x * lobe.slope
}

// The same, with the growth read from its place where it stands there.
#[tactic(auto, unfolding(crate::specs::Kept::growth_at))]
pub fn density_at(lobe: Lobe, x: f64, gamma: f64, kept: &[f64], i: usize) -> f64
    ensures { result ≡ density_at lobe x gamma kept.now i }
{
    if i < kept.len() {
        return density_from(lobe, x, gamma, kept[i]);
    }
    density_with(lobe, x, gamma)
}
