// What a shelf may be.
// Ported from src/preprocessing/models.rs of bacpop/sparrowhawk-asm, f1f8af1232, Apache-2.0; ported and changed.
ghost use Rattle.std.specs.Prelude.{◌≡◌};
ghost use Rattle.models.specs.ShelfRules.{retained_of, concentration_of, bounds_of, shelf_of, shelf_is_valid_of};

use helpers::shelves::Shelf;
use routines::pick::is_finite;

// The shelf's largest share of the single-copy k-mers: with more it could swallow the lobe.
pub const SHELF_MAX_SHARE: f64 = 0.5;

// The least fraction of coverage that its k-mers keep on average: with less it came to lie on the error tail, at counts
// 0 and 1.
pub const SHELF_MIN_RETAINED: f64 = 0.3;

// The largest a + b: with more the shelf is a spike.
pub const SHELF_MAX_CONCENTRATION: f64 = 20.0;

// Rounding in a / (a + b) may land a hair outside a bound that the map itself keeps.
const SLACK: f64 = 1e-9;

// The mean fraction of coverage that the shelf's k-mers keep.
#[tactic(auto, unfolding(crate::specs::ShelfRules::retained_of))]
pub fn retained(s: Shelf) -> f64
    ensures { result ≡ retained_of s }
{
    s.alpha / (s.alpha + s.beta)
}

// How narrow the shelf is: the variance of the retained fraction m is m (1 - m) / (a + b + 1).
#[tactic(auto, unfolding(crate::specs::ShelfRules::concentration_of))]
pub fn concentration(s: Shelf) -> f64
    ensures { result ≡ concentration_of s }
{
    s.alpha + s.beta
}

#[derive(Clone, Copy)]
pub struct Bounds {
    pub low: f64,
    pub high: f64,
}

// The bounds on a + b for a retained fraction. The lower one is a >= 1: with less the density has no bound at count 0,
// and the mass at counts 1 and 2 pulled the cutoff down.
pub fn shelf_concentration_bounds(retained: f64) -> Bounds
    ensures { result ≡ bounds_of retained }
{
    Bounds {
        low: 1.0 / retained,
        high: SHELF_MAX_CONCENTRATION,
    }
}

// From the fit's own coordinates: a = retained * a+b, b = (1 - retained) * a+b.
pub(crate) fn from_retained(share: f64, retained: f64, concentration: f64) -> Shelf
    ensures { result ≡ shelf_of share retained concentration }
{
    Shelf {
        share,
        alpha: retained * concentration,
        beta: (1.0 - retained) * concentration,
    }
}

// A share inside (0, 0.5), and finite shapes with a >= 1 within the bounds.
pub fn shelf_is_valid(s: Shelf) -> bool
    ensures { result ≡ shelf_is_valid_of s }
{
    s.share > 0.0
        && s.share < SHELF_MAX_SHARE
        && is_finite(s.alpha)
        && s.alpha >= 1.0 - SLACK
        && is_finite(s.beta)
        && s.beta > 0.0
        && retained(s) >= SHELF_MIN_RETAINED - SLACK
        && concentration(s) <= SHELF_MAX_CONCENTRATION + SLACK
}
