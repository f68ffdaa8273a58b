// What does not change with the count, worked out once: for speed alone. proofs/Densities.antt shows each equal to the
// plain form.
// Ported from src/preprocessing/math_helpers.rs of bacpop/sparrowhawk-asm, f1f8af1232, Apache-2.0; ported and changed.
ghost use Rattle.std.specs.Prelude.{◌≡◌};
ghost use Rattle.helpers.specs.Hoists.{poisson_of, binomial_with, lobe_of, density_of, density_with};

use routines::lgamma::lgamma;
use routines::ln::ln;

// From this dispersion down the negative binomial is taken as a Poisson.
pub const NEARLY_POISSON: f64 = 1.0 + 1e-9;

// What a negative binomial's density has in common at every count: ln(mean); r, its log-gamma, r ln(p); ln(1-p).
// As a Poisson it reads the mean and its log alone. It is no enum: specs/Hoists.antt and probe's C interface have all
// of the fields in either kind.
#[derive(Clone, Copy)]
pub struct Lobe {
    pub poisson: bool,
    pub mean: f64,
    pub rate: f64,
    pub size: f64,
    pub gamma: f64,
    pub start: f64,
    pub slope: f64,
}

// The lobe as a Poisson.
pub(crate) fn poisson_lobe(mean: f64) -> Lobe
    ensures { result ≡ poisson_of mean }
{
    Lobe {
        poisson: true,
        mean,
        rate: ln(mean),
        size: 0.0,
        gamma: 0.0,
        start: 0.0,
        slope: 0.0,
    }
}

// The lobe as a negative binomial, with ln(p) and ln(1-p) at hand.
pub(crate) fn binomial_lobe(mean: f64, dispersion: f64, log_p: f64, log_q: f64) -> Lobe
    ensures { result ≡ binomial_with mean dispersion log_p log_q }
{
    let r = mean / (dispersion - 1.0);
    Lobe {
        poisson: false,
        mean,
        rate: 0.0,
        size: r,
        gamma: lgamma(r),
        start: r * log_p,
        slope: log_q,
    }
}

// The lobe with this mean and variance `dispersion` * mean: r = mean / (dispersion - 1), p = 1 / dispersion.
#[tactic(auto, unfolding(crate::specs::Hoists::lobe_of))]
pub fn lobe_of(mean: f64, dispersion: f64) -> Lobe
    ensures { result ≡ lobe_of mean dispersion }
{
    if dispersion <= NEARLY_POISSON {
        return poisson_lobe(mean);
    }
    binomial_lobe(
        mean,
        dispersion,
        -ln(dispersion),
        ln(1.0 - 1.0 / dispersion),
    )
}

// The log density of a lobe at x, with lgamma(x + 1) at hand: it is the same for every lobe.
#[tactic(auto, unfolding(crate::specs::Hoists::density_with))]
pub fn density_with(lobe: Lobe, x: f64, gamma: f64) -> f64
    ensures { result ≡ density_with lobe x gamma }
{
    if lobe.poisson {
        return x * lobe.rate - gamma - lobe.mean;
    }
    lgamma(x + lobe.size) - gamma - lobe.gamma + lobe.start + x * lobe.slope
}

// The log density of a lobe at x.
pub fn density(lobe: Lobe, x: f64) -> f64
    ensures { result ≡ density_of lobe x }
{
    density_with(lobe, x, lgamma(x + 1.0))
}
