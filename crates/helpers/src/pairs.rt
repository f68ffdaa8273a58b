// Two lobes of one dispersion, and their window masses in one loop: for speed alone. proofs/Ready.antt shows each
// equal to the plain form.
// Ported from src/preprocessing/math_helpers.rs of bacpop/sparrowhawk-asm, f1f8af1232, Apache-2.0; ported and changed.
ghost use Rattle.std.specs.Prelude.{◌≡◌};
ghost use Rattle.helpers.specs.Kept.{kept_after};
ghost use Rattle.helpers.specs.Pairs.{lobes_of, ratio_with, lobe_masses_of};

use crate::hoists::{Lobe, NEARLY_POISSON, binomial_lobe, density, poisson_lobe};
use crate::kept::{growth_of, keep};
use crate::log_sums::lse2;
use crate::prepared::log_at;
use crate::window_ends::WindowEnd;
use routines::ln::ln;

#[derive(Clone, Copy)]
pub struct Lobes {
    pub first: Lobe,
    pub second: Lobe,
}

// The lobes with these means and one dispersion: its two logs are worked out once.
#[tactic(auto, unfolding(crate::specs::Hoists::lobe_of))]
pub fn lobes_of(mean: f64, other: f64, dispersion: f64) -> Lobes
    ensures { result ≡ lobes_of mean other dispersion }
{
    if dispersion <= NEARLY_POISSON {
        return Lobes {
            first: poisson_lobe(mean),
            second: poisson_lobe(other),
        };
    }
    let log_p = -ln(dispersion);
    let log_q = ln(1.0 - 1.0 / dispersion);
    Lobes {
        first: binomial_lobe(mean, dispersion, log_p, log_q),
        second: binomial_lobe(other, dispersion, log_p, log_q),
    }
}

// From a count's term to the next one's, with the growth at the count and `log` for ln(count + 1).
#[tactic(auto, unfolding(crate::specs::Pairs::ratio_with))]
fn ratio_with(lobe: Lobe, growth: f64, log: f64) -> f64
    ensures { result ≡ ratio_with lobe growth log }
{
    if lobe.poisson {
        return growth - log;
    }
    growth - log + lobe.slope
}

#[derive(Clone, Copy)]
pub struct LobeMasses {
    pub first: f64,
    pub second: f64,
}

// ln of each lobe's mass on 1 to `top`. The growths on the way are left in `kept`.
fn lobe_masses_to(
    first: Lobe,
    second: Lobe,
    ready: &[f64],
    kept: &mut [f64],
    top: u16,
) -> LobeMasses
    ensures value { result ≡ lobe_masses_of first second ready.now top }
    ensures kept_after { kept.new ≡ kept_after first second top kept.old }
{
    let mut total = f64::NEG_INFINITY;
    let mut term = density(first, 1.0);
    let mut other_total = f64::NEG_INFINITY;
    let mut other_term = density(second, 1.0);
    for count in 1..(top as u32) + 1 {
        let log = log_at(ready, count + 1);
        let growth = growth_of(first, count as f64);
        let other_growth = growth_of(second, count as f64);
        keep(kept, 2 * (count as usize), growth);
        keep(kept, 2 * (count as usize) + 1, other_growth);
        total = lse2(total, term);
        other_total = lse2(other_total, other_term);
        term = term + ratio_with(first, growth, log);
        other_term = other_term + ratio_with(second, other_growth, log);
    }
    LobeMasses {
        first: total,
        second: other_total,
    }
}

// ln of each lobe's mass on 1 to the window end. The growths on the way are left in `kept`.
pub fn lobe_masses(
    first: Lobe,
    second: Lobe,
    ready: &[f64],
    kept: &mut [f64],
    end: WindowEnd,
) -> LobeMasses
    ensures value { result ≡ lobe_masses_of first second ready.now end.count }
    ensures kept_after { kept.new ≡ kept_after first second end.count kept.old }
{
    lobe_masses_to(first, second, ready, kept, end.count)
}
