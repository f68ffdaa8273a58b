// How far the spectrum lies from a fit.
// Ported from src/preprocessing/models.rs of bacpop/sparrowhawk-asm, f1f8af1232, Apache-2.0; ported and changed.
ghost use Rattle.std.specs.Prelude.{◌≡◌, ◌+◌, ◌<◌};
ghost use Rattle.models.specs.Deviances.{expected_of, deviance_term, deviance_of};
ghost use Rattle.models.specs.HeightTerms.{heights_of, ready_of};
ghost use Rattle.models.specs.Spectra.{seen_term};
ghost use Rattle.routines.specs.Ops.{of_count};

use crate::errors::ErrorParams;
use crate::fit::SpectrumFit;
use crate::height_terms::{HeightTerms, Heights, height_terms, heights_from};
use crate::spectra::recovered_at;
use routines::hoists::lgamma_with;
use routines::ln::ln;

// What a count leaves ready for the next one: that count, its logarithm and its log survival. The likelihood's comes
// from prepared slices, so that it is another.
#[derive(Clone, Copy)]
struct Ready {
    count: u32,
    log: f64,
    survival: f64,
}

// The sum so far, and what it leaves ready.
#[derive(Clone, Copy)]
struct Reached {
    total: f64,
    ready: Ready,
}

fn ready_of(p: ErrorParams, count: u32) -> Ready
    ensures { result ≡ ready_of p count }
{
    Ready {
        count,
        log: ln(count as f64),
        survival: p.log_survival_from_two(count as f64),
    }
}

// What stands ready for a count, worked out only where it does not: behind an empty bin.
fn ready_at(ready: Ready, p: ErrorParams, count: u32) -> Ready
    requires { ready ≡ ready_of p ready.count }
    ensures { result ≡ ready_of p count }
{
    if ready.count == count {
        return ready;
    }
    ready_of(p, count)
}

// What the fit expects of the sample at a count: the heights are the library's.
#[tactic(auto, unfolding(crate::specs::Deviances::expected_of))]
fn expected_of(h: Heights, scale: f64) -> f64
    ensures { result ≡ expected_of h scale }
{
    (-0.0 + h.error + h.single + h.repeat) / scale
}

fn deviance_term(observed: f64, expected: f64) -> f64
    ensures { result ≡ deviance_term observed expected }
{
    if expected > 0.0 {
        return 2.0 * observed * ln(observed / expected);
    }
    f64::INFINITY
}

// Nothing is worked out for an empty bin.
fn add_deviance(reached: Reached, n: u32, t: HeightTerms, i: u16, scale: f64) -> Reached
    requires ready_value { reached.ready ≡ ready_of t.error_params reached.ready.count }
    requires i_bound { i < 65535 }
    ensures total_value { result.total
        ≡ seen_term n reached.total (deviance_term (of_count n) (expected_of (heights_of t (of_count (i + 1))) scale)) }
    ensures ready_value_2 { result.ready ≡ ready_of t.error_params result.ready.count }
{
    if n == 0 {
        return reached;
    }
    let p = t.error_params;
    let count = (i as u32) + 1;
    let here = ready_at(reached.ready, p, count);
    let log = ln((count + 1) as f64);
    let next = p.survival_with(here.log);
    let gamma = lgamma_with((count + 1) as f64, log);
    let h = heights_from(t, count as f64, here.survival, next, gamma);
    Reached {
        total: reached.total + deviance_term(n as f64, expected_of(h, scale)),
        ready: Ready {
            count: count + 1,
            log,
            survival: next,
        },
    }
}

// 2 times the sum of observed ln(observed / expected) over the window, in the sample's units.
pub(crate) fn conditional_deviance(bins: &[u32], scale: f64, top: u16, fit: SpectrumFit) -> f64
    ensures { result ≡ deviance_of bins.now scale top fit }
{
    let t = height_terms(fit);
    let mut reached = Reached {
        total: -0.0,
        ready: ready_of(t.error_params, 1),
    };
    // By number, and not over the bins: a window may end behind them, and `over_observed` counts on there.
    for i in 0..top {
        let n = recovered_at(bins, scale, i as usize);
        reached = add_deviance(reached, n, t, i, scale);
    }
    reached.total
}
