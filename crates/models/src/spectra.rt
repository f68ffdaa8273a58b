// The spectrum as the sample had it: its recovered bins and its totals, made from the bins and the scale.
// Ported from src/preprocessing/spectrum_fitter.rs of bacpop/sparrowhawk-asm, f1f8af1232, Apache-2.0; ported and
// changed.
ghost use Rattle.std.specs.Prelude.{◌≡◌, get_or};
ghost use Rattle.routines.specs.Ops.{of_count};
ghost use Rattle.models.specs.Spectra.{recovered_at, seen_term, observed_total_of, full_total_of, window_of};
ghost use Rattle.models.specs.Spectra.{all_zero_of};
ghost use Rattle.models.specs.Spectra.{none_recovered_of};

use crate::recovery::{rounded_quotient, used_scale};

// A window of a spectrum: the scale in use, the window end, and the totals.
#[derive(Clone, Copy)]
pub(crate) struct Window {
    pub scale: f64,
    pub end: u16,
    // The recovered k-mers at counts 1 to `end`.
    pub observed: f64,
    // The k-mers of all bins, as they are.
    pub full: f64,
}

// Bin i, and 0 behind the bins.
fn bin_at(bins: &[u32], i: usize) -> u32
    ensures { result ≡ get_or bins.now i 0 }
{
    bins.get(i).copied().unwrap_or(0)
}

// Bin i over the scale.
#[tactic(auto, unfolding(crate::specs::Spectra::recovered_at))]
pub(crate) fn recovered_at(bins: &[u32], scale: f64, i: usize) -> u32
    ensures { result ≡ recovered_at bins.now scale i }
{
    rounded_quotient(bin_at(bins, i), scale)
}

// A sum is taken over the bins that are not empty.
#[tactic(auto, unfolding(crate::specs::Spectra::seen_term))]
fn add_seen(total: f64, n: u32) -> f64
    ensures { result ≡ seen_term n total (of_count n) }
{
    if n == 0 {
        return total;
    }
    total + (n as f64)
}

// The recovered k-mers at counts 1 to `top`.
fn observed_total(bins: &[u32], scale: f64, top: u16) -> f64
    ensures { result ≡ observed_total_of bins.now scale top }
{
    let mut total = -0.0;
    // By number, and not over the bins: a window may end behind them, and `over_observed` counts on there.
    for i in 0..top {
        total = add_seen(total, recovered_at(bins, scale, i as usize));
    }
    total
}

// The k-mers of all bins, as they are.
fn full_total(bins: &[u32]) -> f64
    ensures { result ≡ full_total_of bins.now }
{
    let mut total = -0.0;
    for &n in bins {
        total += n as f64;
    }
    total
}

// The window of any bins, whatever the scale.
pub(crate) fn window_of(bins: &[u32], scale: f64, end: u16) -> Window
    ensures { result ≡ window_of bins.now scale end }
{
    let used = used_scale(scale);
    Window {
        scale: used,
        end,
        observed: observed_total(bins, used, end),
        full: full_total(bins),
    }
}

pub(crate) fn all_zero(bins: &[u32]) -> bool
    ensures { result ≡ all_zero_of bins.now }
{
    bins.iter().all(|&n| n == 0)
}

// Whether every recovered bin at counts 1 to `top` is zero.
pub(crate) fn none_recovered(bins: &[u32], scale: f64, top: usize) -> bool
    ensures { result ≡ none_recovered_of bins.now scale top }
{
    (0..top).all(|i| recovered_at(bins, scale, i) == 0)
}
