// The shelf share that a search starts from, read off the histogram.
// Ported from src/preprocessing/spectrum_fitter.rs of bacpop/sparrowhawk-asm, f1f8af1232, Apache-2.0; ported and
// changed.
ghost use Rattle.std.specs.Prelude.{◌≡◌, ◌≤◌};
ghost use Rattle.meaning.specs.Rows.{most};
ghost use Rattle.fitter.specs.Recovering.{recovered};
ghost use Rattle.fitter.specs.Shares.{mass_of, share_of, shelf_share_of};
ghost use Rattle.meaning.specs.Answers.{reply_of};

use meaning::limits::MOST;
use meaning::refusals::Refusal;
use models::recovery::{rounded_quotient, used_scale};

// The recovered k-mers at counts `from` to `to`, as far as the bins go.
fn mass(bins: &[u32], used: f64, from: usize, to: usize) -> f64
    requires { 1 ≤ from }
    ensures { result ≡ mass_of (recovered used bins.now) from to }
{
    let end = to.min(bins.len());
    let start = (from - 1).min(end);
    let mut total = -0.0;
    for bin in &bins[start..end] {
        total += f64::from(rounded_quotient(*bin, used));
    }
    total
}

// Between the valley and half the peak the lobe is thin: what lies there is the shelf's lower half. It is doubled, and
// taken over all up to twice the peak.
fn share(bins: &[u32], used: f64, valley: usize, peak: usize) -> f64
    requires { (1 ≤ valley) × (peak ≤ most) }
    ensures { result ≡ share_of (recovered used bins.now) valley peak }
{
    let lobe = mass(bins, used, valley, 2 * peak);
    if lobe <= 0.0 {
        return 0.05;
    }
    let doubled = 2.0 * mass(bins, used, valley, peak / 2);
    (doubled / lobe).clamp(0.01, 0.4)
}

// The starting shelf share over the recovered bins, 0.05 for an empty lobe; 1 where the valley, the peak or the number
// of bins is below 2, and 2 where one is above 65,535.
#[tactic(auto, unfolding(crate::specs::Shares::shelf_share_of))]
pub fn empirical_shelf_share(
    bins: &[u32],
    scale: f64,
    valley: usize,
    peak: usize,
) -> Result<f64, Refusal>
    ensures { reply_of result ≡ shelf_share_of bins.now scale valley peak }
{
    if valley < 2 || peak < 2 || bins.len() < 2 {
        return Err(Refusal::TooSmall);
    }
    if valley > MOST || peak > MOST || bins.len() > MOST {
        return Err(Refusal::TooLarge);
    }
    Ok(share(bins, used_scale(scale), valley, peak))
}
