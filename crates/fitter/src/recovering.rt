// The bins as the sample had them, into lent memory.
// Ported from src/preprocessing/spectrum_fitter.rs of bacpop/sparrowhawk-asm, f1f8af1232, Apache-2.0; ported and
// changed.
ghost use Rattle.std.specs.Prelude.{◌≡◌, ◌≤◌, length};
ghost use Rattle.meaning.specs.Lent.{laid, counted};
ghost use Rattle.meaning.specs.Over.{over};
ghost use Rattle.fitter.specs.Recovering.{recovered, recover_bins_of};
ghost use Rattle.meaning.specs.Answers.{reply_of};

use meaning::limits::MOST;
use meaning::refusals::Refusal;
use models::recovery::{rounded_quotient, used_scale};

// Each bin over the scale in use; what lies behind stays as it is.
fn write_bins(bins: &[u32], used: f64, out: &mut [u32])
    requires { length bins.now ≤ length out.old }
    ensures { out.new ≡ over (recovered used bins.now) out.old }
{
    // out[i] and no zip with iter_mut: a proof knows nothing of what was written through it.
    for (i, bin) in bins.iter().enumerate() {
        out[i] = rounded_quotient(*bin, used);
    }
}

// The recovered bins into the first of the lent ones, and how many they are; 1 for fewer than 2 bins, 2 for more than
// 65,535, 10 where the lent ones are too few. A refusal writes nothing, and what lies past the last bin stands as
// found.
#[tactic(auto, unfolding(crate::specs::Recovering::recover_bins_of))]
pub fn recover_bins(bins: &[u32], scale: f64, out: &mut [u32]) -> Result<usize, Refusal>
    ensures result_value { reply_of result ≡ counted (recover_bins_of bins.now scale (length out.old)) }
    ensures out_after { out.new
        ≡ laid (recover_bins_of bins.now scale (length out.old)) out.old }
{
    if bins.len() < 2 {
        return Err(Refusal::TooSmall);
    }
    if bins.len() > MOST {
        return Err(Refusal::TooLarge);
    }
    if out.len() < bins.len() {
        return Err(Refusal::TooShort);
    }
    write_bins(bins, used_scale(scale), out);
    Ok(bins.len())
}
