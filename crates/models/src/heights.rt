// How high each component of a fit stands at a count.
// Ported from src/preprocessing/models.rs of bacpop/sparrowhawk-asm, f1f8af1232, Apache-2.0; ported and changed.
ghost use Rattle.std.specs.Prelude.{◌≡◌, length};
ghost use Rattle.meaning.specs.Lent.{laid, counted};
ghost use Rattle.models.specs.Heights.{heights_at, component_heights_of, heights_to_of};
ghost use Rattle.meaning.specs.Answers.{reply_of};

use crate::fit::SpectrumFit;
use crate::height_rows::write_heights;
use crate::height_terms::{Heights, height_terms, heights_of};
use meaning::limits::MOST;
use meaning::refusals::Refusal;

// At any count, a mode of 2^64 included.
pub(crate) fn heights_at(fit: SpectrumFit, count: f64) -> Heights
    ensures { result ≡ heights_at fit count }
{
    heights_of(height_terms(fit), count)
}

// At a count up to 65,535; 2 above.
pub fn component_heights(fit: SpectrumFit, count: usize) -> Result<Heights, Refusal>
    ensures { reply_of result ≡ component_heights_of fit count }
{
    if count > MOST {
        return Err(Refusal::TooLarge);
    }
    Ok(heights_at(fit, (count as u16) as f64))
}

// At the counts 1 to `last`, three numbers for each, into the front of `out`; how many numbers that is. 2 for a last
// count above 65,535, 10 where `out` is too short.
pub fn component_heights_to(
    fit: SpectrumFit,
    last: usize,
    out: &mut [f64],
) -> Result<usize, Refusal>
    ensures result_value { reply_of result ≡ counted (heights_to_of fit last (length out.old)) }
    ensures out_after { out.new ≡ laid (heights_to_of fit last (length out.old)) out.old }
{
    if last > MOST {
        return Err(Refusal::TooLarge);
    }
    let items = 3 * last;
    if out.len() < items {
        return Err(Refusal::TooShort);
    }
    write_heights(height_terms(fit), last as u16, out);
    Ok(items)
}
