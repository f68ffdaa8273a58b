// The heights at one count after another: the log survival of the next count, and the logarithm in lgamma(count + 1),
// are the next count's own.
ghost use Rattle.std.specs.Prelude.{◌≡◌, ℕ, ◌*◌, ◌≤◌, length};
ghost use Rattle.meaning.specs.Over.{over};
ghost use Rattle.models.specs.Heights.{height_rows};
ghost use Rattle.models.specs.HeightTerms.{heights_of};
ghost use Rattle.routines.specs.Ops.{of_count};

use crate::height_terms::{HeightTerms, heights_from};
use routines::hoists::lgamma_with;
use routines::ln::ln;

// Those at the counts 1 to `last`; what lies behind stays as it is. Written by index: a proof knows nothing of what was
// written through an iterator of chunks.
pub(crate) fn write_heights(t: HeightTerms, last: u16, out: &mut [f64])
    requires { 3 * last ≤ length out.old }
    ensures { out.new ≡ over (height_rows (λ (k : ℕ). heights_of t (of_count k)) last) out.old }
{
    let p = t.error_params;
    let mut log = ln(1.0);
    let mut here = p.log_survival_from_two(1.0);
    for i in 0..last {
        let at = 3 * (i as usize);
        let count = (i as u32) + 1;
        let after = ln((count + 1) as f64);
        let next = p.survival_with(log);
        let gamma = lgamma_with((count + 1) as f64, after);
        let h = heights_from(t, count as f64, here, next, gamma);
        out[at] = h.error;
        out[at + 1] = h.single;
        out[at + 2] = h.repeat;
        log = after;
        here = next;
    }
}
