// A slice with ln n and lgamma(n + 1), filled once for all costs of a window: for speed alone.
ghost use Rattle.std.specs.Prelude.{◌≡◌, ◌*◌, ◌≤◌, length};
ghost use Rattle.meaning.specs.Lent.{laid, counted};
ghost use Rattle.meaning.specs.Over.{over};
ghost use Rattle.models.specs.Prepared.{ready_rows, prepare_of};
ghost use Rattle.meaning.specs.Answers.{reply_of};

use helpers::window_ends;
use meaning::refusals::Refusal;
use routines::lgamma::lgamma;
use routines::ln::ln;

// ln n and lgamma(n + 1) for n below `rows`; what lies behind stays as it is. Written by index: a proof knows nothing
// of what was written through an iterator of chunks.
fn write_rows(rows: u32, out: &mut [f64])
    requires { 2 * rows ≤ length out.old }
    ensures { out.new ≡ over (ready_rows rows) out.old }
{
    for n in 0..rows {
        let x = n as f64;
        let i = 2 * (n as usize);
        out[i] = ln(x);
        out[i + 1] = lgamma(x + 1.0);
    }
}

// Fills the front of a slice for the window: ln n and lgamma(n + 1) for n from 0 to the window end and one beyond, and
// answers how many entries that is; 2, 5 or 10 instead.
pub fn prepare_window(window_end: usize, out: &mut [f64]) -> Result<usize, Refusal>
    ensures result_value { reply_of result ≡ counted (prepare_of window_end (length out.old)) }
    ensures out_after { out.new ≡ laid (prepare_of window_end (length out.old)) out.old }
{
    let end = window_ends::window_end(window_end)?;
    let rows = u32::from(end.count()) + 2;
    let items = 2 * (rows as usize);
    if out.len() < items {
        return Err(Refusal::TooShort);
    }
    write_rows(rows, out);
    Ok(items)
}
