// A slice in which ln n and lgamma(n + 1) may stand ready, at 2 n and behind it: for speed alone. What is not there is
// worked out. proofs/Ready.antt shows that a slice filled so changes no number.
ghost use Rattle.std.specs.Prelude.{◌≡◌, ◌+◌};
ghost use Rattle.helpers.specs.Prepared.{ln_at, gamma_with};

use routines::hoists::lgamma_with;
use routines::ln::ln;

// ln n.
#[tactic(auto, unfolding(crate::specs::Prepared::ln_at))]
pub(crate) fn log_at(ready: &[f64], n: u32) -> f64
    ensures { result ≡ ln_at ready.now n }
{
    let i = 2 * (n as usize);
    if i < ready.len() {
        ready[i]
    } else {
        ln(n as f64)
    }
}

// ln of a count.
pub fn ln_at(ready: &[f64], count: u16) -> f64
    ensures { result ≡ ln_at ready.now count }
{
    log_at(ready, count as u32)
}

// ln of the next count, which may be 65,536.
pub fn ln_next(ready: &[f64], count: u16) -> f64
    ensures { result ≡ ln_at ready.now (count + 1) }
{
    log_at(ready, (count as u32) + 1)
}

// lgamma(n + 1) of a count n, with `log` for ln(n + 1).
#[tactic(auto, unfolding(crate::specs::Prepared::gamma_with))]
pub fn gamma_at(ready: &[f64], n: u16, log: f64) -> f64
    ensures { result ≡ gamma_with ready.now n log }
{
    let i = 2 * (n as usize) + 1;
    if i < ready.len() {
        ready[i]
    } else {
        lgamma_with((n as f64) + 1.0, log)
    }
}
