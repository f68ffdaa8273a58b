// The shelf: a beta-binomial beside the lobe.
// Ported from src/preprocessing/math_helpers.rs of bacpop/sparrowhawk-asm, f1f8af1232, Apache-2.0; ported and changed.
ghost use Rattle.std.specs.Prelude.{◌≡◌, ◌+◌, ◌<◌, true, length, get_or};
ghost use Rattle.std.specs.Float.{inf};
ghost use Rattle.meaning.specs.Over.{over};
ghost use Rattle.helpers.specs.Shelves.{shelf_trials_of, ln_dbetabinom_of, table_start, table_step, table_of, last_of};
ghost use Rattle.helpers.specs.Shelves.{shelf_log_table_of, table_after, mixed, ln_single_copy_of};
ghost use Rattle.helpers.specs.Shelves.{mix_single_copy_of};
ghost use Rattle.helpers.specs.Hoists.{shelf_logs_of, mix_entry_of};
ghost use Rattle.helpers.specs.Mixtures.{mix_at_of};
ghost use Rattle.meaning.specs.Answers.{reply_of};

use crate::lobes::ln_dnbinom;
use crate::log_sums::lse2;
use crate::window_ends::window_end;
use meaning::refusals::Refusal;
use routines::casts::to_u64;
use routines::lgamma::lgamma;
use routines::ln::ln;
use routines::pick::{max, min};
use routines::whole::round;

#[derive(Clone, Copy)]
pub struct Shelf {
    pub share: f64,
    pub alpha: f64,
    pub beta: f64,
}

// The shelf's trials: the single-copy mean, rounded, and 1 at least; 1 for a NaN.
#[tactic(auto, unfolding(crate::specs::Shelves::shelf_trials_of))]
pub fn shelf_trials(mean: f64) -> f64
    ensures { result ≡ shelf_trials_of mean }
{
    max(round(mean), 1.0)
}

// The log of the beta-binomial density over `trials` trials; -inf above them.
#[tactic(auto, unfolding(crate::specs::Shelves::ln_dbetabinom_of))]
pub fn ln_dbetabinom(x: f64, trials: f64, alpha: f64, beta: f64) -> f64
    ensures { result ≡ ln_dbetabinom_of x trials alpha beta }
{
    if x > trials {
        return f64::NEG_INFINITY;
    }
    lgamma(trials + 1.0) - lgamma(x + 1.0) - lgamma(trials - x + 1.0)
        + lgamma(x + alpha)
        + lgamma(trials - x + beta)
        - lgamma(trials + alpha + beta)
        - (lgamma(alpha) + lgamma(beta) - lgamma(alpha + beta))
}

// The table's entry at 0.
#[tactic(auto, unfolding(crate::specs::Shelves::table_start))]
fn table_start(trials: f64, alpha: f64, beta: f64) -> f64
    ensures { result ≡ table_start trials alpha beta }
{
    lgamma(trials + beta) + lgamma(alpha + beta) - lgamma(trials + alpha + beta) - lgamma(beta)
}

// From the entry at x to the one behind it.
#[tactic(auto, unfolding(crate::specs::Shelves::table_step))]
fn table_step(trials: f64, alpha: f64, beta: f64, x: f64) -> f64
    ensures { result ≡ table_step trials alpha beta x }
{
    ln(trials - x) + ln(x + alpha) - ln(x + 1.0) - ln(trials - x - 1.0 + beta)
}

// The number of the table's last entry: min(trials, top).
#[tactic(auto, unfolding(crate::specs::Shelves::last_of))]
fn last_entry(trials: f64, top: u16) -> u16
    ensures { result ≡ last_of trials top }
{
    let n = to_u64(min(trials, top as f64));
    if n <= (top as u64) { n as u16 } else { top }
}

// Entries 0 to `last`, in order; what lies behind stays as it is.
fn write_table(trials: f64, alpha: f64, beta: f64, last: u16, table: &mut [f64])
    requires { last < length table.old }
    ensures { table.new ≡ over (table_of trials alpha beta (last + 1)) table.old }
{
    let mut entry = table_start(trials, alpha, beta);
    for (x, place) in table[..last as usize].iter_mut().enumerate() {
        *place = entry;
        entry = entry + table_step(trials, alpha, beta, x as f64);
    }
    table[last as usize] = entry;
}

// The shelf's log density at counts 0 to min(trials, top), each from the one before; how many entries that is.
pub fn shelf_log_table(
    mean: f64,
    shelf: Shelf,
    top: usize,
    table: &mut [f64],
) -> Result<usize, Refusal>
    ensures result_value { reply_of result ≡ shelf_log_table_of mean top (length table.old) }
    ensures table_after { table.new ≡ table_after mean shelf top table.old }
{
    let end = window_end(top)?;
    let trials = shelf_trials(mean);
    let last = last_entry(trials, end.count);
    if table.len() <= (last as usize) {
        return Err(Refusal::TooShort);
    }
    write_table(trials, shelf.alpha, shelf.beta, last, table);
    Ok((last as usize) + 1)
}

// ln((1 - share) e^lobe + share e^shelf).
pub fn mix_shelf(lobe: f64, s: Shelf, shelf: f64) -> f64
    ensures { result ≡ mixed lobe s shelf }
{
    lse2(ln(1.0 - s.share) + lobe, ln(s.share) + shelf)
}

// The log density of the single-copy component: its lobe, and the shelf where there is one.
#[tactic(auto, unfolding(crate::specs::Shelves::ln_single_copy_of))]
pub fn ln_single_copy(count: f64, mean: f64, dispersion: f64, shelf: Option<Shelf>) -> f64
    ensures { result ≡ ln_single_copy_of count mean dispersion shelf }
{
    let lobe = ln_dnbinom(count, mean, dispersion);
    match shelf {
        None => lobe,
        Some(s) => mix_shelf(
            lobe,
            s,
            ln_dbetabinom(count, shelf_trials(mean), s.alpha, s.beta),
        ),
    }
}

// The table's entry n, and -inf behind its end.
fn entry_of(n: usize, table: &[f64]) -> f64
    ensures { result ≡ get_or table.now n (inf true) }
{
    table.get(n).copied().unwrap_or(f64::NEG_INFINITY)
}

// ln(1 - share) and ln(share), which do not change with the count; 0 and -inf where there is no shelf.
#[derive(Clone, Copy)]
pub struct ShelfLogs {
    pub rest: f64,
    pub share: f64,
}

pub fn shelf_logs(shelf: Option<Shelf>) -> ShelfLogs
    ensures { result ≡ shelf_logs_of shelf }
{
    match shelf {
        None => ShelfLogs {
            rest: 0.0,
            share: f64::NEG_INFINITY,
        },
        Some(s) => ShelfLogs {
            rest: ln(1.0 - s.share),
            share: ln(s.share),
        },
    }
}

// The single-copy log density from its lobe's, with the shelf's logs at hand and the shelf read from entry n of its
// table.
pub(crate) fn mix_nth(
    lobe: f64,
    n: usize,
    shelf: Option<Shelf>,
    logs: ShelfLogs,
    table: &[f64],
) -> f64
    ensures { result ≡ mix_at_of lobe n shelf logs table.now }
{
    match shelf {
        None => lobe,
        Some(_) => {
            let entry = entry_of(n, table);
            lse2(logs.rest + lobe, logs.share + entry)
        }
    }
}

// The same at a count.
#[tactic(auto, unfolding(crate::specs::Shelves::entry_at_of))]
pub fn mix_entry(lobe: f64, count: f64, shelf: Option<Shelf>, logs: ShelfLogs, table: &[f64]) -> f64
    ensures { result ≡ mix_entry_of lobe count shelf logs table.now }
{
    mix_nth(lobe, to_u64(count) as usize, shelf, logs, table)
}

// The single-copy log density from its lobe's, with the shelf read from its table.
pub fn mix_single_copy(lobe: f64, count: f64, shelf: Option<Shelf>, table: &[f64]) -> f64
    ensures { result ≡ mix_single_copy_of lobe count shelf table.now }
{
    mix_entry(lobe, count, shelf, shelf_logs(shelf), table)
}
