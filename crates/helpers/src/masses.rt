// Window masses. A window end is refused by number.
// Ported from src/preprocessing/math_helpers.rs of bacpop/sparrowhawk-asm, f1f8af1232, Apache-2.0; ported and changed.
ghost use Rattle.std.specs.Prelude.{◌≡◌, ◌≤◌, ℕ, Float};
ghost use Rattle.helpers.specs.Masses.{recurrence, poisson_mass_of, binomial_mass_of, log_nb_mass_to, log_nb_mass_of};
ghost use Rattle.helpers.specs.Masses.{shelf_mass_of};
ghost use Rattle.helpers.specs.Masses.{single_copy_mass_to, single_copy_log_mass_of};
ghost use Rattle.meaning.specs.Answers.{reply_of};

use crate::hoists::NEARLY_POISSON;
use crate::lobes::{ln_dnbinom, ln_dpois};
use crate::log_sums::lse2;
use crate::shelves::{Shelf, mix_shelf};
use crate::window_ends::window_end;
use meaning::refusals::Refusal;
use routines::ln::ln;

// ln of a mass on 1 to `top`: each term is the one before plus the log of their ratio.
fn recurrence<R: Fn(u32) -> f64>(ratio: R, first: f64, top: u16) -> f64
    requires { (k : ℕ) → k ≤ top → R.pre ratio k }
    ensures { (f : ℕ → Float) → ((k : ℕ) (log : Float) → k ≤ top → R.post ratio k log → log ≡ f k)
        → result ≡ (recurrence f first top).0 }
{
    let mut total = f64::NEG_INFINITY;
    let mut term = first;
    for count in 1..(top as u32) + 1 {
        total = lse2(total, term);
        term = term + ratio(count);
    }
    total
}

// ln of the Poisson's mass on 1 to `top`: a count's ratio is mean / (count + 1).
#[tactic(auto, unfolding(crate::specs::Masses::poisson_mass_of))]
fn log_poisson_mass(mean: f64, top: u16) -> f64
    ensures { result ≡ poisson_mass_of mean top }
{
    let log_mean = ln(mean);
    let ratio = |count: u32| log_mean - ln((count + 1) as f64);
    recurrence(ratio, ln_dpois(1.0, mean), top)
}

// ln of the negative binomial's mass on 1 to `top`: a count's ratio is (count + r) / (count + 1) q.
#[tactic(auto, unfolding(crate::specs::Masses::binomial_mass_of))]
fn log_binomial_mass(mean: f64, dispersion: f64, top: u16) -> f64
    ensures { result ≡ binomial_mass_of mean dispersion top }
{
    let r = mean / (dispersion - 1.0);
    let log_q = ln(1.0 - 1.0 / dispersion);
    let ratio = |count: u32| ln((count as f64) + r) - ln((count + 1) as f64) + log_q;
    recurrence(ratio, ln_dnbinom(1.0, mean, dispersion), top)
}

// ln of the negative binomial's mass on 1 to `top`, for any top that a u16 holds.
#[tactic(auto, unfolding(crate::specs::Masses::log_nb_mass_to))]
fn log_nb_mass_to(mean: f64, dispersion: f64, top: u16) -> f64
    ensures { result ≡ log_nb_mass_to mean dispersion top }
{
    if dispersion <= NEARLY_POISSON {
        return log_poisson_mass(mean, top);
    }
    log_binomial_mass(mean, dispersion, top)
}

// ln of the negative binomial's mass on 1 to `top`; 2 for a top above 65,535 and 5 for 0.
pub fn log_nb_mass(mean: f64, dispersion: f64, top: usize) -> Result<f64, Refusal>
    ensures { reply_of result ≡ log_nb_mass_of mean dispersion top }
{
    let end = window_end(top)?;
    Ok(log_nb_mass_to(mean, dispersion, end.count))
}

// ln of the shelf's mass on 1 to `top`, as far as its table goes.
pub(crate) fn log_shelf_mass(table: &[f64], top: u16) -> f64
    ensures { result ≡ shelf_mass_of table.now top }
{
    let end = table.len().min((top as usize) + 1);
    let mut total = f64::NEG_INFINITY;
    for &entry in &table[end.min(1)..end] {
        total = lse2(total, entry);
    }
    total
}

// ln of the single-copy component's mass on 1 to `top`, for any top that a u16 holds.
#[tactic(auto, unfolding(crate::specs::Masses::single_copy_mass_to))]
fn single_copy_log_mass_to(
    mean: f64,
    dispersion: f64,
    shelf: Option<Shelf>,
    table: &[f64],
    top: u16,
) -> f64
    ensures { result ≡ single_copy_mass_to mean dispersion shelf table.now top }
{
    let lobe = log_nb_mass_to(mean, dispersion, top);
    match shelf {
        None => lobe,
        Some(s) => mix_shelf(lobe, s, log_shelf_mass(table, top)),
    }
}

// ln of the single-copy component's mass on 1 to `top`; 2 for a top above 65,535 and 5 for 0.
pub fn single_copy_log_mass(
    mean: f64,
    dispersion: f64,
    shelf: Option<Shelf>,
    table: &[f64],
    top: usize,
) -> Result<f64, Refusal>
    ensures { reply_of result ≡ single_copy_log_mass_of mean dispersion shelf table.now top }
{
    let end = window_end(top)?;
    Ok(single_copy_log_mass_to(mean, dispersion, shelf, table, end.count))
}
