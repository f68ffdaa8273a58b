// The error component.
// Ported from src/preprocessing/models.rs of bacpop/sparrowhawk-asm, f1f8af1232, Apache-2.0; ported and changed.
ghost use Rattle.std.specs.Prelude.{◌≡◌};
ghost use Rattle.models.specs.Errors.{factor_of, survival_of, ln_tail_of, log_probability_of, log_window_mass_to};
ghost use Rattle.models.specs.Errors.{log_window_mass_of};
ghost use Rattle.models.specs.Hoists.{survival_with, log_probability_between, window_mass_with};
ghost use Rattle.meaning.specs.Answers.{reply_of};

use helpers::log_sums::ln_sub_exp;
use helpers::window_ends::window_end;
use meaning::refusals::Refusal;
use routines::expm1::expm1;
use routines::ln::ln;

// Count 1 has the probability `singleton_probability`; from 2 on the tail has survival exp(-l ((x-1)^b - 1)/b), with l
// the tail exponent and b the shape, and (x-1)^-l without a shape.
#[derive(Clone, Copy)]
pub struct ErrorParams {
    pub singleton_probability: f64,
    pub tail_exponent: f64,
    pub weibull_shape: Option<f64>,
}

// (e^v - 1) / v for v = shape * offset; 1 at v = 0 and without a shape.
fn factor(shape: Option<f64>, offset: f64) -> f64
    ensures { result ≡ factor_of shape offset }
{
    let Some(beta) = shape else {
        return 1.0;
    };
    let value = beta * offset;
    if value == 0.0 {
        return 1.0;
    }
    expm1(value) / value
}

impl ErrorParams {
    // ln of the probability that an error k-mer of count 2 or more reaches a count, from ln(count - 1).
    #[tactic(auto, unfolding(crate::specs::Hoists::survival_with))]
    pub fn survival_with(self, log_offset: f64) -> f64
        ensures { result ≡ survival_with self log_offset }
    {
        let shape = self.weibull_shape;
        -self.tail_exponent * log_offset * factor(shape, log_offset)
    }

    // ln of the probability that an error k-mer of count 2 or more reaches `count`.
    #[tactic(auto, unfolding(crate::specs::Errors::survival_of, crate::specs::Hoists::survival_with))]
    pub fn log_survival_from_two(self, count: f64) -> f64
        ensures { result ≡ survival_of self count }
    {
        self.survival_with(ln(count - 1.0))
    }

    // ln of the probability of count 2 or more.
    pub(crate) fn ln_tail(self) -> f64
        ensures { result ≡ ln_tail_of self }
    {
        ln(1.0 - self.singleton_probability)
    }

    // ln of the probability of `count`, with the tail's log and the log survivals of `count` and of the next at hand.
    #[tactic(auto, unfolding(crate::specs::Hoists::log_probability_between))]
    pub(crate) fn log_probability_between(
        self,
        ln_tail: f64,
        count: f64,
        here: f64,
        next: f64,
    ) -> f64
        ensures { result ≡ log_probability_between self ln_tail count here next }
    {
        if count == 1.0 {
            return ln(self.singleton_probability);
        }
        ln_tail + ln_sub_exp(here, next)
    }

    // ln of the probability of `count`.
    #[tactic(auto, unfolding(crate::specs::Errors::log_probability_of))]
    pub fn log_probability(self, count: f64) -> f64
        ensures { result ≡ log_probability_of self count }
    {
        if count == 1.0 {
            return ln(self.singleton_probability);
        }
        self.ln_tail()
            + ln_sub_exp(
                self.log_survival_from_two(count),
                self.log_survival_from_two(count + 1.0),
            )
    }

    // ln of the mass on 1 to a window end, with the tail's log and the window end's log at hand.
    #[tactic(auto, unfolding(crate::specs::Hoists::window_mass_with))]
    pub(crate) fn window_mass_with(self, ln_tail: f64, log: f64) -> f64
        ensures { result ≡ window_mass_with self ln_tail log }
    {
        let log_beyond = ln_tail + self.survival_with(log);
        ln(-expm1(log_beyond))
    }

    // ln of the mass on 1 to `top`, for any top that a u16 holds: with the 1 added and taken off, as the Rust has it.
    #[tactic(auto, unfolding(crate::specs::Errors::log_window_mass_to))]
    pub(crate) fn log_window_mass_to(self, top: u16) -> f64
        ensures { result ≡ log_window_mass_to self top }
    {
        let log_beyond = self.ln_tail() + self.log_survival_from_two((top as f64) + 1.0);
        ln(-expm1(log_beyond))
    }

    // ln of the mass on 1 to `top`; 2 for a top above 65,535 and 5 for 0.
    pub fn log_window_mass(self, top: usize) -> Result<f64, Refusal>
        ensures { reply_of result ≡ log_window_mass_of self top }
    {
        let end = window_end(top)?;
        Ok(self.log_window_mass_to(end.count()))
    }
}
