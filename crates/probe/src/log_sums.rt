// Log sums and their kin.
ghost use Rattle.std.specs.Prelude.{◌≡◌};
ghost use Rattle.helpers.specs.LogSums.{lse2_of, lse3_of, softmax3_of, ln_sub_exp_of, sigmoid_of};
ghost use Rattle.probe.specs.Flat.{of_logs3};

use helpers::log_sums::{ln_softmax3, ln_sub_exp, lse2, lse3, sigmoid};

#[repr(C)]
#[derive(Clone, Copy)]
pub struct FlatLogs3 {
    pub first: f64,
    pub second: f64,
    pub third: f64,
}

pub fn fog_lse2(a: f64, b: f64) -> f64
    ensures { result ≡ lse2_of a b }
{
    lse2(a, b)
}

pub fn fog_lse3(a: f64, b: f64, c: f64) -> f64
    ensures { result ≡ lse3_of a b c }
{
    lse3(a, b, c)
}

pub fn fog_ln_softmax3(a: f64, b: f64, c: f64) -> FlatLogs3
    ensures { result ≡ of_logs3 (softmax3_of a b c) }
{
    let logs = ln_softmax3(a, b, c);
    FlatLogs3 {
        first: logs.first,
        second: logs.second,
        third: logs.third,
    }
}

pub fn fog_ln_sub_exp(high: f64, low: f64) -> f64
    ensures { result ≡ ln_sub_exp_of high low }
{
    ln_sub_exp(high, low)
}

pub fn fog_sigmoid(value: f64) -> f64
    ensures { result ≡ sigmoid_of value }
{
    sigmoid(value)
}
