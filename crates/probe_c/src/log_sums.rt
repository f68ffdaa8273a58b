// Log sums and their kin.
ghost use Rattle.std.specs.Prelude.{◌≡◌};
ghost use Rattle.helpers.specs.LogSums.{lse2_of, lse3_of, softmax3_of, ln_sub_exp_of, sigmoid_of};
ghost use Rattle.probe.specs.Flat.{of_logs3};

use probe::log_sums::FlatLogs3;

#[unsafe(no_mangle)]
pub extern "C" fn fog_lse2(a: f64, b: f64) -> f64
    ensures { result ≡ lse2_of a b }
{
    probe::log_sums::fog_lse2(a, b)
}

#[unsafe(no_mangle)]
pub extern "C" fn fog_lse3(a: f64, b: f64, c: f64) -> f64
    ensures { result ≡ lse3_of a b c }
{
    probe::log_sums::fog_lse3(a, b, c)
}

#[unsafe(no_mangle)]
pub extern "C" fn fog_ln_softmax3(a: f64, b: f64, c: f64) -> FlatLogs3
    ensures { result ≡ of_logs3 (softmax3_of a b c) }
{
    probe::log_sums::fog_ln_softmax3(a, b, c)
}

#[unsafe(no_mangle)]
pub extern "C" fn fog_ln_sub_exp(high: f64, low: f64) -> f64
    ensures { result ≡ ln_sub_exp_of high low }
{
    probe::log_sums::fog_ln_sub_exp(high, low)
}

#[unsafe(no_mangle)]
pub extern "C" fn fog_sigmoid(value: f64) -> f64
    ensures { result ≡ sigmoid_of value }
{
    probe::log_sums::fog_sigmoid(value)
}
