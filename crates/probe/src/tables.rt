// The constant tables, row by row.
ghost use Rattle.std.specs.Prelude.{◌≡◌, ◌%◌};
ghost use Rattle.routines.specs.LnTable.{piece_of, log_of};
ghost use Rattle.routines.specs.Starts.{pareto_starts, weibull_starts};
ghost use Rattle.routines.specs.Tables.{power_of};
ghost use Rattle.probe.specs.Flat.{pair_of, of_power, entry_or0};

use routines::ln_table::{log_at, piece_at};
use routines::tables::{pareto_starts, power_at, weibull_starts};

#[repr(C)]
#[derive(Clone, Copy)]
pub struct FlatPair {
    pub first: f64,
    pub second: f64,
}

pub fn fog_power_at(i: u64) -> FlatPair
    ensures { result ≡ of_power (power_of (i % 32)) }
{
    let row = power_at(i);
    FlatPair {
        first: row.value,
        second: row.rest,
    }
}

pub fn fog_piece_at(i: u64) -> FlatPair
    ensures { result ≡ pair_of (piece_of (i % 128)) }
{
    let row = piece_at(i);
    FlatPair {
        first: row.0,
        second: row.1,
    }
}

pub fn fog_log_at(i: u64) -> FlatPair
    ensures { result ≡ pair_of (log_of (i % 128)) }
{
    let row = log_at(i);
    FlatPair {
        first: row.0,
        second: row.1,
    }
}

// Number i of the Pareto starts, and 0 behind the last.
pub fn fog_pareto_start(i: usize) -> f64
    ensures { result ≡ entry_or0 pareto_starts i }
{
    pareto_starts().get(i).copied().unwrap_or(0.0)
}

// Number i of the Weibull starts, and 0 behind the last.
pub fn fog_weibull_start(i: usize) -> f64
    ensures { result ≡ entry_or0 weibull_starts i }
{
    weibull_starts().get(i).copied().unwrap_or(0.0)
}
