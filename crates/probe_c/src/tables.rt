// The constant tables, row by row.
ghost use Rattle.std.specs.Prelude.{◌≡◌, ◌%◌};
ghost use Rattle.routines.specs.LnTable.{piece_of, log_of};
ghost use Rattle.routines.specs.Starts.{pareto_starts, weibull_starts};
ghost use Rattle.routines.specs.Tables.{power_of};
ghost use Rattle.probe.specs.Flat.{pair_of, of_power, entry_or0};

use probe::tables::FlatPair;

#[unsafe(no_mangle)]
pub extern "C" fn fog_power_at(i: u64) -> FlatPair
    ensures { result ≡ of_power (power_of (i % 32)) }
{
    probe::tables::fog_power_at(i)
}

#[unsafe(no_mangle)]
pub extern "C" fn fog_piece_at(i: u64) -> FlatPair
    ensures { result ≡ pair_of (piece_of (i % 128)) }
{
    probe::tables::fog_piece_at(i)
}

#[unsafe(no_mangle)]
pub extern "C" fn fog_log_at(i: u64) -> FlatPair
    ensures { result ≡ pair_of (log_of (i % 128)) }
{
    probe::tables::fog_log_at(i)
}

#[unsafe(no_mangle)]
pub extern "C" fn fog_pareto_start(i: usize) -> f64
    ensures { result ≡ entry_or0 pareto_starts i }
{
    probe::tables::fog_pareto_start(i)
}

#[unsafe(no_mangle)]
pub extern "C" fn fog_weibull_start(i: usize) -> f64
    ensures { result ≡ entry_or0 weibull_starts i }
{
    probe::tables::fog_weibull_start(i)
}
