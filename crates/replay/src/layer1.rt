// Layer 1: the port's answer to a row, behind its arguments. The calls' numbers are those of oracle/src/layer1.rs.
use crate::puts::*;
use crate::words::*;

// ---- rows of tables

fn power(i: u64, out: &mut [u64]) -> Option<usize> {
    let p = routines::tables::power_at(i);
    put_pair(out, 2, p.value, p.rest)
}

fn piece(i: u64, out: &mut [u64]) -> Option<usize> {
    let p = routines::ln_table::piece_at(i);
    put_pair(out, 2, p.0, p.1)
}

fn log(i: u64, out: &mut [u64]) -> Option<usize> {
    let p = routines::ln_table::log_at(i);
    put_pair(out, 2, p.0, p.1)
}

// Behind the last start the row holds 0.
fn start(starts: &[f64], i: u64, out: &mut [u64]) -> Option<usize> {
    put_float(out, 2, starts.get(i as usize).copied().unwrap_or(0.0))
}

pub(crate) fn answer(row: &[u64], out: &mut [u64]) -> Option<usize> {
    let n = word(row, 1);
    let x = number(row, 1);
    let y = number(row, 2);
    match word(row, 0) {
        1 => put_float(out, 2, routines::exp::exp(x)),
        2 => put_float(out, 2, routines::ln::ln(x)),
        3 => put_float(out, 2, routines::expm1::expm1(x)),
        4 => put_float(out, 2, routines::lgamma::lgamma(x)),
        5 => put_float(out, 2, routines::whole::round(x)),
        6 => put_float(out, 2, routines::whole::floor(x)),
        7 => put_float(out, 3, routines::pick::max(x, y)),
        8 => put_float(out, 3, routines::pick::min(x, y)),
        9 => put_flag(out, 2, routines::pick::is_finite(x)),
        10 => put(out, 2, routines::casts::to_u64(x)),
        11 => put(out, 2, u64::from(routines::casts::to_u32(x))),
        12 => put_float(out, 2, routines::casts::from_u64(n)),
        13 => put_float(out, 3, routines::held::at_least(x, y)),
        14 => put_float(out, 3, routines::held::at_most(x, y)),
        15 => put_float(out, 2, routines::exp::tail(x)),
        16 => power(n, out),
        17 => piece(n, out),
        18 => log(n, out),
        19 => start(&routines::tables::pareto_starts(), n, out),
        20 => start(&routines::tables::weibull_starts(), n, out),
        _ => None,
    }
}
