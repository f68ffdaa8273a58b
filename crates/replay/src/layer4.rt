// Layer 4: the port's answer to a row, behind its arguments. The calls' numbers are those of oracle/src/layer4/.
use crate::attempts;
use crate::parts::{error, genome};
use crate::puts::*;
use crate::slices::{bins, floats};
use crate::words::*;
use fitter::starts::start_tables_refusal;

// ---- a spectrum

// The scale, the bins and what is lent.
fn recovered(row: &[u64], out: &mut [u64]) -> Option<usize> {
    let mut spectrum = [0u32; MOST];
    let mut room = [0u32; MOST];
    let counts = bins(row, 2, &mut spectrum);
    let lent = bins(row, past(row, 2), &mut room);
    let got = fitter::recovering::recover_bins(counts, number(row, 1), lent);
    let n = put_written(out, nth(row, 2, 2), got)?;
    put_bins(out, n, lent)
}

// The scale, a valley, a peak and the bins.
fn share(row: &[u64], out: &mut [u64]) -> Option<usize> {
    let mut spectrum = [0u32; MOST];
    let counts = bins(row, 4, &mut spectrum);
    let x = number(row, 1);
    let got = fitter::shares::empirical_shelf_share(counts, x, size(row, 2), size(row, 3));
    put_number(out, past(row, 4), got)
}

// ---- the starts of a search: hint, share and families; then tables where the call has them, seeds, shapes, buffer

fn starts(row: &[u64], out: &mut [u64]) -> Option<usize> {
    let mut list = [0.0; MOST];
    let mut pairs = [0.0; MOST];
    let mut room = [0.0; MOST];
    let seeds = floats(row, 5, &mut list);
    let shapes = floats(row, nth(row, 5, 1), &mut pairs);
    let lent = floats(row, nth(row, 5, 2), &mut room);
    let got = fitter::starts::fit_starts(
        error(row, 3),
        genome(row, 4),
        seeds,
        number(row, 1),
        number(row, 2),
        shapes,
        lent,
    );
    put_lent(out, nth(row, 5, 3), got, lent)
}

// Behind the tables.
fn starts_lent<'a>(
    row: &[u64],
    pareto: &'a [f64],
    weibull: &'a [f64],
    first: usize,
    out: &mut [u64],
) -> Option<usize> {
    let mut list = [0.0; MOST];
    let mut pairs = [0.0; MOST];
    let mut room = [0.0; MOST];
    let seeds = floats(row, first, &mut list);
    let shapes = floats(row, nth(row, first, 1), &mut pairs);
    let lent = floats(row, nth(row, first, 2), &mut room);
    let got = fitter::starts::fit_starts_lent(
        error(row, 3),
        genome(row, 4),
        pareto,
        weibull,
        seeds,
        number(row, 1),
        number(row, 2),
        shapes,
        lent,
    );
    put_lent(out, nth(row, first, 3), got, lent)
}

fn tables<'a>(
    row: &[u64],
    a: &'a [f64],
    b: &'a [f64],
    at: usize,
    out: &mut [u64],
) -> Option<usize> {
    if word(row, 0) == 98 {
        return match start_tables_refusal(a, b) {
            Ok(()) => put(out, at, 0),
            Err(refusal) => put(out, at, refused(refusal)),
        };
    }
    starts_lent(row, a, b, at, out)
}

// The first of the two tables begins at word `at`.
fn with_tables(row: &[u64], at: usize, out: &mut [u64]) -> Option<usize> {
    let mut room = [0.0; MOST];
    let mut other = [0.0; MOST];
    let pareto = floats(row, at, &mut room);
    let weibull = floats(row, past(row, at), &mut other);
    tables(row, pareto, weibull, nth(row, at, 2), out)
}

pub(crate) fn answer(row: &[u64], out: &mut [u64]) -> Option<usize> {
    match word(row, 0) {
        96 => recovered(row, out),
        97 => share(row, out),
        98 => with_tables(row, 1, out),
        100 => starts(row, out),
        101 => with_tables(row, 5, out),
        102 => attempts::judged(row, out),
        103 => attempts::valid(row, out),
        104 => attempts::selected(row, out),
        105 => attempts::attempted(row, out),
        _ => None,
    }
}
