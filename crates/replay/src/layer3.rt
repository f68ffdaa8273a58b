// Layer 3: the port's answer to a row, behind its arguments. The calls' numbers are those of oracle/src/layer3/.
use crate::fits::{fit, put_fit};
use crate::parts::{error, errors, genome, shape_words, shelf, shelf_words};
use crate::puts::*;
use crate::slices::{bins, floats};
use crate::words::*;
use meaning::refusals::Refusal;
use models::cutoffs::SureCutoff;
use models::fit::SpectrumFit;
use models::height_terms::Heights;
use models::params::Params;
use models::unpacking::empty_fit;

// ---- a problem: window end, peak and families, and then list, bins and the shelf's table

fn cost(row: &[u64], out: &mut [u64]) -> Option<usize> {
    let mut list = [0.0; MOST];
    let mut spectrum = [0u32; MOST];
    let mut room = [0.0; MOST];
    let theta = floats(row, 6, &mut list);
    let counts = bins(row, nth(row, 6, 1), &mut spectrum);
    let table = floats(row, nth(row, 6, 2), &mut room);
    let got = models::costs::cost(
        counts,
        number(row, 1),
        size(row, 2),
        size(row, 3),
        error(row, 4),
        genome(row, 5),
        theta,
        table,
    );
    let behind = put_number(out, nth(row, 6, 3), got)?;
    put_floats(out, behind, table)
}

// The number and the fit, the empty one beside a refusal's.
fn put_unpacked(out: &mut [u64], at: usize, got: Result<SpectrumFit, Refusal>) -> Option<usize> {
    match got {
        Ok(f) => {
            let n = put(out, at, 0)?;
            put_fit(out, n, f)
        }
        Err(refusal) => {
            let n = put(out, at, refused(refusal))?;
            put_fit(out, n, empty_fit())
        }
    }
}

fn unpacked(row: &[u64], out: &mut [u64]) -> Option<usize> {
    let mut list = [0.0; MOST];
    let mut spectrum = [0u32; MOST];
    let mut room = [0.0; MOST];
    let theta = floats(row, 8, &mut list);
    let counts = bins(row, nth(row, 8, 1), &mut spectrum);
    let table = floats(row, nth(row, 8, 2), &mut room);
    let got = models::unpacking::unpack(
        counts,
        number(row, 1),
        size(row, 4),
        size(row, 5),
        error(row, 6),
        genome(row, 7),
        theta,
        number(row, 2),
        word(row, 3),
        table,
    );
    let behind = put_unpacked(out, nth(row, 8, 3), got)?;
    put_floats(out, behind, table)
}

// ---- a list

// The number and two presences, then the floats.
fn put_params(out: &mut [u64], at: usize, p: Params) -> Option<usize> {
    let e = p.error_params;
    let shape = shape_words(e.weibull_shape);
    let part = shelf_words(p.shelf);
    let weights = put_words(out, at, &[0, shape[0], part[0]])?;
    let mode = put_floats(out, weights, &[p.ln_error, p.ln_single, p.ln_repeat])?;
    let tail = put_floats(out, mode, &[p.target_mode, p.mean, p.dispersion])?;
    let parts = put_floats(out, tail, &[e.singleton_probability, e.tail_exponent])?;
    let ratio = put_words(out, parts, &[shape[1], part[1], part[2], part[3]])?;
    put_float(out, ratio, p.repeat_ratio)
}

// Beside a refusal's number everything is 0.
fn put_list(out: &mut [u64], at: usize, got: Result<Params, Refusal>) -> Option<usize> {
    match got {
        Ok(p) => put_params(out, at, p),
        Err(refusal) => {
            let rest = put(out, at, refused(refusal))?;
            put_words(out, rest, &[0u64; 15])
        }
    }
}

fn params(row: &[u64], out: &mut [u64]) -> Option<usize> {
    let mut room = [0.0; MOST];
    let theta = floats(row, 4, &mut room);
    let got = models::params::params_from(error(row, 2), genome(row, 3), size(row, 1), theta);
    put_list(out, past(row, 4), got)
}

// ---- what is read off a fit, and its cutoffs

fn put_heights(out: &mut [u64], at: usize, answer: Result<Heights, Refusal>) -> Option<usize> {
    match answer {
        Ok(h) => {
            let n = put(out, at, 0)?;
            put_floats(out, n, &[h.error, h.single, h.repeat])
        }
        Err(refusal) => put_words(out, at, &[refused(refusal), 0, 0, 0]),
    }
}

// 0 stands for none.
fn cutoff_word(part: Option<u16>) -> u64 {
    u64::from(part.unwrap_or(0))
}

fn put_cutoff(out: &mut [u64], at: usize, answer: Result<Option<u16>, Refusal>) -> Option<usize> {
    put_answer(out, at, answer, cutoff_word)
}

fn put_floor(out: &mut [u64], at: usize, answer: Result<u16, Refusal>) -> Option<usize> {
    put_answer(out, at, answer, |cutoff| u64::from(cutoff))
}

// Number, whether the walk started, whether it is sure, and the cutoff.
fn put_walked(out: &mut [u64], at: usize, sure: u64, part: Option<u16>) -> Option<usize> {
    put_words(out, at, &[0, 1, sure, cutoff_word(part)])
}

fn put_sure(out: &mut [u64], at: usize, answer: Result<SureCutoff, Refusal>) -> Option<usize> {
    match answer {
        Ok(SureCutoff::Sure(part)) => put_walked(out, at, 1, part),
        Ok(SureCutoff::NotSure(part)) => put_walked(out, at, 0, part),
        Ok(SureCutoff::NoWalk) => put_words(out, at, &[0, 0, 0, 0]),
        Err(refusal) => put_words(out, at, &[refused(refusal), 0, 0, 0]),
    }
}

// Behind the fit stands a count or a budget, where the call has one.
fn of_fit(row: &[u64], out: &mut [u64]) -> Option<usize> {
    let f = fit(from(row, 1));
    let count = size(row, 34);
    let budget = number(row, 34);
    match word(row, 0) {
        66 => put_float(out, 34, models::fit::component_total_ratio(f)),
        67 => put_float(out, 34, models::fit::mode_roundtrip_error(f)),
        68 => put(out, 34, models::fit::primary_mode(f)),
        69 => put(out, 34, models::fit::repeat_mode(f)),
        70 => put_count(out, 34, models::modes::error_mode(f)),
        71 => put_heights(out, 35, models::heights::component_heights(f, count)),
        85 => put_cutoff(out, 35, models::cutoffs::hole_cutoff(f, budget)),
        86 => put_sure(out, 35, models::cutoffs::hole_cutoff_sure(f, budget)),
        87 => put_cutoff(out, 34, models::height_cutoffs::crossover(f)),
        _ => put_floor(out, 34, models::height_cutoffs::error_floor_cutoff(f)),
    }
}

// ---- errors, shelves and families

fn bounds(x: f64, out: &mut [u64]) -> Option<usize> {
    let b = models::shelf_rules::shelf_concentration_bounds(x);
    put_pair(out, 2, b.low, b.high)
}

pub(crate) fn answer(row: &[u64], out: &mut [u64]) -> Option<usize> {
    let x = number(row, 1);
    let e = errors(word(row, 5), row, 1);
    let s = shelf(row, 1);
    let n = bin(word(row, 2));
    let first = error(row, 1);
    let second = genome(row, 2);
    match word(row, 0) {
        64 => cost(row, out),
        65 => unpacked(row, out),
        66..=71 | 85..=87 | 91 => of_fit(row, out),
        73 => put_float(out, 6, e.log_probability(number(row, 4))),
        74 => put_number(out, 6, e.log_window_mass(size(row, 4))),
        76 => put_float(out, 4, models::shelf_rules::retained(s)),
        77 => put_float(out, 4, models::shelf_rules::concentration(s)),
        78 => bounds(x, out),
        80 => put_flag(out, 4, models::shelf_rules::shelf_is_valid(s)),
        81 => put_float(out, 2, models::recovery::used_scale(x)),
        82 => put(out, 3, models::recovery::rounded_quotient(n, x) as u64),
        88 => put(out, 2, first.parameter_count() as u64),
        89 => put(out, 2, genome(row, 1).extra_parameters() as u64),
        90 => put(out, 3, models::families::list_length(first, second) as u64),
        92 => params(row, out),
        _ => None,
    }
}
