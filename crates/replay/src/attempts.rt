// The validator, attempts and the selection among four. The places are those of oracle/src/layer4/.
use crate::fits::{fit, put_fit};
use crate::parts::{error, genome};
use crate::puts::*;
use crate::slices::{bins, byte, flags, floats, places};
use crate::words::*;
use fitter::attempts::{FitAttempt, is_valid, make_attempt};
use fitter::rejections::FitRejection;
use meaning::refusals::Refusal;
use models::problems::Problem;
use models::unpacking::empty_fit;

// ---- reasons by their numbers

fn reason_word(why: FitRejection) -> u64 {
    u64::from(u8::from(why))
}

// ---- the validator: a fit, the limit, the valley and the peak

// 0 stands for a valid fit.
fn verdict_word(rejection: Option<FitRejection>) -> u64 {
    match rejection {
        None => 0,
        Some(why) => reason_word(why),
    }
}

pub(crate) fn judged(row: &[u64], out: &mut [u64]) -> Option<usize> {
    let f = fit(from(row, 1));
    let valley = size(row, 35);
    let peak = size(row, 36);
    let limit = number(row, 34);
    let got = fitter::validation::validate_fit(f, valley, peak, limit);
    put_answer(out, 37, got, verdict_word)
}

// ---- an attempt: 7 words and its candidate's 33

fn rejection(present: u64, n: u64) -> Option<FitRejection> {
    if present == 0 {
        return None;
    }
    Some(FitRejection::from(byte(n)))
}

fn attempt(row: &[u64], i: usize) -> FitAttempt {
    let w = from(row, i);
    make_attempt(
        error(w, 0),
        genome(w, 1),
        word(w, 2) != 0,
        fit(from(w, 7)),
        rejection(word(w, 3), word(w, 4)),
        word(w, 5),
        bin(word(w, 6)),
    )
}

pub(crate) fn valid(row: &[u64], out: &mut [u64]) -> Option<usize> {
    put_flag(out, 41, is_valid(attempt(row, 1)))
}

pub(crate) fn selected(row: &[u64], out: &mut [u64]) -> Option<usize> {
    let first = attempt(row, 1);
    let second = attempt(row, 41);
    let third = attempt(row, 81);
    let fourth = attempt(row, 121);
    let got = fitter::selection::select_fit([first, second, third, fourth]);
    let n = put_flag(out, 161, got.is_some())?;
    put_fit(out, n, got.unwrap_or(empty_fit()))
}

// ---- one over a run table: scale, valley, limit, window end, peak and families; then lists, bins, the shelf's table,
// and the six slices of the runs

fn problem(row: &[u64]) -> Problem {
    Problem {
        scale: number(row, 1),
        window_end: size(row, 4),
        valley: size(row, 2),
        peak: size(row, 5),
        error: error(row, 6),
        genome: genome(row, 7),
        mass_limit: number(row, 3),
    }
}

fn put_rejection(out: &mut [u64], at: usize, rejection: Option<FitRejection>) -> Option<usize> {
    match rejection {
        None => put_two(out, at, 0, 0),
        Some(why) => put_two(out, at, 1, reason_word(why)),
    }
}

// The families, whether there is a candidate, the rejection, the iterations, the capped runs and the fit.
fn put_attempt(words: &mut [u64], a: FitAttempt) {
    let error = u8::from(a.error_model);
    let genome = u8::from(a.genome_model);
    put_two(words, 1, u64::from(error), u64::from(genome));
    put_flag(words, 3, a.candidate.is_some());
    put_rejection(words, 4, a.rejection);
    put_two(words, 6, a.total_iterations, u64::from(a.capped_starts));
    put_fit(words, 8, a.candidate.unwrap_or(empty_fit()));
}

// The number, and the attempt; beside a refusal's number everything is 0.
fn attempt_words(got: Result<FitAttempt, Refusal>) -> [u64; 41] {
    let mut words = [0u64; 41];
    match got {
        Ok(a) => put_attempt(&mut words, a),
        Err(refusal) => words[0] = refused(refusal),
    }
    words
}

// The shelf's table from where on it stands as it was.
fn put_rest(
    out: &mut [u64],
    at: usize,
    row: &[u64],
    refused: bool,
    table: &[f64],
) -> Option<usize> {
    if refused || word(row, 7) == 0 {
        return put_floats(out, at, table);
    }
    let start = (1 + size(row, 4).min(MOST)).min(table.len());
    put_floats(out, at, &table[start..])
}

fn runs(
    row: &[u64],
    counts: &[u32],
    lists: &[f64],
    table: &mut [f64],
    out: &mut [u64],
) -> Option<usize> {
    let mut flag_room = [0u8; MOST];
    let mut cost_room = [0.0; MOST];
    let mut place_room = [0usize; MOST];
    let mut length_room = [0usize; MOST];
    let mut cap_room = [0u8; MOST];
    let converged = flags(row, nth(row, 8, 3), &mut flag_room);
    let costs = floats(row, nth(row, 8, 4), &mut cost_room);
    let starts = places(row, nth(row, 8, 5), &mut place_room);
    let lengths = places(row, nth(row, 8, 6), &mut length_room);
    let at = nth(row, 8, 7);
    let iterations = first(entries(row, at), size(row, at));
    let caps = flags(row, nth(row, 8, 8), &mut cap_room);
    let got = fitter::attempting::attempt_from_numbers(
        counts,
        problem(row),
        converged,
        costs,
        starts,
        lengths,
        iterations,
        caps,
        lists,
        table,
    );
    let n = put_words(out, nth(row, 8, 9), &attempt_words(got))?;
    put_rest(out, n, row, got.is_err(), table)
}

pub(crate) fn attempted(row: &[u64], out: &mut [u64]) -> Option<usize> {
    let mut list_room = [0.0; MOST];
    let mut spectrum = [0u32; MOST];
    let mut room = [0.0; MOST];
    let lists = floats(row, 8, &mut list_room);
    let counts = bins(row, nth(row, 8, 1), &mut spectrum);
    let table = floats(row, nth(row, 8, 2), &mut room);
    runs(row, counts, lists, table, out)
}
