// The cost's numbers at their limits, each beside an input that gets none.
use crate::show;
use meaning::refusals::Refusal;
use models::costs::cost;
use models::families::{ErrorModel, GenomeModel};

fn answer<R: Print>(rt: &R, number: Result<f64, Refusal>) {
    match number {
        Ok(value) => show::value(rt, value),
        Err(refusal) => show::refused(rt, refusal),
    }
}

fn at<R: Print>(rt: &R, theta: &[f64], bins: &[u32], scale: f64, window_end: usize, peak: usize) {
    let mut table = [0.0f64; 1];
    let number = cost(
        bins,
        scale,
        window_end,
        peak,
        ErrorModel::SingletonPareto,
        GenomeModel::NegativeBinomial,
        theta,
        &mut table,
    );
    answer(rt, number);
}

fn bins<R: Print>(rt: &R, name: &[u8], bins: &[u32], window_end: usize) {
    show::name(rt, name);
    at(rt, &[0.0f64; 7], bins, 1.0, window_end, 2);
}

// Two bins of 3.
fn threes<R: Print>(rt: &R, scale: f64, window_end: usize, peak: usize) {
    at(rt, &[0.0f64; 7], &[3u32, 3], scale, window_end, peak);
}

fn peak<R: Print>(rt: &R, n: usize) {
    show::label(rt, b"cost, peak", n as u64);
    threes(rt, 1.0, 2, n);
}

fn window_end<R: Print>(rt: &R, n: usize) {
    show::label(rt, b"cost, window end", n as u64);
    threes(rt, 1.0, n, 2);
}

fn scale<R: Print>(rt: &R, x: f64, n: u64) {
    show::label(rt, b"cost, scale", n);
    threes(rt, x, 2, 2);
}

fn scale_nan<R: Print>(rt: &R) {
    show::name(rt, b"cost, scale NaN");
    threes(rt, f64::NAN, 2, 2);
}

// In a window of one count every k-mer is sure to have it: the log-likelihood is +0, and the cost -0.
fn certain<R: Print>(rt: &R) {
    let theta = [0.0f64, -6.25, 0.0, 0.0, 0.0, 0.0, 0.0];
    show::label(rt, b"cost, window end", 1);
    at(rt, &theta, &[3u32, 3], 1.0, 1, 2);
}

fn shelf<R: Print>(rt: &R, theta: &[f64], table: &mut [f64]) {
    let number = cost(
        &[3u32, 3],
        1.0,
        2,
        2,
        ErrorModel::SingletonPareto,
        GenomeModel::ShelfNegativeBinomial,
        theta,
        table,
    );
    answer(rt, number);
}

fn shelves<R: Print>(rt: &R) {
    let theta = [0.0f64; 10];
    let mut short = [0.0f64; 2];
    let mut long = [0.0f64; 3];
    show::label(rt, b"cost, list of", 9);
    shelf(rt, &[0.0f64; 9], &mut long);
    show::label(rt, b"cost, table of", 2);
    shelf(rt, &theta, &mut short);
    show::label(rt, b"cost, table of", 3);
    shelf(rt, &theta, &mut long);
}

fn counts<R: Print>(rt: &R) {
    bins(rt, b"cost, bins 3", &[3u32], 1);
    bins(rt, b"cost, bins 3,3", &[3u32, 3], 2);
}

pub(crate) fn all<R: Print>(rt: &R) {
    counts(rt);
    peak(rt, 1);
    peak(rt, 65535);
    peak(rt, 65536);
    window_end(rt, 65536);
    bins(rt, b"cost, bins 0,0", &[0u32, 0], 2);
    window_end(rt, 0);
    window_end(rt, 3);
    scale(rt, 6.0, 6);
    scale(rt, 7.0, 7);
    scale(rt, 100.0, 100);
    scale_nan(rt);
    certain(rt);
    shelves(rt);
}
