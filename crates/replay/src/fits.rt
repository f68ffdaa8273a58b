// A fit in a row's words, and back: its 6 wholes, then its 27 floats. The places are those of oracle/src/words.rs.
use crate::puts::*;
use crate::words::*;
use models::fit::SpectrumFit;
use models::fit_words::{FitWords, fit_of_words, fit_words};
use std::array;

pub(crate) fn fit(w: &[u64]) -> SpectrumFit {
    let behind = from(w, 6);
    fit_of_words(FitWords {
        wholes: array::from_fn(|i| word(w, i)),
        floats: array::from_fn(|i| number(behind, i)),
    })
}

pub(crate) fn put_fit(out: &mut [u64], at: usize, f: SpectrumFit) -> Option<usize> {
    let words = fit_words(f);
    let wholes = words.wholes;
    let floats = words.floats;
    let n = put_words(out, at, &wholes)?;
    put_floats(out, n, &floats)
}
