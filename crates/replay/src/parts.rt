// Families, shapes and shelves as words and back. The places are those of oracle/src/words.rs: what is absent is 0.
use crate::words::*;
use helpers::shelves::Shelf;
use meaning::flags::byte_of;
use models::errors::ErrorParams;
use models::families::{ErrorModel, GenomeModel};
use models::parts::{shape_of, shelf_from};
use routines::bits::pattern;

// ---- read at a place

// Any word but 0 is a second family, or a presence.
fn bit(word: u64) -> u8 {
    byte_of(word != 0)
}

pub(crate) fn error(row: &[u64], i: usize) -> ErrorModel {
    ErrorModel::from(bit(word(row, i)))
}

pub(crate) fn genome(row: &[u64], i: usize) -> GenomeModel {
    GenomeModel::from(bit(word(row, i)))
}

// Share, alpha and beta.
pub(crate) fn shelf(row: &[u64], i: usize) -> Shelf {
    let w = from(row, i);
    Shelf {
        share: number(w, 0),
        alpha: number(w, 1),
        beta: number(w, 2),
    }
}

// Its presence, and the shelf behind it.
pub(crate) fn shelf_part(row: &[u64], i: usize) -> Option<Shelf> {
    let w = from(row, i);
    shelf_from(bit(word(w, 0)), shelf(w, 1))
}

// Singleton probability, tail exponent and shape; its presence stands elsewhere.
pub(crate) fn errors(present: u64, row: &[u64], i: usize) -> ErrorParams {
    let w = from(row, i);
    ErrorParams {
        singleton_probability: number(w, 0),
        tail_exponent: number(w, 1),
        weibull_shape: shape_of(bit(present), number(w, 2)),
    }
}

// ---- as words

// The presence, and the shape.
pub(crate) fn shape_words(s: Option<f64>) -> [u64; 2] {
    match s {
        None => [0, 0],
        Some(x) => [1, pattern(x)],
    }
}

// The presence, and the shelf.
pub(crate) fn shelf_words(p: Option<Shelf>) -> [u64; 4] {
    match p {
        None => [0, 0, 0, 0],
        Some(s) => [1, pattern(s.share), pattern(s.alpha), pattern(s.beta)],
    }
}
