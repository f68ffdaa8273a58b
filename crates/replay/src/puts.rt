// An answer's words, written one behind the other: each writer gives the place behind its last.
use meaning::refusals::Refusal;
use routines::bits::pattern;

// None where the word finds no room.
pub(crate) fn put(out: &mut [u64], at: usize, word: u64) -> Option<usize> {
    *out.get_mut(at)? = word;
    Some(at + 1)
}

pub(crate) fn put_flag(out: &mut [u64], at: usize, flag: bool) -> Option<usize> {
    put(out, at, u64::from(flag))
}

pub(crate) fn put_two(out: &mut [u64], at: usize, first: u64, second: u64) -> Option<usize> {
    let next = put(out, at, first)?;
    put(out, next, second)
}

// Each item as the word that it is.
fn put_each<T: Copy, F: Fn(T) -> u64>(
    out: &mut [u64],
    at: usize,
    items: &[T],
    as_word: F,
) -> Option<usize>
    requires { F.IsAlwaysCallable as_word }
{
    let mut n = at;
    for item in items {
        n = put(out, n, as_word(*item))?;
    }
    Some(n)
}

pub(crate) fn put_words(out: &mut [u64], at: usize, words: &[u64]) -> Option<usize> {
    put_each(out, at, words, |word| word)
}

pub(crate) fn put_bins(out: &mut [u64], at: usize, bins: &[u32]) -> Option<usize> {
    put_each(out, at, bins, |bin| u64::from(bin))
}

// ---- floats

pub(crate) fn put_float(out: &mut [u64], at: usize, x: f64) -> Option<usize> {
    put(out, at, pattern(x))
}

pub(crate) fn put_pair(out: &mut [u64], at: usize, x: f64, y: f64) -> Option<usize> {
    put_two(out, at, pattern(x), pattern(y))
}

pub(crate) fn put_floats(out: &mut [u64], at: usize, floats: &[f64]) -> Option<usize> {
    put_each(out, at, floats, pattern)
}

// ---- what may be refused: 0 and the answer, or the number and 0

pub(crate) fn refused(refusal: Refusal) -> u64 {
    u64::from(u8::from(refusal))
}

pub(crate) fn put_answer<T, F: Fn(T) -> u64>(
    out: &mut [u64],
    at: usize,
    answer: Result<T, Refusal>,
    as_word: F,
) -> Option<usize>
    requires { F.IsAlwaysCallable as_word }
{
    match answer {
        Ok(x) => put_two(out, at, 0, as_word(x)),
        Err(refusal) => put_two(out, at, refused(refusal), 0),
    }
}

pub(crate) fn put_number(
    out: &mut [u64],
    at: usize,
    answer: Result<f64, Refusal>,
) -> Option<usize> {
    put_answer(out, at, answer, pattern)
}

pub(crate) fn put_count(out: &mut [u64], at: usize, answer: Result<u64, Refusal>) -> Option<usize> {
    put_answer(out, at, answer, |count| count)
}

pub(crate) fn put_written(
    out: &mut [u64],
    at: usize,
    answer: Result<usize, Refusal>,
) -> Option<usize> {
    put_answer(out, at, answer, |count| count as u64)
}

// What stands in a lent slice comes behind the answer.
pub(crate) fn put_lent(
    out: &mut [u64],
    at: usize,
    answer: Result<usize, Refusal>,
    lent: &[f64],
) -> Option<usize> {
    let n = put_written(out, at, answer)?;
    put_floats(out, n, lent)
}
