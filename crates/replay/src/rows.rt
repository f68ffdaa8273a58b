// A row is a line of hexadecimal words with a space between: the call's number, its arguments, its answer. A line that
// starts with # is a comment.
use crate::puts::put_words;
use crate::words::*;
use crate::{layer1, layer2, layer3, layer4};

// Where the replay stands: the word of the row that is being read, none where the row has too many or a byte that no
// row has; whether the row is a comment, the rows and the differences so far, and whether there may be more.
#[derive(Clone, Copy)]
pub(crate) struct Replay {
    pub place: Option<usize>,
    pub comment: bool,
    pub rows: u64,
    pub differences: u64,
    pub open: bool,
}

// At the first word of a row, behind so many.
pub(crate) fn begin(rows: u64, differences: u64) -> Replay {
    Replay {
        place: Some(0),
        comment: false,
        rows,
        differences,
        open: true,
    }
}

// The port's answer over the row's own: the place behind it, none for a call that there is not.
fn answer(row: &[u64], out: &mut [u64]) -> Option<usize> {
    match word(row, 0) {
        0..=31 => layer1::answer(row, out),
        32..=63 => layer2::answer(row, out),
        64..=95 => layer3::answer(row, out),
        _ => layer4::answer(row, out),
    }
}

// Whether the row is its own arguments, and the port's answer behind them.
fn holds(row: &[u64]) -> bool {
    let mut ours = [0u64; MOST];
    put_words(&mut ours, 0, row);
    answer(row, &mut ours).is_some_and(|end| agrees(&ours, end, row))
}

// The same of the words up to the one at `place`.
fn holds_to(words: &[u64], place: Option<usize>) -> bool {
    place.is_some_and(|last| holds(first(words, last.saturating_add(1))))
}

// A hexadecimal digit's value. A row has no capitals.
fn digit(b: u8) -> Option<u64> {
    match b {
        b'0'..=b'9' => Some(u64::from(b - b'0')),
        b'a'..=b'f' => Some(u64::from(b - b'a') + 10),
        _ => None,
    }
}

fn end_row(words: &[u64], r: Replay) -> Replay {
    if r.comment {
        return begin(r.rows, r.differences);
    }
    let differs = !holds_to(words, r.place);
    begin(
        r.rows.saturating_add(1),
        r.differences.saturating_add(u64::from(differs)),
    )
}

fn start_word(words: &mut [u64], place: usize) -> Option<usize> {
    *words.get_mut(place)? = 0;
    Some(place)
}

fn end_word(words: &mut [u64], place: Option<usize>) -> Option<usize> {
    start_word(words, place?.saturating_add(1))
}

fn take_digit(words: &mut [u64], place: usize, d: u64) {
    if let Some(word) = words.get_mut(place) {
        *word = *word << 4 | d;
    }
}

fn take(words: &mut [u64], r: Replay, b: u8) -> Replay {
    if b == b'\n' {
        let next = end_row(words, r);
        return Replay {
            place: start_word(words, 0),
            ..next
        };
    }
    if r.comment {
        return r;
    }
    if b == b'#' {
        return Replay { comment: true, ..r };
    }
    if b == b' ' {
        return Replay {
            place: end_word(words, r.place),
            ..r
        };
    }
    let Some(d) = digit(b) else {
        return Replay { place: None, ..r };
    };
    if let Some(place) = r.place {
        take_digit(words, place, d);
    }
    r
}

// Each byte in turn. No byte at all is the end.
pub(crate) fn take_all(words: &mut [u64], start: Replay, bytes: &[u8]) -> Replay {
    let mut r = start;
    r.open = !bytes.is_empty();
    for b in bytes {
        r = take(words, r, *b);
    }
    r
}
