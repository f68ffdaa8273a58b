// A row's words, read by their place: what lies behind the last is 0. A float is a word by its bits, and a slice its
// length and its entries.
ghost use Rattle.std.specs.Prelude.{◌≤◌, ◌≡◌, true, get_or};
ghost use Rattle.std.specs.Float.{binary64};
ghost use Rattle.std.specs.Float.Ieee.{of_bits};
ghost use Rattle.replay.specs.Agree.{Same, Agree};

use templates::floats::float;

// The most words that a row has. What a call lends has room for as many: the project has no heap.
pub(crate) const MOST: usize = 640;
// The pattern of every NaN that is an answer, as oracle/src/words.rs has it.
const NAN: u64 = 0x7ff8_0000_0000_0000;

pub(crate) fn word(row: &[u64], i: usize) -> u64
    ensures { result ≡ get_or row.now i 0 }
{
    row.get(i).copied().unwrap_or(0)
}

pub(crate) fn number(row: &[u64], i: usize) -> f64 {
    float(word(row, i))
}

pub(crate) fn size(row: &[u64], i: usize) -> usize {
    word(row, i) as usize
}

// A word as a bin.
pub(crate) fn bin(n: u64) -> u32 {
    (n % 0x1_0000_0000) as u32
}

// The words from number i on.
pub(crate) fn from(row: &[u64], i: usize) -> &[u64] {
    &row[i.min(row.len())..]
}

// The first n words, or all where there are fewer.
pub(crate) fn first(words: &[u64], n: usize) -> &[u64] {
    &words[..n.min(words.len())]
}

// The entries of the slice whose length is word i, and what lies behind the length.
pub(crate) fn entries(row: &[u64], i: usize) -> &[u64] {
    from(from(row, i), 1)
}

// The place behind that slice; no row reaches further than the last.
pub(crate) fn past(row: &[u64], i: usize) -> usize {
    i.min(MOST) + 1 + size(row, i).min(MOST)
}

// Where the nth slice behind the one at `first` stands, or what follows the last.
pub(crate) fn nth(row: &[u64], first: usize, n: usize) -> usize {
    let mut at = first;
    for _ in 0..n {
        at = past(row, at);
    }
    at
}

// ---- the answer against them

// Whether a row's word is ours. One NaN is as good as another: what stood in a lent slice may have another's pattern.
fn same(ours: u64, theirs: u64) -> bool
    ensures { result ≡ true → Same ours theirs }
{
    if ours == NAN {
        let y = float(theirs);
        return y != y;
    }
    ours == theirs
}

// Whether the first of our words are the row, and no more.
pub(crate) fn agrees(ours: &[u64], end: usize, row: &[u64]) -> bool
    ensures { result ≡ true → Agree end ours.now row.now }
{
    if end != row.len() {
        return false;
    }
    // No zip: `Agree` reads 0 behind our last word.
    for (i, theirs) in row.iter().enumerate() {
        if !same(word(ours, i), *theirs) {
            return false;
        }
    }
    true
}
