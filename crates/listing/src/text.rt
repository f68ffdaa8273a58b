// The listing of a histogram, and of a file that is refused, as text in lent bytes: its size is worked out before the
// first byte is written.
ghost use Rattle.std.specs.Prelude.{◌≡◌, ◌≤◌, length};
ghost use Rattle.listing.specs.Decimal.{decimal_of};
ghost use Rattle.meaning.specs.Over.{over};
ghost use Rattle.meaning.specs.Rows.{most};
ghost use Rattle.meaning.specs.Lent.{laid, counted};
ghost use Rattle.listing.specs.Listing.{line_of, row_of, rows_of, list_histogram_of, list_refusal_of};
ghost use Rattle.meaning.specs.Answers.{reply_of};

use histogram::reader::MAX_FILE_BINS;
use meaning::limits::MOST;
use meaning::refusals::Refusal;
use meaning::wholes::wide;

// No file's listing is longer: ten bytes for the first line, and for each bin four digits, ten digits, a space and the
// end of the line.
pub const LONGEST_LISTING: usize = 10 + 16 * MAX_FILE_BINS;

// How many digits a number has.
fn decimal_size(n: u64) -> usize
    ensures { result ≡ length (decimal_of n) }
{
    let mut left = n;
    let mut size: usize = 1;
    // A while: what is left says how many turns there are, and no range does.
    while left >= 10 {
        left /= 10;
        size += 1;
    }
    size
}

// The digits of a number to the front of the lent bytes, and how many that is. The last digit is known first, so they
// are put from the back.
fn put_decimal(out: &mut [u8], n: u64) -> usize
    requires { length (decimal_of n) ≤ length out.old }
    ensures { (result ≡ length (decimal_of n)) × (out.new ≡ over (decimal_of n) out.old) }
{
    let size = decimal_size(n);
    let mut left = n;
    let mut at = size;
    // A while, as in `decimal_size`.
    while left >= 10 {
        at -= 1;
        out[at] = (48 + left % 10) as u8;
        left /= 10;
    }
    out[0] = (48 + left) as u8;
    size
}

// A word to the front of the lent bytes, and how many bytes that is.
#[tactic(auto, unfolding(meaning::specs::Over::over))]
fn put_word(out: &mut [u8], word: &[u8]) -> usize
    requires { length word.now ≤ length out.old }
    ensures { (result ≡ length word.now) × (out.new ≡ over word.now out.old) }
{
    out[..word.len()].copy_from_slice(word);
    word.len()
}

// A word, a number and the end of the line.
#[tactic(auto, unfolding(crate::specs::Listing::line_of))]
fn put_line(out: &mut [u8], word: &[u8], n: u64) -> usize
    requires { length (line_of word.now n) ≤ length out.old }
    ensures { (result ≡ length (line_of word.now n))
        × (out.new ≡ over (line_of word.now n) out.old) }
{
    let first = put_word(out, word);
    let end = first + put_decimal(&mut out[first..], n);
    out[end] = b'\n';
    end + 1
}

// A count and its bin.
#[tactic(auto, unfolding(crate::specs::Listing::row_of))]
fn put_row(out: &mut [u8], count: u64, n: u64) -> usize
    requires { length (row_of count n) ≤ length out.old }
    ensures { (result ≡ length (row_of count n)) × (out.new ≡ over (row_of count n) out.old) }
{
    let behind = put_decimal(out, count);
    behind + put_line(&mut out[behind..], b" ", n)
}

// How many bytes a count and its bin take: two are the space and the end of the line.
fn row_size(count: u64, n: u64) -> usize
    ensures { result ≡ length (row_of count n) }
{
    decimal_size(count) + decimal_size(n) + 2
}

// A row for each bin, from count 1 on.
fn put_rows(out: &mut [u8], bins: &[u32]) -> usize
    requires { length (rows_of 1 bins.now) ≤ length out.old }
    ensures { (result ≡ length (rows_of 1 bins.now))
        × (out.new ≡ over (rows_of 1 bins.now) out.old) }
{
    let mut at: usize = 0;
    for (i, bin) in bins.iter().enumerate() {
        at += put_row(&mut out[at..], (i as u64) + 1, u64::from(*bin));
    }
    at
}

fn rows_size(bins: &[u32]) -> usize
    requires { length bins.now ≤ most }
    ensures { result ≡ length (rows_of 1 bins.now) }
{
    let mut size: usize = 0;
    for (i, bin) in bins.iter().enumerate() {
        size += row_size((i as u64) + 1, u64::from(*bin));
    }
    size
}

// The listing of some bins into the first of the lent bytes; 1 for fewer than 2 bins, 2 for more than 65,535, 10 where
// the bytes are too few.
// A refusal writes nothing, and the bytes past the listing stand as found.
#[tactic(auto, using(crate::proofs::Refusals::answers), unfolding(crate::specs::Listing::listing_of))]
pub fn list_histogram(bins: &[u32], out: &mut [u8]) -> Result<usize, Refusal>
    ensures result_value { reply_of result ≡ counted (list_histogram_of bins.now (length out.old)) }
    ensures out_after { out.new
        ≡ laid (list_histogram_of bins.now (length out.old)) out.old }
{
    if bins.len() < 2 {
        return Err(Refusal::TooSmall);
    }
    if bins.len() > MOST {
        return Err(Refusal::TooLarge);
    }
    let count = bins.len() as u64;
    if out.len() < 6 + decimal_size(count) + rows_size(bins) {
        return Err(Refusal::TooShort);
    }
    let first = put_line(out, b"bins ", count);
    Ok(first + put_rows(&mut out[first..], bins))
}

// The line for a file that is refused at a place, into the first of the lent bytes; 10 where they are too few.
// A refusal writes nothing, and the bytes past the line stand as found.
#[tactic(auto, using(crate::proofs::Refusals::refusals), unfolding(crate::specs::Listing::refusal_of))]
pub fn list_refusal(place: usize, out: &mut [u8]) -> Result<usize, Refusal>
    ensures result_value { reply_of result ≡ counted (list_refusal_of place (length out.old)) }
    ensures out_after { out.new ≡ laid (list_refusal_of place (length out.old)) out.old }
{
    if out.len() < 14 + decimal_size(place as u64) {
        return Err(Refusal::TooShort);
    }
    Ok(put_line(out, b"refused 3 at ", place as u64))
}
