// Writing the histogram file into lent bytes: its size is worked out before the first byte is written.
ghost use Rattle.std.specs.Prelude.{◌≡◌, ◌≤◌, length};
ghost use Rattle.histogram.specs.Number.{number_bytes, numbers_bytes};
ghost use Rattle.histogram.specs.File.{most_bins, write_of};
ghost use Rattle.meaning.specs.Over.{over};
ghost use Rattle.meaning.specs.Lent.{laid, counted};
ghost use Rattle.histogram.specs.Write.{write_histogram_of};
ghost use Rattle.meaning.specs.Answers.{reply_of};

use crate::number::number_size;
use crate::reader::MAX_FILE_BINS;
use meaning::refusals::Refusal;
use meaning::wholes::wide;

// A number to the front of the lent bytes, and how many that is.
fn put_number(out: &mut [u8], n: u64) -> usize
    requires { length (number_bytes n) ≤ length out.old }
    ensures { (result ≡ length (number_bytes n)) × (out.new ≡ over (number_bytes n) out.old) }
{
    let mut left = n;
    let mut at: usize = 0;
    // A while: what is left says how many turns there are, and no range does.
    while left >= 128 {
        out[at] = (128 + left % 128) as u8;
        left /= 128;
        at += 1;
    }
    out[at] = left as u8;
    at + 1
}

// How many bytes the file of some bins takes.
fn file_size(bins: &[u32]) -> usize
    requires { length bins.now ≤ most_bins }
    ensures { result ≡ length (write_of bins.now) }
{
    let mut size = 1 + number_size(bins.len() as u64);
    for bin in bins {
        size += number_size(u64::from(*bin));
    }
    size
}

// Some bins, one behind the other, to the front of the lent bytes, and how many bytes that is.
fn put_bins(out: &mut [u8], bins: &[u32]) -> usize
    requires { length (numbers_bytes bins.now) ≤ length out.old }
    ensures { (result ≡ length (numbers_bytes bins.now))
        × (out.new ≡ over (numbers_bytes bins.now) out.old) }
{
    let mut at: usize = 0;
    for bin in bins {
        at += put_number(&mut out[at..], u64::from(*bin));
    }
    at
}

// The file of some bins to the front of the lent bytes, and how many bytes that is.
#[tactic(auto, using(crate::proofs::Sizes::lengths))]
fn put_file(out: &mut [u8], bins: &[u32]) -> usize
    requires { length (write_of bins.now) ≤ length out.old }
    ensures { (result ≡ length (write_of bins.now))
        × (out.new ≡ over (write_of bins.now) out.old) }
{
    out[0] = 1;
    let head = 1 + put_number(&mut out[1..], bins.len() as u64);
    head + put_bins(&mut out[head..], bins)
}

// The file of some bins into the first of the lent bytes; 1 for fewer than 2 bins, 2 for more than a file holds, 10
// where the bytes are too few.
// A refusal writes nothing, and the bytes past the file stand as found.
#[tactic(auto, using(crate::proofs::Refusals::answers), unfolding(crate::specs::File::most_bins))]
pub fn write_histogram(bins: &[u32], out: &mut [u8]) -> Result<usize, Refusal>
    ensures result_value { reply_of result ≡ counted (write_histogram_of bins.now (length out.old)) }
    ensures out_after { out.new
        ≡ laid (write_histogram_of bins.now (length out.old)) out.old }
{
    if bins.len() < 2 {
        return Err(Refusal::TooSmall);
    }
    if bins.len() > MAX_FILE_BINS {
        return Err(Refusal::TooLarge);
    }
    // no file is longer: a byte for the form, two for the bin count and five for each bin
    if out.len() < 3 + 5 * bins.len() {
        if out.len() < file_size(bins) {
            return Err(Refusal::TooShort);
        }
    }
    Ok(put_file(out, bins))
}
