// Reading the histogram file into lent bins: all of it is read and checked before the first bin is written.
ghost use Rattle.std.specs.Prelude.{◌≡◌, [], ◌+◌, ◌-◌, ◌^◌, ◌≤◌, ◌<◌, length, take, get_or};
ghost use Rattle.histogram.specs.Number.{between, number_at_of, number_says};
ghost use Rattle.histogram.specs.File.{bins as Bins, read_from};
ghost use Rattle.meaning.specs.Over.{over};
ghost use Rattle.meaning.specs.Lent.{laid, counted};
ghost use Rattle.histogram.specs.Read.{fits_in, read_histogram_of, file_says, held_says};
ghost use Rattle.histogram.specs.declared.reader.ReadError.TheVariants.{Refused};

use crate::number::{Found, number_at};
use meaning::refusals::Refusal;
use std::error::Error;
use std::fmt;

// The most bins that a file holds.
pub const MAX_FILE_BINS: usize = 2047;

// No accepted file is longer: a byte for the form, two for the bin count and five for each bin.
pub const LONGEST_FILE: usize = 3 + 5 * MAX_FILE_BINS;

// As many as a spectrum's histogram usually has.
const FEW_BINS: usize = 256;

// The largest bin.
const MAX_BIN: u64 = 4294967295;

// The place of the file's first fault, or what else is refused.
#[derive(Clone, Copy, Debug, PartialEq, Eq)]
pub enum ReadError {
    Broken(usize),
    Refused(Refusal),
}

impl From<Refusal> for ReadError {
    ghost from_gives = { λ refusal error. error ≡ Refused refusal };

    fn from(refusal: Refusal) -> ReadError {
        ReadError::Refused(refusal)
    }
}

impl fmt::Display for ReadError {
    fn fmt<W: fmt::Write>(&self, f: &mut fmt::Formatter<W>) -> fmt::Result {
        match self {
            ReadError::Broken(place) => write!(f, "the histogram file is broken at byte {place}"),
            ReadError::Refused(refusal) => write!(f, "{refusal}"),
        }
    }
}

impl Error for ReadError {}

// A bin of more than one group, with five bytes from its place on. One at fault is left to `number_at`.
fn long_bin_at(file: &[u8], at: usize) -> Option<Found>
    requires { (at + 4 < length file.now) × (128 ≤ get_or file.now at 0) }
    ensures { number_says at result ≡ number_at_of (between 0 (2 ^ 32 - 1)) file.now at }
{
    let one = (file[at] % 128) as u64;
    let second = file[at + 1];
    if second < 128 {
        if second > 0 {
            return Some(Found {
                value: one + second as u64 * 128,
                next: at + 2,
            });
        }
    } else {
        let two = one + (second % 128) as u64 * 128;
        let third = file[at + 2];
        if third < 128 {
            if third > 0 {
                return Some(Found {
                    value: two + third as u64 * 16384,
                    next: at + 3,
                });
            }
        } else {
            let three = two + (third % 128) as u64 * 16384;
            let fourth = file[at + 3];
            if fourth < 128 {
                if fourth > 0 {
                    return Some(Found {
                        value: three + fourth as u64 * 2097152,
                        next: at + 4,
                    });
                }
            } else {
                let four = three + (fourth % 128) as u64 * 2097152;
                let fifth = file[at + 4];
                if fifth < 16 {
                    if fifth > 0 {
                        return Some(Found {
                            value: four + fifth as u64 * 268435456,
                            next: at + 5,
                        });
                    }
                }
            }
        }
    }
    number_at(file, at, 0, MAX_BIN)
}

// The bin at a place. Most are of one group.
fn bin_at(file: &[u8], at: usize) -> Option<Found>
    ensures { number_says at result ≡ number_at_of (between 0 (2 ^ 32 - 1)) file.now at }
{
    if at < file.len() {
        let byte = file[at];
        if byte < 128 {
            return Some(Found {
                value: byte as u64,
                next: at + 1,
            });
        }
        if file.len() - at > 4 {
            // Taken apart and put together: handed on whole, both numbers go through memory, and a file of bins of two
            // groups takes three times as long.
            let Found { value, next } = long_bin_at(file, at)?;
            return Some(Found { value, next });
        }
    }
    number_at(file, at, 0, MAX_BIN)
}

// n bins from the place `first` on, and the end of the file behind them.
fn read_bins(file: &[u8], first: usize, n: usize, held: &mut [u32]) -> Result<(), ReadError>
    requires { n ≤ length held.old }
    ensures { held_says n result held.new ≡ read_from (Bins n []) file.now first }
{
    let mut at = first;
    for slot in held[..n].iter_mut() {
        let Some(Found { value, next }) = bin_at(file, at) else {
            return Err(ReadError::Broken(at));
        };
        *slot = value as u32;
        at = next;
    }
    if at < file.len() {
        return Err(ReadError::Broken(at));
    }
    Ok(())
}

// The first n bins.
#[tactic(auto, unfolding(meaning::specs::Over::over))]
fn copy_bins(held: &[u32], n: usize, bins: &mut [u32])
    requires { (n ≤ length held.now) × (n ≤ length bins.old) }
    ensures { bins.new ≡ over (take n held.now) bins.old }
{
    bins[..n].copy_from_slice(&held[..n]);
}

// n bins from the place `first` on: held until the file and the room are checked, then handed over.
fn hand_over(
    file: &[u8],
    first: usize,
    n: usize,
    held: &mut [u32],
    bins: &mut [u32],
) -> Result<usize, ReadError>
    requires { n ≤ length held.old }
    ensures result_value { file_says result
        ≡ counted (fits_in (length bins.old) (read_from (Bins n []) file.now first)) }
    ensures bins_after { bins.new
        ≡ laid (fits_in (length bins.old) (read_from (Bins n []) file.now first))
        bins.old }
{
    read_bins(file, first, n, held)?;
    if bins.len() < n {
        return Err(ReadError::Refused(Refusal::TooShort));
    }
    copy_bins(held, n, bins);
    Ok(n)
}

// The bins of a file into the first of the lent ones; 3 with its place where the file breaks the layout, then 10 where
// the bins are too few.
// A refusal writes nothing, and the bins past the last one read stand as found. A spectrum's few bins are held in a
// small array: a large one takes longer to clear than they take to read.
pub fn read_histogram(file: &[u8], bins: &mut [u32]) -> Result<usize, ReadError>
    ensures result_value { file_says result ≡ counted (read_histogram_of file.now (length bins.old)) }
    ensures bins_after { bins.new
        ≡ laid (read_histogram_of file.now (length bins.old)) bins.old }
{
    let Some(form) = number_at(file, 0, 1, 1) else {
        return Err(ReadError::Broken(0));
    };
    let Some(count) = number_at(file, form.next, 2, MAX_FILE_BINS as u64) else {
        return Err(ReadError::Broken(form.next));
    };
    let n = count.value as usize;
    if n <= FEW_BINS {
        let mut few = [0u32; FEW_BINS];
        return hand_over(file, count.next, n, &mut few, bins);
    }
    let mut many = [0u32; MAX_FILE_BINS];
    hand_over(file, count.next, n, &mut many, bins)
}
