// Lists the histogram file on standard input: its bins, or the place where it is refused.
#![tactic(auto)]

mod status;

ghost use Rattle.std.specs.Prelude.{◌≡◌, ◌+◌, ◌≤◌, length, take};
ghost use Rattle.std.specs.Counts.{IsPrefixLen};
ghost use Rattle.histogram.specs.Claims.{longest_file};
ghost use Rattle.listing.specs.Listing.{list_of, longest_listing};

use histogram::reader::{LONGEST_FILE, MAX_FILE_BINS, ReadError, read_histogram};
use listing::text::{LONGEST_LISTING, list_histogram, list_refusal};
use status::{asks_status, has_word, tell};
use std::io;
use std::rt::Runtime;
use streams::failure::fail;
use streams::input::read_input;
use streams::output::{settle_output, write_output};

// One byte more than the longest accepted file has.
const ENOUGH: usize = LONGEST_FILE + 1;

// Zeros, to be filled with the first bytes of a file. What lies behind so many changes no answer (`whole-file`).
#[tactic(auto, unfolding(histogram::specs::File::most_bins))]
fn first_bytes() -> [u8; ENOUGH]
    ensures { longest_file + 1 ≡ length result }
{
    [0; ENOUGH]
}

// What is to be written for a file, to the front of the lent bytes, and how many bytes that is.
fn list(file: &[u8], text: &mut [u8]) -> usize
    requires { longest_listing ≤ length text.old }
    ensures prefix_len { IsPrefixLen result text.new }
    ensures text_after { take result text.new ≡ list_of file.now }
{
    // Room for the longest file, since the project has no heap.
    let mut bins = [0u32; MAX_FILE_BINS];
    let read = read_histogram(file, &mut bins);
    match read {
        Ok(n) => list_histogram(&bins[..n], text).unwrap_or(0),
        Err(ReadError::Broken(place)) => list_refusal(place, text).unwrap_or(0),
        // None of the three is refused; the clauses are of a number of bytes.
        Err(ReadError::Refused(_)) => 0,
    }
}

// Writes a file's listing, and waits for the disk, since some disks tell of a failed write only then.
#[tactic(auto, unfolding(histogram::specs::File::most_bins))]
fn show<R: Runtime>(rt: &R, file: &[u8], status: bool) {
    let mut text = [0u8; LONGEST_LISTING];
    let size = list(file, &mut text);
    match put(rt, &text[..size]) {
        Ok(()) => {
            if status {
                // `bins` or `refused`: of what is written, the contract of `list` says the text alone.
                tell(rt, text[0] == b'b');
            }
        }
        Err(e) => fail(rt, "list: writing", e),
    }
}

fn put<R: Runtime>(rt: &R, bytes: &[u8]) -> io::Result<()> {
    write_output(&mut io::writer(rt), bytes)?;
    settle_output(rt)
}

fn main(rt: HostRuntime) {
    let status = asks_status(&rt);
    if has_word(&rt, 1) && !status {
        // Where standard error takes nothing, there is nobody to tell.
        let _ = eprintln!(rt;
            "list: it takes no arguments and reads standard input; fogatise list takes a FILE"
        );
        return;
    }
    let mut file = first_bytes();
    let input = read_input(&mut rt.stdin(), &mut file);
    match input {
        Ok(n) => show(&rt, &file[..n], status),
        Err(e) => fail(&rt, "list: reading", e),
    }
}
