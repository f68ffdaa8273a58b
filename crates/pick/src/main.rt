// Picks a coverage cutoff for the histogram file on standard input, and writes the record of how.
#![tactic(auto)]

mod asking;
mod options;
mod progress;
mod searches;
mod showing;

use asking::read_words;
use fitter::asking::{Asked, window_end_of};
use fitter::shares::empirical_shelf_share;
use histogram::reader::{LONGEST_FILE, MAX_FILE_BINS, ReadError, read_histogram};
use models::families::{ErrorModel, GenomeModel};
use options::has_flag;
use progress::{Watch, seconds};
use record::records::{write_broken, write_record, write_refused};
use searches::{attempt, first, problem_of, refusal};
use showing::{LONGEST_RECORD, complain, give_up, show, tell_failed};
use std::rt::Runtime;
use streams::failure::fail;
use streams::input::read_input;

// One byte more than the longest accepted file has: what lies behind it changes nothing.
const ENOUGH: usize = LONGEST_FILE + 1;

// The four configurations, in the original's order.
fn pick_bins<R: Runtime>(rt: &R, bins: &[u32], asked: Asked, watch: Watch, status: bool) {
    let mut text = [0u8; LONGEST_RECORD];
    let end = window_end_of(asked, bins.len());
    let shelf = problem_of(
        asked,
        end,
        ErrorModel::SingletonPareto,
        GenomeModel::ShelfNegativeBinomial,
    );
    if let Some(why) = refusal(bins, shelf) {
        let refused = write_refused(asked, bins.len(), u8::from(why), &mut text);
        let last = refused.last;
        show(rt, &text, refused.size, last, status);
        return;
    }
    // A share that is refused stands beside a spectrum that is refused, which comes first.
    let share = empirical_shelf_share(bins, asked.scale, asked.valley, asked.peak).unwrap_or(0.0);
    let each = [1, 2, 3, 4].map(|k| attempt(rt, bins, asked, end, share, k, watch));
    let [Some(one), Some(two), Some(three), Some(four)] = each else {
        give_up(rt, status);
        return;
    };
    let record = write_record(asked, bins.len(), one, two, three, four, &mut text);
    let last = record.last;
    show(rt, &text, record.size, last, status);
}

fn pick_file<R: Runtime>(rt: &R, file: &[u8], asked: Asked, watch: Watch, status: bool) {
    let mut bins = [0u32; MAX_FILE_BINS];
    let mut text = [0u8; LONGEST_RECORD];
    let read = read_histogram(file, &mut bins);
    match read {
        Ok(n) => pick_bins(rt, first(&bins, n), asked, watch, status),
        Err(ReadError::Broken(place)) => {
            let broken = write_broken(asked, place, &mut text);
            let last = broken.last;
            show(rt, &text, broken.size, last, status);
        }
        Err(ReadError::Refused(_)) => {
            complain(rt, "pick: the bins do not fit, which can't be", status)
        }
    }
}

fn main(rt: HostRuntime) {
    let watch = Watch {
        quiet: has_flag(&rt, b"--quiet"),
        status: has_flag(&rt, b"--status"),
        began: seconds(&rt),
    };
    let status = watch.status;
    let asked = match read_words(&rt) {
        Ok(asked) => asked,
        Err(line) => {
            // Where standard error takes nothing, there is nobody to tell.
            let _ = rt.eprint(line);
            tell_failed(status);
            return;
        }
    };
    // Room for the longest file, since the project has no heap.
    let mut file = [0u8; ENOUGH];
    let input = read_input(&mut rt.stdin(), &mut file);
    match input {
        Ok(n) => pick_file(&rt, &file[..n], asked, watch, status),
        Err(e) => {
            fail(&rt, "pick: reading", e);
            tell_failed(status);
        }
    }
}
