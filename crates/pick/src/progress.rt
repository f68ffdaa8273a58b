// What is said on standard error while a search goes on.
use std::rt::Clock;
use std::str::from_utf8;
use templates::filling::fill;

#[derive(Clone, Copy)]
pub struct Watch {
    pub quiet: bool,
    // Whether `fogatise` listens for the word by which the program ends.
    pub status: bool,
    // Seconds of the machine's clock, at the start.
    pub began: u64,
}

// The machine's clock, in seconds. 0 where it has none: the line says a number of seconds even then.
pub(crate) fn seconds<R: Clock>(rt: &R) -> u64 {
    rt.since_1970().map_or(0, |now| now.as_secs())
}

// One line: which configuration, how many of its runs are done, and the least cost so far, as a float's pattern.
pub(crate) fn say<R: Clock + Eprint>(
    rt: &R,
    watch: Watch,
    k: u64,
    done: u64,
    runs: u64,
    cost: u64,
) {
    if watch.quiet {
        return;
    }
    let mut line = [0u8; 160];
    // 0 where the clock went back.
    let elapsed = seconds(rt).saturating_sub(watch.began);
    let values = [k, done, runs, cost, elapsed];
    let size = fill(
        &mut line,
        0,
        b"pick: configuration # of 4, # of # runs done, least cost ~, # s\n",
        &values,
    );
    if size < line.len() {
        tell(rt, &line[..size]);
    }
}

// A line is ASCII.
fn tell<R: Eprint>(rt: &R, line: &[u8]) {
    if let Ok(text) = from_utf8(line) {
        // Where standard error takes nothing, there is nobody to tell.
        let _ = rt.eprint(text);
    }
}
