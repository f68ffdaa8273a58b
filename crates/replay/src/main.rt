// Replays the sample of the oracle's answers on standard input, and says how many rows it read and how many the port
// answers otherwise.
#![tactic(auto)]

mod attempts;
mod fits;
mod layer1;
mod layer2;
mod layer3;
mod layer4;
mod parts;
mod puts;
mod rows;
mod slices;
mod words;

use rows::Replay;
use std::io;
use std::io::Read;
use streams::input::read_input;
use words::MOST;

// Bytes that are read at a time.
const MANY: usize = 65536;

// One read, and each byte of it taken in turn; whether to go on.
fn read_some<R: Read>(from: &mut R, words: &mut [u64], replay: Replay) -> io::Result<Replay> {
    let mut buffer = [0u8; MANY];
    let n = read_input(from, &mut buffer)?;
    Ok(rows::take_all(words, replay, &buffer[..n]))
}

// A proved loop has to end, and nothing says that the input does: so the turns are counted.
fn read_all<R: Read>(from: &mut R, words: &mut [u64]) -> io::Result<Replay> {
    let mut replay = rows::begin(0, 0);
    for _ in 0..u64::MAX {
        if !replay.open {
            break;
        }
        replay = read_some(from, words, replay)?;
    }
    Ok(replay)
}

fn main(rt: HostRuntime) -> io::Result<()> {
    let mut words = [0u64; MOST];
    let replay = read_all(&mut rt.stdin(), &mut words)?;
    println!(rt; "{} rows, {} differences", replay.rows, replay.differences)
}
