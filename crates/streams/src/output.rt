// Writing all of some bytes, and asking the disk whether it has them.
ghost use Rattle.std.specs.Prelude.{OnOk};
ghost use Rattle.std.specs.Io.KnownBytes.{Appends};
ghost use Rattle.streams.specs.Taken.{Taken};

use std::fs::{OpenFile, OpenOptions};
use std::io::{Error, ErrorKind, Result, Write};
use std::rt::Files;

const STDOUT: &str = "/proc/self/fd/1";

// Writes on until all bytes are written, and fails where a write fails or takes nothing. A write that a signal
// interrupts is begun again, with the turns counted as in `read_input`.
pub fn write_output<W: Write>(to: &mut W, bytes: &[u8]) -> Result<()>
    ensures taken { Taken bytes.now result }
    ensures whole { OnOk result (Appends (W.contents to.old) (W.contents to.new) bytes.now) }
{
    let mut done = 0;
    for _ in 0..u64::MAX {
        if done >= bytes.len() {
            return Ok(());
        }
        match to.write(&bytes[done..]) {
            Ok(0) => return Err(Error::from(ErrorKind::WriteZero)),
            Ok(n) => done += n,
            Err(e) => {
                if e.kind() != ErrorKind::Interrupted {
                    return Err(e);
                }
            }
        }
    }
    Err(Error::from(ErrorKind::TimedOut))
}

// Where standard output is a file, waits until its disk has it, since some disks tell of a failed write only then. A
// pipe or a terminal has no disk, and of a file that can't be opened once more or be waited for nothing can be learned.
pub fn settle_output<R: Files>(rt: &R) -> Result<()> {
    match rt.metadata(STDOUT) {
        Ok(found) => {
            if !found.is_file() {
                return Ok(());
            }
        }
        Err(_) => return Ok(()),
    }
    match OpenOptions::new().write(true).open(rt, STDOUT) {
        Ok(file) => {
            let settled = file.sync_data();
            told(settled)
        }
        Err(_) => Ok(()),
    }
}

// Some files can't be waited for.
fn told(settled: Result<()>) -> Result<()> {
    match settled {
        Ok(()) => Ok(()),
        Err(e) => {
            if e.kind() == ErrorKind::InvalidInput || e.kind() == ErrorKind::Unsupported {
                return Ok(());
            }
            Err(e)
        }
    }
}
