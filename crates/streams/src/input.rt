// Reading a reader, with an error of reading told from its end.
ghost use Rattle.streams.specs.Within.{Within, IsFront};

use std::io::{Error, ErrorKind, Read, Result};

// Reads until the lent bytes are full or the input ends, however few bytes come at a time, and answers how many came. A
// read that a signal interrupts is begun again. The turns are counted, up to a number that no run uses up, since a
// proved loop has to end.
pub fn read_input<R: Read>(from: &mut R, bytes: &mut [u8]) -> Result<usize>
    ensures within { Within result bytes.new }
    ensures front { IsFront result bytes.new (R.remaining from.old) (R.remaining from.new) }
{
    let mut done = 0;
    for _ in 0..u64::MAX {
        if done >= bytes.len() {
            return Ok(done);
        }
        match from.read(&mut bytes[done..]) {
            Ok(0) => return Ok(done),
            Ok(n) => done += n,
            Err(e) => {
                if e.kind() != ErrorKind::Interrupted {
                    return Err(e);
                }
            }
        }
    }
    Err(Error::from(ErrorKind::TimedOut))
}
