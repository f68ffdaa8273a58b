// The histogram file: reading it into lent bins and writing it into lent bytes.
ghost use Rattle.std.specs.Prelude.{◌≡◌, length};
ghost use Rattle.meaning.specs.Lent.{laid, counted};
ghost use Rattle.histogram.specs.Read.{read_histogram_of, file_says};
ghost use Rattle.histogram.specs.Write.{write_histogram_of};
ghost use Rattle.exports.specs.Flat.{say_written};
ghost use Rattle.exports.specs.FlatFile.{fault_of, fault_says, say_file};

use crate::answers::{FlatWritten, said_written};
use histogram::reader::{ReadError, read_histogram};
use histogram::writer::write_histogram;
use meaning::refusals::Refusal;

// `place` is the place of the first fault where the number is 3, and 0 otherwise.
#[repr(C)]
#[derive(Clone, Copy)]
pub struct FlatFile {
    pub number: u8,
    pub items: usize,
    pub place: usize,
}

// The place of the file's first fault, or the number of what else is refused: any number.
#[derive(Clone, Copy)]
pub enum FileFault {
    Broken(usize),
    Refused(u8),
}

impl From<ReadError> for FileFault {
    ghost from_gives = { λ error fault. fault ≡ fault_of error };

    fn from(error: ReadError) -> FileFault {
        match error {
            ReadError::Broken(place) => FileFault::Broken(place),
            ReadError::Refused(refusal) => FileFault::Refused(u8::from(refusal)),
        }
    }
}

fn faulted(answer: Result<usize, ReadError>) -> Result<usize, FileFault>
    ensures { fault_says result ≡ file_says answer }
{
    match answer {
        Ok(items) => Ok(items),
        Err(error) => Err(FileFault::from(error)),
    }
}

pub fn flat_file(answer: Result<usize, FileFault>) -> FlatFile
    ensures { result ≡ say_file (fault_says answer) }
{
    match answer {
        Ok(items) => FlatFile {
            number: 0,
            items,
            place: 0,
        },
        Err(FileFault::Broken(place)) => FlatFile {
            number: u8::from(Refusal::BrokenFile),
            items: 0,
            place,
        },
        Err(FileFault::Refused(number)) => FlatFile {
            number,
            items: 0,
            place: 0,
        },
    }
}

// What the reader answers.
pub fn said_file(answer: Result<usize, ReadError>) -> FlatFile
    ensures { result ≡ say_file (file_says answer) }
{
    flat_file(faulted(answer))
}

pub fn fog_read_histogram(file: &[u8], bins: &mut [u32]) -> FlatFile
    ensures value { result ≡ say_file (counted (read_histogram_of file.now (length bins.old))) }
    ensures bins_after { bins.new
        ≡ laid (read_histogram_of file.now (length bins.old)) bins.old }
{
    said_file(read_histogram(file, bins))
}

pub fn fog_write_histogram(bins: &[u32], file: &mut [u8]) -> FlatWritten
    ensures value { result ≡ say_written (counted (write_histogram_of bins.now (length file.old))) }
    ensures file_after { file.new
        ≡ laid (write_histogram_of bins.now (length file.old)) file.old }
{
    said_written(write_histogram(bins, file))
}
