// Answers that can refuse, as C has them: a number, 0 for an answer, and the value beside it, 0 for a refusal.
ghost use Rattle.std.specs.Prelude.{◌≡◌};
ghost use Rattle.meaning.specs.Answers.{reply_of, number_in};
ghost use Rattle.exports.specs.Flat.{reply_in, say_number, say_written, say_count};
ghost use Rattle.exports.specs.FlatFits.{say_heights};

use meaning::refusals::Refusal;
use models::height_terms::Heights;

#[repr(C)]
#[derive(Clone, Copy)]
pub struct FlatNumber {
    pub number: u8,
    pub value: f64,
}

#[repr(C)]
#[derive(Clone, Copy)]
pub struct FlatWritten {
    pub number: u8,
    pub items: usize,
}

#[repr(C)]
#[derive(Clone, Copy)]
pub struct FlatCount {
    pub number: u8,
    pub count: u64,
}

#[repr(C)]
#[derive(Clone, Copy)]
pub struct FlatHeights {
    pub number: u8,
    pub error: f64,
    pub single: f64,
    pub repeat: f64,
}

// The number of a refusal, 0 for an answer.
pub(crate) fn number_in<T: Copy>(answer: Result<T, Refusal>) -> u8
    ensures { result ≡ number_in answer }
{
    match answer {
        Ok(_) => 0,
        Err(refusal) => u8::from(refusal),
    }
}

// An answer with the refusal's number for the refusal.
pub(crate) fn numbered<T: Copy>(answer: Result<T, Refusal>) -> Result<T, u8>
    ensures { reply_in result ≡ reply_of answer }
{
    match answer {
        Ok(value) => Ok(value),
        Err(refusal) => Err(u8::from(refusal)),
    }
}

// Any number may stand for a refusal, and comes back.
pub fn flat_number(answer: Result<f64, u8>) -> FlatNumber
    ensures { result ≡ say_number (reply_in answer) }
{
    match answer {
        Ok(value) => FlatNumber { number: 0, value },
        Err(number) => FlatNumber { number, value: 0.0 },
    }
}

pub fn flat_written(answer: Result<usize, u8>) -> FlatWritten
    ensures { result ≡ say_written (reply_in answer) }
{
    match answer {
        Ok(items) => FlatWritten { number: 0, items },
        Err(number) => FlatWritten { number, items: 0 },
    }
}

// The libraries' answers.
pub fn said_number(answer: Result<f64, Refusal>) -> FlatNumber
    ensures { result ≡ say_number (reply_of answer) }
{
    flat_number(numbered(answer))
}

pub fn said_written(answer: Result<usize, Refusal>) -> FlatWritten
    ensures { result ≡ say_written (reply_of answer) }
{
    flat_written(numbered(answer))
}

pub(crate) fn flat_count(answer: Result<u64, Refusal>) -> FlatCount
    ensures { result ≡ say_count (reply_of answer) }
{
    FlatCount {
        number: number_in(answer),
        count: answer.unwrap_or(0),
    }
}

pub(crate) fn flat_heights(answer: Result<Heights, Refusal>) -> FlatHeights
    ensures { result ≡ say_heights (reply_of answer) }
{
    let h = answer.unwrap_or(Heights {
        error: 0.0,
        single: 0.0,
        repeat: 0.0,
    });
    FlatHeights {
        number: number_in(answer),
        error: h.error,
        single: h.single,
        repeat: h.repeat,
    }
}
