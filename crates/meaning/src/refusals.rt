// What comes back instead of an answer: the refusals in the order of docs/NUMBERS.md, the first that applies, each with
// its number there and its words.
ghost use Rattle.std.specs.Prelude.{◌≡◌};
ghost use Rattle.meaning.specs.Answers.{number_of};

use std::error::Error;
use std::fmt;

#[derive(Clone, Copy, Debug, PartialEq, Eq, Hash)]
pub enum Refusal {
    TooSmall = 1,
    TooLarge = 2,
    BrokenFile = 3,
    AllBinsZero = 4,
    NoWindow = 5,
    NothingRecovered = 6,
    WrongLength = 7,
    NanScanned = 8,
    WrongLimitOrCost = 9,
    TooShort = 10,
}

impl From<Refusal> for u8 {
    ghost from_gives = { λ refusal number. number ≡ number_of refusal };

    fn from(refusal: Refusal) -> u8 {
        refusal as u8
    }
}

impl fmt::Display for Refusal {
    fn fmt<W: fmt::Write>(&self, f: &mut fmt::Formatter<W>) -> fmt::Result {
        f.write_str(match self {
            Refusal::TooSmall => "the peak, the valley or the number of bins is below 2",
            Refusal::TooLarge => {
                "the bins, the peak, the valley, a count, the window end or the runs are above the limit"
            }
            Refusal::BrokenFile => "the histogram file is broken",
            Refusal::AllBinsZero => "all bins are zero",
            Refusal::NoWindow => "the window end is 0, or beyond the bins",
            Refusal::NothingRecovered => "every recovered bin in the window is zero",
            Refusal::WrongLength => {
                "a parameter list, a start table, the shapes or the starts have the wrong length"
            }
            Refusal::NanScanned => "a log probability scanned for the error mode is a NaN",
            Refusal::WrongLimitOrCost => {
                "a converged run's cost or the mass limit is not finite or too small"
            }
            Refusal::TooShort => {
                "lent memory is too short for the answer, the shelf table or the runs"
            }
        })
    }
}

impl Error for Refusal {}
