// What a fit holds that is no number, as numbers: a family is 0 for its first case and 1 for its second, a part 0 where
// it is absent and 1 where it is present. Read back, any number but 0 is the second.
ghost use Rattle.std.specs.Prelude.{◌≡◌, cond, eqb, None, Some};
ghost use Rattle.std.specs.Option.{is_some};
ghost use Rattle.meaning.specs.Flags.{byte_of};
ghost use Rattle.models.specs.Parts.{error_number, genome_number, error_of, genome_of, shape_there, shape_number};
ghost use Rattle.models.specs.Parts.{shape_of, shelf_there, shelf_held, shelf_from};

use crate::families::{ErrorModel, GenomeModel};
use helpers::shelves::Shelf;
use meaning::flags::byte_of;

impl From<ErrorModel> for u8 {
    ghost from_gives = { λ error number. number ≡ error_number error };

    fn from(error: ErrorModel) -> u8 {
        match error {
            ErrorModel::FreeSingletonWeibull => 0,
            ErrorModel::SingletonPareto => 1,
        }
    }
}

impl From<u8> for ErrorModel {
    ghost from_gives = { λ number error. error ≡ error_of number };

    fn from(number: u8) -> ErrorModel {
        if number == 0 {
            return ErrorModel::FreeSingletonWeibull;
        }
        ErrorModel::SingletonPareto
    }
}

impl From<GenomeModel> for u8 {
    ghost from_gives = { λ genome number. number ≡ genome_number genome };

    fn from(genome: GenomeModel) -> u8 {
        match genome {
            GenomeModel::NegativeBinomial => 0,
            GenomeModel::ShelfNegativeBinomial => 1,
        }
    }
}

impl From<u8> for GenomeModel {
    ghost from_gives = { λ number genome. genome ≡ genome_of number };

    fn from(number: u8) -> GenomeModel {
        if number == 0 {
            return GenomeModel::NegativeBinomial;
        }
        GenomeModel::ShelfNegativeBinomial
    }
}

fn presence_of<T: Copy>(part: Option<T>) -> u8
    ensures { result ≡ byte_of (is_some part) }
{
    byte_of(part.is_some())
}

fn held_by<T: Copy>(present: u8, part: T) -> Option<T>
    ensures { result ≡ cond (eqb present 0) None (Some part) }
{
    (present != 0).then_some(part)
}

pub fn shape_there(shape: Option<f64>) -> u8
    ensures { result ≡ shape_there shape }
{
    presence_of(shape)
}

// 0 for a shape that is not there.
pub fn shape_number(shape: Option<f64>) -> f64
    ensures { result ≡ shape_number shape }
{
    shape.unwrap_or(0.0)
}

pub fn shape_of(present: u8, shape: f64) -> Option<f64>
    ensures { result ≡ shape_of present shape }
{
    held_by(present, shape)
}

pub fn shelf_there(shelf: Option<Shelf>) -> u8
    ensures { result ≡ shelf_there shelf }
{
    presence_of(shelf)
}

// Three zeros for a shelf that is not there.
pub fn shelf_held(shelf: Option<Shelf>) -> Shelf
    ensures { result ≡ shelf_held shelf }
{
    shelf.unwrap_or(Shelf {
        share: 0.0,
        alpha: 0.0,
        beta: 0.0,
    })
}

pub fn shelf_from(present: u8, shelf: Shelf) -> Option<Shelf>
    ensures { result ≡ shelf_from present shelf }
{
    held_by(present, shelf)
}
