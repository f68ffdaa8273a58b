// The shelf, as C has it: three numbers, and beside them whether it is there, 0 for no and any other number for yes.
ghost use Rattle.std.specs.Prelude.{◌≡◌};
ghost use Rattle.exports.specs.Flat.{shelf_of, part_of};

use helpers::shelves::Shelf;

#[repr(C)]
#[derive(Clone, Copy)]
pub struct FlatShelf {
    pub share: f64,
    pub alpha: f64,
    pub beta: f64,
}

pub fn shelf_of(shelf: FlatShelf) -> Shelf
    ensures { result ≡ shelf_of shelf }
{
    Shelf {
        share: shelf.share,
        alpha: shelf.alpha,
        beta: shelf.beta,
    }
}

pub fn part_of(present: u8, shelf: FlatShelf) -> Option<Shelf>
    ensures { result ≡ part_of present shelf }
{
    (present != 0).then_some(shelf_of(shelf))
}
