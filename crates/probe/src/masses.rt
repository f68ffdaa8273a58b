// The mixture of a lobe and a shelf.
ghost use Rattle.std.specs.Prelude.{◌≡◌};
ghost use Rattle.exports.specs.Flat.{shelf_of};
ghost use Rattle.helpers.specs.Shelves.{mixed};

use exports::shelf::{FlatShelf, shelf_of};
use helpers::shelves::mix_shelf;

pub fn fog_mix_shelf(lobe: f64, shelf: FlatShelf, at: f64) -> f64
    ensures { result ≡ mixed lobe (shelf_of shelf) at }
{
    mix_shelf(lobe, shelf_of(shelf), at)
}
