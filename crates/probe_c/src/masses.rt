// The mixture of a lobe and a shelf.
ghost use Rattle.std.specs.Prelude.{◌≡◌};
ghost use Rattle.exports.specs.Flat.{shelf_of};
ghost use Rattle.helpers.specs.Shelves.{mixed};

use exports::shelf::FlatShelf;

#[unsafe(no_mangle)]
pub extern "C" fn fog_mix_shelf(lobe: f64, shelf: FlatShelf, at: f64) -> f64
    ensures { result ≡ mixed lobe (shelf_of shelf) at }
{
    probe::masses::fog_mix_shelf(lobe, shelf, at)
}
