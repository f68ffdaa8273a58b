// What a shelf may be.
ghost use Rattle.std.specs.Prelude.{◌≡◌};
ghost use Rattle.models.specs.ShelfRules.{retained_of, concentration_of, bounds_of, shelf_is_valid_of};
ghost use Rattle.exports.specs.Flat.{shelf_of};
ghost use Rattle.probe.specs.FlatModels.{of_bounds};

use exports::shelf::FlatShelf;
use probe::tables::FlatPair;

#[unsafe(no_mangle)]
pub extern "C" fn fog_retained(shelf: FlatShelf) -> f64
    ensures { result ≡ retained_of (shelf_of shelf) }
{
    probe::shelf_rules::fog_retained(shelf)
}

#[unsafe(no_mangle)]
pub extern "C" fn fog_concentration(shelf: FlatShelf) -> f64
    ensures { result ≡ concentration_of (shelf_of shelf) }
{
    probe::shelf_rules::fog_concentration(shelf)
}

#[unsafe(no_mangle)]
pub extern "C" fn fog_shelf_concentration_bounds(retained: f64) -> FlatPair
    ensures { result ≡ of_bounds (bounds_of retained) }
{
    probe::shelf_rules::fog_shelf_concentration_bounds(retained)
}

#[unsafe(no_mangle)]
pub extern "C" fn fog_shelf_is_valid(shelf: FlatShelf) -> bool
    ensures { result ≡ shelf_is_valid_of (shelf_of shelf) }
{
    probe::shelf_rules::fog_shelf_is_valid(shelf)
}
