// What a shelf may be.
ghost use Rattle.std.specs.Prelude.{◌≡◌};
ghost use Rattle.models.specs.ShelfRules.{retained_of, concentration_of, bounds_of, shelf_is_valid_of};
ghost use Rattle.exports.specs.Flat.{shelf_of};
ghost use Rattle.probe.specs.FlatModels.{of_bounds};

use crate::tables::FlatPair;
use exports::shelf::{FlatShelf, shelf_of};
use models::shelf_rules::{concentration, retained, shelf_concentration_bounds, shelf_is_valid};

pub fn fog_retained(shelf: FlatShelf) -> f64
    ensures { result ≡ retained_of (shelf_of shelf) }
{
    retained(shelf_of(shelf))
}

pub fn fog_concentration(shelf: FlatShelf) -> f64
    ensures { result ≡ concentration_of (shelf_of shelf) }
{
    concentration(shelf_of(shelf))
}

// The lower bound, then the upper one.
pub fn fog_shelf_concentration_bounds(retained: f64) -> FlatPair
    ensures { result ≡ of_bounds (bounds_of retained) }
{
    let bounds = shelf_concentration_bounds(retained);
    FlatPair {
        first: bounds.low,
        second: bounds.high,
    }
}

pub fn fog_shelf_is_valid(shelf: FlatShelf) -> bool
    ensures { result ≡ shelf_is_valid_of (shelf_of shelf) }
{
    shelf_is_valid(shelf_of(shelf))
}
