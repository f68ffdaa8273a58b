// The shelf table.
ghost use Rattle.std.specs.Prelude.{◌≡◌, length};
ghost use Rattle.helpers.specs.Shelves.{shelf_log_table_of, table_after};
ghost use Rattle.exports.specs.Flat.{shelf_of, say_written};

use crate::answers::{FlatWritten, said_written};
use crate::shelf::{FlatShelf, shelf_of};
use helpers::shelves::shelf_log_table;

pub fn fog_shelf_log_table(
    mean: f64,
    shelf: FlatShelf,
    top: usize,
    table: &mut [f64],
) -> FlatWritten
    ensures value { result ≡ say_written (shelf_log_table_of mean top (length table.old)) }
    ensures table_after { table.new ≡ table_after mean (shelf_of shelf) top table.old }
{
    said_written(shelf_log_table(mean, shelf_of(shelf), top, table))
}
