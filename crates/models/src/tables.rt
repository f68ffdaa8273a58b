// The shelf's table, written into the front of a lent slice.
ghost use Rattle.std.specs.Prelude.{◌≡◌, length};
ghost use Rattle.meaning.specs.Over.{over};
ghost use Rattle.models.specs.Tables.{entries_in};

use helpers::shelves::{Shelf, shelf_log_table};
use helpers::window_ends::WindowEnd;

// How many entries were written: all, and none where there is no shelf or they do not fit.
pub(crate) fn fill_table(
    mean: f64,
    shelf: Option<Shelf>,
    end: WindowEnd,
    table: &mut [f64],
) -> usize
    ensures value { result ≡ length (entries_in shelf mean end.count (length table.old)) }
    ensures table_after { table.new ≡ over (entries_in shelf mean end.count (length table.old)) table.old }
{
    match shelf {
        None => 0,
        Some(s) => { shelf_log_table(mean, s, end.count() as usize, table).unwrap_or(0) }
    }
}
