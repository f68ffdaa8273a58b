// The parts of the single-copy mixture: the shelf's logs, and one entry mixed with them.
ghost use Rattle.std.specs.Prelude.{◌≡◌};
ghost use Rattle.exports.specs.Flat.{part_of};
ghost use Rattle.helpers.specs.Hoists.{shelf_logs_of, mix_entry_of};
ghost use Rattle.probe.specs.Flat.{of_shelf_logs, to_shelf_logs};

use exports::shelf::FlatShelf;
use probe::tables::FlatPair;

#[unsafe(no_mangle)]
pub extern "C" fn fog_shelf_logs(present: u8, shelf: FlatShelf) -> FlatPair
    ensures { result ≡ of_shelf_logs (shelf_logs_of (part_of present shelf)) }
{
    probe::shelves::fog_shelf_logs(present, shelf)
}

#[unsafe(no_mangle)]
pub extern "C" fn fog_mix_entry(
    lobe: f64,
    count: f64,
    present: u8,
    shelf: FlatShelf,
    rest: f64,
    share: f64,
    table: &[f64],
) -> f64
    ensures { result ≡ mix_entry_of lobe count (part_of present shelf) (to_shelf_logs rest share) table.now }
{
    probe::shelves::fog_mix_entry(lobe, count, present, shelf, rest, share, table)
}
