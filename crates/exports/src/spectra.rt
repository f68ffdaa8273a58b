// The bins as the sample had them, and the shelf share that a search starts from.
ghost use Rattle.std.specs.Prelude.{◌≡◌, length};
ghost use Rattle.meaning.specs.Lent.{counted, laid};
ghost use Rattle.fitter.specs.Recovering.{recover_bins_of};
ghost use Rattle.fitter.specs.Shares.{shelf_share_of};
ghost use Rattle.exports.specs.Flat.{say_number, say_written};

use crate::answers::{FlatNumber, FlatWritten, said_number, said_written};
use fitter::recovering::recover_bins;
use fitter::shares::empirical_shelf_share;

pub fn fog_recover_bins(bins: &[u32], scale: f64, out: &mut [u32]) -> FlatWritten
    ensures value { result ≡ say_written (counted (recover_bins_of bins.now scale (length out.old))) }
    ensures out_after { out.new
        ≡ laid (recover_bins_of bins.now scale (length out.old)) out.old }
{
    said_written(recover_bins(bins, scale, out))
}

pub fn fog_empirical_shelf_share(bins: &[u32], scale: f64, valley: usize, peak: usize) -> FlatNumber
    ensures { result ≡ say_number (shelf_share_of bins.now scale valley peak) }
{
    said_number(empirical_shelf_share(bins, scale, valley, peak))
}
