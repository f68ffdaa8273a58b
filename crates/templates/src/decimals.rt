// A whole number in decimal.
ghost use Rattle.std.specs.Prelude.{◌≡◌, length};
ghost use Rattle.listing.specs.Decimal.{decimal_of};
ghost use Rattle.templates.specs.Cut.{put_at, end_at};

use crate::puts::put_text;
use io::decimal;

pub(crate) fn put_decimal(out: &mut [u8], at: usize, n: u64) -> usize
    ensures value { result ≡ end_at at (decimal_of n) (length out.old) }
    ensures out_after { out.new ≡ put_at at (decimal_of n) out.old }
{
    let mut digits = [0u8; 20];
    let size = decimal(n, &mut digits);
    put_text(out, at, &digits[..size])
}
