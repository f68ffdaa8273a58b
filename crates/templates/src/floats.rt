// A float as text: its pattern, and a decimal for eyes.
ghost use Rattle.std.specs.Prelude.{◌≡◌, length, ◌%◌};
ghost use Rattle.std.specs.Float.{binary64};
ghost use Rattle.std.specs.Float.Ieee.{of_bits};
ghost use Rattle.listing.specs.Decimal.{digit_of};
ghost use Rattle.templates.specs.Cut.{put_at, end_at};
ghost use Rattle.templates.specs.Floats.{six_of, whole_of, millionths_of, places_of, size_of, eyes_of, float_of};

use crate::decimals::put_decimal;
use crate::puts::put_text;
use io::hex;
use routines::casts::to_u64;
use routines::whole::{floor, round};

const MILLION: f64 = 1000000.0;
// 2^53
const FAR: f64 = 9007199254740992.0;
// The largest pattern of an infinity without its sign; above it are the NaNs'.
const INFINITE: u64 = 0x7ff0_0000_0000_0000;

const SIGN: u64 = 0x8000_0000_0000_0000;

#[derive(Clone, Copy)]
struct Parts {
    whole: u64,
    millionths: u64,
}

// The whole part, and the rest in millionths, rounded; a whole million is carried.
fn parts_of(t: f64) -> Parts
    ensures whole_value { result.whole ≡ whole_of t }
    ensures millionths_value { result.millionths ≡ millionths_of t }
{
    let whole = floor(t);
    let rest = round((t - whole) * MILLION);
    if rest >= MILLION {
        return Parts {
            whole: to_u64(whole + 1.0),
            millionths: 0,
        };
    }
    Parts {
        whole: to_u64(whole),
        millionths: to_u64(rest),
    }
}

fn digit(n: u64) -> u8
    ensures { result ≡ digit_of (n % 10) }
{
    (48 + n % 10) as u8
}

fn six(n: u64) -> [u8; 6]
    ensures { result ≡ six_of n }
{
    [
        digit(n / 100000),
        digit(n / 10000),
        digit(n / 1000),
        digit(n / 100),
        digit(n / 10),
        digit(n),
    ]
}

// A number that is not negative, with six places.
fn put_places(out: &mut [u8], at: usize, t: f64) -> usize
    ensures value { result ≡ end_at at (places_of t) (length out.old) }
    ensures out_after { out.new ≡ put_at at (places_of t) out.old }
{
    let p = parts_of(t);
    let point = put_decimal(out, at, p.whole);
    let behind = put_text(out, point, b".");
    let tail = six(p.millionths);
    put_text(out, behind, &tail)
}

#[tactic(auto, unfolding(crate::specs::Floats::size_of))]
fn size(x: f64) -> f64
    ensures { result ≡ size_of x }
{
    if x < 0.0 {
        return -x;
    }
    x
}

fn put_eyes(out: &mut [u8], at: usize, x: f64) -> usize
    ensures value { result ≡ end_at at (eyes_of x) (length out.old) }
    ensures out_after { out.new ≡ put_at at (eyes_of x) out.old }
{
    let t = size(x);
    if t < FAR {
        if x < 0.0 {
            let behind = put_text(out, at, b"-");
            return put_places(out, behind, t);
        }
        return put_places(out, at, t);
    }
    put_text(out, at, b"-")
}

// The float of a pattern; every pattern of a NaN gives the one NaN.
pub fn float(bits: u64) -> f64
    ensures { result ≡ of_bits binary64 bits }
{
    if bits % SIGN > INFINITE {
        return f64::NAN;
    }
    f64::from_bits(bits)
}

pub(crate) fn put_float(out: &mut [u8], at: usize, bits: u64) -> usize
    ensures value { result ≡ end_at at (float_of bits) (length out.old) }
    ensures out_after { out.new ≡ put_at at (float_of bits) out.old }
{
    let mut digits = [0u8; 16];
    let n = hex(bits, 16, &mut digits);
    let space = put_text(out, at, &digits[..n]);
    let behind = put_text(out, space, b" ");
    put_eyes(out, behind, float(bits))
}
