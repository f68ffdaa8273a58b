// Rounding, floor, maximum, minimum and the casts at the edges where a slip shows.
use crate::show;
use routines::casts::{from_u64, to_u32, to_u64};
use routines::pick::{max, min};
use routines::whole::{floor, round};

fn round_at<R: Print>(rt: &R, x: f64) {
    show::one(rt, b"round", x, round(x));
    show::one(rt, b"round", -x, round(-x));
}

fn floor_at<R: Print>(rt: &R, x: f64) {
    show::one(rt, b"floor", x, floor(x));
    show::one(rt, b"floor", -x, floor(-x));
}

fn rounding<R: Print>(rt: &R) {
    for x in [
        0.0,
        0.3,
        0.49999999999999994,
        0.5,
        1.5,
        2.5,
        4503599627370495.5,
        4503599627370497.0,
        9007199254740993.0,
        1e300,
        f64::INFINITY,
        f64::NAN,
    ] {
        round_at(rt, x);
    }
}

fn floors<R: Print>(rt: &R) {
    for x in [
        0.0,
        0.3,
        0.9999999999999999,
        1.0,
        2.5,
        4503599627370495.5,
        4503599627370497.0,
        1e300,
        f64::INFINITY,
        f64::NAN,
    ] {
        floor_at(rt, x);
    }
}

fn pair<R: Print>(rt: &R, a: f64, b: f64) {
    show::two(rt, b"max", a, b, max(a, b));
    show::two(rt, b"min", a, b, min(a, b));
}

fn pairs<R: Print>(rt: &R) {
    for (a, b) in [
        (1.0, 2.0),
        (2.0, 1.0),
        (0.0, -0.0),
        (-0.0, 0.0),
        (f64::NAN, 1.0),
        (1.0, f64::NAN),
        (f64::NAN, f64::NAN),
        (f64::NEG_INFINITY, f64::NAN),
    ] {
        pair(rt, a, b);
    }
}

fn cast<R: Print>(rt: &R, x: f64) {
    show::cast(rt, b"to_u32", x, u64::from(to_u32(x)));
    show::cast(rt, b"to_u64", x, to_u64(x));
}

fn casts<R: Print>(rt: &R) {
    for x in [
        -1.0,
        -0.9,
        0.9,
        4294967295.9,
        4294967296.0,
        9007199254740993.0,
        18446744073709549568.0,
        18446744073709551616.0,
        f64::INFINITY,
        f64::NEG_INFINITY,
        f64::NAN,
    ] {
        cast(rt, x);
    }
    show::one(
        rt,
        b"from_u64",
        18446744073709551616.0,
        from_u64(18446744073709551615),
    );
    show::one(
        rt,
        b"from_u64",
        9007199254740992.0,
        from_u64(9007199254740993),
    );
}

pub(crate) fn all<R: Print>(rt: &R) {
    rounding(rt);
    floors(rt);
    pairs(rt);
    casts(rt);
}
