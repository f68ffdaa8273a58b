// The four routines at Annex F's values, at the ends of their ranges and at a few ordinary points.
use crate::show;
use routines::exp::exp;
use routines::expm1::expm1;
use routines::lgamma::lgamma;
use routines::ln::ln;

fn at<R: Print>(rt: &R, x: f64) {
    show::one(rt, b"exp", x, exp(x));
    show::one(rt, b"ln", x, ln(x));
    show::one(rt, b"expm1", x, expm1(x));
    show::one(rt, b"lgamma", x, lgamma(x));
}

fn both<R: Print>(rt: &R, x: f64) {
    at(rt, x);
    at(rt, -x);
}

pub(crate) fn all<R: Print>(rt: &R) {
    for x in [
        0.0,
        1.0,
        2.0,
        0.5,
        3.7,
        30.0,
        5e-324,
        2.2250738585072014e-308,
        1e-17,
        709.782712893384,
        709.7827128933841,
        745.1332191019411,
        745.1332191019412,
        4503599627370496.5,
        1e300,
        1.7976931348623157e308,
        f64::INFINITY,
    ] {
        both(rt, x);
    }
    at(rt, f64::NAN);
}
