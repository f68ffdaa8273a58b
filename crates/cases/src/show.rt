// A line for a case: the call's name, its arguments and its answer, floats as 16 hexadecimal digits of their bits.
use histogram::reader::ReadError;
use meaning::refusals::Refusal;

// A failed write is seen by whoever compares what was written.
fn put<R: Print>(rt: &R, text: &[u8]) {
    let _ = rt.write_all(text);
}

fn decimal<R: Print>(rt: &R, n: u64) {
    let _ = print!(rt; "{n}");
}

pub(crate) fn bits<R: Print>(rt: &R, x: f64) {
    if x != x {
        put(rt, b"nan");
    } else {
        let pattern = f64::to_bits(x);
        let _ = print!(rt; "{pattern:016x}");
    }
}

fn space<R: Print>(rt: &R) {
    put(rt, b" ");
}

fn end<R: Print>(rt: &R) {
    put(rt, b"\n");
}

pub(crate) fn one<R: Print>(rt: &R, text: &[u8], x: f64, answer: f64) {
    name(rt, text);
    bits(rt, x);
    space(rt);
    value(rt, answer);
}

pub(crate) fn two<R: Print>(rt: &R, text: &[u8], a: f64, b: f64, answer: f64) {
    name(rt, text);
    bits(rt, a);
    space(rt);
    bits(rt, b);
    space(rt);
    value(rt, answer);
}

pub(crate) fn cast<R: Print>(rt: &R, text: &[u8], x: f64, answer: u64) {
    name(rt, text);
    bits(rt, x);
    space(rt);
    decimal(rt, answer);
    end(rt);
}

pub(crate) fn name<R: Print>(rt: &R, text: &[u8]) {
    put(rt, text);
    space(rt);
}

// A name that ends in a number.
pub(crate) fn label<R: Print>(rt: &R, text: &[u8], n: u64) {
    name(rt, text);
    decimal(rt, n);
    space(rt);
}

pub(crate) fn number<R: Print>(rt: &R, text: &[u8], n: u64) {
    name(rt, text);
    decimal(rt, n);
    end(rt);
}

pub(crate) fn value<R: Print>(rt: &R, x: f64) {
    bits(rt, x);
    end(rt);
}

pub(crate) fn refused<R: Print>(rt: &R, refusal: Refusal) {
    number(rt, b"refused", u64::from(u8::from(refusal)));
}

fn byte<R: Print>(rt: &R, b: u8) {
    space(rt);
    let _ = print!(rt; "{b:02x}");
}

pub(crate) fn bytes<R: Print>(rt: &R, text: &[u8], bytes: &[u8]) {
    put(rt, text);
    for b in bytes {
        byte(rt, *b);
    }
    end(rt);
}

// The first n bytes of a text; of a long one, how many there are.
pub(crate) fn text<R: Print>(rt: &R, text: &[u8], n: usize) {
    if n >= 64 {
        number(rt, b"listed in bytes", n as u64);
        return;
    }
    if n < text.len() {
        put(rt, &text[..n]);
    }
}

pub(crate) fn written<R: Print>(rt: &R, text: &[u8], n: u64, answer: Result<usize, Refusal>) {
    label(rt, text, n);
    match answer {
        Ok(size) => number(rt, b"bytes", size as u64),
        Err(refusal) => refused(rt, refusal),
    }
}

pub(crate) fn read<R: Print>(rt: &R, text: &[u8], n: u64, answer: Result<usize, ReadError>) {
    label(rt, text, n);
    match answer {
        Ok(size) => number(rt, b"bins", size as u64),
        Err(ReadError::Broken(place)) => number(rt, b"refused 3 at", place as u64),
        Err(ReadError::Refused(refusal)) => refused(rt, refusal),
    }
}
