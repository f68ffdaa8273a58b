// Histogram files at the limits: each file's bytes and its listing, and what the writer makes of the limits' bin
// counts.
use crate::show;
use histogram::reader::{LONGEST_FILE, MAX_FILE_BINS, ReadError, read_histogram};
use histogram::writer::write_histogram;
use listing::text::{LONGEST_LISTING, list_histogram, list_refusal};
use meaning::refusals::Refusal;

const ENOUGH: usize = LONGEST_FILE + 1;

fn list_first(bins: &[u32], n: usize, text: &mut [u8]) -> Result<usize, Refusal> {
    list_histogram(&bins[..n.min(bins.len())], text)
}

fn list(file: &[u8], text: &mut [u8]) -> Result<usize, Refusal> {
    let mut bins = [0u32; MAX_FILE_BINS];
    match read_histogram(file, &mut bins) {
        Ok(n) => list_first(&bins, n, text),
        Err(ReadError::Broken(place)) => list_refusal(place, text),
        Err(ReadError::Refused(refusal)) => Err(refusal),
    }
}

fn listing_of<R: Print>(rt: &R, file: &[u8]) {
    let mut text = [0u8; LONGEST_LISTING];
    let written = list(file, &mut text);
    match written {
        Ok(n) => show::text(rt, &text, n),
        Err(refusal) => show::refused(rt, refusal),
    }
}

fn file<R: Print>(rt: &R, bytes: &[u8]) {
    show::bytes(rt, b"file", bytes);
    listing_of(rt, bytes);
}

// The first number, the form.
fn forms<R: Print>(rt: &R) {
    file(rt, b"");
    file(rt, b"\x00");
    file(rt, b"\x02");
    file(rt, b"\x81");
    file(rt, b"\x81\x00");
    file(rt, b"\x01");
}

// The second, the bin count: 0, 1, 2 and 2,048.
fn counts<R: Print>(rt: &R) {
    file(rt, b"\x01\x80");
    file(rt, b"\x01\x00");
    file(rt, b"\x01\x01\x00");
    file(rt, b"\x01\x82\x00\x00\x00");
    file(rt, b"\x01\x02\x00\x00");
    file(rt, b"\x01\x80\x10");
    file(rt, b"\x01\x80\x80\x01");
}

// The bins: missing, cut short, too long.
fn bins<R: Print>(rt: &R) {
    file(rt, b"\x01\x03\xAC\x02\x00\x05");
    file(rt, b"\x01\x02");
    file(rt, b"\x01\x02\x05");
    file(rt, b"\x01\x02\x05\x80");
    file(rt, b"\x01\x02\x80\x00\x00");
    file(rt, b"\x01\x02\x05\x80\x00");
}

// The largest bin and one above it, and bytes behind the last.
fn largest<R: Print>(rt: &R) {
    file(rt, b"\x01\x02\xFF\xFF\xFF\xFF\x0F\x00");
    file(rt, b"\x01\x02\x00\xFF\xFF\xFF\xFF\x0F");
    file(rt, b"\x01\x02\x80\x80\x80\x80\x10\x00");
    file(rt, b"\x01\x02\x00\x80\x80\x80\x80\x10");
    file(rt, b"\x01\x02\x00\x80\x80\x80\x80\x00");
    file(rt, b"\x01\x02\x00\x80\x80\x80\x80\x80\x01");
    file(rt, b"\x01\x02\x00\x00\x00");
    file(rt, b"\x01\x02\x00\x00\x80");
}

fn first<R: Print>(rt: &R, file: &[u8], n: usize) {
    show::number(rt, b"file, first bytes", n as u64);
    listing_of(rt, &file[..n.min(file.len())]);
}

// 2,047 bins as the writer writes them, of so many bytes; then one byte fewer and one more.
fn most<R: Print>(rt: &R, value: u32, size: usize) {
    let bins = [value; MAX_FILE_BINS];
    let mut file = [0u8; ENOUGH];
    let written = write_histogram(&bins, &mut file);
    show::written(rt, b"write 2047 bins of", u64::from(value), written);
    first(rt, &file, size);
    if size > 0 {
        first(rt, &file, size - 1);
    }
    if size < ENOUGH {
        first(rt, &file, size + 1);
    }
}

fn write<R: Print>(rt: &R, bins: &[u32], out: &mut [u8]) {
    let written = write_histogram(bins, out);
    show::written(rt, b"write zero bins", bins.len() as u64, written);
}

// The bin counts beside the writer's limits, and one byte too few.
fn writing<R: Print>(rt: &R) {
    let mut out = [0u8; ENOUGH];
    write(rt, &[0u32; 1], &mut out);
    write(rt, &[0u32; 2], &mut out);
    write(rt, &[0u32; 2047], &mut out);
    write(rt, &[0u32; 2048], &mut out);
    let mut three = [0u8; 3];
    write(rt, &[0u32; 2], &mut three);
}

fn read<R: Print>(rt: &R, bins: &mut [u32]) {
    let read = read_histogram(b"\x01\x02\x05\x06", bins);
    show::read(rt, b"read 2 bins into", bins.len() as u64, read);
}

fn reading<R: Print>(rt: &R) {
    let mut one = [0u32; 1];
    let mut two = [0u32; 2];
    read(rt, &mut one);
    read(rt, &mut two);
}

pub(crate) fn all<R: Print>(rt: &R) {
    forms(rt);
    counts(rt);
    bins(rt);
    largest(rt);
    most(rt, 0, 2050);
    most(rt, 4294967295, 10238);
    writing(rt);
    reading(rt);
}
