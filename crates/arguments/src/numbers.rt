// The numbers of a command line: a decimal is 1 to 15 digits with at most one point anywhere, a whole number 1 to 15
// digits. So few digits, and as high a power of ten, are exact as `f64`, and a decimal is rounded once.
ghost use Rattle.std.specs.Prelude.{◌≡◌, true, ◌+◌, ◌^◌, ◌≤◌, ◌<◌, length};
ghost use Rattle.listing.specs.Decimal.{value_of};
ghost use Rattle.arguments.specs.Numbers.{before, is_digit, all_digits, few};
ghost use Rattle.arguments.specs.Numbers.{quotient_of, read_decimal_of, read_whole_of};

use routines::casts::from_u64;

// The place of the first point, or the length where there is none.
fn point_at(word: &[u8]) -> usize
    ensures { result ≡ length (before word.now) }
{
    word.iter()
        .position(|byte| *byte == b'.')
        .unwrap_or(word.len())
}

fn is_digit(byte: u8) -> bool
    ensures { result ≡ is_digit byte }
{
    byte >= b'0' && byte <= b'9'
}

fn all_digits(word: &[u8]) -> bool
    ensures { result ≡ all_digits word.now }
{
    word.iter().all(|byte| is_digit(*byte))
}

// The number that some digits stand for, behind digits that stand for `first`.
fn value_of(first: u64, digits: &[u8]) -> u64
    requires { (all_digits digits.now ≡ true) × (value_of first digits.now < 10 ^ 15) }
    ensures { result ≡ value_of first digits.now }
{
    let mut value = first;
    for digit in digits {
        value = value * 10 + u64::from(*digit - b'0');
    }
    value
}

fn power_of_ten(places: usize) -> u64
    requires { places ≤ 15 }
    ensures { result ≡ 10 ^ places }
{
    10u64.pow(places as u32)
}

fn is_few(count: usize) -> bool
    ensures { result ≡ few count }
{
    count >= 1 && count <= 15
}

// The decimal with these bytes in front of its point and these behind.
#[tactic(auto, using(crate::proofs::Quotients::parts), unfolding(crate::specs::Numbers::quotient_of))]
fn quotient(whole: &[u8], places: &[u8]) -> Option<f64>
    requires { length whole.now + length places.now < 2 ^ 64 }
    ensures { result ≡ quotient_of whole.now places.now }
{
    if !is_few(whole.len() + places.len()) {
        return None;
    }
    if !all_digits(whole) {
        return None;
    }
    if !all_digits(places) {
        return None;
    }
    let value = value_of(value_of(0, whole), places);
    Some(from_u64(value) / from_u64(power_of_ten(places.len())))
}

pub fn read_decimal(word: &[u8]) -> Option<f64>
    ensures { result ≡ read_decimal_of word.now }
{
    let point = point_at(word);
    if point < word.len() {
        let behind = point + 1;
        return quotient(&word[0..point], &word[behind..]);
    }
    quotient(word, &word[word.len()..])
}

#[tactic(auto, using(crate::proofs::Quotients::small), unfolding(crate::specs::Numbers::read_whole_of))]
pub fn read_whole(word: &[u8]) -> Option<u64>
    ensures { result ≡ read_whole_of word.now }
{
    if !is_few(word.len()) {
        return None;
    }
    if !all_digits(word) {
        return None;
    }
    Some(value_of(0, word))
}
