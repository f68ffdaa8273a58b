// The words that the program is started with.
use arguments::numbers::{read_decimal, read_whole};
use std::env::FillError;
use std::rt::Env;

// The longest word that is read: a longer one is no option.
const LONGEST: usize = 64;

// A name's word says no number, or there is a second one.
#[derive(Clone, Copy)]
pub enum Wrong {
    Named,
}

fn has_word<R: Env>(rt: &R, i: usize) -> bool {
    !matches!(rt.arg(i, &mut []), Err(FillError::NotPresent))
}

// How many words the program was started with; the first is its own name.
fn word_count<R: Env>(rt: &R) -> usize {
    (0..usize::MAX).take_while(|i| has_word(rt, *i)).count()
}

// A word, in the lent bytes; none where it finds no room there.
fn word<'a, R: Env>(rt: &R, i: usize, room: &'a mut [u8]) -> Option<&'a [u8]> {
    let n = rt.arg(i, room).ok()?;
    Some(&room[..n])
}

fn is_word<R: Env>(rt: &R, i: usize, name: &[u8]) -> bool {
    let mut room = [0u8; LONGEST];
    word(rt, i, &mut room).is_some_and(|word| word == name)
}

// What a word says behind the name that it begins with.
fn behind<'a, R: Env>(rt: &R, i: usize, name: &[u8], room: &'a mut [u8]) -> Option<&'a [u8]> {
    word(rt, i, room)?.strip_prefix(name)
}

fn word_begins<R: Env>(rt: &R, i: usize, name: &[u8]) -> bool {
    let mut room = [0u8; LONGEST];
    behind(rt, i, name, &mut room).is_some()
}

// Whether a word is the flag itself.
pub(crate) fn has_flag<R: Env>(rt: &R, name: &[u8]) -> bool {
    let all = word_count(rt);
    (1..all).any(|i| is_word(rt, i, name))
}

// What the one word of a name says; none without one.
fn only_named<R: Env, T: Copy, F: Fn(&[u8]) -> Option<T>>(
    rt: &R,
    name: &[u8],
    read: F,
) -> Result<Option<T>, Wrong>
    requires { F.IsAlwaysCallable read }
{
    let all = word_count(rt);
    let mut found = None;
    for i in 1..all {
        let mut room = [0u8; LONGEST];
        if let Some(text) = behind(rt, i, name, &mut room) {
            if found.is_some() {
                return Err(Wrong::Named);
            }
            found = Some(read(text).ok_or(Wrong::Named)?);
        }
    }
    Ok(found)
}

// A name ends in `=`.
pub(crate) fn whole_option<R: Env>(rt: &R, name: &[u8]) -> Result<Option<usize>, Wrong> {
    only_named(rt, name, |text| read_whole(text).map(|n| n as usize))
}

pub(crate) fn decimal_option<R: Env>(rt: &R, name: &[u8]) -> Result<Option<f64>, Wrong> {
    only_named(rt, name, read_decimal)
}

fn is_known<R: Env>(rt: &R, i: usize) -> bool {
    is_word(rt, i, b"--status")
        || is_word(rt, i, b"--quiet")
        || word_begins(rt, i, b"--valley=")
        || word_begins(rt, i, b"--peak=")
        || word_begins(rt, i, b"--budget=")
        || word_begins(rt, i, b"--scale=")
        || word_begins(rt, i, b"--hint=")
        || word_begins(rt, i, b"--window-end=")
        || word_begins(rt, i, b"--mass-limit=")
}

// Whether each word is an option.
pub(crate) fn all_known<R: Env>(rt: &R) -> bool {
    let all = word_count(rt);
    (1..all).all(|i| is_known(rt, i))
}
