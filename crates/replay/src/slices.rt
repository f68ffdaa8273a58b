// Slices for a call that takes them. Each is the one whose length is word `at`, its entries at the front of `room`, or
// as many of them as there is room for; what lies behind the row's last word is as in `room`, 0.
use crate::words::*;
use templates::floats::float;

fn lent<'a, T: Copy, F: Fn(u64) -> T>(
    row: &[u64],
    at: usize,
    room: &'a mut [T],
    of_word: F,
) -> &'a mut [T]
    requires { F.IsAlwaysCallable of_word }
{
    let words = entries(row, at);
    let end = size(row, at).min(room.len());
    for (entry, word) in room[..end].iter_mut().zip(words) {
        *entry = of_word(*word);
    }
    &mut room[..end]
}

pub(crate) fn floats<'a>(row: &[u64], at: usize, room: &'a mut [f64]) -> &'a mut [f64] {
    lent(row, at, room, float)
}

pub(crate) fn bins<'a>(row: &[u64], at: usize, room: &'a mut [u32]) -> &'a mut [u32] {
    lent(row, at, room, bin)
}

// A word as a byte; 255 for one that is none.
pub(crate) fn byte(n: u64) -> u8 {
    u8::try_from(n).unwrap_or(255)
}

pub(crate) fn flags<'a>(row: &[u64], at: usize, room: &'a mut [u8]) -> &'a mut [u8] {
    lent(row, at, room, byte)
}

pub(crate) fn places<'a>(row: &[u64], at: usize, room: &'a mut [usize]) -> &'a mut [usize] {
    lent(row, at, room, |n| n as usize)
}
