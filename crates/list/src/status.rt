// What `fogatise` asks of the program and hears from it.
use std::env::FillError;
use std::rt::Env;

// The last word, once all is written. Whoever does not hear it knows that the answer is not whole.
pub(crate) fn tell<R: Eprint>(rt: &R, accepted: bool) {
    // Where standard error takes nothing, nobody hears it.
    let _ = if accepted {
        eprintln!(rt; "whole")
    } else {
        eprintln!(rt; "refused")
    };
}

// Whether the program was started with a word of that place; at 0 stands its own name.
pub(crate) fn has_word<R: Env>(rt: &R, place: usize) -> bool {
    !matches!(rt.arg(place, &mut []), Err(FillError::NotPresent))
}

// Whether the one argument is `--status`, with which `fogatise` asks for the last word.
pub(crate) fn asks_status<R: Env>(rt: &R) -> bool {
    let mut word = [0u8; 8];
    match rt.arg(1, &mut word) {
        Ok(n) => !has_word(rt, 2) && &word[..n] == b"--status".as_slice(),
        Err(_) => false,
    }
}
