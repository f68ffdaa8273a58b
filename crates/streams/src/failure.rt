// Saying on standard error what failed.
use std::io::Error;

// The system's words for an error, without its number.
fn words_of(error: &str) -> &str {
    match error.split_once(" (os error ") {
        Some((words, _)) => words,
        None => error,
    }
}

// One line: what failed, as the caller names it, a colon and why.
pub fn fail<R: Eprint + Alloc>(rt: &R, what: &str, error: Error) {
    // Where standard error takes nothing, there is nobody to tell.
    let _ = match format!(in rt.alloc(); "{error}") {
        Ok(text) => eprintln!(rt; "{what}: {}", words_of(text.as_str())),
        Err(_) => eprintln!(rt; "{what}: {error}"),
    };
}
