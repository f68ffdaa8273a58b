// Writing the record, and the word by which `fogatise` hears how it ended.
use record::answers::Last;
use std::rt::Runtime;
use streams::failure::fail;
use streams::output::{settle_output, write_output};

// No record is as long.
pub const LONGEST_RECORD: usize = 32768;

// Where `fogatise` listens. A handle of std has no such descriptor, hence `io`.
const STATUS_FILENO: i32 = 4;

// The last word, once all is written.
fn say_word(word: &[u8], status: bool) {
    if status {
        io::write_all(STATUS_FILENO, word);
    }
}

// By the last line.
fn tell(last: Last, status: bool) {
    match last {
        Last::Cutoff(_) => say_word(b"cutoff\n", status),
        Last::Unsure(_) => say_word(b"unsure\n", status),
        Last::NoFit => say_word(b"nofit\n", status),
        Last::Refused(_) => say_word(b"refused\n", status),
    }
}

// For a failure that was said.
pub(crate) fn tell_failed(status: bool) {
    say_word(b"failed\n", status);
}

// Whether `fogatise` still listens, where it asked for the word: an empty line can't be written once it is gone. Who
// starts it anew may have the record go to the same file, so what nobody waits for must not be written.
pub(crate) fn is_heard(status: bool) -> bool {
    !status || io::write_all(STATUS_FILENO, b"\n")
}

fn say_unheard<R: Eprint>(rt: &R) {
    // Where standard error takes nothing, there is nobody to tell.
    let _ = eprintln!(rt; "pick: nobody listens any more, so no record is written");
}

// One line on standard error.
pub(crate) fn complain<R: Eprint>(rt: &R, line: &str, status: bool) {
    let _ = rt.eprintln(line);
    tell_failed(status);
}

// For a search that is not whole: it stops early where nobody listens, and else it is whole.
pub(crate) fn give_up<R: Eprint>(rt: &R, status: bool) {
    if is_heard(status) {
        complain(rt, "pick: a search was refused, which can't be", status);
    } else {
        say_unheard(rt);
    }
}

// Writes a record, and waits for the disk, since some disks tell of a failed write only then. A record that may be cut
// off is no answer.
pub(crate) fn show<R: Runtime>(rt: &R, text: &[u8], size: usize, last: Last, status: bool) {
    if size >= text.len() {
        complain(rt, "pick: the record is too long", status);
        return;
    }
    if !is_heard(status) {
        say_unheard(rt);
        return;
    }
    match put(rt, &text[..size]) {
        Ok(()) => tell(last, status),
        Err(e) => {
            fail(rt, "pick: writing", e);
            tell_failed(status);
        }
    }
}

fn put<R: Runtime>(rt: &R, bytes: &[u8]) -> std::io::Result<()> {
    write_output(&mut std::io::writer(rt), bytes)?;
    settle_output(rt)
}
