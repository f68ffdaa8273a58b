// What is asked of the program, put together from its words.
use crate::options::{Wrong, all_known, decimal_option, whole_option};
use fitter::asking::Asked;
use std::rt::Env;

// What a caller who says nothing gets: the original's values.
const SCALE: f64 = 1.0;

const HINT: f64 = 2.0;

const MASS_LIMIT: f64 = 1.1;

// A word that is taken once.
fn taken<T>(said: Result<Option<T>, Wrong>, line: &'static str) -> Result<Option<T>, &'static str> {
    said.map_err(|_| line)
}

fn needed<T>(said: Result<Option<T>, Wrong>, line: &'static str) -> Result<T, &'static str> {
    taken(said, line)?.ok_or(line)
}

// What is asked, or the line that says what is wrong first.
pub(crate) fn read_words<R: Env>(rt: &R) -> Result<Asked, &'static str> {
    if !all_known(rt) {
        return Err("pick: a word is no option; fogatise help names them\n");
    }
    let valley = whole_option(rt, b"--valley=");
    let peak = whole_option(rt, b"--peak=");
    let end = whole_option(rt, b"--window-end=");
    let budget = decimal_option(rt, b"--budget=");
    let scale = decimal_option(rt, b"--scale=");
    let hint = decimal_option(rt, b"--hint=");
    let limit = decimal_option(rt, b"--mass-limit=");
    Ok(Asked {
        valley: needed(
            valley,
            "pick: --valley=N is needed once, N of 1 to 15 digits\n",
        )?,
        peak: needed(peak, "pick: --peak=N is needed once, N of 1 to 15 digits\n")?,
        budget: needed(
            budget,
            "pick: --budget=X is needed once, X of 1 to 15 digits and at most one point\n",
        )?,
        window_end: taken(
            end,
            "pick: --window-end=N is taken once, N of 1 to 15 digits\n",
        )?,
        scale: taken(
            scale,
            "pick: --scale=X is taken once, X of 1 to 15 digits and at most one point\n",
        )?
        .unwrap_or(SCALE),
        hint: taken(
            hint,
            "pick: --hint=X is taken once, X of 1 to 15 digits and at most one point\n",
        )?
        .unwrap_or(HINT),
        mass_limit: taken(
            limit,
            "pick: --mass-limit=X is taken once, X of 1 to 15 digits and at most one point\n",
        )?
        .unwrap_or(MASS_LIMIT),
    })
}
