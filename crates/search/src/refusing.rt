// What the calls of the search refuse, lowest number first.
ghost use Rattle.std.specs.Prelude.{◌≡◌, ◌≤◌};
ghost use Rattle.meaning.specs.Answers.{number_in};
ghost use Rattle.meaning.specs.Reply.{first_of};
ghost use Rattle.meaning.specs.Rows.{most};
ghost use Rattle.search.specs.Refusing.{short_runs, search_tests};

use crate::prices::width;
use meaning::limits::MOST;
use meaning::refusals::Refusal;
use models::problems::Problem;
use models::refusals::{spectrum_refusal, table_refusal};

// The lengths of what is lent.
#[derive(Clone, Copy)]
pub(crate) struct Lent {
    pub simplexes: usize,
    pub iterations: usize,
    pub stopped: usize,
    pub ready: usize,
    pub table: usize,
}

// 10 where a slice that every run has a part in is too short, or none.
#[tactic(auto, unfolding(crate::specs::Refusing::short_runs))]
fn runs_refusal(problem: Problem, runs: usize, lent: Lent) -> Result<(), Refusal>
    requires { runs ≤ most }
    ensures { number_in result ≡ first_of (short_runs problem runs lent) }
{
    let w = width(problem);
    if lent.simplexes < runs * (w * w) {
        return Err(Refusal::TooShort);
    }
    if lent.iterations < runs {
        return Err(Refusal::TooShort);
    }
    if lent.stopped < runs {
        return Err(Refusal::TooShort);
    }
    Ok(())
}

// The first number of 1, 2, 4, 5, 6, 7, 10 that applies, or none.
#[tactic(auto, unfolding(crate::specs::Refusing::search_tests))]
pub(crate) fn search_refusal(
    bins: &[u32],
    problem: Problem,
    runs: usize,
    wrong: bool,
    lent: Lent,
) -> Result<(), Refusal>
    ensures { number_in result ≡ first_of (search_tests bins.now problem runs wrong lent) }
{
    let genome = problem.genome;
    if problem.peak < 2 || bins.len() < 2 {
        return Err(Refusal::TooSmall);
    }
    if bins.len() > MOST || problem.peak > MOST || problem.window_end > MOST || runs > MOST {
        return Err(Refusal::TooLarge);
    }
    spectrum_refusal(bins, problem.scale, problem.window_end)?;
    if wrong {
        return Err(Refusal::WrongLength);
    }
    table_refusal(genome, problem.window_end, lent.table)?;
    if lent.ready < 2 * (problem.window_end + 2) {
        return Err(Refusal::TooShort);
    }
    runs_refusal(problem, runs, lent)
}
