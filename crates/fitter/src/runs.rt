// A run of the search, as it arrives in the run table.
// Ported from src/preprocessing/spectrum_fitter.rs of bacpop/sparrowhawk-asm, f1f8af1232, Apache-2.0; ported and
// changed: the parameter lists lie one behind the other in a lent slice.
ghost use Rattle.std.specs.Prelude.{◌≡◌, length};
ghost use Rattle.fitter.specs.Runs.{run_from, point_of, wrong_place, bad_cost, list_at};

use meaning::flags::is_set;
use routines::pick::is_finite;

// One record for each start. Where it did not converge, cost, place and length are not looked at. The flag stands
// beside them as in the lent table, which is C's; `run_point` says it as an Option.
#[derive(Clone, Copy)]
pub struct Run {
    pub converged: bool,
    pub cost: f64,
    // Where the parameter list begins in the lent lists, and its length.
    pub place: usize,
    pub length: usize,
    pub iterations: u64,
    pub hit_cap: bool,
}

// A run as it is lent: a flag is a byte, 0 for no and any other for yes.
#[repr(C)]
#[derive(Clone, Copy)]
pub struct LentRun {
    pub converged: u8,
    pub cost: f64,
    pub place: usize,
    pub length: usize,
    pub iterations: u64,
    pub hit_cap: u8,
}

impl From<LentRun> for Run {
    ghost from_gives = { λ lent run. run ≡ run_from lent };

    fn from(lent: LentRun) -> Run {
        Run {
            converged: is_set(lent.converged),
            cost: lent.cost,
            place: lent.place,
            length: lent.length,
            iterations: lent.iterations,
            hit_cap: is_set(lent.hit_cap),
        }
    }
}

// A run's answer: its cost and the place of its list.
#[derive(Clone, Copy)]
pub struct RunPoint {
    pub cost: f64,
    pub place: usize,
}

// The answer of a run that converged.
pub(crate) fn run_point(run: Run) -> Option<RunPoint>
    ensures { result ≡ point_of run }
{
    if run.converged {
        return Some(RunPoint {
            cost: run.cost,
            place: run.place,
        });
    }
    None
}

// Whether a list of `length` numbers from `place` on has not the length wanted, or does not lie in the `lent` numbers.
#[tactic(auto, unfolding(crate::specs::Runs::wrong_place))]
pub(crate) fn wrong_place(place: usize, length: usize, lent: usize, wanted: usize) -> bool
    ensures { result ≡ wrong_place place length lent wanted }
{
    length != wanted || lent < length || lent - length < place
}

// What a converged run's cost may not be: not finite, or not above 0.
#[tactic(auto, unfolding(crate::specs::Runs::bad_cost))]
pub(crate) fn bad_cost(cost: f64) -> bool
    ensures { result ≡ bad_cost cost }
{
    !is_finite(cost) || cost <= 0.0
}

// The list of a run; an empty one where it does not lie in the lent numbers.
#[tactic(auto, unfolding(crate::specs::Runs::list_at))]
pub(crate) fn list_at(lists: &[f64], place: usize, length: usize) -> &[f64]
    ensures { result.now ≡ list_at lists.now place length }
{
    let lent = lists.len();
    if lent < length || lent - length < place {
        return &lists[0..0];
    }
    &lists[place..place + length]
}
