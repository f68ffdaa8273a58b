// What is known of a run table before anything is unpacked: what speaks against it, the totals, and the converged run
// of least cost. Ported from src/preprocessing/spectrum_fitter.rs of bacpop/sparrowhawk-asm, f1f8af1232, Apache-2.0;
// ported and changed: a search for the least stands for the stable sort.
ghost use Rattle.std.specs.Prelude.{◌≡◌, ◌+◌};
ghost use Rattle.fitter.specs.Runs.{at_most, top64, top32, one_if, no_run};
ghost use Rattle.fitter.specs.Surveys.{no_survey, beats, lesser, count_of, weigh_of, survey_step};

use crate::runs::{Run, RunPoint, bad_cost, run_point, wrong_place};

// A run and its position in the table; a run that did not converge stands for none, and no Option: the definition
// `kept_best` and the theorems of specs/Kept.antt and specs/Candidates.antt read the flag of the run.
#[derive(Clone, Copy)]
pub struct Best {
    pub run: Run,
    pub position: usize,
}

#[derive(Clone, Copy)]
pub struct Survey {
    // A converged run's list is wrong: 7.
    pub wrong: bool,
    // A converged run's cost is wrong: 9.
    pub bad: bool,
    pub iterations: u64,
    pub capped: u32,
    // The converged run of least cost, the earlier on ties.
    pub least: Best,
}

// The sum, stopping at 2^64 - 1.
#[tactic(auto, using(crate::proofs::Totals::stopped))]
fn add_iterations(total: u64, more: u64) -> u64
    ensures { result ≡ at_most top64 (total + more) }
{
    total.saturating_add(more)
}

// One more where the cap was hit, stopping at 2^32 - 1.
fn add_capped(total: u32, hit: bool) -> u32
    ensures { result ≡ at_most top32 (total + one_if hit) }
{
    total.saturating_add(u32::from(hit))
}

pub(crate) fn no_run() -> Run
    ensures { result ≡ no_run }
{
    Run {
        converged: false,
        cost: 0.0,
        place: 0,
        length: 0,
        iterations: 0,
        hit_cap: false,
    }
}

pub(crate) fn no_survey() -> Survey
    ensures { result ≡ no_survey }
{
    Survey {
        wrong: false,
        bad: false,
        iterations: 0,
        capped: 0,
        least: Best {
            run: no_run(),
            position: 0,
        },
    }
}

// What every run adds.
pub(crate) fn count_run(s: Survey, run: Run) -> Survey
    ensures { result ≡ count_of run s }
{
    Survey {
        iterations: add_iterations(s.iterations, run.iterations),
        capped: add_capped(s.capped, run.hit_cap),
        ..s
    }
}

// A converged run of this cost goes before the best so far.
#[tactic(auto, unfolding(crate::specs::Surveys::beats))]
fn is_less(cost: f64, best: Best) -> bool
    ensures { result ≡ beats cost best }
{
    !best.run.converged || cost < best.run.cost
}

#[tactic(auto, unfolding(crate::specs::Surveys::lesser))]
fn lesser_of(best: Best, position: usize, run: Run, cost: f64) -> Best
    ensures { result ≡ lesser cost position run best }
{
    if is_less(cost, best) {
        return Best { run, position };
    }
    best
}

// What a converged run adds: `lent` is the length of all lists together, `wanted` that of a list.
pub(crate) fn weigh_run(
    s: Survey,
    position: usize,
    run: Run,
    cost: f64,
    place: usize,
    lent: usize,
    wanted: usize,
) -> Survey
    ensures { result ≡ weigh_of lent wanted position run cost place s }
{
    Survey {
        wrong: s.wrong || wrong_place(place, run.length, lent, wanted),
        bad: s.bad || bad_cost(cost),
        least: lesser_of(s.least, position, run, cost),
        ..s
    }
}

// One run more.
#[tactic(auto, unfolding(crate::specs::Surveys::survey_step))]
pub(crate) fn survey_run(s: Survey, position: usize, run: Run, lent: usize, wanted: usize) -> Survey
    ensures { result ≡ survey_step lent wanted position run s }
{
    let counted = count_run(s, run);
    let Some(RunPoint { cost, place }) = run_point(run) else {
        return counted;
    };
    weigh_run(counted, position, run, cost, place, lent, wanted)
}
