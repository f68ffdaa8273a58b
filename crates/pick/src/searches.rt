// One configuration: its starts, the search from each of them to its end, and what it came to.
use crate::progress::{Watch, say};
use crate::showing::is_heard;
use fitter::asking::{Asked, SEEDS, SHAPES, configuration};
use fitter::attempting::attempt_from_numbers;
use fitter::attempts::FitAttempt;
use fitter::starts::fit_starts;
use histogram::reader::MAX_FILE_BINS;
use meaning::flags::is_set;
use meaning::refusals::Refusal;
use models::families::{ErrorModel, GenomeModel};
use models::problems::Problem;
use routines::bits::pattern;
use search::beginning::begin_searches;
use search::reporting::report_searches;
use search::searching::run_searches;
use std::rt::Clock;

// Four dispersions, three error starts and two shelf shapes, each run's simplex of twelve rows of twelve numbers.
const RUNS: usize = 24;

const STARTS: usize = 11 * RUNS;

const ROWS: usize = 144 * RUNS;
// For every window of a histogram file.
const TABLE: usize = MAX_FILE_BINS + 1;

const READY: usize = 2 * (MAX_FILE_BINS + 2);
// The turns between two lines of progress, and how often they are made: together the largest cap of a run.
const TURNS: u64 = 100;

const SLICES: u64 = 20;

// The first n items, or all where there are fewer.
pub(crate) fn first<T>(x: &[T], n: usize) -> &[T] {
    &x[..n.min(x.len())]
}

pub(crate) fn problem_of(
    asked: Asked,
    end: usize,
    error: ErrorModel,
    genome: GenomeModel,
) -> Problem {
    Problem {
        scale: asked.scale,
        window_end: end,
        valley: asked.valley,
        peak: asked.peak,
        error,
        genome,
        mass_limit: asked.mass_limit,
    }
}

// Why the spectrum is refused with what was asked: what an attempt over no run gives.
pub(crate) fn refusal(bins: &[u32], problem: Problem) -> Option<Refusal> {
    let mut table = [0.0f64; TABLE];
    attempt_from_numbers(bins, problem, &[], &[], &[], &[], &[], &[], &[], &mut table).err()
}

// How many runs have ended, by the test or at their caps.
fn runs_done(stopped: &[u8], caps: &[u8]) -> usize {
    let runs = stopped.iter().zip(caps);
    runs.filter(|(s, c)| is_set(**s) || is_set(**c)).count()
}

// Infinity of no run. A NaN is no least cost, and of 0 and -0 the first stays.
fn least_cost(costs: &[f64]) -> f64 {
    let mut least = f64::INFINITY;
    for cost in costs {
        if *cost < least {
            least = *cost;
        }
    }
    least
}

// What the searches of a configuration work in. Fixed buffers: the project has no heap.
#[derive(Drop)]
struct Room {
    rows: [f64; ROWS],
    iterations: [u64; RUNS],
    stopped: [u8; RUNS],
    ready: [f64; READY],
    table: [f64; TABLE],
    converged: [u8; RUNS],
    costs: [f64; RUNS],
    places: [usize; RUNS],
    lengths: [usize; RUNS],
    caps: [u8; RUNS],
}

impl Room {
    fn new() -> Room {
        Room {
            rows: [0.0; ROWS],
            iterations: [0; RUNS],
            stopped: [0; RUNS],
            ready: [0.0; READY],
            table: [0.0; TABLE],
            converged: [0; RUNS],
            costs: [0.0; RUNS],
            places: [0; RUNS],
            lengths: [0; RUNS],
            caps: [0; RUNS],
        }
    }

    // How many runs there are from these starts, each before its first turn.
    fn begin(&mut self, bins: &[u32], problem: Problem, starts: &[f64]) -> Result<usize, Refusal> {
        begin_searches(
            bins,
            problem,
            starts,
            &mut self.rows,
            &mut self.iterations,
            &mut self.stopped,
            &mut self.ready,
            &mut self.table,
        )
    }

    // Some turns of every run, and what they came to, as a run table.
    fn go_on(&mut self, bins: &[u32], problem: Problem, runs: usize) -> Result<(), Refusal> {
        let error = problem.error;
        let genome = problem.genome;
        run_searches(
            bins,
            problem,
            runs,
            TURNS,
            &mut self.rows,
            &mut self.iterations,
            &mut self.stopped,
            &mut self.ready,
            &mut self.table,
        )?;
        report_searches(
            error,
            genome,
            runs,
            &self.rows,
            &self.iterations,
            &self.stopped,
            &mut self.converged,
            &mut self.costs,
            &mut self.places,
            &mut self.lengths,
            &mut self.caps,
        )?;
        Ok(())
    }

    // Whether every run has ended, by as many turns as the largest cap, with a line of progress between. It stops early
    // where nobody listens.
    fn search_all<R: Clock + Eprint>(
        &mut self,
        rt: &R,
        bins: &[u32],
        problem: Problem,
        runs: usize,
        k: u64,
        watch: Watch,
    ) -> Result<bool, Refusal> {
        let mut done = 0;
        for _ in 0..SLICES {
            self.go_on(bins, problem, runs)?;
            if done < runs {
                done = runs_done(first(&self.stopped, runs), first(&self.caps, runs));
                let least = least_cost(first(&self.costs, runs));
                say(rt, watch, k, done as u64, runs as u64, pattern(least));
            }
            if !is_heard(watch.status) {
                break;
            }
        }
        Ok(done >= runs)
    }

    // The attempt that the run table makes.
    fn settle(
        &mut self,
        bins: &[u32],
        problem: Problem,
        runs: usize,
    ) -> Result<FitAttempt, Refusal> {
        attempt_from_numbers(
            bins,
            problem,
            first(&self.converged, runs),
            &self.costs,
            &self.places,
            &self.lengths,
            &self.iterations,
            &self.caps,
            &self.rows,
            &mut self.table,
        )
    }
}

// The attempt of the k-th configuration, where every call answered and each of its runs was searched to its end.
pub(crate) fn attempt<R: Clock + Eprint>(
    rt: &R,
    bins: &[u32],
    asked: Asked,
    end: usize,
    share: f64,
    k: u64,
    watch: Watch,
) -> Option<FitAttempt> {
    let families = configuration(k);
    let error = families.error;
    let genome = families.genome;
    let seeds = SEEDS;
    let shapes = SHAPES;
    let problem = problem_of(asked, end, error, genome);
    let mut starts = [0.0f64; STARTS];
    let mut room = Room::new();
    let numbers = fit_starts(
        error,
        genome,
        &seeds,
        asked.hint,
        share,
        &shapes,
        &mut starts,
    );
    let runs = room
        .begin(bins, problem, first(&starts, numbers.ok()?))
        .ok()?;
    let ended = room.search_all(rt, bins, problem, runs, k, watch).ok()?;
    if runs == 0 || !ended {
        return None;
    }
    room.settle(bins, problem, runs).ok()
}
