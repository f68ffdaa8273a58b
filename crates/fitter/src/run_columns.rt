// A run table as six slices of numbers, one for each field: the covered form of the scan.
// Ported from src/preprocessing/spectrum_fitter.rs of bacpop/sparrowhawk-asm, f1f8af1232, Apache-2.0; ported and
// changed.
ghost use Rattle.std.specs.Prelude.{◌≡◌, ◌<◌, length, drop};
ghost use Rattle.fitter.specs.Surveys.{survey_of};
ghost use Rattle.fitter.specs.Retrying.{table_from, retried_of};

use crate::judging::{Held, retry_run};
use crate::runs::{Run, RunPoint, run_point};
use crate::surveys::{Survey, count_run, no_survey, weigh_run};
use meaning::flags::is_set;
use models::problems::Problem;

// A slice for each field of a run, lent as they are. A run has an element in each.
#[derive(Clone, Copy)]
pub(crate) struct Columns<'a> {
    pub converged: &'a [u8],
    pub costs: &'a [f64],
    pub places: &'a [usize],
    pub lengths: &'a [usize],
    pub iterations: &'a [u64],
    pub caps: &'a [u8],
}

impl Columns<'_> {
    ghost use Rattle.fitter.specs.Columns.{runs_in, run_at};

    // The number of runs: the shortest slice's.
    #[tactic(auto, using(crate::proofs::Columned::min_shorter), unfolding(crate::specs::Columns::count_of_runs))]
    pub(crate) fn len(&self) -> usize
        ensures { result ≡ runs_in self.now }
    {
        let two = self.converged.len().min(self.costs.len());
        let four = two.min(self.places.len().min(self.lengths.len()));
        four.min(self.iterations.len().min(self.caps.len()))
    }

    // The run at a position.
    #[tactic(auto, unfolding(crate::specs::Columns::count_of_runs, crate::specs::Columns::run_of))]
    fn run_at(&self, i: usize) -> Run
        requires { i < runs_in self.now }
        ensures { result ≡ run_at self.now i }
    {
        Run {
            converged: is_set(self.converged[i]),
            cost: self.costs[i],
            place: self.places[i],
            length: self.lengths[i],
            iterations: self.iterations[i],
            hit_cap: is_set(self.caps[i]),
        }
    }

    // The first pass: a run without a converged point is passed over.
    pub(crate) fn survey(&self, lent: usize, wanted: usize) -> Survey
        ensures { result ≡ survey_of lent wanted (run_at self.now) (runs_in self.now) }
    {
        let n = self.len();
        let mut s = no_survey();
        for i in 0..n {
            let run = self.run_at(i);
            s = count_run(s, run);
            let Some(RunPoint { cost, place }) = run_point(run) else {
                continue;
            };
            s = weigh_run(s, i, run, cost, place, lent, wanted);
        }
        s
    }

    // The second pass, behind the rejected run of least cost.
    pub(crate) fn retry(
        &self,
        held: Held,
        bins: &[u32],
        setup: Problem,
        lists: &[f64],
        table: &mut [f64],
    ) -> Held
        ensures value { result
            ≡ retried_of bins.now setup lists.now (length table.old) (run_at self.now) (runs_in self.now) held }
        ensures table_unchanged { drop (table_from setup) table.new ≡ drop (table_from setup) table.old }
    {
        let n = self.len();
        let mut kept = held;
        for i in 0..n {
            kept = retry_run(kept, i, self.run_at(i), bins, setup, lists, table);
        }
        kept
    }
}
