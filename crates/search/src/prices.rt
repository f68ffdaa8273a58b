// The cost of a list, as the search asks for it.
ghost use Rattle.std.specs.Prelude.{◌≡◌};
ghost use Rattle.search.specs.Priced.{price_in, IsKept};
ghost use Rattle.search.specs.Prices.{cap_of, width_of};

use models::costs::cost_prepared;
use models::families::{ErrorModel, GenomeModel, list_length};
use models::problems::Problem;

// What costs are worked out of: the spectrum, the problem, the slice of ln n and lgamma(n + 1), and the shelf's table.
#[derive(Drop)]
pub(crate) struct Prices<'a> {
    pub(crate) bins: &'a [u32],
    pub(crate) problem: Problem,
    pub(crate) ready: &'a [f64],
    pub(crate) table: &'a mut [f64],
}

impl Prices<'_> {
    pub(crate) fn price(&mut self, list: &[f64]) -> f64
        ensures value { result ≡ price_in self.old list.now }
        ensures kept { IsKept self.old self.new }
    {
        let problem = self.problem;
        // A `let`, since the proof covers no second loan of the table within the call.
        let table = &mut *self.table;
        cost_prepared(
            self.bins,
            problem.scale,
            problem.window_end,
            problem.peak,
            problem.error,
            problem.genome,
            list,
            self.ready,
            table,
        )
        .unwrap_or(f64::INFINITY)
    }
}

// The most iterations of a run.
pub(crate) fn iteration_cap(genome: GenomeModel) -> u64
    ensures { result ≡ cap_of genome }
{
    match genome {
        GenomeModel::NegativeBinomial => 1000,
        GenomeModel::ShelfNegativeBinomial => 2000,
    }
}

// The numbers in a row of a simplex, and its rows.
pub(crate) fn width(problem: Problem) -> usize
    ensures { result ≡ width_of problem }
{
    let error = problem.error;
    let genome = problem.genome;
    list_length(error, genome) + 1
}
