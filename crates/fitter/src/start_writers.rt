// The writers of starts: each lends the rest of what it was lent to the next.
// Ported from src/preprocessing/spectrum_fitter.rs of bacpop/sparrowhawk-asm, f1f8af1232, Apache-2.0; ported and
// changed.
ghost use Rattle.std.specs.Prelude.{◌≡◌, [], ◌∷◌, ◌++◌, ◌≤◌, length};
ghost use Rattle.fitter.specs.Starts.{logit_of, hint_of, dispersion_start, ratio_start};
ghost use Rattle.fitter.specs.Starts.{plain_start, shelf_list, Wrote};

use models::families::{ErrorModel, GenomeModel};
use models::params::{RATIO_HIGH, RATIO_LOW};
use models::shelf_rules::{SHELF_MAX_SHARE, SHELF_MIN_RETAINED, shelf_concentration_bounds};
use routines::ln::ln;
use routines::pick::{is_finite, max};

// Near a lobe of two copies; the search moves it.
const REPEAT_RATIO_START: f64 = 1.9;

// The least dispersion above 1 to start from.
const LEAST: f64 = 1e-3;

// A row of a table of error starts. The Pareto family reads no shape.
#[derive(Clone, Copy)]
pub(crate) struct ErrorStart {
    pub tail: f64,
    pub single: f64,
    pub shape: f64,
}

#[derive(Clone, Copy)]
pub(crate) struct ShelfShape {
    pub retained: f64,
    pub concentration: f64,
}

#[tactic(auto, unfolding(crate::specs::Starts::logit_of))]
fn logit(p: f64) -> f64
    ensures { result ≡ logit_of p }
{
    ln(p / (1.0 - p))
}

// 2 where the hint is not finite or not above 1.
#[tactic(auto, unfolding(crate::specs::Starts::hint_of))]
pub(crate) fn used_hint(hint: f64) -> f64
    ensures { result ≡ hint_of hint }
{
    if is_finite(hint) && hint > 1.0 {
        hint
    } else {
        2.0
    }
}

fn dispersion_start(seed: f64) -> f64
    ensures { result ≡ dispersion_start seed }
{
    ln(max(seed - 1.0, LEAST))
}

fn ratio_start() -> f64
    ensures { result ≡ ratio_start }
{
    logit((REPEAT_RATIO_START - RATIO_LOW) / (RATIO_HIGH - RATIO_LOW))
}

// A list into the front.
#[tactic(auto, unfolding(meaning::specs::Over::over))]
fn put(rest: &mut [f64], list: &[f64]) -> usize
    requires { length list.now ≤ length rest.old }
    ensures { Wrote list.now result rest.old rest.new }
{
    rest[..list.len()].copy_from_slice(list);
    list.len()
}

// A start without a shelf: 7 or 8 numbers.
fn write_plain(rest: &mut [f64], error: ErrorModel, seed: f64, start: ErrorStart) -> usize
    requires { length (plain_start error seed start) ≤ length rest.old }
    ensures { Wrote (plain_start error seed start) result rest.old rest.new }
{
    let dispersion = dispersion_start(seed);
    let tail = ln(start.tail);
    let single = logit(start.single);
    let shape = ln(start.shape);
    let ratio = ratio_start();
    match error {
        ErrorModel::FreeSingletonWeibull => {
            put(
                rest,
                &[0.0, -3.0, 0.0, dispersion, tail, single, shape, ratio],
            )
        }
        ErrorModel::SingletonPareto => {
            put(rest, &[0.0, -3.0, 0.0, dispersion, tail, single, ratio])
        }
    }
}

// What a shelf adds: its share, and its shape inside the bounds.
fn write_shelf(rest: &mut [f64], share: f64, shape: ShelfShape) -> usize
    requires { length (shelf_list share shape) ≤ length rest.old }
    ensures { Wrote (shelf_list share shape) result rest.old rest.new }
{
    let bounds = shelf_concentration_bounds(shape.retained);
    let part = logit(share / SHELF_MAX_SHARE);
    let kept = logit((shape.retained - SHELF_MIN_RETAINED) / (1.0 - SHELF_MIN_RETAINED));
    let narrow = logit((shape.concentration - bounds.low) / (bounds.high - bounds.low));
    put(rest, &[part, kept, narrow])
}

// What the starts of a search are written from.
#[derive(Clone, Copy)]
pub(crate) struct StartPlan<'a> {
    pub error: ErrorModel,
    pub genome: GenomeModel,
    // The error starts, in rows of three.
    pub table: &'a [f64],
    // The shelf's share, and its shapes as pairs.
    pub share: f64,
    pub shapes: &'a [f64],
}

impl StartPlan<'_> {
    ghost use Rattle.fitter.specs.Starts.{planned_shelf, planned_shapes, planned_row, planned_seed, planned};

    // A start with a shelf: 10 or 11 numbers.
    fn write_shelf_start(
        &self,
        rest: &mut [f64],
        seed: f64,
        start: ErrorStart,
        shape: ShelfShape,
    ) -> usize
        requires { length (planned_shelf self.now seed start shape) ≤ length rest.old }
        ensures { Wrote (planned_shelf self.now seed start shape) result rest.old rest.new }
    {
        let first = write_plain(rest, self.error, seed, start);
        first + write_shelf(&mut rest[first..], self.share, shape)
    }

    // A start for each pair of the shelf's shapes.
    fn write_shapes(&self, rest: &mut [f64], seed: f64, start: ErrorStart) -> usize
        requires { length (planned_shapes self.now seed start) ≤ length rest.old }
        ensures { Wrote (planned_shapes self.now seed start) result rest.old rest.new }
    {
        let mut at: usize = 0;
        for pair in self.shapes.chunks_exact(2) {
            let shape = ShelfShape {
                retained: pair[0],
                concentration: pair[1],
            };
            at += self.write_shelf_start(&mut rest[at..], seed, start, shape);
        }
        at
    }

    // The starts of one error start: one, or one for each pair of a shelf's shapes.
    #[tactic(auto, unfolding(crate::specs::Starts::row_starts))]
    fn write_row(&self, rest: &mut [f64], seed: f64, start: ErrorStart) -> usize
        requires { length (planned_row self.now seed start) ≤ length rest.old }
        ensures { Wrote (planned_row self.now seed start) result rest.old rest.new }
    {
        match self.genome {
            GenomeModel::NegativeBinomial => write_plain(rest, self.error, seed, start),
            GenomeModel::ShelfNegativeBinomial => self.write_shapes(rest, seed, start),
        }
    }

    // The starts of one seed: those of each error start of the table.
    fn write_table(&self, rest: &mut [f64], seed: f64) -> usize
        requires { length (planned_seed self.now seed) ≤ length rest.old }
        ensures { Wrote (planned_seed self.now seed) result rest.old rest.new }
    {
        let mut at: usize = 0;
        for row in self.table.chunks_exact(3) {
            let start = ErrorStart {
                tail: row[0],
                single: row[1],
                shape: row[2],
            };
            at += self.write_row(&mut rest[at..], seed, start);
        }
        at
    }

    // All starts: those of each seed, and then those of the hint.
    pub(crate) fn write_starts(&self, rest: &mut [f64], seeds: &[f64], hint: f64) -> usize
        requires { length (planned self.now (seeds.now ++ (hint ∷ []))) ≤ length rest.old }
        ensures { Wrote (planned self.now (seeds.now ++ (hint ∷ []))) result rest.old rest.new }
    {
        let mut at: usize = 0;
        for &seed in seeds {
            at += self.write_table(&mut rest[at..], seed);
        }
        at + self.write_table(&mut rest[at..], hint)
    }
}
