// What a fit is asked with: what the caller says, where the window then ends, and what stands fixed.
ghost use Rattle.std.specs.Prelude.{◌≡◌};
ghost use Rattle.fitter.specs.Asking.{is_full, window_rule, window_end_of, window_kind_of, configuration_of};

use models::families::{ErrorModel, GenomeModel};

// The dispersions that the starts begin at, beside the hint, and the shapes of their shelves, each a retained fraction
// and a concentration: the Rust's.
pub const SEEDS: [f64; 3] = [2.0, 8.0, 15.0];

pub const SHAPES: [f64; 4] = [0.5, 3.0, 0.75, 4.0];

#[derive(Clone, Copy)]
pub struct Asked {
    pub valley: usize,
    pub peak: usize,
    pub budget: f64,
    pub scale: f64,
    pub hint: f64,
    pub mass_limit: f64,
    // Without one the window ends by `window_rule`.
    pub window_end: Option<usize>,
}

// Where the window ends: before the whole of six peaks, at them, or where the caller says.
#[derive(Clone, Copy)]
pub enum WindowKind {
    Cut,
    Full,
    Given,
}

#[derive(Clone, Copy)]
pub struct Families {
    pub error: ErrorModel,
    pub genome: GenomeModel,
}

// Whether six peaks lie within the bins but for the last.
fn is_full(peak: usize, bins: usize) -> bool
    ensures { result ≡ is_full peak bins }
{
    if bins == 0 {
        return false;
    }
    peak <= (bins - 1) / 6
}

// Six peaks, or the last bin but one.
#[tactic(auto, unfolding(crate::specs::Asking::window_rule))]
fn window_rule(peak: usize, bins: usize) -> usize
    ensures { result ≡ window_rule peak bins }
{
    if is_full(peak, bins) {
        return 6 * peak;
    }
    if bins == 0 {
        return 0;
    }
    bins - 1
}

#[tactic(auto, unfolding(crate::specs::Asking::window_end_of))]
pub fn window_end_of(asked: Asked, bins: usize) -> usize
    ensures { result ≡ window_end_of asked bins }
{
    match asked.window_end {
        Some(end) => end,
        None => window_rule(asked.peak, bins),
    }
}

#[tactic(auto, unfolding(crate::specs::Asking::window_kind_of))]
pub fn window_kind(asked: Asked, bins: usize) -> WindowKind
    ensures { result ≡ window_kind_of asked bins }
{
    if asked.window_end.is_some() {
        return WindowKind::Given;
    }
    if is_full(asked.peak, bins) {
        return WindowKind::Full;
    }
    WindowKind::Cut
}

// The k-th of the four, from 1, in the original's order; the fourth for any other number.
#[tactic(auto, unfolding(crate::specs::Asking::configuration_of))]
pub fn configuration(k: u64) -> Families
    ensures { result ≡ configuration_of k }
{
    if k == 1 {
        return Families {
            error: ErrorModel::SingletonPareto,
            genome: GenomeModel::NegativeBinomial,
        };
    }
    if k == 2 {
        return Families {
            error: ErrorModel::FreeSingletonWeibull,
            genome: GenomeModel::NegativeBinomial,
        };
    }
    if k == 3 {
        return Families {
            error: ErrorModel::SingletonPareto,
            genome: GenomeModel::ShelfNegativeBinomial,
        };
    }
    Families {
        error: ErrorModel::FreeSingletonWeibull,
        genome: GenomeModel::ShelfNegativeBinomial,
    }
}
