// Whether the costs of a simplex have come together.
ghost use Rattle.std.specs.Prelude.{◌≡◌, ◌<◌};
ghost use Rattle.search.specs.Simplex.{vertices_in};
ghost use Rattle.search.specs.Spread.{mean_of, square_at, deviation_of, settled};

use crate::rows::Simplex;

// The square of the standard deviation at which argmin stopped, 1e-4.
pub const TOLERANCE: f64 = 1e-8;

fn mean_cost(simplex: &Simplex<'_>) -> f64
    ensures { result ≡ mean_of (vertices_in simplex.now) }
{
    let w = simplex.w;
    let mut sum = simplex.cost(0);
    // By number, as the definitions and a simplex have a vertex; so below.
    for i in 1..w {
        sum += simplex.cost(i);
    }
    sum / (w as f64)
}

#[tactic(auto, unfolding(crate::specs::Spread::square_at))]
fn square_at(simplex: &Simplex<'_>, mean: f64, i: usize) -> f64
    requires { i < simplex.now.w }
    ensures { result ≡ square_at (vertices_in simplex.now) mean i }
{
    let off = simplex.cost(i) - mean;
    off * off
}

fn deviation(simplex: &Simplex<'_>) -> f64
    ensures { result ≡ deviation_of (vertices_in simplex.now) }
{
    let w = simplex.w;
    let mean = mean_cost(simplex);
    let mut sum = square_at(simplex, mean, 0);
    for i in 1..w {
        sum += square_at(simplex, mean, i);
    }
    sum / (w as f64)
}

#[tactic(auto, unfolding(crate::specs::Spread::settled))]
pub(crate) fn is_settled(simplex: &Simplex<'_>) -> bool
    ensures { result ≡ settled (vertices_in simplex.now) }
{
    deviation(simplex) < TOLERANCE
}
