// An iteration of the search.
ghost use Rattle.std.specs.Prelude.{◌≡◌, ◌∷◌, ◌+◌, length};
ghost use Rattle.search.specs.Points.{moved};
ghost use Rattle.search.specs.Priced.{price_in, IsKept};
ghost use Rattle.search.specs.Rule.{shrunk, expanded, contracted_out, contracted_in, stepped};
ghost use Rattle.search.specs.Simplex.{vertices_in, IsSame};

use crate::points::{Move, centroid, move_point};
use crate::prices::Prices;
use crate::rows::{Simplex, WIDEST};

// The most coordinates of a point.
pub const MOST_COORDINATES: usize = WIDEST - 1;

// A point out of two, and what it costs.
pub(crate) fn try_point(
    prices: &mut Prices<'_>,
    from: &[f64],
    other: &[f64],
    how: Move,
    point: &mut [f64],
) -> f64
    requires { (length point.old ≡ length from.now) × (length point.old ≡ length other.now) }
    ensures point_after { point.new ≡ moved how from.now other.now }
    ensures value { result
        ≡ price_in prices.old
        (moved how from.now other.now) }
    ensures kept { IsKept prices.old prices.new }
{
    point.copy_from_slice(from);
    move_point(point, other, how);
    prices.price(point)
}

// Every vertex but the first goes half the way to it.
fn shrink(prices: &mut Prices<'_>, best: &mut [f64], point: &mut [f64], simplex: &mut Simplex<'_>)
    requires { (length best.old + 1 ≡ simplex.old.w) × (length point.old + 1 ≡ simplex.old.w) }
    ensures vertices_after { vertices_in simplex.new ≡ shrunk (price_in prices.old) (vertices_in simplex.old) }
    ensures same { IsSame simplex.old simplex.new }
    ensures kept { IsKept prices.old prices.new }
{
    let w = simplex.w;
    best.copy_from_slice(simplex.point(0));
    for i in 1..w {
        let cost = try_point(prices, simplex.point(i), best, Move::Half, point);
        simplex.put(i, cost, point);
    }
}

// The cheaper of the point reflected and one twice as far, in the worst one's row.
fn expand(
    prices: &mut Prices<'_>,
    centre: &[f64],
    reflected: f64,
    point: &[f64],
    far: &mut [f64],
    simplex: &mut Simplex<'_>,
)
    requires { (length centre.now + 1 ≡ simplex.old.w) × (length point.now + 1 ≡ simplex.old.w)
        × (length far.old + 1 ≡ simplex.old.w) }
    ensures vertices_after { vertices_in simplex.new
        ≡ expanded (price_in prices.old) (vertices_in simplex.old) centre.now (reflected ∷ point.now) }
    ensures same { IsSame simplex.old simplex.new }
    ensures kept { IsKept prices.old prices.new }
{
    let worst = simplex.w - 1;
    let cost = try_point(prices, centre, simplex.point(worst), Move::Expand, far);
    if cost < reflected {
        simplex.put(worst, cost, far);
        return;
    }
    simplex.put(worst, reflected, point);
}

// Half the way from the centroid to the point reflected, where that costs at most as much as it.
fn contract_out(
    prices: &mut Prices<'_>,
    centre: &mut [f64],
    reflected: f64,
    point: &[f64],
    near: &mut [f64],
    simplex: &mut Simplex<'_>,
)
    requires { (length centre.old + 1 ≡ simplex.old.w) × (length point.now + 1 ≡ simplex.old.w)
        × (length near.old + 1 ≡ simplex.old.w) }
    ensures vertices_after { vertices_in simplex.new
        ≡ contracted_out (price_in prices.old) (vertices_in simplex.old) centre.old (reflected ∷ point.now) }
    ensures same { IsSame simplex.old simplex.new }
    ensures kept { IsKept prices.old prices.new }
{
    let worst = simplex.w - 1;
    let cost = try_point(prices, centre, point, Move::Half, near);
    if cost <= reflected {
        simplex.put(worst, cost, near);
        return;
    }
    shrink(prices, centre, near, simplex);
}

// Half the way from the centroid to the worst, where that is cheaper than the worst.
fn contract_in(
    prices: &mut Prices<'_>,
    centre: &mut [f64],
    near: &mut [f64],
    simplex: &mut Simplex<'_>,
)
    requires { (length centre.old + 1 ≡ simplex.old.w) × (length near.old + 1 ≡ simplex.old.w) }
    ensures vertices_after { vertices_in simplex.new
        ≡ contracted_in (price_in prices.old) (vertices_in simplex.old) centre.old }
    ensures same { IsSame simplex.old simplex.new }
    ensures kept { IsKept prices.old prices.new }
{
    let worst = simplex.w - 1;
    let cost = try_point(prices, centre, simplex.point(worst), Move::Half, near);
    if cost < simplex.cost(worst) {
        simplex.put(worst, cost, near);
        return;
    }
    shrink(prices, centre, near, simplex);
}

// One iteration over vertices that are in order. The three slices may hold anything.
fn step_with(
    prices: &mut Prices<'_>,
    centre: &mut [f64],
    point: &mut [f64],
    other: &mut [f64],
    simplex: &mut Simplex<'_>,
)
    requires { (length centre.old + 1 ≡ simplex.old.w) × (length point.old + 1 ≡ simplex.old.w)
        × (length other.old + 1 ≡ simplex.old.w) }
    ensures vertices_after { vertices_in simplex.new ≡ stepped (price_in prices.old) (vertices_in simplex.old) }
    ensures same { IsSame simplex.old simplex.new }
    ensures kept { IsKept prices.old prices.new }
{
    let worst = simplex.w - 1;
    centroid(simplex, centre);
    let cost = try_point(prices, centre, simplex.point(worst), Move::Reflect, point);
    if cost < simplex.cost(0) {
        expand(prices, centre, cost, point, other, simplex);
        return;
    }
    if cost < simplex.cost(worst - 1) {
        simplex.put(worst, cost, point);
        return;
    }
    if cost < simplex.cost(worst) {
        contract_out(prices, centre, cost, point, other, simplex);
        return;
    }
    contract_in(prices, centre, other, simplex);
}

pub(crate) fn step(prices: &mut Prices<'_>, simplex: &mut Simplex<'_>)
    ensures vertices_after { vertices_in simplex.new ≡ stepped (price_in prices.old) (vertices_in simplex.old) }
    ensures same { IsSame simplex.old simplex.new }
    ensures kept { IsKept prices.old prices.new }
{
    let n = simplex.w - 1;
    let mut centre = [0.0; MOST_COORDINATES];
    let mut point = [0.0; MOST_COORDINATES];
    let mut other = [0.0; MOST_COORDINATES];
    step_with(
        prices,
        &mut centre[0..n],
        &mut point[0..n],
        &mut other[0..n],
        simplex,
    );
}
