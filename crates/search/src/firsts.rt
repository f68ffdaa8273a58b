// The first simplex of a start.
ghost use Rattle.std.specs.Prelude.{◌≡◌, ◌+◌, ◌*◌, ◌<◌, ◌≤◌, length};
ghost use Rattle.search.specs.Firsts.{first_point, first_simplex};
ghost use Rattle.search.specs.Priced.{price_in, IsKept};
ghost use Rattle.search.specs.Simplex.{vertices_in, IsSame};
ghost use Rattle.search.specs.Vertices.{rows_in};

use crate::prices::Prices;
use crate::rows::Simplex;
use crate::steps::MOST_COORDINATES;

// The start, or with 0.5 added to its coordinate i - 1.
fn first_point(start: &[f64], i: usize, point: &mut [f64])
    requires { (length point.old ≡ length start.now) × (i ≤ length start.now) }
    ensures { point.new ≡ first_point start.now i }
{
    point.copy_from_slice(start);
    if i == 0 {
        return;
    }
    let j = i - 1;
    point[j] = point[j] + 0.5;
}

// `point` may hold anything.
fn first_rows(prices: &mut Prices<'_>, start: &[f64], point: &mut [f64], simplex: &mut Simplex<'_>)
    requires { (length start.now + 1 ≡ simplex.old.w) × (length point.old + 1 ≡ simplex.old.w) }
    ensures vertices_after { vertices_in simplex.new ≡ first_simplex (price_in prices.old) start.now }
    ensures same { IsSame simplex.old simplex.new }
    ensures kept { IsKept prices.old prices.new }
{
    let w = simplex.w;
    for i in 0..w {
        first_point(start, i, point);
        let cost = prices.price(point);
        simplex.put(i, cost, point);
    }
}

// Rows and their width, and no `Simplex`, for the reason that stands at `run`.
pub(crate) fn first_simplex(prices: &mut Prices<'_>, w: usize, start: &[f64], rows: &mut [f64])
    requires { (length rows.old ≡ w * w) × (length start.now + 1 ≡ w) × (1 < w) × (w ≤ 12) }
    ensures rows_after { rows_in w w rows.new ≡ first_simplex (price_in prices.old) start.now }
    ensures kept { IsKept prices.old prices.new }
{
    let n = w - 1;
    let mut point = [0.0; MOST_COORDINATES];
    let mut simplex = Simplex { rows, w };
    first_rows(prices, start, &mut point[0..n], &mut simplex);
}
