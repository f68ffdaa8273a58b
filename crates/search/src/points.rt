// Points, coordinate by coordinate.
ghost use Rattle.std.specs.Prelude.{◌≡◌, map, ◌+◌, length, Float};
ghost use Rattle.routines.specs.Ops.{◌⊘◌};
ghost use Rattle.search.specs.Points.{moved_of, moved, centroid_of};
ghost use Rattle.search.specs.Simplex.{vertices_in};

use crate::rows::Simplex;

// What is made of a coordinate with the same one of another point.
// An enum and no closure: the definition of an iteration names each move (`moved`, specs/Points.antt).
#[derive(Clone, Copy)]
pub enum Move {
    Sum,
    Reflect,
    Expand,
    Half,
}

fn moved_by(how: Move, x: f64, y: f64) -> f64
    ensures { result ≡ moved_of how x y }
{
    match how {
        Move::Sum => x + y,
        Move::Reflect => x + (x - y),
        Move::Expand => x + 2.0 * (x - y),
        Move::Half => x + 0.5 * (y - x),
    }
}

pub(crate) fn move_point(point: &mut [f64], other: &[f64], how: Move)
    requires { length point.old ≡ length other.now }
    ensures { point.new ≡ moved how point.old other.now }
{
    // other[j] and no zip: a proof knows nothing of what was written through a zip's iter_mut.
    for (j, x) in point.iter_mut().enumerate() {
        *x = moved_by(how, *x, other[j]);
    }
}

fn divide(point: &mut [f64], by: f64)
    ensures { point.new ≡ map (λ (x : Float). x ⊘ by) point.old }
{
    for x in point.iter_mut() {
        *x /= by;
    }
}

// The centroid of all vertices but the last.
pub(crate) fn centroid(simplex: &Simplex<'_>, point: &mut [f64])
    requires { length point.old + 1 ≡ simplex.now.w }
    ensures { point.new ≡ centroid_of (vertices_in simplex.now) }
{
    point.copy_from_slice(simplex.point(0));
    let n = simplex.w - 1;
    for i in 1..n {
        move_point(point, simplex.point(i), Move::Sum);
    }
    divide(point, n as f64);
}
