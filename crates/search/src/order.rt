// The vertices in the order of their costs, the earlier first on ties.
ghost use Rattle.std.specs.Prelude.{◌≡◌, ◌++◌, suc, ◌<◌, take, drop};
ghost use Rattle.search.specs.Order.{insert, ordered};
ghost use Rattle.search.specs.Simplex.{vertices_in, IsSame};
ghost use Rattle.search.specs.Vertices.{vertex_at};

use crate::rows::Simplex;

// A vertex goes behind those after it that cost less, which are in order.
fn sink(simplex: &mut Simplex<'_>, i: usize)
    requires { i < simplex.old.w }
    ensures vertices_after { vertices_in simplex.new
        ≡ take i (vertices_in simplex.old) ++ insert (vertex_at (vertices_in simplex.old) i)
        (drop (suc i) (vertices_in simplex.old)) }
    ensures same { IsSame simplex.old simplex.new }
{
    let last = simplex.w - 1;
    for k in i..last {
        if !(simplex.cost(k + 1) < simplex.cost(k)) {
            return;
        }
        simplex.swap_next(k);
    }
}

pub(crate) fn order(simplex: &mut Simplex<'_>)
    ensures vertices_after { vertices_in simplex.new ≡ ordered (vertices_in simplex.old) }
    ensures same { IsSame simplex.old simplex.new }
{
    let w = simplex.w;
    for i in (0..w).rev() {
        sink(simplex, i);
    }
}
