// Rows of a simplex in a lent slice.
ghost use Rattle.std.specs.Prelude.{◌≡◌, ◌*◌, ◌<◌, ◌≤◌, length};

// The most numbers in a row: a cost and eleven coordinates.
pub const WIDEST: usize = 12;

// As many rows as there are numbers in one, each a vertex: its cost, then its coordinates.
#[derive(Drop)]
pub(crate) struct Simplex<'a> {
    pub(crate) rows: &'a mut [f64],
    pub(crate) w: usize,
    ghost square: { length rows.now ≡ w * w },
    ghost some: { 1 < w },
    ghost narrow: { w ≤ 12 },
}

impl Simplex<'_> {
    ghost use Rattle.std.specs.Prelude.{◌∷◌, ◌+◌, set};
    ghost use Rattle.search.specs.Simplex.{vertices_in, IsSame};
    ghost use Rattle.search.specs.Vertices.{vertex_at, cost_in, point_in};

    // What a vertex costs.
    pub(crate) fn cost(&self, i: usize) -> f64
        requires { i < self.now.w }
        ensures { result ≡ cost_in (vertex_at (vertices_in self.now) i) }
    {
        self.rows[i * self.w]
    }

    // Its coordinates.
    pub(crate) fn point(&self, i: usize) -> &[f64]
        requires { i < self.now.w }
        ensures value { result.now ≡ point_in (vertex_at (vertices_in self.now) i) }
        ensures long { length result.now + 1 ≡ self.now.w }
    {
        let from = i * self.w + 1;
        let to = from + (self.w - 1);
        &self.rows[from..to]
    }

    // Two neighbouring rows change places.
    pub(crate) fn swap_next(&mut self, i: usize)
        requires { i + 1 < self.old.w }
        ensures vertices_after { vertices_in self.new
            ≡ set (set (vertices_in self.old) i (vertex_at (vertices_in self.old) (i + 1))) (i + 1)
            (vertex_at (vertices_in self.old) i) }
        ensures same { IsSame self.old self.new }
    {
        let w = self.w;
        let from = i * w;
        // Lent again in a `let`: of a field that a call splits, the proof keeps the length and no element.
        let rows = &mut *self.rows;
        let (front, back) = rows.split_at_mut(from + w);
        front[from..].swap_with_slice(&mut back[..w]);
    }

    // A vertex in a row.
    pub(crate) fn put(&mut self, i: usize, cost: f64, point: &[f64])
        requires { (i < self.old.w) × (length point.now + 1 ≡ self.old.w) }
        ensures vertices_after { vertices_in self.new ≡ set (vertices_in self.old) i (cost ∷ point.now) }
        ensures same { IsSame self.old self.new }
    {
        let at = i * self.w;
        let from = at + 1;
        let to = at + self.w;
        self.rows[at] = cost;
        self.rows[from..to].copy_from_slice(point);
    }
}
