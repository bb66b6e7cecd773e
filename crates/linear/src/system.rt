// A system as it lies in lent slices, and what the solvers do with its rows.
ghost use Rattle.std.specs.Prelude.{◌≡◌, ℕ, ◌+◌, ◌*◌, ◌<◌, ◌≤◌, length, map, fold, zip, slice_set};
ghost use Rattle.linear.specs.Solved.{Fits};

use semiring::Semiring;

// Multiplies a row by a weight.
fn scale<K: Semiring>(row: &mut [K], by: K)
    ensures { row.new ≡ map (K.algebra.times by) row.old }
{
    for cell in row.iter_mut() {
        *cell = by.product(*cell);
    }
}

// The sum of the products of a row's weights with the values of a column.
fn sum_of_products<K: Semiring>(row: &[K], column: &[K]) -> K
    ensures { let more : K → K × K → K = λ all p. K.algebra.plus all (K.algebra.times p.0 p.1) in
        result ≡ fold more K.algebra.zero (zip row.now column.now) }
{
    row.iter().zip(column).fold(
        K::zero(),
        |all, (cell, value)| all.sum(cell.product(*value)),
    )
}

// n unknowns, the grid as n rows of n places each over the first n × n places of a lent slice, and
// the column over the first n places of another.
// Kept: the grid is one slice, as it is lent; rows of their own would need the heap.
// Kept: that a row is below n is asked of each number, and how far a removal has come of each
// step; a type that knows it would have to name the one system that it is true of.
#[derive(Drop)]
pub(crate) struct System<'a, K> {
    pub n: usize,
    pub grid: &'a mut [K],
    pub column: &'a mut [K],
    ghost fits: { Fits n grid.now column.now },
}

impl<K: Semiring> System<'_, K> {
    ghost use Rattle.linear.specs.Rows.{OnlyGrid, OnlyColumn, Rewritten};
    ghost use Rattle.linear.specs.Rows.{cells_of, row_value, scaled, added};

    // The index of row r, place q.
    fn place(&self, r: usize, q: usize) -> usize
        requires row { r < self.now.n }
        requires place { q < self.now.n }
        ensures is { result ≡ r * self.now.n + q }
        ensures within { result < self.now.n * self.now.n }
    {
        r * self.n + q
    }

    // The weight in row r, place q.
    pub(crate) fn at(&self, r: usize, q: usize) -> K
        requires row { r < self.now.n }
        requires place { q < self.now.n }
        ensures { result ≡ cells_of K.algebra self.now r q }
    {
        self.grid[self.place(r, q)]
    }

    fn put(&mut self, r: usize, q: usize, weight: K)
        requires row { r < self.old.n }
        requires place { q < self.old.n }
        ensures cell { self.new.grid.now
            ≡ slice_set self.old.grid.now (r * self.old.n + q) weight }
        ensures only { OnlyGrid self.old self.new }
    {
        let i = self.place(r, q);
        self.grid[i] = weight;
    }

    // The weight in row r, place q, for which it leaves zero.
    pub(crate) fn take(&mut self, r: usize, q: usize) -> K
        requires row { r < self.old.n }
        requires place { q < self.old.n }
        ensures was { result ≡ cells_of K.algebra self.old r q }
        ensures cell { self.new.grid.now
            ≡ slice_set self.old.grid.now (r * self.old.n + q) K.algebra.zero }
        ensures only { OnlyGrid self.old self.new }
    {
        let weight = self.at(r, q);
        self.put(r, q, K::zero());
        weight
    }

    // Multiplies row r by a weight.
    pub(crate) fn scale_row(&mut self, r: usize, by: K)
        requires { r < self.old.n }
        ensures { let row = scaled K.algebra self.old r by in
            Rewritten K.algebra r self.old.n row self.old self.new }
    {
        let from = r * self.n;
        scale(&mut self.grid[from..from + self.n], by);
    }

    // Adds row p, multiplied by a weight, to row r.
    pub(crate) fn add_row(&mut self, r: usize, by: K, p: usize)
        requires row { r < self.old.n }
        requires other { p < self.old.n }
        ensures { let row = added K.algebra self.old r by p in
            Rewritten K.algebra r self.old.n row self.old self.new }
    {
        // Kept: one slice holds both rows, so two iterators over them need it split at the later.
        for q in 0..self.n {
            let weight = self.at(r, q).sum(by.product(self.at(p, q)));
            self.put(r, q, weight);
        }
    }

    // What row r makes of the values, plus the value of r itself.
    fn row_value(&self, r: usize) -> K
        requires { r < self.now.n }
        ensures { result ≡ row_value K.algebra self.now r }
    {
        let from = r * self.n;
        let row = &self.grid[from..from + self.n];
        sum_of_products(row, self.column).sum(self.column[r])
    }

    // Puts that in the place of the value of r.
    pub(crate) fn apply(&mut self, r: usize)
        requires { r < self.old.n }
        ensures value { self.new.column.now
            ≡ slice_set self.old.column.now r (row_value K.algebra self.old r) }
        ensures only { OnlyColumn self.old self.new }
    {
        let value = self.row_value(r);
        self.column[r] = value;
    }
}
