// Solves a system by elimination: removes the unknowns in rising number and substitutes back.
ghost use Rattle.std.specs.Prelude.{◌≡◌, ◌+◌, ◌<◌};
ghost use Rattle.linear.specs.System.{Least};
ghost use Rattle.linear.specs.Rows.{OnlyColumn, cells_of, values_of};
ghost use Rattle.linear.specs.Removal.{Cleared, Removed};

use crate::counting::{Counting, Method};
use crate::system::System;
use semiring::Semiring;

impl<K: Semiring> System<'_, K> {
    // Solves row p for its own unknown: p goes out of it, and the rest is multiplied by the star.
    fn solve_row(&mut self, p: usize)
        requires row { p < self.old.n }
        requires cleared { Cleared K.algebra self.old.n p p (cells_of K.algebra self.old) }
        ensures { Removed K.algebra p (p + 1) self.old self.new }
    {
        let by = self.take(p, p).star();
        self.scale_row(p, by);
        self.column[p] = by.product(self.column[p]);
    }

    // Puts row p into row i, in the place of the unknown p.
    fn put_into(&mut self, p: usize, i: usize)
        requires order { p < i }
        requires row { i < self.old.n }
        requires cleared { Cleared K.algebra self.old.n p i (cells_of K.algebra self.old) }
        ensures { Removed K.algebra p (i + 1) self.old self.new }
    {
        let by = self.take(i, p);
        self.add_row(i, by, p);
        self.column[i] = self.column[i].sum(by.product(self.column[p]));
    }

    // Removes the unknown p from its own row and from those after it.
    fn remove(&mut self, p: usize)
        requires row { p < self.old.n }
        requires cleared { Cleared K.algebra self.old.n p p (cells_of K.algebra self.old) }
        ensures { Removed K.algebra (p + 1) (p + 1) self.old self.new }
    {
        self.solve_row(p);
        for i in p + 1..self.n {
            self.put_into(p, i);
        }
    }

    // Removes every unknown, in rising number.
    fn remove_all(&mut self)
        ensures { Removed K.algebra self.old.n self.old.n self.old self.new }
    {
        for p in 0..self.n {
            self.remove(p);
        }
    }

    // Puts the values back, from the last row up.
    fn put_back(&mut self)
        requires { let n = self.old.n in Cleared K.algebra n n n (cells_of K.algebra self.old) }
        ensures least { let k = K.algebra in
            Least k self.old.n (cells_of k self.old) (values_of k self.old) (values_of k self.new) }
        ensures only { OnlyColumn self.old self.new }
    {
        for r in (0..self.n).rev() {
            self.apply(r);
        }
    }
}

// The method itself; it has nothing to remember.
#[derive(Drop)]
pub struct Eliminating;

impl Method for Eliminating {
    fn run<K: Semiring>(n: usize, grid: &mut [K], column: &mut [K]) {
        let mut system = System { n, grid, column };
        system.remove_all();
        system.put_back();
    }
}

// Elimination, with the count of systems that it has solved.
pub type Elimination = Counting<Eliminating>;
