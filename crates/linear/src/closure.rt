// Solves a system by closure: forms the star of the grid by Kleene's scheme, but for the ones on
// its diagonal, and multiplies it by the column.
ghost use Rattle.std.specs.Prelude.{◌≡◌, ℕ, ◌+◌, ◌<◌, ◌≤◌};
ghost use Rattle.linear.specs.System.{Least};
ghost use Rattle.linear.specs.Rows.{OnlyGrid, OnlyColumn, cells_of, values_of};
ghost use Rattle.linear.specs.Kleene.{Passed, Stepped, Closed};

use crate::counting::{Counting, Method};
use crate::system::System;
use semiring::Semiring;

impl<K: Semiring> System<'_, K> {
    // Adds row p to the rows from `from` up to `to`, multiplied by what each has at p.
    fn pass(&mut self, p: usize, from: usize, to: usize)
        requires row { p < self.old.n }
        requires order { from ≤ to }
        requires end { to ≤ self.old.n }
        requires apart { from ≤ p → p < to → ⊥ }
        ensures { Passed K.algebra p from to self.old self.new }
    {
        for i in from..to {
            let by = self.at(i, p);
            self.add_row(i, by, p);
        }
    }

    // Lets every way pass p, any number of times.
    fn step(&mut self, p: usize)
        requires { p < self.old.n }
        ensures cells { let k = K.algebra in
            Stepped k self.old.n p (cells_of k self.old) (cells_of k self.new) }
        ensures only { OnlyGrid self.old self.new }
    {
        let by = self.at(p, p).star();
        self.scale_row(p, by);
        self.pass(p, 0, p);
        self.pass(p, p + 1, self.n);
    }

    // Forms all ways of the grid.
    fn form(&mut self)
        ensures cells { let k = K.algebra in let n = self.old.n in
            Closed k n n (cells_of k self.old) (cells_of k self.new) }
        ensures only { OnlyGrid self.old self.new }
    {
        for p in 0..self.n {
            self.step(p);
        }
    }

    // Multiplies the column by the star of a grid a, of which all ways are formed. In place: a
    // value that is multiplied already adds nothing new to the next.
    fn multiply(&mut self)
        ensures least { let k = K.algebra in let n = self.old.n in (a : ℕ → ℕ → K)
            → Closed k n n a (cells_of k self.old)
            → Least k n a (values_of k self.old) (values_of k self.new) }
        ensures only { OnlyColumn self.old self.new }
    {
        for r in 0..self.n {
            self.apply(r);
        }
    }
}

// The method itself; it has nothing to remember.
#[derive(Drop)]
pub struct Closing;

impl Method for Closing {
    fn run<K: Semiring>(n: usize, grid: &mut [K], column: &mut [K]) {
        let mut system = System { n, grid, column };
        system.form();
        system.multiply();
    }
}

// Closure, with the count of systems that it has solved.
pub type Closure = Counting<Closing>;
