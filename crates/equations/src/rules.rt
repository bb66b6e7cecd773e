// The rules that lie in two lent slices: branches, with the weight of each. f at a routine or in a
// column, the slopes in a grid, and whether values solve the equations.
ghost use Rattle.std.specs.Prelude.{◌≡◌, length};

use crate::{called, others, value_at};
use script::branch::Branch;
use semiring::Semiring;

// Rule i is branch i with weight i.
// Kept: two slices side by side: pairs would copy the table of branches for each kind's weights.
#[derive(Drop)]
pub struct Rules<'a, K> {
    branches: &'a [Branch],
    weights: &'a [K],
    ghost paired: { length weights.now ≡ length branches.now },
}

impl<'a, K: Semiring> Rules<'a, K> {
    ghost use Rattle.std.specs.Prelude.{ℕ, ◌*◌, ◌≤◌, List, true, false};
    ghost use Rattle.std.specs.Fn.{FnReturnsAt};
    ghost use Rattle.linear.specs.System.{entry_at};
    ghost use Rattle.equations.specs.Held.{rules_of, listed, written, rows};
    ghost use Rattle.equations.specs.Equations.{over, image, slope, Solves};
    ghost use Rattle.equations.specs.Convergence.{Convergence};

    // The first `held` branches with their weights.
    #[tactic(auto, using(crate::proofs::Slices::held_cut))]
    pub fn held(held: usize, branches: &'a [Branch], weights: &'a [K]) -> Rules<'a, K>
        requires branches { held ≤ length branches.now }
        requires weights { held ≤ length weights.now }
        ensures { listed K.algebra result ≡ rules_of K.algebra held branches.now weights.now }
    {
        Rules {
            branches: &branches[..held],
            weights: &weights[..held],
        }
    }

    // The sum, over the rules of routine r, of the weight times what the calls are worth.
    fn over<F: Fn(&[u8]) -> K>(&self, r: usize, worth: F) -> K
        requires { F.IsAlwaysCallable worth }
        ensures { (g : List ℕ → K)
            → ((calls : List ℕ) (x : K) → FnReturnsAt F.Fn worth calls x → x ≡ g calls)
            → result ≡ over K.algebra (listed K.algebra self.now) g r }
    {
        let mut all = K::zero();
        for (branch, weight) in self.branches.iter().zip(self.weights) {
            if usize::from(branch.routine) == r {
                all = all.sum(weight.product(worth(branch.counted_calls())));
            }
        }
        all
    }

    // f at routine r.
    pub fn image_at(&self, values: &[K], r: usize) -> K
        ensures { result
            ≡ image K.algebra (listed K.algebra self.now) (entry_at K.algebra values.now) r }
    {
        self.over(r, |calls| called(values, calls))
    }

    // The slope of f in row r, place q.
    pub fn slope_at(&self, values: &[K], r: usize, q: usize) -> K
        ensures { result
            ≡ slope K.algebra (listed K.algebra self.now) (entry_at K.algebra values.now) r q }
    {
        self.over(r, |calls| others(values, q, calls))
    }

    // Fills the first n places of a column with f.
    #[tactic(auto, using(crate::proofs::Slices::written_more))]
    pub fn image(&self, n: usize, values: &[K], column: &mut [K])
        requires { n ≤ length column.old }
        ensures { column.new
            ≡ written
            (image K.algebra (listed K.algebra self.now) (entry_at K.algebra values.now))
            n
            column.old }
    {
        for (r, place) in column[..n].iter_mut().enumerate() {
            *place = self.image_at(values, r);
        }
    }

    // Fills the first n × n places of a grid with the slopes: row r, place q at r × n + q.
    // Kept: the grid is one slice, as it is lent to a solver.
    #[tactic(auto, using(crate::proofs::Slices::written_more))]
    pub fn slopes(&self, n: usize, values: &[K], grid: &mut [K])
        requires { n * n ≤ length grid.old }
        ensures { grid.new
            ≡ written
            (rows n (slope K.algebra (listed K.algebra self.now) (entry_at K.algebra values.now)))
            (n * n)
            grid.old }
    {
        for (i, place) in grid[..n * n].iter_mut().enumerate() {
            *place = self.slope_at(values, i / n, i % n);
        }
    }

    // Whether the values solve the equations of the routines below n. With it, why that is asked:
    // reached values that solve them are the sum over all runs, and n rounds suffice.
    pub fn solves(&self, n: usize, values: &[K]) -> bool
        ensures yes { result ≡ true
            → Solves K.algebra n (listed K.algebra self.now) (entry_at K.algebra values.now) }
        ensures no { result ≡ false
            → Solves K.algebra n (listed K.algebra self.now) (entry_at K.algebra values.now)
            → ⊥ }
        ensures convergence { Convergence K.algebra }
    {
        (0..n).all(|r| value_at(values, r).same(self.image_at(values, r)))
    }
}
