// What a solver of linear systems is.
ghost use Rattle.std.specs.Prelude.{◌≡◌, ℕ};
ghost use Rattle.linear.specs.Solved.{Solved};

use crate::refusal::Refusal;
use semiring::Semiring;

// A solver is handed the number of unknowns n, the grid with A and the column with b, and leaves in
// the column's first n places the least x with x = A x + b. The grid's first n × n places are then
// free, and all other places of both slices are as they were.
// Kept: n and two slices apart, and so wherever a caller's system is handed on: a type in which
// they fit would ask of callers what is a question here.
pub trait Solver {
    // How many systems it has solved.
    ghost calls: { Self → ℕ };

    fn solve<K: Semiring>(
        &mut self,
        n: usize,
        grid: &mut [K],
        column: &mut [K],
    ) -> Result<(), Refusal>
        ensures { Solved K.Semiring.algebra n
            (calls self.old) grid.old column.old
            (calls self.new) grid.new column.new result };

    fn count(&self) -> u32
        ensures { result ≡ calls self.now };
}
