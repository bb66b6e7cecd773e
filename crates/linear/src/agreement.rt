// Any two solvers leave the same column.
ghost use Rattle.std.specs.Prelude.{◌≡◌};
ghost use Rattle.linear.specs.System.{OneSolution};
ghost use Rattle.linear.specs.Solved.{Solved};

use crate::refusal::Refusal;
use crate::solver::Solver;
use semiring::Semiring;

// Solves one system by two solvers, each in slices of its own. A system has one least solution, so
// they leave the same column, and the choice of a solver is a matter of taste.
pub fn solve_twice<K: Semiring, S: Solver, T: Solver>(
    one: &mut S,
    other: &mut T,
    n: usize,
    grid: &mut [K],
    column: &mut [K],
    second_grid: &mut [K],
    second_column: &mut [K],
) -> Result<(), Refusal>
    requires grid { second_grid.old ≡ grid.old }
    requires column { second_column.old ≡ column.old }
    ensures first { Solved K.Semiring.algebra n
        (S.Solver.calls one.old) grid.old column.old
        (S.Solver.calls one.new) grid.new column.new result }
    ensures second { Solved K.Semiring.algebra n
        (T.Solver.calls other.old) second_grid.old second_column.old
        (T.Solver.calls other.new) second_grid.new second_column.new result }
    ensures one { OneSolution K.Semiring.algebra }
    ensures agree { second_column.new ≡ column.new }
{
    one.solve(n, grid, column)?;
    other.solve(n, second_grid, second_column)
}
