// A sheet at work on the slices that are lent to a call.
ghost use Rattle.std.specs.Prelude.{◌≡◌, ◌*◌, ◌↔◌, IsTrue};
ghost use Rattle.equations.specs.Held.{listed, written};
ghost use Rattle.linear.specs.Solved.{Fits, Accepted, one_more};
ghost use Rattle.newton.specs.Slices.{beside};
ghost use Rattle.newton.specs.Working.{HasRoom, held_rules, Lifts, NewtonStep, GoesOn, SolvedBy, RoundsOn, RoundsEnd};

use super::Progress;
use super::working::solved;
use crate::refusal::Refusal;
use crate::slices::{Script, clear, take_over};
use equations::rules::Rules;
use linear::solver::Solver;
use semiring::Semiring;

// Has a solver solve a system that it takes.
fn solve<K: Semiring, S: Solver>(solver: &mut S, n: usize, grid: &mut [K], column: &mut [K])
    requires { Fits n grid.old column.old }
    ensures { Accepted K.Semiring.algebra n
        (S.Solver.calls solver.old) grid.old column.old
        (S.Solver.calls solver.new) grid.new column.new }
{
    match solver.solve(n, grid, column) {
        Ok(()) => {}
        Err(_) => unreachable(),
    }
}

// How far the sheet has come, its script, and the slices of a space, with room for the work. Each
// slice has a lifetime of its own, so that one can be read while another is written.
#[derive(Drop)]
pub(super) struct Bench<'a, 'v, 'c, 'g, K> {
    pub progress: Progress,
    pub script: Script<'a, K>,
    pub values: &'v mut [K],
    pub column: &'c mut [K],
    pub grid: &'g mut [K],
    ghost room: { HasRoom progress.size (beside script values.now column.now grid.now) },
}

impl<'a, K: Semiring> Bench<'a, '_, '_, '_, K> {
    ghost use Rattle.newton.specs.Bench.{laid, sheet_of, SameBench};

    // The rules of the held branches.
    fn rules(&self) -> Rules<'a, K>
        ensures { listed K.algebra result
            ≡ held_rules K.algebra self.now.progress.size (laid self.now) }
    {
        let Script { branches, weights } = self.script;
        Rules::held(self.progress.size.held, branches, weights)
    }

    // Whether the values solve the equations of the held rules.
    pub fn solved(&self) -> bool
        ensures { IsTrue result ↔ SolvedBy K.algebra self.now.progress.size (laid self.now) }
    {
        solved(self.progress.size, self.script, self.values)
    }

    // Fills the first n places of the column and the first n × n of the grid with zero.
    pub fn clear(&mut self)
        ensures values { self.new.values.now ≡ self.old.values.now }
        ensures column { let n = self.old.progress.size.n in
            self.new.column.now ≡ written (λ r. K.algebra.zero) n self.old.column.now }
        ensures grid { let n = self.old.progress.size.n in
            self.new.grid.now ≡ written (λ i. K.algebra.zero) (n * n) self.old.grid.now }
        ensures same { SameBench self.old self.new }
    {
        let n = self.progress.size.n;
        clear(n, self.column);
        clear(n * n, self.grid);
    }

    // Replaces the values by f of the values.
    #[tactic(auto, using(crate::proofs::Ruled::lifting))]
    pub fn lift(&mut self)
        ensures lifts { Lifts K.algebra self.old.progress.size (laid self.old) (laid self.new) }
        ensures progress { self.new.progress ≡ self.old.progress }
        ensures same { SameBench self.old self.new }
    {
        let n = self.progress.size.n;
        let rules = self.rules();
        let values = &mut *self.values;
        rules.image(n, values, self.column);
        take_over(n, values, self.column, self.grid);
    }

    // One Newton round.
    fn step<S: Solver>(&mut self, solver: &mut S)
        ensures step { NewtonStep K.Semiring.algebra
            self.old.progress.size (laid self.old) (laid self.new) }
        ensures calls { S.Solver.calls solver.new ≡ one_more (S.Solver.calls solver.old) }
        ensures progress { self.new.progress ≡ self.old.progress }
        ensures same { SameBench self.old self.new }
    {
        let n = self.progress.size.n;
        let rules = self.rules();
        let values = &mut *self.values;
        rules.image(n, values, self.column);
        rules.slopes(n, values, self.grid);
        solve(solver, n, self.grid, self.column);
        take_over(n, values, self.column, self.grid);
    }

    // Makes a round, if fewer have been made than there are routines.
    pub fn go_on<S: Solver>(&mut self, solver: &mut S) -> Result<(), Refusal>
        ensures goes { GoesOn K.Semiring.algebra
            (sheet_of self.old) (laid self.old) (S.Solver.calls solver.old)
            (sheet_of self.new) (laid self.new) (S.Solver.calls solver.new)
            result }
        ensures same { SameBench self.old self.new }
    {
        if self.progress.rounds >= self.progress.size.n {
            return Err(Refusal::Rounds);
        }
        self.step(solver);
        self.progress.rounds += 1;
        Ok(())
    }

    // Makes rounds as long as the values do not solve the equations.
    pub fn make_rounds<S: Solver>(&mut self, solver: &mut S) -> Result<(), Refusal>
        ensures rounds { RoundsOn K.Semiring.algebra self.old.progress.size
            self.old.progress.rounds (laid self.old) (S.Solver.calls solver.old)
            self.new.progress.rounds (laid self.new) (S.Solver.calls solver.new) }
        ensures end { RoundsEnd K.Semiring.algebra self.old.progress.size
            self.new.progress.rounds (laid self.new) result }
        ensures same { SameBench self.old self.new }
    {
        while !self.solved() {
            self.go_on(solver)?;
        }
        Ok(())
    }
}
