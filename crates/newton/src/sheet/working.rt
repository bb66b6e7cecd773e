// The calls of a sheet at work.
ghost use Rattle.std.specs.Prelude.{◌≡◌, ◌<◌, ◌≤◌, ◌↔◌, [], length, IsTrue, IfOk, IfErr, Ok, Err};
ghost use Rattle.std.specs.Result.{result_and};
ghost use Rattle.newton.specs.Questions.{Asked};
ghost use Rattle.newton.specs.Slices.{beside, slices, SameLent};
ghost use Rattle.newton.specs.Working.{Sound, AllSound, slice_questions, due_questions, Started, Climbed, Closed, SolvedBy, Rounded, SettlesBy};

use super::bench::Bench;
use super::drafting::names_below;
use super::{Draft, Progress, Settled, Size, Work};
use crate::refusal::Refusal;
use crate::slices::{Script, Space, clear};
use equations::rules::Rules;
use linear::solver::Solver;
use script::branch::Branch;
use semiring::Semiring;

// Whether a branch has at most 4 calls, and names routines below n only.
fn is_sound(n: u8, branch: &Branch) -> bool
    ensures { IsTrue result ↔ Sound n branch.now }
{
    branch.count <= 4 && names_below(branch, n)
}

// Whether every held branch is sound.
fn all_sound(size: Size, branches: &[Branch]) -> bool
    requires { size.held ≤ length branches.now }
    ensures yes { IsTrue result → AllSound size branches.now }
    ensures complete { AllSound size branches.now → IsTrue result }
{
    let n = size.n as u8;
    branches[..size.held]
        .iter()
        .all(|branch| is_sound(n, branch))
}

// The questions on the slices, in order.
fn ready<K: Semiring>(
    size: Size,
    script: Script<'_, K>,
    values: &[K],
    column: &[K],
    grid: &[K],
) -> Result<(), Refusal>
    ensures { Asked
        (slice_questions K.algebra size (beside script.entry values.now column.now grid.now))
        result }
{
    let Size { n, held, .. } = size;
    if script.branches.len() < held || script.weights.len() < held {
        return Err(Refusal::Slices);
    }
    if values.len() < n || column.len() < n || grid.len() < n * n {
        return Err(Refusal::Slices);
    }
    if !all_sound(size, script.branches) {
        return Err(Refusal::Held);
    }
    Ok(())
}

// The questions on a script and a space, in order.
// Kept: tried with `ready` alone: where three slices of a `&mut` space are lent to one call, the
// borrow checker of the toolchain does not cover the function.
fn ready_in<K: Semiring>(
    size: Size,
    script: Script<'_, K>,
    space: &Space<'_, '_, '_, K>,
) -> Result<(), Refusal>
    ensures { Asked (slice_questions K.algebra size (slices script.entry space.now)) result }
{
    ready(size, script, space.values, space.column, space.grid)
}

// Whether the values solve the equations of the held rules. Column and grid have no part in that.
pub(super) fn solved<K: Semiring>(size: Size, script: Script<'_, K>, values: &[K]) -> bool
    requires branches { size.held ≤ length script.branches.now }
    requires weights { size.held ≤ length script.weights.now }
    ensures { IsTrue result ↔ SolvedBy K.algebra size (beside script.entry values.now [] []) }
{
    Rules::held(size.held, script.branches, script.weights).solves(size.n, values)
}

// The questions of the calls that go on, in order.
fn due<K: Semiring>(
    size: Size,
    script: Script<'_, K>,
    space: &Space<'_, '_, '_, K>,
) -> Result<(), Refusal>
    ensures { Asked (due_questions K.algebra size (slices script.entry space.now)) result }
{
    ready_in(size, script, space)?;
    if solved(size, script, space.values) {
        return Err(Refusal::Solved);
    }
    Ok(())
}

impl Draft {
    // The sheet at work, if the slices allow it.
    fn started<K: Semiring>(
        &self,
        script: Script<'_, K>,
        space: &mut Space<'_, '_, '_, K>,
    ) -> Result<Work, Refusal>
        ensures ok { IfOk result (λ work. Started K.algebra self.now
            (slices script.entry space.old) (slices script.entry space.new) (Ok work)) }
        ensures err { IfErr result (λ why. Started K.algebra self.now
            (slices script.entry space.old) (slices script.entry space.new)
            (Err (self.now, why))) }
        ensures lent { SameLent space.old space.new }
    {
        let size = self.size;
        ready_in(size, script, space)?;
        Rules::held(size.held, script.branches, script.weights).image(size.n, &[], space.values);
        clear(size.n, space.column);
        clear(size.n * size.n, space.grid);
        Ok(Work {
            progress: Progress::new(size),
        })
    }

    // Takes a draft to work: the values are f of all zeros.
    pub fn start<K: Semiring>(
        self,
        script: Script<'_, K>,
        space: &mut Space<'_, '_, '_, K>,
    ) -> Result<Work, (Draft, Refusal)>
        ensures starts { Started K.algebra self
            (slices script.entry space.old) (slices script.entry space.new) result }
        ensures lent { SameLent space.old space.new }
    {
        self.started(script, space)
            .map_err(|refusal| (self, refusal))
    }
}

// The settled sheet, if the rounds ended well.
fn settled_after(progress: Progress, end: Result<(), Refusal>) -> Result<Settled, Refusal>
    ensures { result ≡ result_and end (Ok (record { progress = progress })) }
{
    end.and(Ok(Settled { progress }))
}

impl Work {
    // Replaces the values by the least solution of the linear system at them.
    pub fn round<K: Semiring, S: Solver>(
        &mut self,
        solver: &mut S,
        script: Script<'_, K>,
        space: &mut Space<'_, '_, '_, K>,
    ) -> Result<(), Refusal>
        ensures rounds { Rounded K.Semiring.algebra
            self.old (slices script.entry space.old) (S.Solver.calls solver.old)
            self.new (slices script.entry space.new) (S.Solver.calls solver.new)
            result }
        ensures lent { SameLent space.old space.new }
    {
        due(self.progress.size, script, space)?;
        let mut bench = Bench {
            progress: self.progress,
            script,
            values: &mut *space.values,
            column: &mut *space.column,
            grid: &mut *space.grid,
        };
        let end = bench.go_on(solver);
        self.progress = bench.progress;
        end
    }

    // Replaces the values by f of the values.
    pub fn climb<K: Semiring>(
        &self,
        script: Script<'_, K>,
        space: &mut Space<'_, '_, '_, K>,
    ) -> Result<(), Refusal>
        ensures climbs { Climbed K.algebra self.now
            (slices script.entry space.old) (slices script.entry space.new) result }
        ensures lent { SameLent space.old space.new }
    {
        due(self.progress.size, script, space)?;
        let mut bench = Bench {
            progress: self.progress,
            script,
            values: &mut *space.values,
            column: &mut *space.column,
            grid: &mut *space.grid,
        };
        bench.lift();
        Ok(())
    }

    // The settled sheet, once the values solve the equations.
    fn settled<K: Semiring, S: Solver>(
        &mut self,
        solver: &mut S,
        script: Script<'_, K>,
        space: &mut Space<'_, '_, '_, K>,
    ) -> Result<Settled, Refusal>
        ensures ok { IfOk result (λ settled. SettlesBy K.Semiring.algebra
            self.old (slices script.entry space.old) (S.Solver.calls solver.old)
            (slices script.entry space.new) (S.Solver.calls solver.new)
            (Ok settled)) }
        ensures err { IfErr result (λ why. SettlesBy K.Semiring.algebra
            self.old (slices script.entry space.old) (S.Solver.calls solver.old)
            (slices script.entry space.new) (S.Solver.calls solver.new)
            (Err (self.new, why))) }
        ensures lent { SameLent space.old space.new }
    {
        ready_in(self.progress.size, script, space)?;
        let mut bench = Bench {
            progress: self.progress,
            script,
            values: &mut *space.values,
            column: &mut *space.column,
            grid: &mut *space.grid,
        };
        let end = bench.make_rounds(solver);
        self.progress = bench.progress;
        bench.clear();
        settled_after(self.progress, end)
    }

    // Makes rounds as long as the values do not solve the equations, then closes.
    pub fn settle<K: Semiring, S: Solver>(
        mut self,
        solver: &mut S,
        script: Script<'_, K>,
        space: &mut Space<'_, '_, '_, K>,
    ) -> Result<Settled, (Work, Refusal)>
        ensures settles { SettlesBy K.Semiring.algebra
            self (slices script.entry space.old) (S.Solver.calls solver.old)
            (slices script.entry space.new) (S.Solver.calls solver.new)
            result }
        ensures lent { SameLent space.old space.new }
    {
        self.settled(solver, script, space)
            .map_err(|refusal| (self, refusal))
    }

    // The settled sheet, if the values solve the equations.
    fn closed<K: Semiring>(
        &self,
        script: Script<'_, K>,
        values: &[K],
        column: &[K],
        grid: &[K],
    ) -> Result<Settled, Refusal>
        ensures ok { IfOk result (λ settled. Closed K.algebra self.now
            (beside script.entry values.now column.now grid.now) (Ok settled)) }
        ensures err { IfErr result (λ why. Closed K.algebra self.now
            (beside script.entry values.now column.now grid.now) (Err (self.now, why))) }
    {
        let size = self.progress.size;
        ready(size, script, values, column, grid)?;
        if !solved(size, script, values) {
            return Err(Refusal::Unsolved);
        }
        Ok(Settled {
            progress: self.progress,
        })
    }

    // Takes a sheet whose values solve the equations to settled.
    pub fn close<K: Semiring>(
        self,
        script: Script<'_, K>,
        values: &[K],
        column: &[K],
        grid: &[K],
    ) -> Result<Settled, (Work, Refusal)>
        ensures { Closed K.algebra self
            (beside script.entry values.now column.now grid.now) result }
    {
        self.closed(script, values, column, grid)
            .map_err(|refusal| (self, refusal))
    }

    // How many rounds have been made.
    pub fn rounds(&self) -> usize
        ensures { result ≡ self.now.progress.rounds }
    {
        self.progress.rounds
    }
}
