// What a kind makes of a script: the figures of its routines. All work is done in arrays that are
// large enough for any script.
ghost use Rattle.std.specs.Prelude.{◌≡◌, ◌≤◌, length, OnOk};
ghost use Rattle.linear.specs.System.{entry_at};
ghost use Rattle.reader.specs.Text.{ended};
ghost use Rattle.newton.specs.Questions.{Passed};
ghost use Rattle.newton.specs.Slices.{slices, SameLent};
ghost use Rattle.newton.specs.Working.{held_rules, slice_questions};
ghost use Rattle.report.specs.Script.{AllInRange};
ghost use Rattle.report.specs.Settled.{Settled, Settles};

use linear::solver::Solver;
use newton::{Draft, Script, Space};
use script::branch::Branch;
use script::fault::Fault;
use script::source::Source;
use script::weighing::Weighing;
use semiring::Semiring;

// Solves the equations of a loaded draft, and counts the rounds.
fn solve<K: Semiring, V: Solver>(
    draft: Draft,
    solver: &mut V,
    script: Script<'_, K>,
    space: &mut Space<'_, '_, '_, K>,
) -> usize
    requires { Passed (slice_questions K.Semiring.algebra draft.size (slices script space.old)) }
    ensures settled { Settled K.Semiring.algebra draft.size.n
        (held_rules K.Semiring.algebra draft.size (slices script.entry space.old))
        (entry_at K.Semiring.algebra space.new.values.now)
        result }
    ensures lent { SameLent space.old space.new }
{
    let Ok(work) = draft.start(script, space) else {
        unreachable()
    };
    let Ok(settled) = work.settle(solver, script, space) else {
        unreachable()
    };
    settled.rounds()
}

// Enters the branches of a source, and solves their equations: the values are then the figures.
pub(crate) fn settle<K: Weighing, S: Source, V: Solver>(
    source: &mut S,
    solver: &mut V,
    branches: &mut [Branch],
    weights: &mut [K],
    space: &mut Space<'_, '_, '_, K>,
) -> Result<usize, Fault>
    requires in_range { AllInRange (S.Source.feed source.old).items }
    requires branches { 200 ≤ length branches.old }
    requires weights { 200 ≤ length weights.old }
    requires values { 32 ≤ length space.old.values.now }
    requires column { 32 ≤ length space.old.column.now }
    requires grid { 1024 ≤ length space.old.grid.now }
    ensures settles { Settles K.Semiring.algebra K.Weighing.weight
        (S.Source.feed source.old) (entry_at K.Semiring.algebra space.new.values.now) result }
    ensures lent { SameLent space.old space.new }
    ensures at_end { OnOk result (S.Source.feed source.new ≡ ended) }
    ensures legend { S.Source.legend source.new ≡ S.Source.legend source.old }
{
    let mut draft = Draft::new();
    draft.load(source, branches, weights)?;
    let script = Script { branches, weights };
    Ok(solve(draft, solver, script, space))
}
