// The figures of a text in each of the four kinds, in arrays that are large enough for any script.
ghost use Rattle.std.specs.Prelude.{◌≡◌, ◌≤◌, length, OnOk};
ghost use Rattle.linear.specs.System.{entry_at};
ghost use Rattle.reader.specs.Text.{ended};
ghost use Rattle.reader.specs.Unread.{text_left, legend_left};
ghost use Rattle.newton.specs.Slices.{SameLent};
ghost use Rattle.report.specs.Settled.{Settles};
ghost use Rattle.report.specs.Figures.{FiguresOf, least_kind, most_kind, light_kind, disc_kind};

use crate::figures::settle;
use kinds::weights::{Disc, Least, Light, Most};
use linear::closure::Closure;
use linear::elimination::Elimination;
use linear::solver::Solver;
use newton::Space;
use reader::TextSource;
use script::branch::Branch;
use script::fault::Fault;
use script::weighing::Weighing;
use semiring::Semiring;

// A figure for each of the 32 routines that a script can have, and the rounds that were made.
#[derive(Drop)]
pub(crate) struct Figures<K> {
    pub values: [K; 32],
    pub rounds: usize,
}

// What stands in a place for a branch before one is entered.
const NO_BRANCH: Branch = Branch {
    routine: 0,
    count: 0,
    calls: [0; 4],
    seconds: 0,
    light: 0,
    turn: 0,
};

// Settles the branches of a text, in a space that is large enough.
fn settle_text<K: Weighing, V: Solver>(
    source: &mut TextSource,
    solver: &mut V,
    weights: &mut [K],
    space: &mut Space<'_, '_, '_, K>,
) -> Result<usize, Fault>
    requires weights { 200 ≤ length weights.old }
    requires values { 32 ≤ length space.old.values.now }
    requires column { 32 ≤ length space.old.column.now }
    requires grid { 1024 ≤ length space.old.grid.now }
    ensures settles { Settles K.Semiring.algebra K.Weighing.weight
        (text_left source.old) (entry_at K.Semiring.algebra space.new.values.now) result }
    ensures lent { SameLent space.old space.new }
    ensures at_end { OnOk result (text_left source.new ≡ ended) }
    ensures legend { legend_left source.new ≡ legend_left source.old }
{
    let mut branches = [NO_BRANCH; 200];
    settle(source, solver, &mut branches, weights, space)
}

// The same in arrays of the kind's own.
// Kept: a macro, since the size of an array is known for each kind, and not for all of them at once
// (tried as one generic function).
macro_rules! figures_of {
    ($source:expr, $kind:ty, $solver:ty) => {{
        let mut weights = [<$kind>::zero(); 200];
        let mut values = [<$kind>::zero(); 32];
        let mut column = [<$kind>::zero(); 32];
        let mut grid = [<$kind>::zero(); 1024];
        let mut space = Space {
            values: &mut values,
            column: &mut column,
            grid: &mut grid,
        };
        let rounds = settle_text($source, &mut <$solver>::new(), &mut weights, &mut space)?;
        Ok(Figures { values, rounds })
    }};
}

// The least seconds, by elimination.
pub(crate) fn least(source: &mut TextSource) -> Result<Figures<Least>, Fault>
    ensures figures { FiguresOf least_kind (text_left source.old) result }
    ensures at_end { OnOk result (text_left source.new ≡ ended) }
    ensures legend { legend_left source.new ≡ legend_left source.old }
{
    figures_of!(source, Least, Elimination)
}

// The most seconds, by elimination.
pub(crate) fn most(source: &mut TextSource) -> Result<Figures<Most>, Fault>
    ensures figures { FiguresOf most_kind (text_left source.old) result }
    ensures at_end { OnOk result (text_left source.new ≡ ended) }
    ensures legend { legend_left source.new ≡ legend_left source.old }
{
    figures_of!(source, Most, Elimination)
}

// The light, by closure.
pub(crate) fn light(source: &mut TextSource) -> Result<Figures<Light>, Fault>
    ensures figures { FiguresOf light_kind (text_left source.old) result }
    ensures at_end { OnOk result (text_left source.new ≡ ended) }
    ensures legend { legend_left source.new ≡ legend_left source.old }
{
    figures_of!(source, Light, Closure)
}

// The disc, by closure.
pub(crate) fn disc(source: &mut TextSource) -> Result<Figures<Disc>, Fault>
    ensures figures { FiguresOf disc_kind (text_left source.old) result }
    ensures at_end { OnOk result (text_left source.new ≡ ended) }
    ensures legend { legend_left source.new ≡ legend_left source.old }
{
    figures_of!(source, Disc, Closure)
}
