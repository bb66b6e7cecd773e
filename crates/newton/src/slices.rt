// The slices that are lent to the calls of a sheet at work.
ghost use Rattle.std.specs.Prelude.{◌≡◌, ◌*◌, ◌≤◌, length};
ghost use Rattle.linear.specs.System.{entry_at};
ghost use Rattle.equations.specs.Held.{written};

use script::branch::Branch;
use semiring::Semiring;

// The branches of a sheet, and what each weighs.
// Kept: two slices side by side: pairs would copy the table of branches for each kind's weights.
#[derive(Clone, Copy)]
pub struct Script<'a, K> {
    pub branches: &'a [Branch],
    pub weights: &'a [K],
}

// The values of a sheet's routines, with a column and a grid to work in. Each slice has a lifetime
// of its own, so that one can be read while another is written.
// Kept: that it lends the same slices is a clause of each call; no type speaks of two moments.
#[derive(Drop)]
pub struct Space<'v, 'c, 'g, K> {
    pub values: &'v mut [K],
    pub column: &'c mut [K],
    pub grid: &'g mut [K],
}

// Fills the first places with zero.
// Kept: `fill` clones, and that a weight clones without fail is no law of a kind (tried).
#[tactic(auto, using(equations::proofs::Slices::written_more))]
pub(crate) fn clear<K: Semiring>(places: usize, items: &mut [K])
    requires { places ≤ length items.old }
    ensures { items.new ≡ written (λ r. K.algebra.zero) places items.old }
{
    for item in &mut items[..places] {
        *item = K::zero();
    }
}

// Copies the first places.
#[tactic(auto, using(crate::proofs::Written::written_read))]
fn copy<K: Semiring>(places: usize, from: &[K], to: &mut [K])
    requires from { places ≤ length from.now }
    requires to { places ≤ length to.old }
    ensures { to.new ≡ written (entry_at K.algebra from.now) places to.old }
{
    to[..places].copy_from_slice(&from[..places]);
}

// The values become what the column holds; then column and grid are cleared.
pub(crate) fn take_over<K: Semiring>(n: usize, values: &mut [K], column: &mut [K], grid: &mut [K])
    requires few { n ≤ 32 }
    requires values { n ≤ length values.old }
    requires column { n ≤ length column.old }
    requires grid { n * n ≤ length grid.old }
    ensures values { values.new ≡ written (entry_at K.algebra column.old) n values.old }
    ensures column { column.new ≡ written (λ r. K.algebra.zero) n column.old }
    ensures grid { grid.new ≡ written (λ i. K.algebra.zero) (n * n) grid.old }
{
    copy(n, column, values);
    clear(n, column);
    clear(n * n, grid);
}
