// The equations of a script that lies in lent slices, and the products of which they are made. A
// value past the end of the value slice is read as zero.
#![tactic(auto)]

ghost use Rattle.std.specs.Prelude.{◌≡◌};
ghost use Rattle.linear.specs.System.{entry_at};
ghost use Rattle.equations.specs.Equations.{called, others};
ghost use Rattle.equations.specs.Example.{Example};

use semiring::Semiring;

pub mod rules;

fn value_at<K: Semiring>(values: &[K], r: usize) -> K
    ensures { result ≡ entry_at K.algebra values.now r }
{
    values.get(r).copied().unwrap_or(K::zero())
}

// The product of the values of the calls.
fn called<K: Semiring>(values: &[K], calls: &[u8]) -> K
    ensures { result ≡ called K.algebra (entry_at K.algebra values.now) calls.now }
{
    calls.iter().fold(K::one(), |all, call| {
        all.product(value_at(values, usize::from(*call)))
    })
}

// The sum, over the calls of routine q, of the product of the values of the other calls.
#[tactic(auto, using(crate::proofs::Slices::others_here, crate::proofs::Slices::others_past))]
fn others<K: Semiring>(values: &[K], q: usize, calls: &[u8]) -> K
    ensures { result ≡ others K.algebra (entry_at K.algebra values.now) q calls.now }
{
    match calls {
        [] => K::zero(),
        [first, rest @ ..] => {
            let later = value_at(values, usize::from(*first)).product(others(values, q, rest));
            if usize::from(*first) == q {
                called(values, rest).sum(later)
            } else {
                later
            }
        }
    }
}

// Values that are reached with n rounds, at the smallest kind and a concrete script: which routines
// have a complete run.
#[tactic(auto, using(crate::proofs::FourRoutines::example_holds))]
pub fn example() -> [bool; 4]
    ensures { Example result }
{
    [true, true, true, false]
}

#[cfg(test)]
mod tests;
