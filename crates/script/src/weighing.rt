// How a kind of weight weighs a branch.
ghost use Rattle.std.specs.Prelude.{◌≡◌};
ghost use Rattle.script.specs.declared.branch.Branch.{Branch as Record};

use crate::branch::Branch;
use semiring::Semiring;

// A kind that says what each branch weighs. It is total: a record out of range has a weight too.
pub trait Weighing: Semiring {
    ghost weight: { Record → Self };

    fn weigh(branch: &Branch) -> Self
        ensures value { result ≡ weight branch.now }
        ensures alone { let k = Self.Semiring.algebra in
            result ≡ k.times (weight branch.now) k.one };
}
