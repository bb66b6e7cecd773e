// The smallest kind of weight, the truth values: a weight says whether there is a way at all. A
// way needs all of its parts, and of several ways one is enough.
ghost use Rattle.std.proofs.Common.{rules};
ghost use Rattle.semiring.specs.Truth.{truth};

use crate::{Equality, Semiring};

impl Semiring for bool {
    ghost algebra = { truth };

    fn zero() -> bool {
        false
    }

    fn one() -> bool {
        true
    }

    fn sum(self, other: bool) -> bool {
        self | other
    }

    fn product(self, other: bool) -> bool {
        self & other
    }

    fn star(self) -> bool {
        true
    }

    fn same(self, other: bool) -> bool {
        self == other
    }
}

impl Equality for bool {
    ghost equal = { record { sound = Prim.search rules; reflexive = Prim.search rules } };
}
