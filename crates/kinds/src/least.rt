// Least seconds: a way takes the seconds of all its parts, and of two ways the shorter counts.
ghost use Rattle.std.specs.Prelude.{◌≡◌, Some};
ghost use Rattle.kinds.specs.Least.{seconds, weight, text};
ghost use Rattle.kinds.specs.Laws.Least.{least_algebra};
ghost use Rattle.kinds.specs.Laws.Equal.{least_identity};

use crate::weights::{Bounded, Least};
use script::branch::Branch;
use script::weighing::Weighing;
use semiring::{Equality, Semiring};
use std::fmt;

impl Least {
    // So many seconds; from 65,535 on, never.
    pub fn after(time: u32) -> Least
        ensures { result ≡ seconds time }
    {
        if time < 65535 {
            Least::Seconds(Bounded::held(time))
        } else {
            Least::Never
        }
    }
}

impl Semiring for Least {
    ghost algebra = { least_algebra };

    fn zero() -> Least {
        Least::Never
    }

    fn one() -> Least {
        Least::after(0)
    }

    #[tactic(auto, using(crate::proofs::Order::bounded_min))]
    fn sum(self, other: Least) -> Least {
        match (self, other) {
            (Least::Seconds(a), Least::Seconds(b)) => Least::Seconds(a.min(b)),
            (Least::Never, weight) | (weight, Least::Never) => weight,
        }
    }

    fn product(self, other: Least) -> Least {
        match (self, other) {
            (Least::Seconds(a), Least::Seconds(b)) => {
                Least::after(u32::from(a.value) + u32::from(b.value))
            }
            _ => Least::Never,
        }
    }

    fn star(self) -> Least {
        Least::one()
    }

    fn same(self, other: Least) -> bool {
        self == other
    }
}

impl Equality for Least {
    ghost equal = { least_identity };
}

impl Weighing for Least {
    ghost weight = { weight };

    fn weigh(branch: &Branch) -> Least {
        Least::after(u32::from(branch.seconds))
    }
}

impl fmt::Display for Least {
    ghost output = { λ w. Some (text w) };

    fn fmt<W: fmt::Write>(&self, f: &mut fmt::Formatter<W>) -> fmt::Result {
        match *self {
            Least::Seconds(a) => fmt::Display::fmt(&a, f),
            Least::Never => f.pad("never"),
        }
    }
}
