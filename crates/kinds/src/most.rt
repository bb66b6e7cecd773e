// Most seconds: a way takes the seconds of all its parts, and of two ways the longer counts.
ghost use Rattle.std.specs.Prelude.{◌≡◌, Some};
ghost use Rattle.kinds.specs.Most.{seconds, weight, text};
ghost use Rattle.kinds.specs.Laws.Most.{most_algebra};
ghost use Rattle.kinds.specs.Laws.Equal.{most_identity};

use crate::weights::{Bounded, Most};
use script::branch::Branch;
use script::weighing::Weighing;
use semiring::{Equality, Semiring};
use std::fmt;

impl Most {
    // So many seconds, held at 65,535.
    pub fn after(time: u32) -> Most
        ensures { result ≡ seconds time }
    {
        Most::Seconds(Bounded::held(time))
    }
}

impl Semiring for Most {
    ghost algebra = { most_algebra };

    fn zero() -> Most {
        Most::Never
    }

    fn one() -> Most {
        Most::after(0)
    }

    #[tactic(auto, using(crate::proofs::Order::bounded_max))]
    fn sum(self, other: Most) -> Most {
        match (self, other) {
            (Most::Seconds(a), Most::Seconds(b)) => Most::Seconds(a.max(b)),
            (Most::Never, weight) | (weight, Most::Never) => weight,
        }
    }

    fn product(self, other: Most) -> Most {
        match (self, other) {
            (Most::Seconds(a), Most::Seconds(b)) => {
                Most::after(u32::from(a.value) + u32::from(b.value))
            }
            _ => Most::Never,
        }
    }

    fn star(self) -> Most {
        match self {
            Most::Seconds(a) if a.value > 0 => Most::after(65535),
            _ => Most::one(),
        }
    }

    fn same(self, other: Most) -> bool {
        self == other
    }
}

impl Equality for Most {
    ghost equal = { most_identity };
}

impl Weighing for Most {
    ghost weight = { weight };

    fn weigh(branch: &Branch) -> Most {
        Most::after(u32::from(branch.seconds))
    }
}

impl fmt::Display for Most {
    ghost output = { λ w. Some (text w) };

    fn fmt<W: fmt::Write>(&self, f: &mut fmt::Formatter<W>) -> fmt::Result {
        match *self {
            Most::Never => f.pad("never"),
            Most::Seconds(a) if a.value == 65535 => f.pad("unlimited"),
            Most::Seconds(a) => fmt::Display::fmt(&a, f),
        }
    }
}
