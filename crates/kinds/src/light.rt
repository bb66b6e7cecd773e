// Light: a way lets through its smallest level, and of two ways the brighter counts.
ghost use Rattle.std.specs.Prelude.{◌≡◌, Some};
ghost use Rattle.kinds.specs.Light.{light, weight, text};
ghost use Rattle.kinds.specs.Laws.Light.{light_algebra};
ghost use Rattle.kinds.specs.Laws.Equal.{light_identity};

use crate::weights::{Bounded, Light};
use script::branch::Branch;
use script::weighing::Weighing;
use semiring::{Equality, Semiring};
use std::fmt;

impl Light {
    // A level of light, held at 65,535.
    pub fn of(level: u32) -> Light
        ensures { result ≡ light level }
    {
        Light {
            level: Bounded::held(level),
        }
    }
}

impl Semiring for Light {
    ghost algebra = { light_algebra };

    fn zero() -> Light {
        Light::of(0)
    }

    fn one() -> Light {
        Light::of(65535)
    }

    fn sum(self, other: Light) -> Light {
        self.max(other)
    }

    fn product(self, other: Light) -> Light {
        self.min(other)
    }

    fn star(self) -> Light {
        Light::one()
    }

    fn same(self, other: Light) -> bool {
        self == other
    }
}

impl Equality for Light {
    ghost equal = { light_identity };
}

impl Weighing for Light {
    ghost weight = { weight };

    fn weigh(branch: &Branch) -> Light {
        Light::of(u32::from(branch.light))
    }
}

impl fmt::Display for Light {
    ghost output = { λ w. Some (text w) };

    fn fmt<W: fmt::Write>(&self, f: &mut fmt::Formatter<W>) -> fmt::Result {
        fmt::Display::fmt(&self.level, f)
    }
}
