// Numbers with a bound: a number that is held at it, and how it prints.
ghost use Rattle.std.specs.Prelude.{◌≡◌, Some, decimal};
ghost use Rattle.kinds.specs.Bounded.{held};

use crate::weights::Bounded;
use std::fmt;

impl<const TOP: u16> Bounded<TOP> {
    // The number, or the bound where the number is past it.
    pub(crate) fn held(value: u32) -> Bounded<TOP>
        ensures { result ≡ held TOP value }
    {
        Bounded {
            value: value.min(u32::from(TOP)) as u16,
        }
    }
}

impl<const TOP: u16> fmt::Display for Bounded<TOP> {
    ghost output = { λ n. Some (decimal n.value) };

    fn fmt<W: fmt::Write>(&self, f: &mut fmt::Formatter<W>) -> fmt::Result {
        fmt::Display::fmt(&self.value, f)
    }
}
