// What a weight of each kind holds. The types stand apart from their operations, since the
// formulas of specs/ name them.
ghost use Rattle.std.specs.Prelude.{◌^◌, ◌<◌, ◌≤◌};

// A number of at most TOP.
#[derive(Clone, Copy, PartialEq, Eq, PartialOrd, Ord, Debug)]
pub struct Bounded<const TOP: u16> {
    pub value: u16,
    ghost ok: { value ≤ TOP },
}

// The least seconds of a way: 0 to 65,534, or no way at all.
// Kept: `Option` has its `None` first, and here the least of the order is the sum, with never last.
#[derive(Clone, Copy, PartialEq, Eq, PartialOrd, Ord, Debug)]
pub enum Least {
    Seconds(Bounded<65534>),
    Never,
}

// The most seconds of a way: none at all, or 0 to 65,535, where the last stands for any more.
// Kept: a type beside `Least`, since order, star and what is past the bound differ, not a constant.
// Kept: an `Option` would need a struct around it to print, and `Never` is the name that it prints.
#[derive(Clone, Copy, PartialEq, Eq, PartialOrd, Ord, Debug)]
pub enum Most {
    Never,
    Seconds(Bounded<65535>),
}

// A level of light, 0 to 65,535.
#[derive(Clone, Copy, PartialEq, Eq, PartialOrd, Ord, Debug)]
pub struct Light {
    pub level: Bounded<65535>,
}

// A set of stations 0 to 23: station s is bit 2^s.
#[derive(Clone, Copy, PartialEq, Eq, Debug)]
pub struct Disc {
    pub bits: u32,
    ghost ok: { bits < 2 ^ 24 },
}

// A divisor of 24, and the bits of its multiples among the stations.
#[derive(Clone, Copy, PartialEq, Eq, Debug)]
pub struct Multiples {
    pub divisor: u8,
    pub bits: u32,
}
