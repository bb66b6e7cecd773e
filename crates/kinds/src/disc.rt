// The disc: a way turns it by the sum of its parts, modulo 24, and all ways count.
ghost use Rattle.std.specs.Prelude.{◌≡◌, ◌%◌, ◌^◌, ◌<◌, false, if◌then◌else◌, Some, nat_lt};
ghost use Rattle.std.specs.Str.Parse.{digits_value};
ghost use Rattle.std.specs.Fmt.{digit_glyph};
ghost use Rattle.kinds.specs.Disc.{has, only, times, turned, divisor, entry, table, weight, text};
ghost use Rattle.kinds.specs.Stations.{Stations};
ghost use Rattle.kinds.specs.Laws.Star.{disc_algebra};
ghost use Rattle.kinds.specs.Laws.Equal.{disc_identity};

use crate::weights::{Disc, Multiples};
use script::branch::Branch;
use script::weighing::Weighing;
use semiring::{Equality, Semiring};
use std::fmt;

// The formulas say of stations what the words of sets say.
pub fn stations_stand()
    ensures { Stations }
{}

// The divisors of 24, each with the bits of its multiples among 0 to 23.
const TABLE: [Multiples; 8] = [
    Multiples {
        divisor: 1,
        bits: 0xffffff,
    },
    Multiples {
        divisor: 2,
        bits: 0x555555,
    },
    Multiples {
        divisor: 3,
        bits: 0x249249,
    },
    Multiples {
        divisor: 4,
        bits: 0x111111,
    },
    Multiples {
        divisor: 6,
        bits: 0x041041,
    },
    Multiples {
        divisor: 8,
        bits: 0x010101,
    },
    Multiples {
        divisor: 12,
        bits: 0x001001,
    },
    Multiples {
        divisor: 24,
        bits: 0x000001,
    },
];

// The table, with its rule.
fn divisors() -> [Multiples; 8]
    ensures { result ≡ table 24 }
{
    TABLE
}

// The bit of a station, and none past 23.
fn bit(station: u8) -> u32
    ensures { result ≡ (if nat_lt station 24 then 2 ^ station else 0) }
{
    if station < 24 { 1 << station } else { 0 }
}

// The last hexadecimal digit of a number.
fn digit(number: u32) -> char
    ensures { result ≡ digit_glyph false (number % 16) }
{
    char::from_digit(number % 16, 16).unwrap()
}

impl Disc {
    // The set of one station; past 23 there is none, so the set is empty.
    pub fn only(station: u8) -> Disc
        ensures { result ≡ only station }
    {
        Disc { bits: bit(station) }
    }

    // Whether a station stands in the set.
    pub(crate) fn has(self, station: u32) -> bool
        requires { station < 24 }
        ensures { result ≡ has self station }
    {
        (self.bits >> station) % 2 == 1
    }

    // The set with each station moved on, past 23 to 0 again.
    fn turned(self, by: u32) -> Disc
        requires { by < 24 }
        ensures { result ≡ turned by self }
    {
        let moved = u64::from(self.bits) << by;
        Disc {
            bits: (moved % (1 << 24) | moved >> 24) as u32,
        }
    }

    // The greatest common divisor of 24 and all stations, with its multiples: of the table's
    // entries that have all stations, the last.
    fn closing(self) -> Multiples
        ensures { result ≡ entry (divisor self) }
    {
        divisors()
            .iter()
            .rfind(|entry| self.bits | entry.bits == entry.bits)
            .copied()
            .unwrap()
    }

    // The six hexadecimal digits of the set: read as a number they give its bits again.
    pub fn digits(self) -> [char; 6]
        ensures text { result ≡ text self }
        ensures back { digits_value 16 result ≡ self.bits }
    {
        let bits = self.bits;
        [
            digit(bits >> 20),
            digit(bits >> 16),
            digit(bits >> 12),
            digit(bits >> 8),
            digit(bits >> 4),
            digit(bits),
        ]
    }

    // The greatest common divisor of 24 and all stations.
    pub fn divisor(self) -> u8
        ensures { result ≡ divisor self }
    {
        self.closing().divisor
    }
}

impl Semiring for Disc {
    ghost algebra = { disc_algebra };

    fn zero() -> Disc {
        Disc { bits: 0 }
    }

    fn one() -> Disc {
        Disc::only(0)
    }

    fn sum(self, other: Disc) -> Disc {
        Disc {
            bits: self.bits | other.bits,
        }
    }

    // The other set, turned by each station of this one.
    fn product(self, other: Disc) -> Disc {
        (0..24).fold(Disc::zero(), |all, s| {
            if self.has(s) {
                all.sum(other.turned(s))
            } else {
                all
            }
        })
    }

    fn star(self) -> Disc {
        Disc {
            bits: self.closing().bits,
        }
    }

    fn same(self, other: Disc) -> bool {
        self == other
    }
}

impl Equality for Disc {
    ghost equal = { disc_identity };
}

impl Weighing for Disc {
    ghost weight = { weight };

    fn weigh(branch: &Branch) -> Disc {
        Disc::only(branch.turn)
    }
}

impl fmt::Display for Disc {
    ghost output = { λ w. Some (text w) };

    fn fmt<W: fmt::Write>(&self, f: &mut fmt::Formatter<W>) -> fmt::Result {
        write!(f, "{:06x}", self.bits)
    }
}
