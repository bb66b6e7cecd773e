// What is wrong with a script, and where. A fault travels whole, as the error of a `Result`.
ghost use Rattle.std.specs.Prelude.{◌≡◌, Some};
ghost use Rattle.script.specs.Shown.{cause_text, fault_text, layer_text};

use crate::place::Place;
use crate::refusal::{ReaderRefusal, SheetRefusal};
use std::fmt;

// Who refuses: the reader of a file, or the sheet that a branch is entered into.
#[derive(Clone, Copy, PartialEq, Eq, Debug)]
pub enum Layer {
    Reader,
    Sheet,
}

// Who refuses, and why. A source or a sheet of another crate may refuse for a reason that is on
// neither list: it gives a number of its own and its layer.
#[derive(Clone, Copy, PartialEq, Eq, Debug)]
pub enum Cause {
    Reader(ReaderRefusal),
    Sheet(SheetRefusal),
    Other { number: u8, layer: Layer },
}

#[derive(Clone, Copy, PartialEq, Eq, Debug)]
pub struct Fault {
    pub cause: Cause,
    pub place: Place,
}

impl fmt::Display for Layer {
    ghost output = { λ l. Some (layer_text l) };

    fn fmt<W: fmt::Write>(&self, f: &mut fmt::Formatter<W>) -> fmt::Result {
        match self {
            Layer::Reader => write!(f, "reader"),
            Layer::Sheet => write!(f, "sheet"),
        }
    }
}

impl fmt::Display for Cause {
    ghost output = { λ c. Some (cause_text c) };

    fn fmt<W: fmt::Write>(&self, f: &mut fmt::Formatter<W>) -> fmt::Result {
        match self {
            Cause::Reader(refusal) => write!(f, "{} reader", refusal.number()),
            Cause::Sheet(refusal) => write!(f, "{} sheet", refusal.number()),
            Cause::Other { number, layer } => write!(f, "{number} {layer}"),
        }
    }
}

impl fmt::Display for Fault {
    ghost output = { λ x. Some (fault_text x) };

    fn fmt<W: fmt::Write>(&self, f: &mut fmt::Formatter<W>) -> fmt::Result {
        write!(f, "refused {} {}", self.cause, self.place)
    }
}
