// From the bytes of a script file to the bytes that are printed for it: the sheet of the script.
#![tactic(auto)]

ghost use Rattle.std.specs.Prelude.{◌≡◌};
ghost use Rattle.report.specs.declared.Unprinted.TheVariants.{Memory};
ghost use Rattle.report.specs.Reported.{Reported};

mod columns;
mod figures;
mod sheet;

use sheet::Sheet;
use std::alloc::{AllocError, Global};

// Why a text has no sheet.
#[derive(Drop)]
pub enum Unprinted {
    // The text is refused. The line of its fault is printed instead.
    Refused(String),
    // There is no memory for what is printed.
    Memory(AllocError),
}

impl From<AllocError> for Unprinted {
    ghost from_gives = { λ error x. x ≡ Memory error };

    fn from(error: AllocError) -> Unprinted {
        Unprinted::Memory(error)
    }
}

// What is printed for a text: its sheet, or the line of its fault as what refuses it.
pub fn printed(heap: Global, text: &[u8]) -> Result<String, Unprinted>
    ensures { Reported text.now result }
{
    match Sheet::of(text) {
        Ok(sheet) => Ok(sheet.written(heap)?),
        Err(fault) => Err(Unprinted::Refused(format!(in heap; "{fault}\n")?)),
    }
}

#[cfg(test)]
mod tests;
