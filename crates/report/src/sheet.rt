// The sheet of a text: the names of its routines, and their figures in all four kinds.
ghost use Rattle.std.specs.Prelude.{◌≡◌, ℕ, ◌<◌, ◌≤◌, ◌++◌, [], length, slice_index_or, string_bytes, IfOk, OnOk};
ghost use Rattle.std.specs.Str.{IsAscii};
ghost use Rattle.reader.specs.Known.{known};

use crate::columns::{Figures, disc, least, light, most};
use kinds::weights::{Disc, Least, Light, Most};
use reader::TextSource;
use script::fault::Fault;
use std::alloc::{AllocError, Global};
use std::fmt::Write;
use std::str;

// A text that has been read to its end knows its names.
#[derive(Drop)]
pub(crate) struct Sheet<'a> {
    text: TextSource<'a>,
    least: Figures<Least>,
    most: Figures<Most>,
    light: Figures<Light>,
    disc: Figures<Disc>,
    ghost few: { length (known text.names) ≤ 32 },
    ghost ascii: { (r : ℕ) → IsAscii (slice_index_or (known text.names) r []) },
}

impl<'a> Sheet<'a> {
    ghost use Rattle.report.specs.Sheet.{SheetOf, legend_of, columns_of};
    ghost use Rattle.report.specs.Written.{line, rounds_line, sheet_text};

    // Settles least and most seconds by elimination, then light and disc by closure.
    pub(crate) fn of(text: &'a [u8]) -> Result<Sheet<'a>, Fault>
        ensures { SheetOf text.now result }
    {
        let mut source = TextSource::new(text);
        let least = least(&mut source)?;
        let most = most(&mut TextSource::new(text))?;
        let light = light(&mut TextSource::new(text))?;
        let disc = disc(&mut TextSource::new(text))?;
        Ok(Sheet {
            text: source,
            least,
            most,
            light,
            disc,
        })
    }

    // The name of a routine.
    fn name(&self, routine: usize) -> &str
        requires { routine < length (legend_of self.now) }
        ensures { result.now ≡ slice_index_or (legend_of self.now) routine [] }
    {
        str::from_utf8(self.text.name(routine).unwrap()).unwrap()
    }

    // Adds the line of a routine.
    fn add_line(&self, routine: usize, printed: &mut String) -> Result<(), AllocError>
        requires { routine < length (legend_of self.now) }
        ensures { OnOk result (string_bytes printed.new
            ≡ string_bytes printed.old ++ line (legend_of self.now) (columns_of self.now) routine) }
    {
        let name = self.name(routine);
        let least = self.least.values[routine];
        let most = self.most.values[routine];
        let light = self.light.values[routine];
        let disc = self.disc.values[routine];
        writeln!(printed, "{name} {least} {most} {light} {disc}")
    }

    // Adds the last line, with the rounds.
    fn add_rounds(&self, printed: &mut String) -> Result<(), AllocError>
        ensures { OnOk result (string_bytes printed.new
            ≡ string_bytes printed.old ++ rounds_line (columns_of self.now)) }
    {
        let least = self.least.rounds;
        let most = self.most.rounds;
        let light = self.light.rounds;
        let disc = self.disc.rounds;
        writeln!(printed, "rounds {least} {most} {light} {disc}")
    }

    // The whole sheet as it is printed.
    pub(crate) fn written(&self, heap: Global) -> Result<String, AllocError>
        ensures { IfOk result (λ s.
            string_bytes s ≡ sheet_text (legend_of self.now) (columns_of self.now)) }
    {
        let mut printed = format!(in heap; "routine least most light disc\n")?;
        for routine in 0..self.text.names() {
            self.add_line(routine, &mut printed)?;
        }
        self.add_rounds(&mut printed)?;
        Ok(printed)
    }
}
