// Reading a script file.
ghost use Rattle.std.specs.Prelude.{◌≡◌, ◌+◌, ◌<◌, ◌≤◌, [], ◌∷◌, length, MatchOption, slice_index_or};
ghost use Rattle.script.specs.Feed.{Gives};
ghost use Rattle.reader.specs.declared.text.TextSource.{TextSource as Reading};
ghost use Rattle.reader.specs.Known.{known};
ghost use Rattle.reader.specs.Format.{pieces};
ghost use Rattle.reader.specs.Text.{behind_first, failed, reader_fault, text_feed, text_legend};
ghost use Rattle.reader.specs.Unread.{text_left, legend_left, AtEnd};
ghost use Rattle.reader.specs.Writing.{ReadBack};

use super::TextSource;
use crate::line::{fault_at, read_line};
use crate::names::Names;
use crate::refusal::Refusal;
use crate::words::{LINE_END, cut};
use script::branch::Placed;
use script::fault::Fault;
use script::place::Place;
use script::source::Source;

// What a file may have at most.
const MOST_BYTES: usize = 16384;

const FIRST_LINE: &[u8] = b"routine seconds light turn calls";

// What is behind the first line, where it is the one of every file, with its end.
fn behind_first_line(text: &[u8]) -> Option<&[u8]>
    ensures { MatchOption result (behind_first (pieces LINE_END text.now) ≡ None)
        (λ rest. (behind_first (pieces LINE_END text.now) ≡ Some (pieces LINE_END rest.now))
        × (length rest.now ≤ length text.now)) }
{
    let (first, rest) = cut(text, LINE_END)?;
    (first == FIRST_LINE).then_some(rest)
}

// The fault of a file that is refused as a whole, which has no text to read.
fn refused<'a>(refusal: Refusal, line: usize) -> TextSource<'a>
    requires { line ≤ 1 }
    ensures feed { text_left result ≡ failed (reader_fault refusal line 0) }
    ensures legend { legend_left result ≡ [] }
{
    let place = Place { line, byte: 0 };
    TextSource {
        rest: &[],
        place,
        names: Names::none(),
        fault: Some(fault_at(place, refusal)),
    }
}

impl<'a> TextSource<'a> {
    pub fn new(text: &'a [u8]) -> TextSource<'a>
        ensures feed { text_left result ≡ text_feed text.now }
        ensures legend { legend_left result ≡ text_legend text.now }
        ensures at_end { (s : Reading) → AtEnd s }
        ensures read_back { ReadBack text.now (text_left result) }
    {
        if text.len() > MOST_BYTES {
            return refused(Refusal::Size, 0);
        }
        let Some(rest) = behind_first_line(text) else {
            return refused(Refusal::FirstLine, 1);
        };
        TextSource {
            rest,
            place: Place {
                line: 2,
                byte: FIRST_LINE.len() + 1,
            },
            names: Names::none(),
            fault: None,
        }
    }

    // How many different names have been met so far: all of the text's at its plain end.
    pub fn names(&self) -> usize
        ensures { result ≡ length (known self.now.names) }
    {
        self.names.count()
    }

    // The name of the routine with this number, of those met so far.
    pub fn name(&self, number: usize) -> Option<&[u8]>
        ensures { MatchOption result (length (known self.now.names) ≤ number)
            (λ n. (number < length (known self.now.names))
            × (n.now ≡ slice_index_or (known self.now.names) number [])) }
    {
        self.names.name(number)
    }
}

impl<'a> Source for TextSource<'a> {
    ghost feed = { text_left };

    ghost legend = { legend_left };

    fn next(&mut self) -> Result<Option<Placed>, Fault> {
        if let Some(fault) = self.fault {
            return Err(fault);
        }
        if self.rest.is_empty() {
            return Ok(None);
        }
        let place = self.place;
        let Some((text, rest)) = cut(self.rest, LINE_END) else {
            return Err(fault_at(place, Refusal::Words));
        };
        let branch = read_line(&mut self.names, text, place)?;
        self.rest = rest;
        self.place = Place {
            line: place.line + 1,
            byte: place.byte + text.len() + 1,
        };
        Ok(Some(Placed { branch, place }))
    }
}
