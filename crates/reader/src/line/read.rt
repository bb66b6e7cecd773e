// Reading a line: its words, its numbers, its names.
ghost use Rattle.std.specs.Prelude.{◌≡◌, ◌+◌, ◌^◌, ◌<◌, ◌≤◌, true, false, length, MatchOption, OnErr, ◌==◌};
ghost use Rattle.reader.specs.Format.{pieces, are_names, called, is_calls};
ghost use Rattle.reader.specs.Known.{known, Grows};
ghost use Rattle.reader.specs.Row.{HasWords, FiveWords, Numbers, Column, Routine, Called, Reads};
ghost use Rattle.reader.specs.Text.{four, reader_fault};

use super::{Calls, Row};
use crate::names::Names;
use crate::refusal::Refusal;
use crate::words::{NO_CALLS, PLUS, SPACE, calls_ok, cut, name_ok, number};
use script::branch::Branch;
use script::fault::{Cause, Fault};
use script::place::Place;

impl<'a> Row<'a> {
    // The words of a line, where there are five.
    fn of(line: &'a [u8]) -> Option<Row<'a>>
        ensures { MatchOption result ((length (pieces SPACE line.now) == 5) ≡ false)
            (λ row. HasWords line.now row) }
    {
        let (name, rest) = cut(line, SPACE)?;
        let (seconds, rest) = cut(rest, SPACE)?;
        let (light, rest) = cut(rest, SPACE)?;
        let (turn, calls) = cut(rest, SPACE)?;
        let None = cut(calls, SPACE) else {
            return None;
        };
        Some(Row {
            name,
            seconds,
            light,
            turn,
            calls,
        })
    }
}

// Numbers the names of a calls word from the left; none where there would be more than 32 names.
// Kept: that names grow is a clause of each that meets them; no type compares two moments.
fn number_names<'a>(names: &mut Names<'a>, word: &'a [u8]) -> Option<Calls>
    requires { are_names 4 (pieces PLUS word.now) ≡ true }
    ensures numbered { Numbers (known names.old) (pieces PLUS word.now) result (known names.new) }
    ensures grows { Grows (known names.old) (known names.new) }
{
    let mut calls = Calls::new();
    for name in word.split(|b| *b == PLUS) {
        calls.push(names.number(name)?);
    }
    Some(calls)
}

// Numbers the calls of a well-formed calls word.
fn number_calls<'a>(names: &mut Names<'a>, word: &'a [u8]) -> Option<Calls>
    requires { is_calls word.now ≡ true }
    ensures numbered { Numbers (known names.old) (called word.now) result (known names.new) }
    ensures grows { Grows (known names.old) (known names.new) }
{
    if word == NO_CALLS {
        return Some(Calls::new());
    }
    number_names(names, word)
}

// A fault of the reader at a place.
pub(crate) fn fault_at(place: Place, refusal: Refusal) -> Fault
    ensures { result ≡ reader_fault refusal place.line place.byte }
{
    Fault {
        cause: Cause::Reader(refusal),
        place,
    }
}

// The place of the next word of a line, one byte behind this word.
fn next_place(place: Place, word: &[u8]) -> Place
    requires { place.byte + length word.now + 1 < 2 ^ 64 }
    ensures line { result.line ≡ place.line }
    ensures byte { result.byte ≡ place.byte + length word.now + 1 }
{
    Place {
        line: place.line,
        byte: place.byte + word.len() + 1,
    }
}

fn read_row<'a>(line: &'a [u8], at: Place) -> Result<Row<'a>, Fault>
    ensures { FiveWords line.now at result }
{
    Row::of(line).ok_or(fault_at(at, Refusal::Words))
}

fn read_number(word: &[u8], most: u16, at: Place) -> Result<u16, Fault>
    ensures { Column most word.now at result }
{
    number(word, most).ok_or(fault_at(at, Refusal::Number))
}

fn read_routine<'a>(names: &mut Names<'a>, word: &'a [u8], at: Place) -> Result<u8, Fault>
    ensures routine { Routine (known names.old) word.now at result (known names.new) }
    ensures grows { Grows (known names.old) (known names.new) }
{
    if !name_ok(word) {
        return Err(fault_at(at, Refusal::Name));
    }
    names.number(word).ok_or(fault_at(at, Refusal::Names))
}

fn read_calls<'a>(names: &mut Names<'a>, word: &'a [u8], at: Place) -> Result<Calls, Fault>
    ensures called { Called (known names.old) word.now at result (known names.new) }
    ensures grows { Grows (known names.old) (known names.new) }
{
    if !calls_ok(word) {
        return Err(fault_at(at, Refusal::Calls));
    }
    number_calls(names, word).ok_or(fault_at(at, Refusal::Names))
}

// The calls in the four places of a branch.
fn four_places(calls: &[u8]) -> [u8; 4]
    requires { length calls.now ≤ 4 }
    ensures { result ≡ four calls.now }
{
    let mut places = [0; 4];
    places[..calls.len()].copy_from_slice(calls);
    places
}

// The branch of a line, with its names met. Where the line is refused, some of them are met too.
fn read_branch<'a>(names: &mut Names<'a>, line: &'a [u8], place: Place) -> Result<Branch, Fault>
    requires { place.byte + length line.now < 2 ^ 64 }
    ensures read { Reads (known names.old) (pieces SPACE line.now) place result (known names.new) }
    ensures grows { Grows (known names.old) (known names.new) }
{
    let row = read_row(line, place)?;
    let routine = read_routine(names, row.name, place)?;
    let seconds_at = next_place(place, row.name);
    let seconds = read_number(row.seconds, 3600, seconds_at)?;
    let light_at = next_place(seconds_at, row.seconds);
    let light = read_number(row.light, 65535, light_at)?;
    let turn_at = next_place(light_at, row.light);
    let turn = read_number(row.turn, 23, turn_at)?;
    let calls_at = next_place(turn_at, row.turn);
    let calls = read_calls(names, row.calls, calls_at)?;
    Ok(Branch {
        routine,
        count: calls.len() as u8,
        calls: four_places(&calls),
        seconds,
        light,
        turn: turn as u8,
    })
}

// The branch of a line, with its names met. A line that is refused leaves the names as they were.
pub(crate) fn read_line<'a>(
    names: &mut Names<'a>,
    line: &'a [u8],
    place: Place,
) -> Result<Branch, Fault>
    requires { place.byte + length line.now < 2 ^ 64 }
    ensures read { Reads (known names.old) (pieces SPACE line.now) place result (known names.new) }
    ensures kept { OnErr result (known names.new ≡ known names.old) }
{
    let met = names.count();
    let read = read_branch(names, line, place);
    if read.is_err() {
        names.truncate(met);
    }
    read
}
