// The text source: the branches of a script file, read from its bytes one line at a time.
ghost use Rattle.std.specs.Prelude.{◌≡◌, ◌+◌, ◌≤◌, length};

use crate::names::Names;
use script::fault::Fault;
use script::place::Place;

#[derive(Drop)]
pub struct TextSource<'a> {
    // What has not been read yet, with the place of its first line.
    rest: &'a [u8],
    place: Place,
    names: Names<'a>,
    // What is wrong with the file as a whole.
    fault: Option<Fault>,
    ghost few: { place.line + length rest.now ≤ 20000 },
    ghost inside: { place.byte + length rest.now ≤ 20000 },
}

mod read;
