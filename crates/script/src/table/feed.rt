// What a table source gives.
ghost use Rattle.std.specs.Prelude.{◌≡◌, []};
ghost use Rattle.script.specs.Table.{table_feed, table_left};

use super::TableSource;
use crate::branch::{Branch, Placed};
use crate::fault::Fault;
use crate::place::Place;
use crate::source::Source;

impl<'a> TableSource<'a> {
    pub fn new(records: &'a [Branch]) -> TableSource<'a>
        ensures { table_left result ≡ table_feed records.now }
    {
        TableSource {
            rest: records,
            given: 0,
        }
    }
}

impl<'a> Source for TableSource<'a> {
    ghost feed = { table_left };

    ghost legend = { λ _. [] };

    // The line of a record is its place plus 1, its byte 0.
    fn next(&mut self) -> Result<Option<Placed>, Fault> {
        let Some((first, rest)) = self.rest.split_first() else {
            return Ok(None);
        };
        let place = Place {
            line: self.given + 1,
            byte: 0,
        };
        self.rest = rest;
        self.given += 1;
        Ok(Some(Placed {
            branch: *first,
            place,
        }))
    }
}
