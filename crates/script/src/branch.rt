// One branch of a routine: what it calls, and what it costs.
ghost use Rattle.std.specs.Prelude.{◌≡◌, take};

use crate::place::Place;

// A plain record. A table can hand in any, so each field may lie outside the range that a script
// allows: routine and calls 0 to 31, count 0 to 4, seconds 0 to 3,600, turn 0 to 23. Of the four
// call places the first `count` are meant, repeats allowed.
// Kept: a count beside its places is the record's layout, and a sheet has to refuse a count past 4.
#[derive(Clone, Copy, Debug)]
pub struct Branch {
    pub routine: u8,
    pub count: u8,
    pub calls: [u8; 4],
    pub seconds: u16,
    pub light: u16,
    pub turn: u8,
}

impl Branch {
    // The calls that are meant.
    pub fn counted_calls(&self) -> &[u8]
        ensures { result.now ≡ take self.now.count self.now.calls }
    {
        let count = usize::from(self.count).min(4);
        &self.calls[..count]
    }
}

// A branch with the place that it comes from: a line, and that line's first byte.
#[derive(Clone, Copy, Debug)]
pub struct Placed {
    pub branch: Branch,
    pub place: Place,
}
