// Where branches come from.
ghost use Rattle.std.specs.Prelude.{◌≡◌};
ghost use Rattle.script.specs.Feed.{Feed, Gives};
ghost use Rattle.script.specs.Legend.{Legend};

use crate::branch::Placed;
use crate::fault::Fault;

// A source means a finite list of branches to come and an ending. Its one call answers the first
// branch and drops it; with the list empty it answers the ending, again and again.
pub trait Source {
    ghost feed: { Self → Feed };

    // The names of the routines by number, as they stand once the source has been used up; a
    // source of bare records has none.
    ghost legend: { Self → Legend };

    fn next(&mut self) -> Result<Option<Placed>, Fault>
        ensures gives { Gives (feed self.old) result (feed self.new) }
        ensures legend { legend self.new ≡ legend self.old };
}
