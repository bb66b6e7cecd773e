// Why a call of a sheet refuses.
ghost use Rattle.std.specs.Prelude.{◌≡◌};
ghost use Rattle.script.specs.Refusal.{sheet_number};

#[derive(Clone, Copy, PartialEq, Eq, Debug)]
pub enum SheetRefusal {
    // A branch has more than 4 calls.
    Calls = 1,
    // A routine or a call is numbered 32 or more.
    Routines = 2,
    // Seconds over 3,600, or a turn over 23.
    Range = 3,
    // 200 branches are held, or a slice has no place for one more.
    Room = 4,
    // A slice is too short for the sheet.
    Slices = 5,
    // The place to strike is not held.
    Place = 6,
    // A held branch has more than 4 calls, or names a routine that the sheet has not.
    Held = 7,
    // The values solve the equations already.
    Solved = 8,
    // As many rounds as routines have been made.
    Rounds = 9,
    // The values do not solve the equations.
    Unsolved = 10,
    // The sheet has no such routine.
    Routine = 11,
}

impl SheetRefusal {
    // Kept: one line for each list, which a trait or a `From` over the lists would have too.
    pub fn number(self) -> u8
        ensures { result ≡ sheet_number self }
    {
        self as u8
    }
}
