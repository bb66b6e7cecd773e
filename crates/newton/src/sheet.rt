// The three states of a sheet. A sheet is three numbers: how many routines it has, how many
// branches it holds, and how many rounds it has made. What it works on lies in slices that are
// lent to each call. The state is the type: a figure is no call of a sheet at work, nor enter one
// of a settled sheet.
ghost use Rattle.std.specs.Prelude.{◌≡◌, ◌≤◌};

// How many routines a sheet has, and how many branches it holds.
#[derive(Clone, Copy)]
struct Size {
    n: usize,
    held: usize,
    ghost routines: { n ≤ 32 },
    ghost branches: { held ≤ 200 },
}

// How far a sheet has come: the rounds that it has made, at most one for each routine.
#[derive(Clone, Copy)]
struct Progress {
    size: Size,
    rounds: usize,
    ghost bound: { rounds ≤ size.n },
}

impl Progress {
    // No round has been made.
    fn new(size: Size) -> Progress
        ensures size { result.size ≡ size }
        ensures rounds { result.rounds ≡ 0 }
    {
        Progress { size, rounds: 0 }
    }
}

// Branches are entered and struck here. There are none at new.
#[derive(Drop)]
pub struct Draft {
    size: Size,
}

// Its values are on their way to a solution.
#[derive(Drop)]
pub struct Work {
    progress: Progress,
}

// Its values solve the equations.
#[derive(Drop)]
pub struct Settled {
    progress: Progress,
}

mod bench;
mod drafting;
mod figures;
mod working;
