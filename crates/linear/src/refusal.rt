// Why a solver refuses a system.
ghost use Rattle.std.specs.Prelude.{◌≡◌};
ghost use Rattle.linear.specs.Solved.{refusal_number};

#[derive(Clone, Copy, PartialEq, Eq, Debug)]
pub enum Refusal {
    // More than 32 unknowns, or a slice too short for the system.
    System = 12,
}

impl Refusal {
    // Kept: one line for each list, which a trait or a `From` over the lists would have too.
    pub fn number(self) -> u8
        ensures { result ≡ refusal_number self }
    {
        self as u8
    }
}
