// What is read of a settled sheet.
ghost use Rattle.std.specs.Prelude.{◌≡◌};
ghost use Rattle.newton.specs.Working.{Figured};

use super::Settled;
use crate::refusal::Refusal;
use semiring::Semiring;

impl Settled {
    // The figure of a routine.
    pub fn figure<K: Semiring>(&self, values: &[K], routine: usize) -> Result<K, Refusal>
        ensures { Figured K.algebra self.now values.now routine result }
    {
        let n = self.progress.size.n;
        if values.len() < n {
            return Err(Refusal::Slices);
        }
        if routine >= n {
            return Err(Refusal::Routine);
        }
        Ok(values[routine])
    }

    // How many rounds were made.
    pub fn rounds(&self) -> usize
        ensures { result ≡ self.now.progress.rounds }
    {
        self.progress.rounds
    }
}
