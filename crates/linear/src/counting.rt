// A solver that counts, by any method.
ghost use Rattle.std.specs.Prelude.{◌≡◌, ℕ};
ghost use Rattle.linear.specs.System.{Leaves};
ghost use Rattle.linear.specs.Solved.{Fits, Asked};

use crate::refusal::Refusal;
use crate::solver::Solver;
use semiring::Semiring;
use std::marker::PhantomData;

// Whether a solver takes a system.
fn check<K: Semiring>(n: usize, grid: &[K], column: &[K]) -> Result<(), Refusal>
    ensures { Asked n grid.now column.now result }
{
    if n > 32 || column.len() < n || grid.len() < n * n {
        return Err(Refusal::System);
    }
    Ok(())
}

// How the least solution of a system is found. It is handed no system that a solver refuses.
pub trait Method {
    fn run<K: Semiring>(n: usize, grid: &mut [K], column: &mut [K])
        requires { Fits n grid.old column.old }
        ensures { Leaves K.Semiring.algebra n grid.old column.old grid.new column.new };
}

// A solver by the method M, with the count of systems that it has solved.
#[derive(Drop)]
pub struct Counting<M> {
    count: u32,
    method: PhantomData<M>,
}

impl<M: Method> Counting<M> {
    pub fn new() -> Self
        ensures { result.count ≡ 0 }
    {
        Counting::counting_from(0)
    }

    // One that has solved so many systems before.
    pub(crate) fn counting_from(count: u32) -> Self
        ensures { result.count ≡ count }
    {
        let method = PhantomData;
        Counting { count, method }
    }
}

impl<M: Method> Solver for Counting<M> {
    ghost calls = { λ s. s.count };

    fn solve<K: Semiring>(
        &mut self,
        n: usize,
        grid: &mut [K],
        column: &mut [K],
    ) -> Result<(), Refusal> {
        check(n, grid, column)?;
        M::run(n, grid, column);
        self.count = self.count.saturating_add(1);
        Ok(())
    }

    fn count(&self) -> u32 {
        self.count
    }
}
