// Linear systems over any kind of weight, and two solvers for them.
#![tactic(auto)]

pub mod agreement;
pub mod closure;
pub mod counting;
pub mod elimination;
pub mod refusal;
pub mod solver;
mod system;
#[cfg(test)]
mod tests;
