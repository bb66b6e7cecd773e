// Examination scripts: branches, how a kind weighs one, and the sources that branches come from.
#![tactic(auto)]

pub mod branch;
pub mod fault;
pub mod place;
pub mod refusal;
pub mod source;
pub mod table;
#[cfg(test)]
mod tests;
pub mod weighing;
