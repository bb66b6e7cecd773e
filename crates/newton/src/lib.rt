// The sheet: a draft that branches are entered into, at work while its equations are being solved,
// settled once its figures can be read.
#![tactic(auto)]

pub mod figures;
pub mod refusal;
mod sheet;
mod slices;
#[cfg(test)]
mod tests;

pub use sheet::{Draft, Settled, Work};
pub use slices::{Script, Space};
