// The text source: a script file read from its bytes, line by line.
#![tactic(auto)]

mod line;
mod names;
pub mod refusal;
mod text;
mod words;

pub use text::TextSource;
