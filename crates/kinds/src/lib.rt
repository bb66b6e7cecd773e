// The four kinds of weight: least and most seconds, light, and the disc's stations.
#![tactic(auto)]

pub mod bounded;
pub mod disc;
pub mod figures;
pub mod least;
pub mod light;
pub mod most;
#[cfg(test)]
mod tests;
pub mod weights;
