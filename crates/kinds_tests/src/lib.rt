// The five kinds on examples, and a sixth one of a maker's own.
#![tactic(auto)]

mod rainfall;
#[cfg(test)]
mod tests;

pub use rainfall::{Rainfall, RainfallFormat};
