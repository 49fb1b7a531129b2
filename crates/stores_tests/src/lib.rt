// Runs the stores on memories of many lengths.
#![tactic(auto)]

pub mod lent;
pub mod ram;
#[cfg(test)]
mod tests;
