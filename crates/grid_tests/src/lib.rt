// Examples of the grid over both stores.
#![tactic(auto)]

#[cfg(test)]
mod tests;
