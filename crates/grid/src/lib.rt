// The grid: a set of records of a kind, in the pages of a store.
#![tactic(auto)]

mod counting;
mod finding;
mod grid;
mod listing;
mod loading;
mod locating;
mod making;
mod opened;
mod passed;
mod root_pages;
mod shaping;
mod site;
mod walk;
mod walking;

pub use finding::hand_out;
pub use grid::Grid;
