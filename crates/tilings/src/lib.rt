// Images made from the tilings of a box, and the lower ends that an image shows.
#![tactic(auto)]

mod building;
mod collecting;
mod corners;
mod naming;
mod ordering;
mod scales;
mod showing;
mod sizing;
mod tile;
mod tiles;

pub use boxes::RisingEnds;
pub use building::build;
pub use images::ImageSize;
pub use showing::lower_ends;
pub use sizing::scale_counts;
pub use tile::Tile;
