// A grid of records of a kind: the kind, and what the grid keeps in memory once it is made.
use promise::Memory;

#[derive(Clone, Copy)]
pub struct Grid<K> {
    pub(crate) kind: K,
    pub(crate) made: Option<Memory>,
}
