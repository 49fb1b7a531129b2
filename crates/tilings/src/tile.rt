// A piece of a tiling: a box of some space, by its level and its lower end in each key, and a page. What stands in `low` behind the keys of the space is no matter; it is a fixed array, since nothing here allocates.
#[derive(Clone, Copy)]
pub struct Tile {
    pub level: usize,
    pub low: [u32; 4],
    pub page: u16,
}
