// Which of at most 32,768 pages are in use, one bit for each.
#[derive(Clone, Copy)]
pub struct PageMap {
    pub bits: [u8; 4096],
}

// The map has no such page.
#[derive(Clone, Copy, Debug, PartialEq, Eq)]
pub struct PastMap;
