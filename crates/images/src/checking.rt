// The check of an image in memory: cell by cell, and key by key.
ghost use Rattle.std.specs.Prelude.{◌≡◌, ℕ, ◌<◌, ◌↔◌, IsTrue};
ghost use Rattle.images.specs.Checking.{LawfulIn, Allowed, HasLawful, KeyLawful, MayName};
ghost use Rattle.images.specs.Directory.{intervals};
ghost use Rattle.images.specs.Memory.{scales_in, tile};

use crate::held_image::{HeldImage, Named};
use crate::key_check::KeyCheck;
use boxes::GridBox;

impl<const ENDS: usize, const CELLS: usize> HeldImage<ENDS, CELLS> {
    // Is this a lawful image of the box, in a store of so many pages?
    pub fn is_lawful(&self, inner: &GridBox, pages: usize) -> bool
        ensures { IsTrue result ↔ LawfulIn inner.now pages self.now }
    {
        self.keys == inner.space.keys
            && self.has_lawful_cells(inner, pages)
            && self.has_lawful_keys(inner)
    }

    // Does each cell name a page and a level that it may name?
    fn has_lawful_cells(&self, inner: &GridBox, pages: usize) -> bool
        ensures { IsTrue result ↔ ((m : ℕ) → m < intervals (scales_in self.now) → Allowed inner.now pages self.now m) }
    {
        self.cells[..self.cells_from(0)]
            .iter()
            .all(|cell| is_allowed(*cell, inner, pages))
    }

    // Are the rules kept in each key?
    fn has_lawful_keys(&self, inner: &GridBox) -> bool
        requires { self.now.keys ≡ inner.now.space.now.keys }
        ensures { IsTrue result ↔ ((i : ℕ) → i < self.now.keys → KeyLawful inner.now self.now i) }
    {
        (0..self.keys).all(
            |key|
                ensures told { IsTrue result ↔ HasLawful inner.entry.now self.entry.now key }
                ensures same_image { self.exit ≡ self.entry }
                ensures same_box { inner.exit ≡ inner.entry }
            { self.has_lawful_key(inner, key) },
        )
    }

    // Do the image and the box have this key, and is it lawful?
    fn has_lawful_key(&self, inner: &GridBox, key: usize) -> bool
        ensures { IsTrue result ↔ HasLawful inner.now self.now key }
    {
        // By `match`: with `is_some_and` the search finds no proof.
        match KeyCheck::new(self, inner, key) {
            Some(check) => check.is_passed(),
            None => false,
        }
    }
}

// May a cell of a box name this, in a store of so many pages?
fn is_allowed(cell: Named, inner: &GridBox, pages: usize) -> bool
    ensures { IsTrue result ↔ MayName inner.now pages (tile cell) }
{
    let page = cell.page as usize;
    let level = cell.level as usize;
    8 <= page && page < pages && inner.level <= level && level <= inner.space.depth
}
