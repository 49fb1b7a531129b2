// A page store of one's own: four pages in an array.
ghost use Rattle.std.specs.Prelude.{◌≡◌, length, replicate};
ghost use Rattle.stores.specs.Pages.{Whole};

use stores::{NoSuchPage, PageStore};

#[derive(Drop)]
pub struct RamStore {
    pages: [[u8; 512]; 4],
    ghost four: { length pages ≡ 4 },
    ghost whole: { Whole pages },
}

impl RamStore {
    pub fn new() -> RamStore
        ensures { result.pages ≡ replicate 4 (replicate 512 0) }
    {
        RamStore {
            pages: [[0; 512]; 4],
        }
    }
}

impl PageStore for RamStore {
    ghost pages = { λ s. s.pages };

    ghost whole = { λ s. s.whole };

    fn count(&self) -> usize {
        4
    }

    fn read(&mut self, page: usize, buffer: &mut [u8; 512]) -> Result<(), NoSuchPage> {
        if page >= 4 {
            return Err(NoSuchPage);
        }
        *buffer = self.pages[page];
        Ok(())
    }

    fn write(&mut self, page: usize, bytes: &[u8; 512]) -> Result<(), NoSuchPage> {
        if page >= 4 {
            return Err(NoSuchPage);
        }
        self.pages[page] = *bytes;
        Ok(())
    }
}
