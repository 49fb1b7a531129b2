// The sector store: eight pages to each whole sector of memory that stands for flash.
ghost use Rattle.std.specs.Prelude.{◌≡◌, ◌*◌, ◌/◌, ◌<◌, [], length, slice_index_or, slice_set};
ghost use Rattle.stores.specs.Pages.{Fetched, Stored};
ghost use Rattle.stores.specs.Memory.{sector_pages, Replaced, Written};
ghost use Rattle.stores.specs.Flash.{Programs, Worn, one_more};
ghost use Rattle.stores.specs.Wholes.{sector_whole};

pub use crate::flash::SectorStore;
use crate::{NoSuchPage, PageStore};

// Each of these asks that the page is in the store: a fact of a store and a number together, so no invariant of one of them can hold it.
impl SectorStore<'_> {
    fn load_page(&self, page: usize, buffer: &mut [u8; 512])
        requires { page < 8 * (length self.now.memory.now / 4096) }
        ensures { buffer.new ≡ slice_index_or (sector_pages self.now.memory.now) page [] }
    {
        self.load(512 * page, buffer);
    }

    // Stores a page by programming alone.
    fn program_page(&mut self, page: usize, bytes: &[u8; 512])
        requires page_bound { page < 8 * (length self.old.memory.now / 4096) }
        requires programs { Programs self.old.memory.now (512 * page) bytes.now }
        ensures stored { sector_pages self.new.memory.now ≡ slice_set (sector_pages self.old.memory.now) page bytes.now }
        ensures replaced { Replaced self.old.memory.now self.new.memory.now page bytes.now }
        ensures lent { self.new.memory.ghost_name ≡ self.old.memory.ghost_name }
        ensures unworn { self.new.erases ≡ self.old.erases }
    {
        self.program(512 * page, bytes);
    }

    // Stores a page and keeps the other seven of its sector: loads the sector, puts the page in, erases the sector and programs all of it.
    fn rewrite_page(&mut self, page: usize, bytes: &[u8; 512])
        requires { page < 8 * (length self.old.memory.now / 4096) }
        ensures stored { sector_pages self.new.memory.now ≡ slice_set (sector_pages self.old.memory.now) page bytes.now }
        ensures replaced { Replaced self.old.memory.now self.new.memory.now page bytes.now }
        ensures lent { self.new.memory.ghost_name ≡ self.old.memory.ghost_name }
        ensures worn { self.new.erases ≡ one_more self.old.erases }
    {
        let sector = page / 8;
        let start = 4096 * sector;
        let at = 512 * (page % 8);
        let mut eight = [0u8; 4096];
        self.load(start, &mut eight);
        eight[at..at + 512].copy_from_slice(bytes);
        self.erase(sector);
        self.program(start, &eight);
    }
}

impl PageStore for SectorStore<'_> {
    ghost pages = { λ s. sector_pages s.memory.now };

    ghost whole = { λ s. sector_whole s.memory.now };

    fn count(&self) -> usize
        ensures counted { result ≡ length (sector_pages self.now.memory.now) }
        ensures number { result ≡ 8 * (length self.now.memory.now / 4096) }
    {
        8 * self.sectors()
    }

    // Beyond the trait's promise: the whole memory and the count of erases stay.
    fn read(&mut self, page: usize, buffer: &mut [u8; 512]) -> Result<(), NoSuchPage>
        ensures kept { sector_pages self.new.memory.now ≡ sector_pages self.old.memory.now }
        ensures fetched { Fetched (sector_pages self.old.memory.now) page buffer.old buffer.new result }
        ensures untouched { self.new.memory.now ≡ self.old.memory.now }
        ensures lent { self.new.memory.ghost_name ≡ self.old.memory.ghost_name }
        ensures unworn { self.new.erases ≡ self.old.erases }
    {
        if page >= self.count() {
            return Err(NoSuchPage);
        }
        self.load_page(page, buffer);
        Ok(())
    }

    // Beyond the trait's promise: no byte outside the page changes, and a sector is erased only where programming alone would not give the new bytes.
    fn write(&mut self, page: usize, bytes: &[u8; 512]) -> Result<(), NoSuchPage>
        ensures stored { Stored (sector_pages self.old.memory.now) (sector_pages self.new.memory.now) page bytes.now result }
        ensures written { Written self.old.memory.now self.new.memory.now page bytes.now result }
        ensures lent { self.new.memory.ghost_name ≡ self.old.memory.ghost_name }
        ensures worn { Worn self.old.memory.now page bytes.now self.old.erases self.new.erases result }
    {
        if page >= self.count() {
            return Err(NoSuchPage);
        }
        if self.programs(512 * page, bytes) {
            self.program_page(page, bytes);
        } else {
            self.rewrite_page(page, bytes);
        }
        Ok(())
    }
}
