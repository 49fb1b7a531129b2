// The flat store: pages side by side in memory that the caller lends.
ghost use Rattle.std.specs.Prelude.{◌≡◌, ◌/◌, ◌<◌, [], length, slice_index_or, slice_set};
ghost use Rattle.stores.specs.Pages.{Fetched, Stored};
ghost use Rattle.stores.specs.Memory.{flat_pages, Replaced, Written};
ghost use Rattle.stores.specs.Wholes.{flat_whole};

use crate::{NoSuchPage, PageStore};

// It has as many pages as fit whole into the memory. Bytes behind the last of them are never touched.
#[derive(Drop)]
pub struct FlatStore<'a> {
    memory: &'a mut [u8],
}

impl<'a> FlatStore<'a> {
    pub fn new(memory: &'a mut [u8]) -> FlatStore<'a>
        ensures memory { result.memory.now ≡ memory.old }
        ensures lent { result.memory.ghost_name ≡ memory.entry.ghost_name }
    {
        FlatStore { memory }
    }
}

impl FlatStore<'_> {
    fn load(&self, page: usize, buffer: &mut [u8; 512])
        requires { page < length self.now.memory.now / 512 }
        ensures { buffer.new ≡ slice_index_or (flat_pages self.now.memory.now) page [] }
    {
        let start = 512 * page;
        buffer.copy_from_slice(&self.memory[start..start + 512]);
    }

    fn store(&mut self, page: usize, bytes: &[u8; 512])
        requires { page < length self.old.memory.now / 512 }
        ensures stored { flat_pages self.new.memory.now ≡ slice_set (flat_pages self.old.memory.now) page bytes.now }
        ensures replaced { Replaced self.old.memory.now self.new.memory.now page bytes.now }
        ensures lent { self.new.memory.ghost_name ≡ self.old.memory.ghost_name }
    {
        let start = 512 * page;
        self.memory[start..start + 512].copy_from_slice(bytes);
    }
}

impl PageStore for FlatStore<'_> {
    ghost pages = { λ s. flat_pages s.memory.now };

    ghost whole = { λ s. flat_whole s.memory.now };

    fn count(&self) -> usize
        ensures counted { result ≡ length (flat_pages self.now.memory.now) }
        ensures number { result ≡ length self.now.memory.now / 512 }
    {
        self.memory.len() / 512
    }

    // Beyond the trait's promise: the whole memory stays.
    fn read(&mut self, page: usize, buffer: &mut [u8; 512]) -> Result<(), NoSuchPage>
        ensures kept { flat_pages self.new.memory.now ≡ flat_pages self.old.memory.now }
        ensures fetched { Fetched (flat_pages self.old.memory.now) page buffer.old buffer.new result }
        ensures untouched { self.new.memory.now ≡ self.old.memory.now }
        ensures lent { self.new.memory.ghost_name ≡ self.old.memory.ghost_name }
    {
        if page >= self.count() {
            return Err(NoSuchPage);
        }
        self.load(page, buffer);
        Ok(())
    }

    // Beyond the trait's promise: no byte outside the page changes.
    fn write(&mut self, page: usize, bytes: &[u8; 512]) -> Result<(), NoSuchPage>
        ensures stored { Stored (flat_pages self.old.memory.now) (flat_pages self.new.memory.now) page bytes.now result }
        ensures written { Written self.old.memory.now self.new.memory.now page bytes.now result }
        ensures lent { self.new.memory.ghost_name ≡ self.old.memory.ghost_name }
    {
        if page >= self.count() {
            return Err(NoSuchPage);
        }
        self.store(page, bytes);
        Ok(())
    }
}
