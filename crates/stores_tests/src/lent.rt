// What the owner of a memory knows when the stores over it have ended.
ghost use Rattle.stores.specs.Memory.{Written};

use stores::flat::FlatStore;
use stores::sectors::SectorStore;
use stores::{NoSuchPage, PageStore};

pub fn write_flat(memory: &mut [u8], page: usize, bytes: &[u8; 512]) -> Result<(), NoSuchPage>
    ensures { Written memory.old memory.new page bytes.now result }
{
    FlatStore::new(memory).write(page, bytes)
}

pub fn write_sector(memory: &mut [u8], page: usize, bytes: &[u8; 512]) -> Result<(), NoSuchPage>
    ensures { Written memory.old memory.new page bytes.now result }
{
    SectorStore::new(memory).write(page, bytes)
}
