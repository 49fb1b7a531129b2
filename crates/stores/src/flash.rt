// The sector store's memory, which stands for flash, in sectors of 4,096 bytes.
// The fields are private to this file, so that `erase` and `program` are the only ways to alter it.
ghost use Rattle.std.specs.Prelude.{◌≡◌, ◌+◌, ◌*◌, ◌/◌, ◌≤◌, length, take, drop, ◌↔◌, IsTrue};
ghost use Rattle.stores.specs.Flash.{Erased, Programmed, Programs, Bytes, one_more};

#[derive(Drop)]
pub struct SectorStore<'a> {
    memory: &'a mut [u8],
    erases: u32,
}

impl<'a> SectorStore<'a> {
    pub fn new(memory: &'a mut [u8]) -> SectorStore<'a>
        ensures memory { result.memory.now ≡ memory.old }
        ensures lent { result.memory.ghost_name ≡ memory.entry.ghost_name }
        ensures erases { result.erases ≡ 0 }
    {
        SectorStore { memory, erases: 0 }
    }
}

// That the store is over the same memory as before, and that a run of bytes lies in it, stand in each contract: they tie two values, and an invariant speaks of one.
impl SectorStore<'_> {
    // How many times a sector was erased since the store was made, up to the greatest u32.
    pub fn erases(&self) -> u32
        ensures { result ≡ self.now.erases }
    {
        self.erases
    }

    pub(crate) fn sectors(&self) -> usize
        ensures { result ≡ length self.now.memory.now / 4096 }
    {
        self.memory.len() / 4096
    }

    // Fills the buffer with the bytes from `start` on.
    pub(crate) fn load(&self, start: usize, buffer: &mut [u8])
        requires { start + length buffer.old ≤ length self.now.memory.now }
        ensures { buffer.new ≡ take (length buffer.old) (drop start self.now.memory.now) }
    {
        let end = start + buffer.len();
        buffer.copy_from_slice(&self.memory[start..end]);
    }

    // Whether programming alone gives the new bytes.
    pub(crate) fn programs(&self, start: usize, bytes: &[u8; 512]) -> bool
        requires { start + 512 ≤ length self.now.memory.now }
        ensures { IsTrue result ↔ Programs self.now.memory.now start bytes.now }
    {
        self.memory[start..start + 512]
            .iter()
            .zip(bytes)
            .all(|(old, new)| *old & *new == *new)
    }

    // Sets one sector to FF.
    pub(crate) fn erase(&mut self, sector: usize)
        requires { 4096 * sector + 4096 ≤ length self.old.memory.now }
        ensures erased { Erased self.old.memory.now self.new.memory.now sector }
        ensures lent { self.new.memory.ghost_name ≡ self.old.memory.ghost_name }
        ensures counted { self.new.erases ≡ one_more self.old.erases }
    {
        let start = 4096 * sector;
        self.memory[start..start + 4096].fill(0xFF);
        self.erases = self.erases.saturating_add(1);
    }

    // Makes each byte from `start` on the old one AND the new one.
    pub(crate) fn program(&mut self, start: usize, bytes: &[u8])
        requires { start + length bytes.now ≤ length self.old.memory.now }
        ensures programmed { Programmed self.old.memory.now self.new.memory.now start bytes.now }
        ensures lent { self.new.memory.ghost_name ≡ self.old.memory.ghost_name }
        ensures kept { self.new.erases ≡ self.old.erases }
        ensures bytes { Bytes bytes.now }
    {
        for (i, byte) in bytes.iter().enumerate() {
            self.memory[start + i] &= *byte;
        }
    }
}
