// The root image in pages 0 to 7.
ghost use Rattle.std.specs.Prelude.{◌≡◌, ◌≤◌, length};
ghost use Rattle.grid.specs.Writes.{RootWritten};

use stores::PageStore;

// Writes the bytes of a root image into pages 0 to 7.
pub(crate) fn write_root_pages<S: PageStore>(store: &mut S, bytes: &[u8; 4096])
    requires { 8 ≤ length (S.PageStore.pages store.old) }
    ensures { RootWritten (S.PageStore.pages store.old) bytes.now (S.PageStore.pages store.new) }
{
    let (parts, _) = bytes.as_chunks::<512>();
    for (page, part) in parts.iter().enumerate() {
        store.write(page, part).unwrap();
    }
}
