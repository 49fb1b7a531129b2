// Making a grid.
ghost use Rattle.std.specs.Prelude.{◌≡◌, ℕ, ◌≤◌, length, Ok, nat_lt};
ghost use Rattle.buckets.specs.PageMaps.{used};
ghost use Rattle.promise.specs.Calls.{Makes};
ghost use Rattle.promise.specs.Promise.{Lasting};
ghost use Rattle.grid.specs.Fresh.{FreshMemory, FreshPages};
ghost use Rattle.grid.specs.Grids.{state};

use crate::grid::Grid;
use crate::root_pages::write_root_pages;
use boxes::Space;
use buckets::{PageMap, start_bucket};
use image_bytes::{write_directory, write_root};
use images::{DirectoryImage, Named, RootImage, image_laws_stand};
use kinds::Kind;
use promise::{Memory, Refusal, every_run, fresh_stands};
use stores::PageStore;

// The pages of a new grid in use: eight for the root, one for the directory box and one for the leaf box.
fn first_pages() -> PageMap
    ensures { (j : ℕ) → used result j ≡ nat_lt j 10 }
{
    let mut map = PageMap::new();
    for page in 0..10 {
        map.mark(page).unwrap();
    }
    map
}

// What a new grid keeps in memory, over so many pages.
fn fresh_memory(space: Space, pages: usize) -> Memory
    requires le_pages { 10 ≤ pages }
    requires pages_bound { pages ≤ 32768 }
    ensures { FreshMemory space pages result }
{
    let _ = image_laws_stand();
    let root = RootImage::of_one_cell(space.keys, Named { page: 8, level: 0 }).unwrap();
    Memory {
        pages,
        space,
        root,
        used: first_pages(),
        directories: 1,
        leaves: 1,
    }
}

// Writes the ten pages of a new grid.
fn write_fresh_pages<S: PageStore>(store: &mut S, memory: &Memory)
    requires { 10 ≤ length (S.PageStore.pages store.old) }
    ensures { FreshPages memory.now (S.PageStore.pages store.old) (S.PageStore.pages store.new) }
{
    let mut root = [0; 4096];
    write_root(&memory.root, &mut root);
    write_root_pages(store, &root);
    let image = DirectoryImage::of_one_cell(
        memory.space.keys,
        Named { page: 9, level: 0 },
    ).unwrap();
    let mut directory = [0; 512];
    write_directory(&image, 0, &mut directory);
    store.write(8, &directory).unwrap();
    let mut bucket = [0; 512];
    start_bucket(0, &mut bucket);
    store.write(9, &bucket).unwrap();
}

impl<K: Kind> Grid<K> {
    // Makes the grid over a store of 10 to 32,768 pages: it holds no record then, whatever it was before. Answers the pages in use.
    pub fn make<S: PageStore>(&mut self, store: &mut S) -> Result<usize, Refusal>
        ensures makes { Makes (K.Kind.meaning self.old.kind) (state (S.PageStore.pages store.old) self.old) result (state (S.PageStore.pages store.new) self.new) }
        ensures kind { self.new.kind ≡ self.old.kind }
        ensures lasting { result ≡ Ok 10 → Lasting (K.Kind.meaning self.old.kind) (state (S.PageStore.pages store.new) self.new) }
    {
        let _ = fresh_stands();
        let _ = every_run();
        let pages = store.count();
        if pages < 10 || pages > 32768 {
            return Err(Refusal::WrongStore);
        }
        let memory = fresh_memory(self.kind.space(), pages);
        write_fresh_pages(store, &memory);
        self.made = Some(memory);
        Ok(10)
    }
}
