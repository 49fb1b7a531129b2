// Directory pages and bucket pages read and checked.
// That a page is in the store ties a page number and a store, and stands in each contract: an invariant speaks of one value.
ghost use Rattle.std.specs.Prelude.{◌≡◌, ◌<◌, [], length, slice_index_or};
ghost use Rattle.boxes.specs.GridBoxes.{box_of};
ghost use Rattle.boxes.specs.Points.{Point};
ghost use Rattle.boxes.specs.Space.{Lies};
ghost use Rattle.boxes.specs.Spaces.{widths_of, order_of};
ghost use Rattle.images.specs.Checking.{LawfulIn};
ghost use Rattle.images.specs.Directory.{tile_at};
ghost use Rattle.images.specs.Memory.{image_of};
ghost use Rattle.grid.specs.Loads.{DirectoryOpened, BucketLoaded, LeafLocated};
ghost use Rattle.grid.specs.Sites.{SiteAt};

use crate::locating::{directory_site, site_of};
use crate::opened::Opened;
use crate::site::Site;
use boxes::{GridBox, laws_stand};
use buckets::is_bucket;
use image_bytes::read_directory;
use kinds::Kind;
use promise::{Memory, Refusal};
use stores::PageStore;

// A directory box with the image in its page.
pub(crate) fn open_directory<'a, S: PageStore>(
    store: &mut S,
    pages: usize,
    site: &Site<'a>,
) -> Result<Opened<'a>, Refusal>
    requires { site.now.page < length (S.PageStore.pages store.old) }
    ensures kept { S.PageStore.pages store.new ≡ S.PageStore.pages store.old }
    ensures opened { DirectoryOpened pages site.now (slice_index_or (S.PageStore.pages store.old) site.now.page []) result }
{
    let mut page = [0; 512];
    store.read(site.page, &mut page).unwrap();
    let image = read_directory(&site.inner, pages, &page).ok_or(Refusal::BrokenPage(site.page))?;
    Ok(Opened {
        inner: site.inner,
        image,
        pages,
    })
}

// Fills the buffer with the bucket page of a box.
pub(crate) fn load_bucket<K: Kind, S: PageStore>(
    kind: &K,
    store: &mut S,
    site: &Site,
    page: &mut [u8; 512],
) -> Result<(), Refusal>
    requires { site.now.page < length (S.PageStore.pages store.old) }
    ensures kept { S.PageStore.pages store.new ≡ S.PageStore.pages store.old }
    ensures loaded { BucketLoaded (K.Kind.meaning kind.now) site.now (slice_index_or (S.PageStore.pages store.old) site.now.page []) page.new result }
{
    store.read(site.page, page).unwrap();
    if is_bucket(kind, &site.inner, page) {
        Ok(())
    } else {
        Err(Refusal::BrokenPage(site.page))
    }
}

impl<'a> Opened<'a> {
    // The leaf box of a point and its page, by a lawful image.
    pub(crate) fn leaf_at(&self, keys: &[u32]) -> Site<'a>
        requires lawful { LawfulIn self.now.inner self.now.pages self.now.image }
        requires point { Point (widths_of self.now.inner.space.now) keys.now }
        requires within { Lies (widths_of self.now.inner.space.now) (order_of self.now.inner.space.now) (box_of self.now.inner) keys.now }
        ensures { SiteAt self.now.inner.space.now self.now.pages (tile_at (image_of self.now.image) keys.now) keys.now result }
    {
        site_of(self.inner.space, &self.image, keys).unwrap()
    }
}

// The leaf box of a point and its page, by the root image in memory and the directory page as it stands.
pub(crate) fn locate_leaf<'a, S: PageStore>(
    memory: &'a Memory,
    store: &mut S,
    keys: &[u32],
) -> Result<Site<'a>, Refusal>
    requires { memory.now.pages ≡ length (S.PageStore.pages store.old) }
    ensures kept { S.PageStore.pages store.new ≡ S.PageStore.pages store.old }
    ensures located { LeafLocated memory.now (S.PageStore.pages store.old) keys.now result }
{
    let _ = laws_stand();
    let directory = directory_site(memory, keys).ok_or(Refusal::BadKeys)?;
    let opened = open_directory(store, memory.pages, &directory)?;
    Ok(opened.leaf_at(keys))
}
