// The boxes that images name at a point: its directory box, by the root image in memory, and its leaf box, by the image of the directory box.
ghost use Rattle.grid.specs.Sites.{DirectorySite, SiteOf};

use crate::site::Site;
use boxes::{GridBox, Space, laws_stand};
use images::HeldImage;
use promise::Memory;

// The box and the page that an image names at a point; none for keys that are no point of the space.
pub(crate) fn site_of<'a, const ENDS: usize, const CELLS: usize>(
    space: &'a Space,
    image: &HeldImage<ENDS, CELLS>,
    keys: &[u32],
) -> Option<Site<'a>>
    ensures { SiteOf space.now image.now keys.now result }
{
    let named = image.named_at(keys)?;
    let inner = GridBox::around(space, named.level as usize, keys)?;
    Some(Site {
        inner,
        page: named.page as usize,
    })
}

// The directory box of a point and its page; none for keys that are no point of the space.
pub(crate) fn directory_site<'a>(memory: &'a Memory, keys: &[u32]) -> Option<Site<'a>>
    ensures { DirectorySite memory.now keys.now result }
{
    let _ = laws_stand();
    site_of(&memory.space, &memory.root, keys)
}
