// Images read from bytes: an image comes out exactly where the bytes keep every rule.
ghost use Rattle.std.specs.Prelude.{◌+◌, ◌*◌, ◌≤◌, length, slice_index};
ghost use Rattle.image_bytes.specs.Reading.{DirectoryRead, RootRead, ImageRead};

use crate::fields::{DIRECTORY_MARK, ROOT_MARK, fields, is_zero};
use crate::parsing::{ends_rise, has_heading, read_counts};
use boxes::{GridBox, Space};
use images::{DirectoryImage, HeldImage, ImageSize, KeyEnds, Named, RootImage};

// The image that the bytes are, with this mark, so many keys and this level. Whether it is lawful in a box is not yet asked.
fn read_image<const ENDS: usize, const CELLS: usize>(
    bytes: &[u8],
    mark: [u8; 2],
    keys: usize,
    level: usize,
) -> Option<HeldImage<ENDS, CELLS>>
    requires few { keys ≤ 4 }
    requires most { (ENDS ≤ 250) × (CELLS ≤ 1024) }
    requires room { 16 + 4 * ENDS + 3 * CELLS ≤ length bytes.now }
    ensures { ImageRead (slice_index mark 0) (slice_index mark 1) keys level bytes.now result }
{
    if !has_heading(bytes, mark, keys, level) {
        return None;
    }
    let counts = read_counts(bytes, keys)?;
    let size = ImageSize::of(&counts[..keys])?;
    if !size.fits_into(ENDS, CELLS) {
        return None;
    }
    let first_cell = 16 + 4 * size.boundaries;
    if !is_zero(bytes, first_cell + 3 * size.cells, bytes.len()) {
        return None;
    }
    let ends: [u32; ENDS] = fields(bytes, 16, size.boundaries, 0);
    let by_key = KeyEnds {
        counts: &counts[..keys],
        ends: &ends,
    };
    if !ends_rise(&by_key) {
        return None;
    }
    let cells = fields(bytes, first_cell, size.cells, Named { page: 0, level: 0 });
    Some(HeldImage {
        keys,
        counts,
        ends,
        cells,
    })
}

// The directory image of a box, in a store of so many pages; nothing if the page is no lawful one.
pub fn read_directory(inner: &GridBox, pages: usize, page: &[u8; 512]) -> Option<DirectoryImage>
    ensures { DirectoryRead inner.now pages page.now result }
{
    let image: DirectoryImage = read_image(page, DIRECTORY_MARK, inner.space.keys, inner.level)?;
    image.is_lawful(inner, pages).then_some(image)
}

// The root image of a space, in a store of so many pages; nothing if the bytes are no lawful one.
pub fn read_root(space: &Space, pages: usize, bytes: &[u8; 4096]) -> Option<RootImage>
    ensures { RootRead space.now pages bytes.now result }
{
    let image: RootImage = read_image(bytes, ROOT_MARK, space.keys, 0)?;
    let whole = GridBox::whole(space);
    image.is_lawful(&whole, pages).then_some(image)
}
