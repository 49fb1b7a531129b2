// Images written to bytes.
ghost use Rattle.std.specs.Prelude.{◌≡◌, ◌+◌, ◌*◌, ◌≤◌, length, take, slice_index};
ghost use Rattle.images.specs.Directory.{layout, directory_layout, root_layout};
ghost use Rattle.images.specs.Memory.{image_of};
ghost use Rattle.image_bytes.specs.Fields.{Put, heading_bytes};

use crate::fields::{DIRECTORY_MARK, ROOT_MARK, clear, put, put_all};
use images::{DirectoryImage, HeldImage, RootImage};

// The mark, the number of keys, the level and the numbers of intervals, and zeros up to byte 16.
fn write_heading<const ENDS: usize, const CELLS: usize>(
    image: &HeldImage<ENDS, CELLS>,
    mark: [u8; 2],
    level: u8,
    bytes: &mut [u8],
)
    requires { 16 ≤ length bytes.old }
    ensures { Put bytes.old 0 (heading_bytes (slice_index mark 0) (slice_index mark 1) level (take image.now.keys image.now.counts)) bytes.new }
{
    let keys = image.keys;
    put(bytes, 0, &[mark[0], mark[1], keys as u8, level]);
    // A key has at most 250 ends; what stands behind the keys may be larger.
    let intervals = image.counts.map(|count| count.min(250) as u16 + 1);
    put_all(bytes, 4, &intervals[..keys]);
    clear(bytes, 4 + 2 * keys, 16);
}

// Lays an image out over all the bytes.
fn write_image<const ENDS: usize, const CELLS: usize>(
    image: &HeldImage<ENDS, CELLS>,
    mark: [u8; 2],
    level: u8,
    bytes: &mut [u8],
)
    requires { 16 + 4 * ENDS + 3 * CELLS ≤ length bytes.old }
    ensures { bytes.new ≡ layout (length bytes.old) (slice_index mark 0) (slice_index mark 1) level (image_of image.now) }
{
    let length = bytes.len();
    let size = image.size();
    write_heading(image, mark, level, bytes);
    put_all(bytes, 16, &image.ends[..size.boundaries]);
    let first_cell = 16 + 4 * size.boundaries;
    put_all(bytes, first_cell, &image.cells[..size.cells]);
    clear(bytes, first_cell + 3 * size.cells, length);
}

// Lays a directory image out, of a box of this level.
pub fn write_directory(image: &DirectoryImage, level: u8, page: &mut [u8; 512])
    ensures { page.new ≡ directory_layout level (image_of image.now) }
{
    write_image(image, DIRECTORY_MARK, level, page);
}

// Lays the root image out.
pub fn write_root(image: &RootImage, bytes: &mut [u8; 4096])
    ensures { bytes.new ≡ root_layout (image_of image.now) }
{
    write_image(image, ROOT_MARK, 0, bytes);
}
