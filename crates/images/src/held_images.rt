// Reading a directory image in memory.
ghost use Rattle.std.specs.Prelude.{◌≡◌, ◌<◌, ◌≤◌, [], take, drop, Some, slice_index_or};
ghost use Rattle.images.specs.Directory.{intervals};
ghost use Rattle.images.specs.Memory.{scales_in, NamedAt};
ghost use Rattle.images.specs.SideBySide.{by_key};
ghost use Rattle.images.specs.Sizes.{SizeOf};

use crate::held_image::{HeldImage, Named};
use crate::image_size::{ImageSize, product_of, total_of};
use crate::key_ends::KeyEnds;

impl<const ENDS: usize, const CELLS: usize> HeldImage<ENDS, CELLS> {
    // What the image names at a point; nothing for a point with more or fewer keys.
    pub fn named_at(&self, point: &[u32]) -> Option<Named>
        ensures { NamedAt self.now point.now result }
    {
        if point.len() != self.keys {
            return None;
        }
        let number = self.scales().cell_from(0, point);
        Some(self.cells[number])
    }

    // The lower ends of all keys.
    pub fn scales(&self) -> KeyEnds<'_>
        ensures { by_key result ≡ scales_in self.now }
    {
        KeyEnds {
            counts: &self.counts[..self.keys],
            ends: &self.ends,
        }
    }

    // How many ends and cells the image has.
    pub fn size(&self) -> ImageSize
        ensures counted { SizeOf (take self.now.keys self.now.counts) (Some result) }
        ensures few_ends { result.boundaries ≤ ENDS }
        ensures few_cells { result.cells ≤ CELLS }
    {
        let counts = &self.counts[..self.keys];
        ImageSize {
            boundaries: total_of(counts),
            cells: product_of(counts),
        }
    }

    // The lower ends of a key.
    pub(crate) fn scale(&self, key: usize) -> &[u32]
        requires { key < self.now.keys }
        ensures { result.now ≡ slice_index_or (scales_in self.now) key [] }
    {
        let from = total_of(&self.counts[..key]);
        let ends = &self.ends[..];
        &ends[from..from + self.counts[key]]
    }

    // How many cells the keys from `first` on make.
    pub(crate) fn cells_from(&self, first: usize) -> usize
        requires { first ≤ self.now.keys }
        ensures product { result ≡ intervals (drop first (scales_in self.now)) }
        ensures some { 0 < result }
        ensures most { result ≤ CELLS }
    {
        product_of(&self.counts[first..self.keys])
    }
}
