// What a made grid keeps in memory.
ghost use Rattle.std.specs.Prelude.{◌+◌, ◌≤◌, []};
ghost use Rattle.boxes.specs.Spaces.{widths_of, order_of};
ghost use Rattle.images.specs.Directory.{Lawful};
ghost use Rattle.images.specs.Memory.{image_of};

use boxes::Space;
use buckets::PageMap;
use images::RootImage;

#[derive(Clone, Copy)]
pub struct Memory {
    // How many pages the store had when the grid was made.
    pub pages: usize,
    // The space of the kind that it was made for.
    pub space: Space,
    // The root image: which directory page belongs to each part of the space.
    pub root: RootImage,
    // The pages in use.
    pub used: PageMap,
    // How many directory boxes and leaf boxes there are.
    pub directories: usize,
    pub leaves: usize,
    ghost most: { pages ≤ 32768 },
    // The pages for all boxes are there.
    ghost enough: { 8 + directories + leaves ≤ pages },
    // The root image keeps its rules.
    ghost lawful: { ∥ Lawful (widths_of space) (order_of space) [] pages 250 1024 (image_of root) ∥₁ },
}
