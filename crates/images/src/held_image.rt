// An image in memory, of at most so many lower ends and cells. What stands in its arrays behind the counts is no matter.
ghost use Rattle.std.specs.Prelude.{◌≡◌, ◌≤◌, length, take};
ghost use Rattle.images.specs.Directory.{intervals};
ghost use Rattle.images.specs.Parts.{parted, total, AllRising};

// What a cell names: the page of a box, and its level.
#[derive(Clone, Copy, PartialEq, Eq, Debug)]
pub struct Named {
    pub page: u16,
    pub level: u8,
}

// Fixed arrays with counts, since nothing here allocates. Two images are not compared by `==`, which would see what stands behind the counts.
#[derive(Clone, Copy)]
pub struct HeldImage<const ENDS: usize, const CELLS: usize> {
    pub keys: usize,
    // How many lower ends each key has, without the box's own.
    pub counts: [usize; 4],
    // The ends of all keys, side by side.
    pub ends: [u32; ENDS],
    // What the cells name, key 0 slowest.
    pub cells: [Named; CELLS],
    // No image is larger than that of the root.
    ghost most_ends: { ENDS ≤ 250 },
    ghost most_cells: { CELLS ≤ 1024 },
    // The counts lie within the arrays.
    ghost few: { keys ≤ 4 },
    ghost wide: { length (take keys counts) ≡ keys },
    ghost long: { length ends ≡ ENDS },
    ghost many: { length cells ≡ CELLS },
    ghost room: { total (take keys counts) ≤ ENDS },
    ghost small: { intervals (parted (take keys counts) ends) ≤ CELLS },
    // The ends of each key rise.
    ghost rising: { AllRising (parted (take keys counts) ends) },
}

// The image of a directory box, and of the root.
pub type DirectoryImage = HeldImage<60, 80>;

pub type RootImage = HeldImage<250, 1024>;
