// The image of one cell.
ghost use Rattle.images.specs.Memory.{OneCell};

use crate::held_image::{HeldImage, Named};

impl<const ENDS: usize, const CELLS: usize> HeldImage<ENDS, CELLS> {
    // The image of one cell: no lower ends, and this named for the whole box. None for more than four keys, or an image larger than that of the root, or without a cell.
    pub fn of_one_cell(keys: usize, cell: Named) -> Option<HeldImage<ENDS, CELLS>>
        ensures { OneCell ENDS CELLS keys cell result }
    {
        if keys > 4 || ENDS > 250 || CELLS == 0 || CELLS > 1024 {
            return None;
        }
        Some(HeldImage {
            keys,
            counts: [0; 4],
            ends: [0; ENDS],
            cells: [cell; CELLS],
        })
    }
}
