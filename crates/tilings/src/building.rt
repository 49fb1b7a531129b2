// The image of a tiling.
ghost use Rattle.tilings.specs.Images.{Built, Shown};

use crate::naming::name_cells;
use crate::sizing::scaled_image;
use crate::tile::Tile;
use boxes::GridBox;
use images::HeldImage;

// The image of the tiles of a box; nothing where it would be larger than ENDS and CELLS allow, or these larger than any image.
pub fn build<const ENDS: usize, const CELLS: usize>(
    inner: &GridBox,
    tiles: &[Tile],
) -> Option<HeldImage<ENDS, CELLS>>
    ensures built { Built inner.now tiles.now result }
    ensures shown { Shown inner.now tiles.now result }
{
    let image: HeldImage<ENDS, CELLS> = scaled_image(inner, tiles)?;
    let keys = image.keys;
    let counts = image.counts;
    let ends = image.ends;
    let mut cells = image.cells;
    name_cells(&image, inner, tiles, &mut cells);
    Some(HeldImage {
        keys,
        counts,
        ends,
        cells,
    })
}
