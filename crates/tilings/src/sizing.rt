// How large the image of a tiling is, and images with its scales.
ghost use Rattle.tilings.specs.Filling.{ScaledFor};
ghost use Rattle.tilings.specs.Images.{Sized};
ghost use Rattle.tilings.specs.Tiles.{scales_in_numbers};

use crate::collecting::scales_of;
use crate::tile::Tile;
use boxes::{GridBox, padded};
use images::{HeldImage, ImageSize, Named};

// How many inner boundaries and cells the image of the tiles has; nothing where there are more boundaries than any image may have.
pub fn scale_counts(inner: &GridBox, tiles: &[Tile]) -> Option<ImageSize>
    ensures { Sized inner.now tiles.now result }
{
    let scales = scales_of(inner, tiles)?;
    ImageSize::of(&scales.counts[..inner.space.keys])
}

// An image with the scales of the tiles, whose cells name nothing yet; none where it would be larger than ENDS and CELLS allow, or these larger than any image.
pub(crate) fn scaled_image<const ENDS: usize, const CELLS: usize>(
    inner: &GridBox,
    tiles: &[Tile],
) -> Option<HeldImage<ENDS, CELLS>>
    ensures { ScaledFor inner.now (scales_in_numbers inner.now tiles.now) result }
{
    if ENDS > 250 || CELLS > 1024 {
        return None;
    }
    let scales = scales_of(inner, tiles)?;
    let keys = inner.space.keys;
    let counts = scales.counts;
    let size = ImageSize::of(&counts[..keys])?;
    if !size.fits_into(ENDS, CELLS) {
        return None;
    }
    let ends = padded(&scales.ends[..size.boundaries], 0)?;
    Some(HeldImage {
        keys,
        counts,
        ends,
        cells: [Named { page: 0, level: 0 }; CELLS],
    })
}
