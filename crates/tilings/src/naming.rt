// What the cells of an image name: each the first tile around its lowest corner.
ghost use Rattle.std.specs.Prelude.{◌≡◌, length};
ghost use Rattle.tilings.specs.Naming.{Painted, TilePainted, CellsNamed};

use crate::corners::corner_of;
use crate::tile::Tile;
use boxes::GridBox;
use images::{HeldImage, Named};

// Gives `named` to the cells of the image whose corners lie in a box.
fn paint<const ENDS: usize, const CELLS: usize>(
    image: &HeldImage<ENDS, CELLS>,
    low: &[u32; 4],
    outer: &GridBox,
    named: Named,
    cells: &mut [Named; CELLS],
)
    ensures long { length cells.new ≡ CELLS }
    ensures named { Painted image.now low.now outer.now named cells.old cells.new }
{
    let count = image.size().cells;
    for (number, cell) in cells[..count].iter_mut().enumerate() {
        let corner = corner_of(low, &image.scales(), count, number);
        if outer.contains(&corner[..image.keys]) {
            *cell = named;
        }
    }
}

// Gives the tile to the cells whose corners lie in it.
fn paint_tile<const ENDS: usize, const CELLS: usize>(
    image: &HeldImage<ENDS, CELLS>,
    inner: &GridBox,
    tile: Tile,
    cells: &mut [Named; CELLS],
)
    ensures long { length cells.new ≡ CELLS }
    ensures named { TilePainted image.now inner.now tile cells.old cells.new }
{
    if let Some(outer) = GridBox::around(inner.space, tile.level, &tile.low[..inner.space.keys]) {
        paint(image, &inner.low, &outer, tile.named(), cells);
    }
}

// Gives each cell its tile: from the last tile to the first, so that the first stays.
pub(crate) fn name_cells<const ENDS: usize, const CELLS: usize>(
    image: &HeldImage<ENDS, CELLS>,
    inner: &GridBox,
    tiles: &[Tile],
    cells: &mut [Named; CELLS],
)
    ensures long { length cells.new ≡ CELLS }
    ensures named { CellsNamed image.now inner.now tiles.now cells.old cells.new }
{
    for tile in tiles.iter().rev() {
        paint_tile(image, inner, *tile, cells);
    }
}
