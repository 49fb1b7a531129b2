// Boxes as tiles.
ghost use Rattle.std.specs.Prelude.{◌≡◌, ◌<◌};
ghost use Rattle.tilings.specs.Tiles.{TileMade};

use crate::tile::Tile;
use boxes::GridBox;
use images::Named;

impl Tile {
    // The box with a page.
    pub fn new(inner: &GridBox, page: u16) -> Tile
        ensures { TileMade inner.now page result }
    {
        Tile {
            level: inner.level,
            low: inner.low,
            page,
        }
    }

    // What a cell in the tile names.
    pub(crate) fn named(&self) -> Named
        requires { self.now.level < 256 }
        ensures page { result.page ≡ self.now.page }
        ensures level { result.level ≡ self.now.level }
    {
        Named {
            page: self.page,
            level: self.level as u8,
        }
    }
}
