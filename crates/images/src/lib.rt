// The images of boxes: the directory image of a box, and the root image of the whole space.
#![tactic(auto)]

ghost use Rattle.std.specs.Prelude.{◌≡◌, zero};
ghost use Rattle.images.specs.Laws.{CellsStand, BuiltStands, DepictedStands, PiecesStand, SameStands, ChecksStand, PagesStand, OneCellStands, OneRoot, OneDirectory, ImagesFull};

mod cells;
mod checking;
mod fits;
mod held_image;
mod held_images;
mod image_size;
mod key_check;
mod key_ends;
mod one_cell;
mod positions;
mod side_by_side;
mod spans;

pub use held_image::{DirectoryImage, HeldImage, Named, RootImage};
pub use image_size::ImageSize;
pub use key_ends::KeyEnds;
pub use positions::{interval_start, position_of};

// Computes nothing: its promise is the laws of images.
pub fn image_laws_stand() -> u8
    ensures nothing { result ≡ zero }
    ensures cells { CellsStand }
    ensures built { BuiltStands }
    ensures depicted { DepictedStands }
    ensures pieces { PiecesStand }
    ensures same { SameStands }
    ensures checks { ChecksStand }
    ensures pages { PagesStand }
    ensures plain { OneCellStands }
    ensures roots { OneRoot }
    ensures directories { OneDirectory }
    ensures full { ImagesFull }
{
    0
}
