#![tactic(auto)]

ghost use Rattle.std.specs.Prelude.{◌≡◌, zero};
ghost use Rattle.boxes.specs.Cases.{Cases};
ghost use Rattle.boxes.specs.Laws.{BoxesStand, LeavesStand, OrderStands, ChangesStand, CellsStand, NumbersStand, RootCellsStand, AnyOrder};

mod figures;
mod greatest;
mod grid_box;
mod grid_boxes;
mod joining;
mod key_lists;
mod key_range;
mod key_ranges;
mod keys;
mod limits;
mod measuring;
mod padding;
mod parting;
mod rising;
mod rising_ends;
mod scales;
mod space;
mod spaces;
mod survey;
mod surveys;

pub use figures::{Figures, NotMeasured};
pub use greatest::greatest_key;
pub use grid_box::GridBox;
pub use key_range::KeyRange;
pub use keys::Keys;
pub use measuring::measure;
pub use padding::padded;
pub use rising::insert_end;
pub use rising_ends::RisingEnds;
pub use space::Space;

// Computes nothing: its promise is the laws of boxes, leaf boxes and directory boxes, and the worked cases.
pub fn laws_stand() -> u8
    ensures nothing { result ≡ zero }
    ensures boxes { BoxesStand }
    ensures leaves { LeavesStand }
    ensures numbers { NumbersStand }
    ensures order { OrderStands }
    ensures changes { ChangesStand }
    ensures cells { CellsStand }
    ensures roots { RootCellsStand }
    ensures orders { AnyOrder }
    ensures cases { Cases }
{
    0
}
