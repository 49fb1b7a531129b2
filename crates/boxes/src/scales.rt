// The lower ends of a box in each key.
ghost use Rattle.std.specs.Prelude.{◌≡◌, length};

use crate::rising_ends::RisingEnds;

#[derive(Clone, Copy)]
pub struct Scales {
    pub ends: [RisingEnds; 4],
    ghost four: { length ends ≡ 4 },
}
