// A walk over the boxes of a made grid that have points in a range, and the box that it has come to.
ghost use Rattle.std.specs.Prelude.{◌≡◌};
ghost use Rattle.grid.specs.Walks.{OfKind};

use boxes::{GridBox, KeyRange};
use kinds::Kind;
use promise::Memory;

#[derive(Drop)]
pub struct Walk<'a, K: Kind> {
    pub kind: &'a K,
    pub memory: &'a Memory,
    pub range: KeyRange<'a>,
    pub inner: GridBox<'a>,
    // The grid is made for the kind, and range and box are of its space.
    ghost made_for: { OfKind (K.Kind.meaning kind.now) memory.now.space },
    ghost range_space: { range.space.now ≡ memory.now.space },
    ghost box_space: { inner.space.now ≡ memory.now.space },
}
