// The lower ends that an image shows in a part of its box.
ghost use Rattle.std.specs.Prelude.{◌<◌, ◌≤◌, ◌↔◌, IsTrue};
ghost use Rattle.tilings.specs.Ends.{EndsShown};

use boxes::{GridBox, RisingEnds};
use images::{DirectoryImage, Named};

// The lower ends in a key of the image's boxes inside a box. Nothing for a key that does not exist; else an answer, where the image is lawful.
pub fn lower_ends(image: &DirectoryImage, inner: &GridBox, key: usize) -> Option<RisingEnds>
    ensures { EndsShown image.now inner.now key result }
{
    if key >= inner.space.keys {
        return None;
    }
    ends_inside(image, inner, key)
}

// The same of a key that exists: the box's own end alone where the image has no smaller box there, else those of its halves.
fn ends_inside(image: &DirectoryImage, inner: &GridBox, key: usize) -> Option<RisingEnds>
    requires { key < inner.now.space.now.keys }
    ensures { EndsShown image.now inner.now key result }
{
    let named = image.named_at(&inner.low[..inner.space.keys])?;
    if is_whole(inner, named) {
        return Some(RisingEnds::one(inner.low[key]));
    }
    let (lower, upper) = inner.halves()?;
    let below = ends_inside(image, &lower, key)?;
    let above = ends_inside(image, &upper, key)?;
    below.joined(&above)
}

// Is a box as large as this one named?
fn is_whole(inner: &GridBox, named: Named) -> bool
    ensures { IsTrue result ↔ (named.level ≤ inner.now.level) }
{
    named.level as usize <= inner.level
}
