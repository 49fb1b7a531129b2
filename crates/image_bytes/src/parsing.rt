// The parts of an image, read from its bytes.
ghost use Rattle.std.specs.Prelude.{◌≤◌, ◌↔◌, length, IsTrue, slice_index};
ghost use Rattle.images.specs.Directory.{Rising};
ghost use Rattle.images.specs.Parts.{AllRising};
ghost use Rattle.images.specs.SideBySide.{by_key};
ghost use Rattle.image_bytes.specs.Reading.{Heading, CountsRead};

use crate::fields::{fields, is_zero};
use images::KeyEnds;

// The bounds stand at each function that reads the first 16 bytes: a struct of these would hold a copy, and the rules of the layout are about the bytes of the page.

// Do the bytes begin as those of an image with this mark, so many keys and this level? The counts of other keys are zero, and so are four bytes behind them.
pub(crate) fn has_heading(bytes: &[u8], mark: [u8; 2], keys: usize, level: usize) -> bool
    requires keys_bound { keys ≤ 4 }
    requires in_bounds { 16 ≤ length bytes.now }
    ensures { IsTrue result ↔ Heading (slice_index mark 0) (slice_index mark 1) keys level bytes.now }
{
    bytes.starts_with(&mark)
        && bytes[2] as usize == keys
        && bytes[3] as usize == level
        && is_zero(bytes, 4 + 2 * keys, 16)
}

// How many lower ends each key has; nothing if a key has no interval.
pub(crate) fn read_counts(bytes: &[u8], keys: usize) -> Option<[usize; 4]>
    requires keys_bound { keys ≤ 4 }
    requires in_bounds { 16 ≤ length bytes.now }
    ensures { CountsRead keys bytes.now result }
{
    let intervals: [u16; 4] = fields(bytes, 4, keys, 0);
    if intervals[..keys].contains(&0) {
        return None;
    }
    Some(intervals.map(|number| (number as usize).saturating_sub(1)))
}

// Do the lower ends of each key rise?
pub(crate) fn ends_rise(ends: &KeyEnds) -> bool
    ensures { IsTrue result ↔ AllRising (by_key ends.now) }
{
    match ends.split_first() {
        Some((first, more)) => rises(first) && ends_rise(&more),
        None => true,
    }
}

// Do the lower ends of a key rise?
fn rises(ends: &[u32]) -> bool
    ensures { IsTrue result ↔ Rising ends.now }
{
    ends.is_sorted_by(|end, next| end < next)
}
