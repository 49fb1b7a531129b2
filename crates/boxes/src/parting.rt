// The points of a box by its two halves.
ghost use Rattle.boxes.specs.Parts.{Parted};

use crate::grid_box::GridBox;
use crate::keys::Keys;

// Puts the points of the lower half before those of the upper half, and says how many lie in the lower.
pub(crate) fn part(inner: &GridBox, points: &mut [Keys]) -> usize
    ensures { Parted inner.now.space.now inner.now.level points.old points.new result }
{
    let mut lower = 0;
    // By index: the library parts no slice in place, and to sort it would take longer.
    for i in 0..points.len() {
        if !inner.is_in_upper(points[i].as_slice()) {
            points.swap(lower, i);
            lower += 1;
        }
    }
    lower
}
