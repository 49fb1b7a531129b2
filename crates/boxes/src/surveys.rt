// The leaf boxes and the directory boxes in a box, by its halves.
ghost use Rattle.std.specs.Prelude.{◌≡◌, ◌-◌, ◌<◌, ◌≤◌, [], ◌∷◌, length, take, Some};
ghost use Rattle.std.specs.List.Sorted.{IsPermutation};
ghost use Rattle.boxes.specs.GridBoxes.{box_of, ManyHalved};
ghost use Rattle.boxes.specs.Surveys.{Surveyed, Noted, leaves_in};

use crate::grid_box::GridBox;
use crate::joining::halves_joined;
use crate::keys::Keys;
use crate::parting::part;
use crate::scales::Scales;
use crate::survey::Survey;

// Counts the boxes in a box, of the points in it, which come back in another order. Puts the lower ends in one key
// of the directory boxes in it to the front of the room, as far as that goes.
pub(crate) fn survey(
    inner: &GridBox,
    points: &mut [Keys],
    capacity: usize,
    key: usize,
    room: &mut [u32],
) -> Survey
    requires { key < inner.now.space.now.keys }
    ensures same { IsPermutation points.old points.new }
    ensures found { Surveyed inner.now.space.now inner.now.level (box_of inner.now) capacity points.old result }
    ensures notes { Noted inner.now.space.now inner.now.level (box_of inner.now) (leaves_in inner.now.space.now inner.now.level capacity points.old) key room.new }
{
    let Some((lower_half, upper_half)) = halves_of_many(inner, points.len(), capacity) else {
        return alone(1, Scales::one(&inner.low), inner.low[key], room);
    };
    let cut = part(inner, points);
    let lower = survey(&lower_half, &mut points[..cut], capacity, key, room);
    let noted = lower.directory_boxes.min(room.len());
    let upper = survey(
        &upper_half,
        &mut points[cut..],
        capacity,
        key,
        &mut room[noted..],
    );
    let leaf_boxes = lower.leaf_boxes + upper.leaf_boxes;
    if let Some(scales) = halves_joined(&lower.scales, &upper.scales, inner.space.keys) {
        return alone(leaf_boxes, scales, inner.low[key], room);
    }
    Survey {
        leaf_boxes,
        directory_boxes: lower.directory_boxes + upper.directory_boxes,
        scales: None,
    }
}

// The halves of a box with more points than the capacity; a leaf box has none.
fn halves_of_many<'a>(
    inner: &GridBox<'a>,
    points: usize,
    capacity: usize,
) -> Option<(GridBox<'a>, GridBox<'a>)>
    ensures { ManyHalved inner.now points capacity result }
{
    if points <= capacity {
        return None;
    }
    inner.halves()
}

// A box that is one directory box; its own lower end comes first in the room.
fn alone(leaf_boxes: usize, scales: Scales, own: u32, room: &mut [u32]) -> Survey
    ensures found { result ≡ record { leaf_boxes = leaf_boxes; directory_boxes = 1; scales = Some scales } }
    ensures noted { 1 ≤ length room.old → take 1 room.new ≡ own ∷ [] }
{
    if !room.is_empty() {
        room[0] = own;
    }
    Survey {
        leaf_boxes,
        directory_boxes: 1,
        scales: Some(scales),
    }
}
