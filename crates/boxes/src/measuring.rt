// The figures of a set of points.
// Points, capacity and room stay parameters of their own: the walk lends a part of the points and of the room to each half of a box.
ghost use Rattle.std.specs.Prelude.{◌≡◌, ℕ, ◌<◌, ◌≤◌, ◌↔◌, map, length, drop, IfOk, IsTrue, slice_index};
ghost use Rattle.std.specs.List.Sorted.{IsPermutation, IsNonDecreasing};
ghost use Rattle.boxes.specs.Directories.{directories, distinct, ends};
ghost use Rattle.boxes.specs.Figures.{Measured, Points};
ghost use Rattle.boxes.specs.KeyLists.{way_of};
ghost use Rattle.boxes.specs.Leaves.{leaves};
ghost use Rattle.boxes.specs.Spaces.{widths_of, order_of};

use crate::figures::{Figures, NotMeasured};
use crate::grid_box::GridBox;
use crate::keys::Keys;
use crate::limits::EndGrid;
use crate::space::Space;
use crate::surveys::survey;

// The different numbers in a list that rises.
fn different(sorted: &[u32]) -> usize
    requires { IsNonDecreasing sorted.now }
    ensures { result ≡ length (distinct sorted.now) }
{
    let pairs = sorted.iter().zip(sorted.iter().skip(1));
    pairs.filter(|(x, next)| x != next).count() + usize::from(!sorted.is_empty())
}

// How many different lower ends the directory boxes have in one key. The points come back in another order;
// the room has a place for each directory box.
fn root_ends(
    space: &Space,
    points: &mut [Keys],
    capacity: usize,
    key: usize,
    room: &mut [u32],
) -> usize
    requires key_lt_keys { key < space.now.keys }
    requires points_in_bounds { length (directories (widths_of space.now) (order_of space.now) (leaves (length (order_of space.now)) capacity (map (way_of space.now) points.old))) ≤ length room.old }
    ensures same { IsPermutation points.old points.new }
    ensures counted { result ≡ ends (widths_of space.now) (order_of space.now) (directories (widths_of space.now) (order_of space.now) (leaves (length (order_of space.now)) capacity (map (way_of space.now) points.old))) key }
{
    let found = survey(&GridBox::whole(space), points, capacity, key, room);
    let lower_ends = &mut room[..found.directory_boxes];
    lower_ends.sort_unstable();
    different(lower_ends)
}

// Are all of these points of the space?
fn are_points(space: &Space, points: &[Keys]) -> bool
    ensures { IsTrue result ↔ Points space.now points.now }
{
    points.iter().all(|point| space.has_point(point.as_slice()))
}

// How many different lower ends the directory boxes have in each key, and 1 for a key that does not exist.
fn root_counts(space: &Space, points: &mut [Keys], capacity: usize, room: &mut [u32]) -> [usize; 4]
    requires { length (directories (widths_of space.now) (order_of space.now) (leaves (length (order_of space.now)) capacity (map (way_of space.now) points.old))) ≤ length room.old }
    ensures same { IsPermutation points.old points.new }
    ensures counted { (i : ℕ) → i < space.now.keys → slice_index result i ≡ ends (widths_of space.now) (order_of space.now) (directories (widths_of space.now) (order_of space.now) (leaves (length (order_of space.now)) capacity (map (way_of space.now) points.old))) i }
{
    let mut counts = [1; 4];
    for (key, count) in counts[..space.keys].iter_mut().enumerate() {
        *count = root_ends(space, points, capacity, key, room);
    }
    counts
}

// The figures of a set of points, with at most `capacity` of them in a leaf box. The points come back in another order.
// The room lent is to have a place for each directory box: lend none to learn how many there are. What it has behind these places stays as it was.
pub fn measure(
    space: &Space,
    capacity: usize,
    points: &mut [Keys],
    room: &mut [u32],
) -> Result<Figures, NotMeasured>
    ensures measured { Measured space.now capacity points.old points.new room.old room.new result }
    ensures rest { IfOk result (λ figures. drop figures.directory_boxes room.new ≡ drop figures.directory_boxes room.old) }
{
    if !are_points(space, points) {
        return Err(NotMeasured::NotPoints);
    }
    let found = survey(&GridBox::whole(space), points, capacity, 0, &mut []);
    if room.len() < found.directory_boxes {
        return Err(NotMeasured::ShortRoom(found.directory_boxes));
    }
    let counts = root_counts(space, points, capacity, &mut room[..found.directory_boxes]);
    let root = EndGrid::of(&counts[..space.keys]);
    Ok(Figures {
        leaf_boxes: found.leaf_boxes,
        directory_boxes: found.directory_boxes,
        pages: 8 + found.directory_boxes + found.leaf_boxes,
        root_boundaries: root.boundaries,
        root_cells: root.cells,
        root_fits: root.keeps_limits(250, 1024),
    })
}
