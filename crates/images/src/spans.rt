// How wide the boxes of a level are.
ghost use Rattle.std.specs.Prelude.{◌≡◌, ◌^◌, ◌<◌, ◌≤◌, ◌==◌, count_by};
ghost use Rattle.boxes.specs.Space.{span};
ghost use Rattle.boxes.specs.Spaces.{widths_of, order_of};

use boxes::Space;

// The span in a key of the boxes of a level; past the last level it is that of the last.
pub(crate) fn span_of(space: &Space, level: usize, key: usize) -> u64
    requires { key < space.now.keys }
    ensures span { result ≡ span (widths_of space.now) (order_of space.now) level key }
    ensures some { 0 < result }
    ensures most { result ≤ 2 ^ 32 }
{
    let last = level.min(space.depth);
    let halvings = halvings_of(&space.halvings[..last], key);
    1 << (space.widths[key] as usize - halvings)
}

// How many of the halvings are of the key.
fn halvings_of(halvings: &[u8], key: usize) -> usize
    ensures { result ≡ count_by (λ halved. key == halved) halvings.now }
{
    // A sum and no `filter(..).count()`: that would branch at each halving, and the check of an image asks this three times for each cell and key.
    halvings
        .iter()
        .map(|halved| usize::from(key == *halved as usize))
        .sum()
}
