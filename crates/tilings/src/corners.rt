// The lowest corners of cells.
ghost use Rattle.std.specs.Prelude.{◌≡◌, ◌<◌, ◌≤◌, length, take};
ghost use Rattle.images.specs.Cells.{corner};
ghost use Rattle.images.specs.Directory.{intervals};
ghost use Rattle.images.specs.SideBySide.{by_key};

use images::{KeyEnds, interval_start};

// The lowest corner of a cell in a box with the lower ends `low`, where the ends make so many cells.
pub(crate) fn corner_of(low: &[u32; 4], scales: &KeyEnds, cells: usize, number: usize) -> [u32; 4]
    requires four_keys { length scales.now.counts.now ≤ 4 }
    requires cells_value { cells ≡ intervals (by_key scales.now) }
    requires number_lt_cells { number < cells }
    ensures { take (length scales.now.counts.now) result ≡ corner (take (length scales.now.counts.now) low.now) (by_key scales.now) number }
{
    let mut point = [0; 4];
    let mut from = 0;
    let mut left = cells;
    let mut rest = number;
    // A key's number serves two arrays side by side, the corner and the lower ends of the box.
    for (key, count) in scales.counts.iter().enumerate() {
        let upto = from + *count;
        left /= *count + 1;
        point[key] = interval_start(&scales.ends[from..upto], low[key], rest / left);
        rest %= left;
        from = upto;
    }
    point
}
