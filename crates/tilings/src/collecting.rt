// The scales of a tiling: in each key the different lower ends above the box's own, rising.
ghost use Rattle.std.specs.Prelude.{◌≡◌, length};
ghost use Rattle.tilings.specs.Filling.{Laid, ScalesMade};
ghost use Rattle.tilings.specs.Tiles.{scales_in_numbers};

use crate::ordering::collect_key;
use crate::scales::Scales;
use crate::tile::Tile;
use boxes::GridBox;

// Puts the scales of all keys side by side, and answers how many ends each has; nothing where there is no room for them.
fn collect_scales(inner: &GridBox, tiles: &[Tile], ends: &mut [u32]) -> Option<[usize; 4]>
    ensures { Laid inner.now.space.now.keys (scales_in_numbers inner.now tiles.now) ends.new result }
{
    let mut counts = [0; 4];
    let mut from = 0;
    for (key, own) in inner.low[..inner.space.keys].iter().enumerate() {
        let count = collect_key(tiles, key, *own, &mut ends[from..])?;
        counts[key] = count;
        from += count;
    }
    Some(counts)
}

// The scales of the tiles; nothing where there are more than 250 ends. A box and its tiles are two parameters throughout, as `build` and `scale_counts` are handed them.
pub(crate) fn scales_of(inner: &GridBox, tiles: &[Tile]) -> Option<Scales>
    ensures { ScalesMade inner.now.space.now.keys (scales_in_numbers inner.now tiles.now) result }
{
    let mut ends = zeros();
    let counts = collect_scales(inner, tiles, &mut ends)?;
    Some(Scales { counts, ends })
}

// Nothing but zeros. By itself, so that no proof spells out 250 of them.
fn zeros<const N: usize>() -> [u32; N]
    ensures { length result ≡ N }
{
    [0; N]
}
