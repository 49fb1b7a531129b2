// Positions among rising ends.
ghost use Rattle.std.specs.Prelude.{◌≡◌, ◌<◌, ◌≤◌, length};
ghost use Rattle.images.specs.Cells.{start};
ghost use Rattle.images.specs.Directory.{Rising, position};

// How many of the ends are at or below x, where they rise.
pub fn position_of(ends: &[u32], x: u32) -> usize
    ensures within { result ≤ length ends.now }
    ensures place { Rising ends.now → result ≡ position x ends.now }
{
    ends.partition_point(|end| *end <= x)
}

// The lower end of interval j of a key that begins at `own`; `own` where there is no interval j.
pub fn interval_start(ends: &[u32], own: u32, j: usize) -> u32
    ensures there { j ≤ length ends.now → result ≡ start own ends.now j }
    ensures none { length ends.now < j → result ≡ own }
{
    j.checked_sub(1)
        .and_then(|below| ends.get(below).copied())
        .unwrap_or(own)
}
