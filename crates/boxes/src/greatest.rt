// The greatest key of each width.
ghost use Rattle.std.specs.Prelude.{◌^◌, ◌<◌, ◌≤◌, ◌↔◌, IsTrue};
ghost use Rattle.boxes.specs.Widths.{GreatestKey};

// The greatest key of a width, or none past 32 bits.
pub fn greatest_key(width: u8) -> Option<u32>
    ensures { GreatestKey width result }
{
    if width > 32 {
        return None;
    }
    Some(((1u64 << width) - 1) as u32)
}

// Is this a key of a width of at most 32 bits?
pub(crate) fn is_key(key: u32, width: u8) -> bool
    ensures { IsTrue result ↔ ((width ≤ 32) × (key < 2 ^ width)) }
{
    greatest_key(width).is_some_and(|greatest| key <= greatest)
}
