// The lower ends of some keys, side by side.
ghost use Rattle.std.specs.Prelude.{◌≤◌, length};
ghost use Rattle.images.specs.Parts.{total};

#[derive(Clone, Copy)]
pub struct KeyEnds<'a> {
    // How many ends each key has.
    pub counts: &'a [usize],
    // These, and perhaps more behind them.
    pub ends: &'a [u32],
    ghost room: { total counts.now ≤ length ends.now },
}
