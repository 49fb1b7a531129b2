// Lower ends in one key, rising, in an array since the library takes no memory. A directory box has at most 61: its own, and 60 boundaries. What stands in the array behind the count is no matter.
ghost use Rattle.std.specs.Prelude.{◌≡◌, ◌≤◌, length, take};
ghost use Rattle.boxes.specs.Rising.{Rising};

#[derive(Clone, Copy)]
pub struct RisingEnds {
    pub count: usize,
    pub ends: [u32; 61],
    ghost few: { count ≤ 61 },
    ghost long: { length ends ≡ 61 },
    ghost rising: { Rising (take count ends) },
}
