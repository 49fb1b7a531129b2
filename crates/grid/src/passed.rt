// What a walk has passed so far.
#[derive(Clone, Copy)]
pub struct Passed {
    // How many records, up to the greatest number there is.
    pub number: usize,
    // Where those written into the buffer end.
    pub end: usize,
}

impl Passed {
    pub const NOTHING: Passed = Passed { number: 0, end: 0 };
}
