// Why a call is refused.
#[derive(Clone, Copy, PartialEq, Eq, Debug)]
pub enum Refusal {
    // The page number is not in the store.
    NoSuchPage,
    // The store has not the number of pages that it must have, or the grid was never made.
    WrongStore,
    // The bytes are no record of the kind.
    NotARecord,
    // Not as many keys as the kind has, a key past its width, a range upside down, or a place that no bucket has.
    BadKeys,
    // A page read breaks its layout: which page.
    BrokenPage(usize),
    // A record with these keys is held.
    AlreadyHeld,
    // No record with these keys is held.
    NotHeld,
    // With the record the root would not fit.
    RootFull,
    // With the record more pages are needed than the store has.
    StoreFull,
    // The list's buffer is too short: how many bytes are needed.
    ShortBuffer(usize),
}
