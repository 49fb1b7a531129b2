// Why a bucket page is not changed.
ghost use Rattle.std.specs.Prelude.{◌≡◌};
ghost use Rattle.buckets.specs.Pools.{not_filled};

// A record is not added: it has another size than those of its kind, or the page has no place for it.
#[derive(Clone, Copy, Debug, PartialEq, Eq)]
pub enum NotAdded {
    WrongSize,
    Full,
}

// No record stands at the place.
#[derive(Clone, Copy, Debug, PartialEq, Eq)]
pub struct NoSuchRecord;

// Why a bucket is not filled from a pool: its bytes are not whole strings of the size of a record, or more of them lie in the box than a bucket takes.
#[derive(Clone, Copy, Debug, PartialEq, Eq)]
pub enum NotFilled {
    Ragged,
    Overfull,
}

impl From<NotAdded> for NotFilled {
    ghost from_gives = { λ fault r. r ≡ not_filled fault };

    fn from(fault: NotAdded) -> NotFilled {
        match fault {
            NotAdded::WrongSize => NotFilled::Ragged,
            NotAdded::Full => NotFilled::Overfull,
        }
    }
}
