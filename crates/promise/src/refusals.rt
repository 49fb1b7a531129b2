// The numbers of the refusals.
ghost use Rattle.std.specs.Prelude.{◌≡◌};
ghost use Rattle.promise.specs.Refusals.{number};

use crate::refusal::Refusal;

impl Refusal {
    // The refusal's number, for whoever is told of it; the code goes by the cases.
    pub fn number(self) -> u8
        ensures { result ≡ number self }
    {
        match self {
            Refusal::NoSuchPage => 1,
            Refusal::WrongStore => 2,
            Refusal::NotARecord => 3,
            Refusal::BadKeys => 4,
            Refusal::BrokenPage(_) => 5,
            Refusal::AlreadyHeld => 6,
            Refusal::NotHeld => 7,
            Refusal::RootFull => 8,
            Refusal::StoreFull => 9,
            Refusal::ShortBuffer(_) => 10,
        }
    }
}
