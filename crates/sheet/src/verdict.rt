// What becomes of a row.
ghost use Rattle.std.specs.Prelude.{◌≡◌};
ghost use Rattle.sheet.specs.Verdicts.{point_of};

use boxes::Keys;

#[derive(Clone, Copy)]
pub enum Verdict {
    // its point, which no earlier row writes
    Kept(Keys),
    // it writes no point of the space
    NoPoint,
    // an earlier row writes the same point
    Repeated,
}

impl Verdict {
    // The point that is kept.
    pub(crate) fn point(&self) -> Option<Keys>
        ensures { result ≡ point_of self.now }
    {
        match self {
            Verdict::Kept(point) => Some(*point),
            Verdict::NoPoint | Verdict::Repeated => None,
        }
    }
}
