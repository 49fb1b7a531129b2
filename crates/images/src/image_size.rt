// How large an image is.
ghost use Rattle.std.specs.Prelude.{◌≡◌, ◌^◌, ◌<◌, ◌≤◌, ◌↔◌, IsTrue, nat_lt, sum};
ghost use Rattle.std.specs.List.{list_any};
ghost use Rattle.images.specs.Parts.{product};
ghost use Rattle.images.specs.Sizes.{SizeOf};

#[derive(Clone, Copy, PartialEq, Eq, Debug)]
pub struct ImageSize {
    // The lower ends of all keys, without the box's own.
    pub boundaries: usize,
    pub cells: usize,
}

impl ImageSize {
    // The size of an image with so many ends in each key; none for more than four keys, or more ends than any image may have.
    pub fn of(counts: &[usize]) -> Option<ImageSize>
        ensures { SizeOf counts.now result }
    {
        if counts.len() > 4 || has_many(counts) {
            return None;
        }
        let boundaries = total_of(counts);
        if boundaries > 250 {
            return None;
        }
        let cells = product_of(counts);
        Some(ImageSize { boundaries, cells })
    }

    // Has an image with room for so many ends and cells room for this?
    pub fn fits_into(&self, ends: usize, cells: usize) -> bool
        ensures { IsTrue result ↔ ((self.now.boundaries ≤ ends) × (self.now.cells ≤ cells)) }
    {
        self.boundaries <= ends && self.cells <= cells
    }
}

// Is one of the counts above 250?
fn has_many(counts: &[usize]) -> bool
    ensures { result ≡ list_any (λ count. nat_lt 250 count) counts.now }
{
    counts.iter().any(|count| *count > 250)
}

// How many ends keys with so many each have.
pub(crate) fn total_of(counts: &[usize]) -> usize
    requires { sum counts.now < 2 ^ 64 }
    ensures { result ≡ sum counts.now }
{
    counts.iter().sum()
}

// How many cells keys with so many ends make.
pub(crate) fn product_of(counts: &[usize]) -> usize
    requires { product counts.now < 2 ^ 64 }
    ensures { result ≡ product counts.now }
{
    let mut cells = 1;
    // A loop: of `map(..).product()` it is not proved that each partial product fits.
    for count in counts {
        cells *= *count + 1;
    }
    cells
}
