// The kind of a format: it is made once, and holds its space, so that no call builds the halving order again.
ghost use Rattle.std.specs.Prelude.{◌≡◌, ⊤};
ghost use Rattle.boxes.specs.Spaces.{widths_of};
ghost use Rattle.kinds.specs.Formats.{is_record, meaning_of};

use crate::fields::has_size;
use crate::kind::Kind;
use crate::record_format::RecordFormat;
use boxes::{Keys, Space};
use std::alloc::AllocError;
use std::marker::PhantomData;

pub struct KindOf<F: RecordFormat> {
    space: Space,
    format: PhantomData<F>,
    ghost widths: { widths_of space ≡ F.format.widths },
}

// By hand, since a struct with a type parameter and a ghost field has no derive.
impl<F: RecordFormat> Clone for KindOf<F> {
    ghost is_clone = { λ x y. y ≡ x };

    ghost is_infallible = { λ _. ⊤ };

    fn clone(&self) -> Result<KindOf<F>, AllocError> {
        Ok(*self)
    }
}

impl<F: RecordFormat> Copy for KindOf<F> {}

impl<F: RecordFormat> KindOf<F> {
    pub fn new() -> KindOf<F>
        ensures { widths_of result.space ≡ F.format.widths }
    {
        KindOf {
            space: Space::new(F::widths()).unwrap(),
            format: PhantomData,
        }
    }
}

impl<F: RecordFormat> Kind for KindOf<F> {
    ghost meaning = { λ _. meaning_of F.format };

    ghost lawful = { λ _. F.lawful };

    fn space(&self) -> Space {
        self.space
    }

    fn size(&self) -> usize {
        F::size()
    }

    fn capacity(&self) -> usize {
        F::capacity()
    }

    fn keys(&self, bytes: &[u8]) -> Option<Keys> {
        is_record::<F>(bytes).then(|| F::keys(bytes)).flatten()
    }
}

fn is_record<F: RecordFormat>(bytes: &[u8]) -> bool
    ensures { result ≡ is_record F.format bytes.now }
{
    has_size(bytes, F::size()) && F::accepts(bytes)
}
