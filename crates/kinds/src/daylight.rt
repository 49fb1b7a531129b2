// Kind D, daylight: what a string of panels gave in an hour.
ghost use Rattle.std.specs.Prelude.{◌≡◌, refl};
ghost use Rattle.kinds.specs.Kinds.{is_current, daylight};
ghost use Rattle.std.proofs.Common.{arith};
ghost use Rattle.kinds.specs.FormatsLemmas.{lawful_of};

use crate::fields::{be16, be32, byte, has_mark, signed16};
use crate::kind_of::KindOf;
use crate::record_format::RecordFormat;
use boxes::Keys;

#[derive(Clone, Copy)]
pub struct DaylightFormat;

pub type Daylight = KindOf<DaylightFormat>;

impl RecordFormat for DaylightFormat {
    ghost format = { daylight };

    ghost lawful = { lawful_of daylight refl (λ bs small long t. (Prim.grind arith, (Prim.grind arith, (Prim.grind arith, tt)))) };

    fn widths() -> &'static [u8] {
        &[18, 5, 14]
    }

    fn size() -> usize {
        16
    }

    fn capacity() -> usize {
        31
    }

    fn accepts(bytes: &[u8]) -> bool {
        has_mark(bytes, [0x44, 0x52])
            && (1..=24).contains(&byte(bytes, 2))
            && byte(bytes, 3) == 0
            && be32(bytes, 4) < 262144
            && be16(bytes, 8) <= 15000
            && is_current(signed16(bytes, 10))
    }

    fn keys(bytes: &[u8]) -> Option<Keys> {
        Keys::new(&[be32(bytes, 4), byte(bytes, 2) as u32, be16(bytes, 8) as u32])
    }
}

fn is_current(hundredths: i16) -> bool
    ensures { result ≡ is_current hundredths }
{
    (-3000..=3000).contains(&hundredths)
}
