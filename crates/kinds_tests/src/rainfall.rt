// A kind of a maker's own, rainfall: what a gauge caught on a day.
ghost use Rattle.std.specs.Prelude.{refl};
ghost use Rattle.kinds_tests.specs.Rain.{rainfall};
ghost use Rattle.std.proofs.Common.{arith};
ghost use Rattle.kinds.specs.FormatsLemmas.{lawful_of};

use kinds::{Keys, KindOf, RecordFormat, be16, byte, has_mark};

#[derive(Clone, Copy)]
pub struct RainfallFormat;

pub type Rainfall = KindOf<RainfallFormat>;

impl RecordFormat for RainfallFormat {
    ghost format = { rainfall };

    ghost lawful = { lawful_of rainfall refl (λ bs small long t.
        let b2 = small 2 in
        let b3 = small 3 in
        (omega arith, (Prim.grind arith, (Prim.grind arith, tt)))) };

    fn widths() -> &'static [u8] {
        &[16, 4, 14]
    }

    fn size() -> usize {
        8
    }

    fn capacity() -> usize {
        63
    }

    fn accepts(bytes: &[u8]) -> bool {
        has_mark(bytes, [0x52, 0x46])
            && (1..=12).contains(&byte(bytes, 4))
            && be16(bytes, 5) <= 9999
            && byte(bytes, 7) == 0
    }

    fn keys(bytes: &[u8]) -> Option<Keys> {
        Keys::new(&[
            be16(bytes, 2) as u32,
            byte(bytes, 4) as u32,
            be16(bytes, 5) as u32,
        ])
    }
}
