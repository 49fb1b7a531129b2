// Kind X, trial: three keys of twenty bits, the deepest space there is.
ghost use Rattle.std.specs.Prelude.{refl};
ghost use Rattle.kinds.specs.Kinds.{trial_x};
ghost use Rattle.std.proofs.Common.{arith};
ghost use Rattle.kinds.specs.FormatsLemmas.{lawful_of};

use crate::fields::{be24, has_mark};
use crate::kind_of::KindOf;
use crate::record_format::RecordFormat;
use boxes::Keys;

#[derive(Clone, Copy)]
pub struct TrialXFormat;

pub type TrialX = KindOf<TrialXFormat>;

impl RecordFormat for TrialXFormat {
    ghost format = { trial_x };

    ghost lawful = { lawful_of trial_x refl (λ bs small long t. (Prim.grind arith, (Prim.grind arith, (Prim.grind arith, tt)))) };

    fn widths() -> &'static [u8] {
        &[20, 20, 20]
    }

    fn size() -> usize {
        11
    }

    fn capacity() -> usize {
        1
    }

    fn accepts(bytes: &[u8]) -> bool {
        has_mark(bytes, [0x58, 0x59])
            && be24(bytes, 2) < 1048576
            && be24(bytes, 5) < 1048576
            && be24(bytes, 8) < 1048576
    }

    fn keys(bytes: &[u8]) -> Option<Keys> {
        Keys::new(&[be24(bytes, 2), be24(bytes, 5), be24(bytes, 8)])
    }
}
