// Kind T, trial: two keys of two bits, to try the grid by hand.
ghost use Rattle.std.specs.Prelude.{refl};
ghost use Rattle.kinds.specs.Kinds.{trial_t};
ghost use Rattle.std.proofs.Common.{arith};
ghost use Rattle.kinds.specs.FormatsLemmas.{lawful_of};

use crate::fields::{byte, has_mark};
use crate::kind_of::KindOf;
use crate::record_format::RecordFormat;
use boxes::Keys;

#[derive(Clone, Copy)]
pub struct TrialTFormat;

pub type TrialT = KindOf<TrialTFormat>;

impl RecordFormat for TrialTFormat {
    ghost format = { trial_t };

    ghost lawful = { lawful_of trial_t refl (λ bs small long t. (Prim.grind arith, (Prim.grind arith, tt))) };

    fn widths() -> &'static [u8] {
        &[2, 2]
    }

    fn size() -> usize {
        4
    }

    fn capacity() -> usize {
        2
    }

    fn accepts(bytes: &[u8]) -> bool {
        has_mark(bytes, [0x54, 0x57]) && byte(bytes, 2) <= 3 && byte(bytes, 3) <= 3
    }

    fn keys(bytes: &[u8]) -> Option<Keys> {
        Keys::new(&[byte(bytes, 2) as u32, byte(bytes, 3) as u32])
    }
}
