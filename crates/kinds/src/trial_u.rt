// Kind U, trial: one key of a byte, and a record to a bucket.
ghost use Rattle.std.specs.Prelude.{refl};
ghost use Rattle.kinds.specs.Kinds.{trial_u};
ghost use Rattle.kinds.specs.FormatsLemmas.{lawful_of};

use crate::fields::{byte, has_mark};
use crate::kind_of::KindOf;
use crate::record_format::RecordFormat;
use boxes::Keys;

#[derive(Clone, Copy)]
pub struct TrialUFormat;

pub type TrialU = KindOf<TrialUFormat>;

impl RecordFormat for TrialUFormat {
    ghost format = { trial_u };

    ghost lawful = { lawful_of trial_u refl (λ bs small long t. (small 2, tt)) };

    fn widths() -> &'static [u8] {
        &[8]
    }

    fn size() -> usize {
        3
    }

    fn capacity() -> usize {
        1
    }

    fn accepts(bytes: &[u8]) -> bool {
        has_mark(bytes, [0x55, 0x4E])
    }

    fn keys(bytes: &[u8]) -> Option<Keys> {
        Keys::new(&[byte(bytes, 2) as u32])
    }
}
