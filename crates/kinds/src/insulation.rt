// Kind I, insulation: the resistance of an array on a day.
ghost use Rattle.std.specs.Prelude.{◌≡◌, true, ◌||◌, refl};
ghost use Rattle.kinds.specs.Kinds.{is_over_range, is_measured, kilohms as kilohms_of, insulation};
ghost use Rattle.std.proofs.Common.{arith};
ghost use Rattle.kinds.specs.Fields.{byte, be2};
ghost use Rattle.kinds.specs.FormatsLemmas.{lawful_of};
ghost use Rattle.kinds.specs.Kilohms.{kilohms_small};

use crate::fields::{be16, be24, byte, has_mark};
use crate::kind_of::KindOf;
use crate::record_format::RecordFormat;
use boxes::Keys;

#[derive(Clone, Copy)]
pub struct InsulationFormat;

pub type Insulation = KindOf<InsulationFormat>;

impl RecordFormat for InsulationFormat {
    ghost format = { insulation };

    ghost lawful = { lawful_of insulation refl (λ bs small long t.
        let b2 = small 2 in
        let b3 = small 3 in
        let good : (is_over_range (be2 bs 5) (byte bs 7) || is_measured (be2 bs 5) (byte bs 7)) ≡ true = Prim.grind arith in
        (omega arith, (Prim.grind arith, (kilohms_small (be2 bs 5) (byte bs 7) good, tt)))) };

    fn widths() -> &'static [u8] {
        &[16, 6, 20]
    }

    fn size() -> usize {
        12
    }

    fn capacity() -> usize {
        42
    }

    fn accepts(bytes: &[u8]) -> bool {
        has_mark(bytes, [0x49, 0x52])
            && (1..=40).contains(&byte(bytes, 4))
            && (is_over_range(be16(bytes, 5), byte(bytes, 7))
                || is_measured(be16(bytes, 5), byte(bytes, 7)))
            && byte(bytes, 8) <= 2
            && be24(bytes, 9) == 0
    }

    fn keys(bytes: &[u8]) -> Option<Keys> {
        Keys::new(&[
            be16(bytes, 2) as u32,
            byte(bytes, 4) as u32,
            kilohms(be16(bytes, 5), byte(bytes, 7)),
        ])
    }
}

fn is_over_range(digits: u16, power: u8) -> bool
    ensures { result ≡ is_over_range digits power }
{
    digits == 0 && power == 255
}

fn is_measured(digits: u16, power: u8) -> bool
    ensures { result ≡ is_measured digits power }
{
    power <= 3 && digits <= 999 && (power == 0 || 100 <= digits)
}

// The kilohms of digits and power that a record may have. `accepts` tells which these are; to test it here again would make reading a page of records half as dear again.
fn kilohms(digits: u16, power: u8) -> u32
    ensures { (is_over_range digits power || is_measured digits power) ≡ true → result ≡ kilohms_of digits power }
{
    if is_over_range(digits, power) {
        1048575
    } else {
        // Only a power up to 3 is one of a record; the product of any other is to fit as well.
        digits as u32 * 10u32.pow(power.min(3) as u32)
    }
}
