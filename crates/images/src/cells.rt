// The number of a point's cell.
ghost use Rattle.std.specs.Prelude.{◌≡◌, ◌^◌, ◌<◌, length};
ghost use Rattle.images.specs.Directory.{place_from};
ghost use Rattle.images.specs.Parts.{AllRising};
ghost use Rattle.images.specs.SideBySide.{by_key};

use crate::key_ends::KeyEnds;
use crate::positions::position_of;

impl<'a> KeyEnds<'a> {
    // The number of a point's cell, where `number` comes from the keys before these.
    pub(crate) fn cell_from(&self, number: usize, point: &[u32]) -> usize
        requires point_len { length point.now ≡ length self.now.counts.now }
        requires rising { AllRising (by_key self.now) }
        requires bound { place_from number (by_key self.now) point.now < 2 ^ 32 }
        ensures { result ≡ place_from number (by_key self.now) point.now }
    {
        match (self.split_first(), point.split_first()) {
            (Some((ends, more)), Some((x, others))) => {
                let next = number * (ends.len() + 1) + position_of(ends, *x);
                more.cell_from(next, others)
            }
            _ => number,
        }
    }
}
