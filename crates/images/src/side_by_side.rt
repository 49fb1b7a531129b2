// Taking the lower ends of keys apart.
ghost use Rattle.images.specs.SideBySide.{Split};

use crate::key_ends::KeyEnds;

impl<'a> KeyEnds<'a> {
    // The ends of the first key, and those of the others; nothing where there is no key.
    pub fn split_first(&self) -> Option<(&'a [u32], KeyEnds<'a>)>
        ensures { Split self.now result }
    {
        let (count, counts) = self.counts.split_first()?;
        let (first, ends) = self.ends.split_at(*count);
        Some((first, KeyEnds { counts, ends }))
    }
}
