// Pages taken and given back.
ghost use Rattle.std.specs.Prelude.{◌≡◌, ℕ, ◌<◌, min, true, false, ◌≢◌};
ghost use Rattle.buckets.specs.Firsts.{FirstWith};
ghost use Rattle.buckets.specs.PageMaps.{bit, used, counted, OnlyAt, Marked, Taken};

use crate::page_map::{PageMap, PastMap};

// Is a bit of the byte set? Bit 0 is the lowest.
fn has_bit(byte: u8, i: usize) -> bool
    requires { i < 8 }
    ensures { result ≡ bit byte i }
{
    (byte >> i) % 2 == 1
}

// The byte with one bit as told.
fn with_bit(byte: u8, i: usize, value: bool) -> u8
    requires { i < 8 }
    ensures here { bit result i ≡ value }
    ensures others { (k : ℕ) → k < 8 → (k ≢ i) → bit result k ≡ bit byte k }
{
    if has_bit(byte, i) == value {
        return byte;
    }
    byte ^ (1 << i)
}

impl PageMap {
    // All pages are free.
    pub fn new() -> PageMap
        ensures { (j : ℕ) → used result j ≡ false }
    {
        PageMap { bits: [0; 4096] }
    }

    // Is the page in use? A page past the map is not.
    pub fn is_used(&self, page: usize) -> bool
        ensures { result ≡ used self.now page }
    {
        self.bits
            .get(page / 8)
            .is_some_and(|byte| has_bit(*byte, page % 8))
    }

    // How many pages are in use.
    pub fn count(&self) -> usize
        ensures { result ≡ counted 32768 (used self.now) }
    {
        // A sum and no `filter(..).count()`, which would branch at each page.
        (0..32768).map(|page| usize::from(self.is_used(page))).sum()
    }

    // The first free one of so many pages.
    fn lowest_free(&self, pages: usize) -> Option<usize>
        ensures { FirstWith (λ j. used self.now j ≡ false) (min pages 32768) result }
    {
        (0..pages.min(32768)).find(|page| !self.is_used(*page))
    }

    fn set(&mut self, page: usize, value: bool)
        requires { page < 32768 }
        ensures { OnlyAt self.old page value self.new }
    {
        let place = page / 8;
        let byte = with_bit(self.bits[place], page % 8, value);
        self.bits[place] = byte;
    }

    // Marks a page as in use or as free.
    fn put(&mut self, page: usize, value: bool) -> Result<(), PastMap>
        ensures { Marked self.old page value self.new result }
    {
        if page >= 32768 {
            return Err(PastMap);
        }
        self.set(page, value);
        Ok(())
    }

    // Marks a page as in use.
    pub fn mark(&mut self, page: usize) -> Result<(), PastMap>
        ensures { Marked self.old page true self.new result }
    {
        self.put(page, true)
    }

    // Marks a page as free.
    pub fn give_back(&mut self, page: usize) -> Result<(), PastMap>
        ensures { Marked self.old page false self.new result }
    {
        self.put(page, false)
    }

    // Takes the first free one of so many pages.
    pub fn take_lowest_free(&mut self, pages: usize) -> Option<usize>
        ensures { Taken self.old pages self.new result }
    {
        let free = self.lowest_free(pages)?;
        self.set(free, true);
        Some(free)
    }
}

#[cfg(test)]
mod tests {
    use crate::page_map::PageMap;

    #[test]
    fn lowest_page_first(rt: HostRuntime) {
        let mut map = PageMap::new();
        assert!(rt; map.mark(0).is_ok());
        assert_eq!(rt; map.take_lowest_free(3), Some(1));
        assert_eq!(rt; map.take_lowest_free(3), Some(2));
        assert_eq!(rt; map.take_lowest_free(3), None);
        assert!(rt; map.give_back(1).is_ok());
        assert_eq!(rt; map.count(), 2);
        assert_eq!(rt; map.take_lowest_free(3), Some(1));
        assert!(rt; map.mark(32768).is_err());
    }
}
