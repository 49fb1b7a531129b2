// List.
ghost use Rattle.promise.specs.Calls.{Lists};
ghost use Rattle.grid.specs.Grids.{state};

use crate::grid::Grid;
use crate::passed::Passed;
use boxes::laws_stand;
use buckets::bucket_laws_stand;
use kinds::Kind;
use promise::Refusal;
use stores::PageStore;

impl<K: Kind> Grid<K> {
    // Writes the records that have each key between its lowest and its highest value side by side from the buffer's start on, and answers how many they are.
    // A refusal leaves the buffer.
    pub fn list<S: PageStore>(
        &self,
        store: &mut S,
        lowest: &[u32],
        highest: &[u32],
        buffer: &mut [u8],
    ) -> Result<usize, Refusal>
        ensures { Lists (K.Kind.meaning self.now.kind) lowest.now highest.now (state (S.PageStore.pages store.old) self.now) buffer.old result buffer.new (state (S.PageStore.pages store.new) self.now) }
    {
        let _ = laws_stand();
        let _ = bucket_laws_stand();
        let walk = self.walk_over(store, lowest, highest)?;
        let counted = walk.pass_directories(store, &mut [], Passed::NOTHING)?;
        let needed = self.kind.size().saturating_mul(counted.number);
        if buffer.len() < needed {
            return Err(Refusal::ShortBuffer(needed));
        }
        // Over pages that stand for a set this walk is not refused; over others its refusal could not leave the buffer as it was.
        let _ = walk.pass_directories(store, buffer, Passed::NOTHING);
        Ok(counted.number)
    }
}
