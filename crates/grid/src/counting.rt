// Count.
ghost use Rattle.promise.specs.Calls.{Counts};
ghost use Rattle.grid.specs.Grids.{state};

use crate::grid::Grid;
use crate::passed::Passed;
use boxes::laws_stand;
use buckets::bucket_laws_stand;
use kinds::Kind;
use promise::Refusal;
use stores::PageStore;

impl<K: Kind> Grid<K> {
    // How many records have each key between its lowest and its highest value, both ends inside.
    pub fn count<S: PageStore>(
        &self,
        store: &mut S,
        lowest: &[u32],
        highest: &[u32],
    ) -> Result<usize, Refusal>
        ensures { Counts (K.Kind.meaning self.now.kind) lowest.now highest.now (state (S.PageStore.pages store.old) self.now) result (state (S.PageStore.pages store.new) self.now) }
    {
        let _ = laws_stand();
        let _ = bucket_laws_stand();
        let walk = self.walk_over(store, lowest, highest)?;
        let passed = walk.pass_directories(store, &mut [], Passed::NOTHING)?;
        Ok(passed.number)
    }
}
