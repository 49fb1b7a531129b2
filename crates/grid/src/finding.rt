// Find, and the record that it found.
ghost use Rattle.promise.specs.Calls.{Finds, HandsOut};
ghost use Rattle.promise.specs.Exact.{TwoPages};
ghost use Rattle.grid.specs.Grids.{state};

use crate::grid::Grid;
use crate::loading::{load_bucket, locate_leaf};
use buckets::{place_of, record_at};
use images::image_laws_stand;
use kinds::Kind;
use promise::{Refusal, find_has_one_answer};
use stores::PageStore;

impl<K: Kind> Grid<K> {
    // Fills the buffer with the bucket page of the point, and answers the place there of the record with these keys, or that there is none.
    // It goes by the two pages of the point as they stand; a refusal leaves the buffer.
    pub fn find<S: PageStore>(
        &self,
        store: &mut S,
        keys: &[u32],
        buffer: &mut [u8; 512],
    ) -> Result<Option<usize>, Refusal>
        ensures finds { Finds (K.Kind.meaning self.now.kind) keys.now (state (S.PageStore.pages store.old) self.now) buffer.old result buffer.new (state (S.PageStore.pages store.new) self.now) }
        ensures alike { TwoPages }
    {
        let _ = image_laws_stand();
        let _ = find_has_one_answer();
        let memory = self.memory_over(store.count())?;
        let leaf = locate_leaf(memory, store, keys)?;
        let mut page = [0; 512];
        load_bucket(&self.kind, store, &leaf, &mut page)?;
        *buffer = page;
        Ok(place_of(&self.kind, &page, keys))
    }
}

// The record at a place of a page buffer that find has filled, as a part of the buffer.
pub fn hand_out<'a, K: Kind>(
    kind: &K,
    buffer: &'a [u8; 512],
    place: usize,
) -> Result<&'a [u8], Refusal>
    ensures { HandsOut (λ x. x.now) (K.Kind.meaning kind.now) buffer.now place result }
{
    record_at(kind, buffer, place).ok_or(Refusal::BadKeys)
}
