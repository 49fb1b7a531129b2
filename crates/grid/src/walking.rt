// The records in a range, box by box: counted, and written where there is room for them.
ghost use Rattle.std.specs.Prelude.{◌≡◌, ℕ, ◌+◌, ◌<◌, ◌≤◌, List, [], length, Some, Ok, IfSome, IfOk, IfErr, MatchOption, slice_index_or};
ghost use Rattle.boxes.specs.Cuts.{Path};
ghost use Rattle.boxes.specs.GridBoxes.{box_of};
ghost use Rattle.boxes.specs.KeyRanges.{lowest_of, highest_of};
ghost use Rattle.images.specs.Memory.{image_of};
ghost use Rattle.promise.specs.State.{BucketBytes};
ghost use Rattle.grid.specs.Grids.{state};
ghost use Rattle.grid.specs.Walks.{wanted, OfKind, Under, Written, PassedBucket, Passes, PassesUnder, Begun, NotBegun};

use crate::grid::Grid;
use crate::loading::{load_bucket, open_directory};
use crate::locating::directory_site;
use crate::opened::Opened;
use crate::passed::Passed;
use crate::site::Site;
use crate::walk::Walk;
use boxes::{GridBox, KeyRange, laws_stand};
use buckets::{bucket_laws_stand, record_at, record_count};
use kinds::Kind;
use promise::Refusal;
use stores::PageStore;

// Writes the bytes into the buffer from `start` on, and answers where they end; nothing where there is no room for them.
fn put(buffer: &mut [u8], start: usize, bytes: &[u8]) -> Option<usize>
    ensures written { MatchOption result (length buffer.old < start + length bytes.now) (λ end. Written start bytes.now end buffer.old buffer.new) }
    ensures within { IfSome result (λ end. end ≤ length buffer.new) }
{
    let end = start.saturating_add(bytes.len());
    if end > buffer.len() {
        return None;
    }
    buffer[start..end].copy_from_slice(bytes);
    Some(end)
}

impl<'a, K: Kind> Walk<'a, K> {
    // The same walk at another box of the space.
    fn at(&self, inner: GridBox<'a>) -> Walk<'a, K>
        requires { inner.space.now ≡ self.now.memory.now.space }
        ensures kind { result.kind ≡ self.now.kind }
        ensures memory { result.memory ≡ self.now.memory }
        ensures range { result.range ≡ self.now.range }
        ensures inner { result.inner ≡ inner.entry }
    {
        Walk {
            kind: self.kind,
            memory: self.memory,
            range: self.range,
            inner,
        }
    }

    // Does the record lie in the box and in the range?
    fn wants(&self, bytes: &[u8]) -> bool
        ensures { (ks : List ℕ) → (K.Kind.meaning self.now.kind.now).read bytes.now ≡ Some ks → result ≡ wanted (K.Kind.meaning self.now.kind.now) (lowest_of self.now.range) (highest_of self.now.range) (box_of self.now.inner) bytes.now }
    {
        // By `match`: in a closure of `is_some_and` the search finds no proof.
        match self.kind.keys(bytes) {
            Some(keys) => {
                self.inner.contains(keys.as_slice()) && self.range.contains(keys.as_slice())
            }
            None => false,
        }
    }

    // Passes the records of a bucket page that lie in the box and in the range.
    fn pass_records(&self, page: &[u8; 512], buffer: &mut [u8], so_far: Passed) -> Passed
        ensures passed { (b : Path) (rs : List (List ℕ)) → BucketBytes (K.Kind.meaning self.now.kind.now) b rs page.now → PassedBucket (wanted (K.Kind.meaning self.now.kind.now) (lowest_of self.now.range) (highest_of self.now.range) (box_of self.now.inner)) rs so_far buffer.old result buffer.new }
        ensures within { so_far.end ≤ length buffer.old → result.end ≤ length buffer.new }
    {
        let _ = bucket_laws_stand();
        let mut number = so_far.number;
        let mut end = so_far.end;
        // By place, since that is what a bucket page knows its records by.
        for place in 0..record_count(self.kind, page) {
            let record = record_at(self.kind, page, place).unwrap();
            if self.wants(record) {
                number = number.saturating_add(1);
                end = put(buffer, end, record).unwrap_or(end);
            }
        }
        Passed { number, end }
    }

    // Passes the records of a leaf's bucket page that lie in the box and in the range.
    fn pass_bucket<S: PageStore>(
        &self,
        store: &mut S,
        leaf: &Site,
        buffer: &mut [u8],
        so_far: Passed,
    ) -> Result<Passed, Refusal>
        requires leaf { OfKind (K.Kind.meaning self.now.kind.now) leaf.now.inner.space.now }
        requires stored { leaf.now.page < length (S.PageStore.pages store.old) }
        ensures kept { S.PageStore.pages store.new ≡ S.PageStore.pages store.old }
        ensures passed { (rs : List (List ℕ)) → BucketBytes (K.Kind.meaning self.now.kind.now) (box_of leaf.now.inner) rs (slice_index_or (S.PageStore.pages store.old) leaf.now.page []) → (p : Passed) × (result ≡ Ok p) × PassedBucket (wanted (K.Kind.meaning self.now.kind.now) (lowest_of self.now.range) (highest_of self.now.range) (box_of self.now.inner)) rs so_far buffer.old p buffer.new }
        ensures within { so_far.end ≤ length buffer.old → IfOk result (λ p. p.end ≤ length buffer.new) }
    {
        let mut page = [0; 512];
        load_bucket(self.kind, store, leaf, &mut page)?;
        Ok(self.pass_records(&page, buffer, so_far))
    }

    // Passes the records that lie in the box and in the range, by the image of a directory box around the box.
    fn pass_leaves<S: PageStore>(
        &self,
        store: &mut S,
        directory: &Opened,
        buffer: &mut [u8],
        so_far: Passed,
    ) -> Result<Passed, Refusal>
        requires { Under (length (S.PageStore.pages store.old)) directory.now self.now.inner }
        ensures kept { S.PageStore.pages store.new ≡ S.PageStore.pages store.old }
        ensures passed { PassesUnder (K.Kind.meaning self.now.kind.now) (S.PageStore.pages store.old) (lowest_of self.now.range) (highest_of self.now.range) (box_of directory.now.inner) (image_of directory.now.image) (box_of self.now.inner) so_far buffer.old result buffer.new }
        ensures within { so_far.end ≤ length buffer.old → IfOk result (λ p. p.end ≤ length buffer.new) }
    {
        if !self.range.meets(&self.inner) {
            return Ok(so_far);
        }
        let leaf = directory.leaf_at(&self.inner.low[..self.inner.space.keys]);
        if leaf.inner.level <= self.inner.level {
            return self.pass_bucket(store, &leaf, buffer, so_far);
        }
        let (lower, upper) = self.inner.halves().unwrap();
        let middle = self
            .at(lower)
            .pass_leaves(store, directory, buffer, so_far)?;
        self.at(upper).pass_leaves(store, directory, buffer, middle)
    }

    // Passes the records that lie in the box and in the range, by the root image in memory.
    // The walk below a directory box is a function of its own: there the boxes come from a page that has been read.
    pub(crate) fn pass_directories<S: PageStore>(
        &self,
        store: &mut S,
        buffer: &mut [u8],
        so_far: Passed,
    ) -> Result<Passed, Refusal>
        requires { self.now.memory.now.pages ≡ length (S.PageStore.pages store.old) }
        ensures kept { S.PageStore.pages store.new ≡ S.PageStore.pages store.old }
        ensures passed { Passes (K.Kind.meaning self.now.kind.now) (S.PageStore.pages store.old) self.now.memory.now (lowest_of self.now.range) (highest_of self.now.range) (box_of self.now.inner) so_far buffer.old result buffer.new }
        ensures within { so_far.end ≤ length buffer.old → IfOk result (λ p. p.end ≤ length buffer.new) }
    {
        let _ = laws_stand();
        let _ = bucket_laws_stand();
        if !self.range.meets(&self.inner) {
            return Ok(so_far);
        }
        let low = &self.inner.low[..self.inner.space.keys];
        let directory = directory_site(self.memory, low).unwrap();
        if directory.inner.level <= self.inner.level {
            let opened = open_directory(store, self.memory.pages, &directory)?;
            return self.pass_leaves(store, &opened, buffer, so_far);
        }
        let (lower, upper) = self.inner.halves().unwrap();
        let middle = self.at(lower).pass_directories(store, buffer, so_far)?;
        self.at(upper).pass_directories(store, buffer, middle)
    }
}

impl<K: Kind> Grid<K> {
    // The walk over the whole space for a range; refused if the grid is not made, or the two lists are no range.
    pub(crate) fn walk_over<S: PageStore>(
        &self,
        store: &S,
        lowest: &[u32],
        highest: &[u32],
    ) -> Result<Walk<'_, K>, Refusal>
        ensures begun { IfOk result (λ w. (w.kind.now ≡ self.now.kind) × Begun (K.Kind.meaning self.now.kind) (state (S.PageStore.pages store.now) self.now) lowest.now highest.now w.memory.now w.range w.inner) }
        ensures refused { IfErr result (λ e. NotBegun (K.Kind.meaning self.now.kind) (state (S.PageStore.pages store.now) self.now) lowest.now highest.now e) }
    {
        let memory = self.memory_over(store.count())?;
        let range = KeyRange::new(&memory.space, lowest, highest).ok_or(Refusal::BadKeys)?;
        Ok(Walk {
            kind: &self.kind,
            memory,
            range,
            inner: GridBox::whole(&memory.space),
        })
    }
}
