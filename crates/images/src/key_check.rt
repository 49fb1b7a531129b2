// The check of an image in one key.
ghost use Rattle.std.specs.Prelude.{◌≡◌, ℕ, ◌+◌, ◌^◌, ◌<◌, ◌≤◌, ◌↔◌, false, [], length, if◌then◌else◌, IfNone, IfSome, IsTrue, nat_lt, slice_index_or};
ghost use Rattle.images.specs.Cells.{digit};
ghost use Rattle.images.specs.Checking.{HasKey, Inside, Begins, Used, Fits, KeyLawful};
ghost use Rattle.images.specs.Directory.{intervals};
ghost use Rattle.boxes.specs.Space.{span};
ghost use Rattle.boxes.specs.Spaces.{widths_of, order_of};
ghost use Rattle.images.specs.Memory.{scales_in, tile, tile_in};

use crate::fits::key_fits;
use crate::held_image::{HeldImage, Named};
use crate::spans::span_of;
use boxes::GridBox;

// An image, the box that it is of, and a key of both.
#[derive(Clone, Copy)]
pub(crate) struct KeyCheck<'a, const ENDS: usize, const CELLS: usize> {
    pub image: &'a HeldImage<ENDS, CELLS>,
    pub inner: &'a GridBox<'a>,
    pub key: usize,
    ghost same_keys: { image.now.keys ≡ inner.now.space.now.keys },
    ghost key_in: { key < image.now.keys },
}

impl<'a, const ENDS: usize, const CELLS: usize> KeyCheck<'a, ENDS, CELLS> {
    // None where the image and the box have other keys than each other, or not this one.
    pub(crate) fn new(
        image: &'a HeldImage<ENDS, CELLS>,
        inner: &'a GridBox<'a>,
        key: usize,
    ) -> Option<KeyCheck<'a, ENDS, CELLS>>
        ensures none { IfNone result (HasKey inner.now image.now key → ⊥) }
        ensures some { IfSome result (λ check. (check.image.now ≡ image.now) × (check.inner.now ≡ inner.now) × (check.key ≡ key)) }
    {
        // By `if`: the facts of the struct hold only where the test does.
        if image.keys == inner.space.keys && key < image.keys {
            Some(KeyCheck { image, inner, key })
        } else {
            None
        }
    }

    // Are the rules kept in the key?
    pub(crate) fn is_passed(&self) -> bool
        ensures { IsTrue result ↔ KeyLawful self.now.inner.now self.now.image.now self.now.key }
    {
        self.has_ends_inside() && self.uses_ends() && self.has_fitting_cells()
    }

    // Do the ends lie inside the box, above its own?
    fn has_ends_inside(&self) -> bool
        ensures { IsTrue result ↔ Inside self.now.inner.now self.now.image.now self.now.key }
    {
        let own = self.inner.low[self.key];
        // No closure over the check: see `has_fitting_cells`.
        let Some(top) = self.inner.end(self.key) else {
            return false;
        };
        self.scale()
            .iter()
            .all(|end| own < *end && (*end as u64) < top)
    }

    // Is each end the lower end of some cell's box?
    fn uses_ends(&self) -> bool
        ensures { IsTrue result ↔ ((j : ℕ) → j < length (slice_index_or (scales_in self.now.image.now) self.now.key []) → Used self.now.inner.now self.now.image.now self.now.key j) }
    {
        let used = self.used_ends();
        used.iter().take(self.scale().len()).all(|is_used| *is_used)
    }

    // Which ends are the lower end of some cell's box.
    fn used_ends(&self) -> [bool; ENDS]
        ensures long { length result ≡ ENDS }
        ensures told { (j : ℕ) → j < length (slice_index_or (scales_in self.now.image.now) self.now.key [])
            → (IsTrue (slice_index_or result j false) ↔ Used self.now.inner.now self.now.image.now self.now.key j) }
    {
        let mut used = [false; ENDS];
        // By index, since the cells' numbers count: one pass over the cells serves all ends, and an array holds what it finds, since nothing here allocates.
        for m in 0..self.image.cells_from(0) {
            let interval = self.digit(m);
            if interval > 0 && self.begins(interval - 1, m) {
                used[interval - 1] = true;
            }
        }
        used
    }

    // Does the cell begin at end j, and its box too?
    fn begins(&self, j: usize, m: usize) -> bool
        requires j_in { j < length (slice_index_or (scales_in self.now.image.now) self.now.key []) }
        requires m_in { m < intervals (scales_in self.now.image.now) }
        ensures { IsTrue result ↔ Begins self.now.inner.now self.now.image.now self.now.key j m }
    {
        let end = u64::from(self.scale()[j]);
        self.digit(m) == j + 1 && end % self.span(m) == 0
    }

    // Does each cell fit?
    fn has_fitting_cells(&self) -> bool
        ensures { IsTrue result ↔ ((m : ℕ) → m < intervals (scales_in self.now.image.now) → Fits self.now.inner.now self.now.image.now self.now.key m) }
    {
        // A loop: the checker does not cover a closure that captures a struct with both a lifetime and a constant.
        for m in 0..self.image.cells_from(0) {
            if !self.cell_fits(m) {
                return false;
            }
        }
        true
    }

    // Does the cell fit?
    fn cell_fits(&self, m: usize) -> bool
        requires { m < intervals (scales_in self.now.image.now) }
        ensures { IsTrue result ↔ Fits self.now.inner.now self.now.image.now self.now.key m }
    {
        // No closure over the check: see `has_fitting_cells`.
        let Some(top) = self.inner.end(self.key) else {
            return false;
        };
        let own = self.inner.low[self.key];
        let scale = self.scale();
        let j = self.digit(m);
        let next = next_cell(m, self.image.cells_from(self.key + 1), j, scale.len());
        let alike = are_alike(self.image.cells[next], self.image.cells[m]);
        key_fits(scale, own, top, j, self.span(m), self.span(next), alike)
    }

    // The lower ends.
    fn scale(&self) -> &[u32]
        ensures { result.now ≡ slice_index_or (scales_in self.now.image.now) self.now.key [] }
    {
        self.image.scale(self.key)
    }

    // The number of the cell's interval.
    fn digit(&self, m: usize) -> usize
        ensures { m < intervals (scales_in self.now.image.now) → result ≡ digit (scales_in self.now.image.now) self.now.key m }
    {
        m % self.image.cells_from(self.key) / self.image.cells_from(self.key + 1)
    }

    // The span of the box that a cell names.
    fn span(&self, m: usize) -> u64
        requires { m < CELLS }
        ensures span { result ≡ span (widths_of self.now.inner.now.space.now) (order_of self.now.inner.now.space.now) (tile_in self.now.image.now m).level self.now.key }
        ensures some { 0 < result }
        ensures most { result ≤ 2 ^ 32 }
    {
        let level = self.image.cells[m].level as usize;
        span_of(self.inner.space, level, self.key)
    }
}

// The upper neighbour of cell m, or m where there is none.
fn next_cell(m: usize, step: usize, j: usize, count: usize) -> usize
    requires { j < count → m + step < 2 ^ 64 }
    ensures { result ≡ (if nat_lt j count then m + step else m) }
{
    if j < count { m + step } else { m }
}

// Do the two cells name the same? It says of `==` that the tiles are the same, as `Fits` asks.
fn are_alike(one: Named, other: Named) -> bool
    ensures { IsTrue result ↔ (tile one ≡ tile other) }
{
    one == other
}
