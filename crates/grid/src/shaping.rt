// A new grid, the memory of a made one, and its shape.
ghost use Rattle.std.specs.Prelude.{◌≡◌, ℕ, List, length, ◌↔◌, IsTrue, None};
ghost use Rattle.std.specs.Result.{result_map_both};
ghost use Rattle.boxes.specs.Spaces.{widths_of};
ghost use Rattle.promise.specs.Calls.{Shapes};
ghost use Rattle.grid.specs.Grids.{state, MemoryOf};

use crate::grid::Grid;
use boxes::Space;
use kinds::Kind;
use promise::{Memory, Refusal, Shape};
use stores::PageStore;

// Do the two spaces have keys of the same widths? A derived equality would see what stands behind them.
fn have_same_widths(one: &Space, other: &Space) -> bool
    ensures { IsTrue result ↔ (widths_of one.now ≡ widths_of other.now) }
{
    one.widths[0..one.keys] == other.widths[0..other.keys]
}

impl<K: Kind> Grid<K> {
    // A grid of the kind that is not made yet.
    pub fn new(kind: K) -> Grid<K>
        ensures kind { result.kind ≡ kind }
        ensures unmade { result.made ≡ None }
    {
        Grid { kind, made: None }
    }

    // The memory of the grid; refused if it is not made for its kind and over so many pages.
    pub(crate) fn memory_over(&self, pages: usize) -> Result<&Memory, Refusal>
        ensures { (ps : List (List ℕ)) → length ps ≡ pages → MemoryOf (K.Kind.meaning self.now.kind) (state ps self.now) (result_map_both (λ x. x.now) (λ e. e) result) }
    {
        let memory = self.made.as_ref().ok_or(Refusal::WrongStore)?;
        if memory.pages != pages || !have_same_widths(&memory.space, &self.kind.space()) {
            return Err(Refusal::WrongStore);
        }
        Ok(memory)
    }

    // The pages in use, the directory boxes and the leaf boxes.
    pub fn shape<S: PageStore>(&self, store: &S) -> Result<Shape, Refusal>
        ensures { Shapes (K.Kind.meaning self.now.kind) (state (S.PageStore.pages store.now) self.now) result (state (S.PageStore.pages store.now) self.now) }
    {
        let memory = self.memory_over(store.count())?;
        Ok(Shape {
            pages: 8 + memory.directories + memory.leaves,
            directories: memory.directories,
            leaves: memory.leaves,
        })
    }
}
