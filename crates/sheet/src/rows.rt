// The points that the rows write.
ghost use Rattle.std.specs.Prelude.{drop, IfOk};
ghost use Rattle.sheet.specs.Lines.{lines};
ghost use Rattle.sheet.specs.Rows.{PointRead, RowRead, RowsRead};

use crate::verdict::Verdict;
use boxes::{Keys, Space};
use numbers::{numbers, until};
use std::alloc::{AllocError, Global};

// For each row from the place `from` of the text on, its point or none.
pub(crate) fn read_rows(
    heap: Global,
    space: &Space,
    text: &[u8],
    from: usize,
) -> Result<Vec<Verdict>, AllocError>
    ensures { IfOk result (λ v. RowsRead space.now (lines (drop from text.now)) v.items) }
{
    let mut verdicts = Vec::new(heap);
    let mut start = from;
    // By index: a part that `split` gives may be of nothing behind a last line feed, and one of `split_inclusive` keeps its line feed, to be taken off by a test of its own.
    while start < text.len() {
        let end = until(text, start, b'\n');
        verdicts.push(read_row(space, &text[start..end]))?;
        start = end + 1;
    }
    Ok(verdicts)
}

// The point that the row writes, or none.
fn read_row(space: &Space, row: &[u8]) -> Verdict
    ensures { RowRead space.now row.now result }
{
    match read_point(space, row) {
        Some(point) => Verdict::Kept(point),
        None => Verdict::NoPoint,
    }
}

// The point whose keys the row writes.
fn read_point(space: &Space, row: &[u8]) -> Option<Keys>
    ensures { PointRead space.now row.now result }
{
    let numbers = numbers(row)?;
    if numbers.count > 4 {
        return None;
    }
    space.point(&numbers.first[..numbers.count])
}
