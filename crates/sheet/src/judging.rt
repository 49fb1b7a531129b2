// Which rows are kept: of those that write the same point, the first.
ghost use Rattle.std.specs.Prelude.{◌≡◌, length, drop, IfOk};
ghost use Rattle.boxes.specs.KeyLists.{keys_of};
ghost use Rattle.boxes.specs.Spaces.{widths_of};
ghost use Rattle.sheet.specs.Lines.{lines};
ghost use Rattle.sheet.specs.Readings.{four, readings_of, Marked, InRows};
ghost use Rattle.sheet.specs.Rows.{Judged};

use crate::rows::read_rows;
use crate::verdict::Verdict;
use boxes::{Keys, Space, padded};
use std::alloc::{AllocError, Global};

// The keys of a point, with zeros behind them, and the row that writes it. The order is that of the keys, then of the rows.
type Reading = ([u32; 4], usize);

// A verdict for each row from the place `from` of the text on.
pub(crate) fn judge_rows(
    heap: Global,
    space: &Space,
    text: &[u8],
    from: usize,
) -> Result<Vec<Verdict>, AllocError>
    ensures { IfOk result (λ v. Judged (widths_of space.now) (lines (drop from text.now)) v.items) }
{
    let mut verdicts = read_rows(heap, space, text, from)?;
    let mut readings = readings_of(heap, verdicts.as_slice())?;
    readings.sort_unstable();
    mark_repeats(readings.as_slice(), verdicts.as_mut_slice());
    Ok(verdicts)
}

// A reading for each row with a point, in the order of rows.
fn readings_of(heap: Global, verdicts: &[Verdict]) -> Result<Vec<Reading>, AllocError>
    ensures { IfOk result (λ v. v.items ≡ readings_of 0 verdicts.now) }
{
    let mut readings = Vec::new(heap);
    for (row, verdict) in verdicts.iter().enumerate() {
        if let Verdict::Kept(point) = verdict {
            readings.push((four_keys(point), row))?;
        }
    }
    Ok(readings)
}

// The keys of a point, with zeros behind them.
fn four_keys(point: &Keys) -> [u32; 4]
    ensures { result ≡ four (keys_of point.now) }
{
    padded(point.as_slice(), 0).unwrap()
}

// Of readings in order, each whose keys are those of the one before it is of a row that repeats a point.
fn mark_repeats(sorted: &[Reading], verdicts: &mut [Verdict])
    requires { InRows (length verdicts.old) sorted.now }
    ensures { Marked (length sorted.now) sorted.now verdicts.old verdicts.new }
{
    let Some((_, later)) = sorted.split_first() else {
        return;
    };
    for (before, reading) in sorted.iter().zip(later) {
        let (keys, row) = *reading;
        if before.0 == keys {
            verdicts[row] = Verdict::Repeated;
        }
    }
}
