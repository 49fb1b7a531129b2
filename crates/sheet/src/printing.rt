// What is printed of the verdicts and of the figures.
// In functions and no `Display`: `Figures` is a type of another crate, a row's text has the line's number too, and the text for a bad first line is of no value.
ghost use Rattle.std.specs.Prelude.{◌≡◌, ◌+◌, ◌^◌, ◌<◌, length, IfOk, string_bytes};
ghost use Rattle.sheet.specs.Printed.{headless_text, away_line, row_text, rows_text, boxes_text, fits_text, root_text, figures_text, points_of};

use crate::verdict::Verdict;
use boxes::{Figures, Keys};
use std::alloc::{AllocError, Global};

// For a first line that writes no capacity and widths.
pub(crate) fn headless_text(heap: Global) -> Result<String, AllocError>
    ensures { IfOk result (λ t. string_bytes t ≡ headless_text) }
{
    String::from_str(heap, "line 1: ?\n")
}

// The lines for the rows turned away, of which the first is line 2 of the text.
pub(crate) fn rows_text(heap: Global, verdicts: &[Verdict]) -> Result<String, AllocError>
    requires { length verdicts.now + 1 < 2 ^ 64 }
    ensures { IfOk result (λ t. string_bytes t ≡ rows_text 2 verdicts.now) }
{
    let mut out = String::new(heap);
    for (row, verdict) in verdicts.iter().enumerate() {
        let text = row_text(heap, row + 2, verdict)?;
        out.push_str(text.as_str())?;
    }
    Ok(out)
}

// Nothing for a row that is kept. The numbers are those by which the refusals go in what is printed.
fn row_text(heap: Global, line: usize, verdict: &Verdict) -> Result<String, AllocError>
    ensures { IfOk result (λ t. string_bytes t ≡ row_text line verdict.now) }
{
    match verdict {
        Verdict::Kept(_) => Ok(String::new(heap)),
        Verdict::NoPoint => away_line(heap, line, 4),
        Verdict::Repeated => away_line(heap, line, 6),
    }
}

fn away_line(heap: Global, line: usize, number: u8) -> Result<String, AllocError>
    ensures { IfOk result (λ t. string_bytes t ≡ away_line line number) }
{
    format!(in heap; "line {line}: r{number}\n")
}

// The points of the rows that are kept.
pub(crate) fn points_of(heap: Global, verdicts: &[Verdict]) -> Result<Vec<Keys>, AllocError>
    ensures { IfOk result (λ v. v.items ≡ points_of verdicts.now) }
{
    verdicts
        .iter()
        .filter_map(|verdict| verdict.point())
        .collect(heap)
}

// The figures of so many readings.
pub(crate) fn figures_text(
    heap: Global,
    readings: usize,
    figures: &Figures,
) -> Result<String, AllocError>
    ensures { IfOk result (λ t. string_bytes t ≡ figures_text readings figures.now) }
{
    let mut out = boxes_text(heap, readings, figures)?;
    let root = root_text(heap, figures)?;
    out.push_str(root.as_str())?;
    Ok(out)
}

fn boxes_text(heap: Global, readings: usize, figures: &Figures) -> Result<String, AllocError>
    ensures { IfOk result (λ t. string_bytes t ≡ boxes_text readings figures.now) }
{
    let leaves = figures.leaf_boxes;
    let directories = figures.directory_boxes;
    let pages = figures.pages;
    format!(in heap;
        "readings {readings}\nleaf boxes {leaves}\ndirectory boxes {directories}\npages {pages}\n"
    )
}

fn root_text(heap: Global, figures: &Figures) -> Result<String, AllocError>
    ensures { IfOk result (λ t. string_bytes t ≡ root_text figures.now) }
{
    let boundaries = figures.root_boundaries;
    let cells = figures.root_cells;
    let fits = fits_text(figures.root_fits);
    format!(in heap; "root boundaries {boundaries}\nroot cells {cells}\n{fits}\n")
}

fn fits_text(fits: bool) -> &'static str
    ensures { result.now ≡ fits_text fits }
{
    if fits {
        "root fits"
    } else {
        "root does not fit"
    }
}
