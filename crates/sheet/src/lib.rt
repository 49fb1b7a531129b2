// So many readings, so many pages: the figures of a set of points that a text writes.
#![tactic(auto)]

ghost use Rattle.std.specs.Prelude.{◌≡◌, ℕ, ◌≤◌, List, map, length, IfOk, string_bytes};
ghost use Rattle.boxes.specs.Figures.{figures, Points, Reordered};
ghost use Rattle.boxes.specs.KeyLists.{keys_of};
ghost use Rattle.boxes.specs.Spaces.{widths_of};
ghost use Rattle.sheet.specs.Answers.{Answered};

use boxes::{Figures, Keys, NotMeasured, measure};
use numbers::until;
use std::alloc::{AllocError, Global};

mod first_line;
mod judging;
mod printing;
mod rows;
mod verdict;

use first_line::{Header, read_header};
use judging::judge_rows;
use printing::{figures_text, headless_text, points_of, rows_text};

// What the program prints for a text: the lines turned away, and the figures of the points that are left. No other text would be an answer.
pub fn answer(heap: Global, text: &[u8]) -> Result<String, AllocError>
    ensures answered { IfOk result (λ t. Answered text.now (string_bytes t)) }
    ensures only { IfOk result (λ t. (out : List ℕ) → Answered text.now out → out ≡ string_bytes t) }
{
    let end = until(text, 0, b'\n');
    let Some(header) = read_header(&text[..end]) else {
        return headless_text(heap);
    };
    let verdicts = judge_rows(heap, &header.space, text, end + 1)?;
    let mut out = rows_text(heap, verdicts.as_slice())?;
    let mut points = points_of(heap, verdicts.as_slice())?;
    let count = points.len();
    let figures = figures_of(heap, &header, points.as_mut_slice())?;
    let last = figures_text(heap, count, &figures)?;
    out.push_str(last.as_str())?;
    Ok(out)
}

// The figures of points of the space.
// That they are points stands at each of the three functions, and in no struct: it ties the header to the points of this one call, which come back in another order.
fn figures_of(heap: Global, header: &Header, points: &mut [Keys]) -> Result<Figures, AllocError>
    requires { Points header.now.space points.old }
    ensures { IfOk result (λ f. f ≡ figures (widths_of header.now.space) header.now.capacity (map keys_of points.old)) }
{
    let places = places_needed(header, points);
    let mut room = vec![in heap; 0u32; places]?;
    Ok(figures_in(header, points, room.as_mut_slice()))
}

// How many directory boxes the points need: measured without a room, since only measuring tells its size.
fn places_needed(header: &Header, points: &mut [Keys]) -> usize
    requires { Points header.now.space points.old }
    ensures number { result ≡ (figures (widths_of header.now.space) header.now.capacity (map keys_of points.old)).directory_boxes }
    ensures same { Reordered header.now.space header.now.capacity points.old points.new }
{
    match measure(&header.space, header.capacity, points, &mut []) {
        Ok(figures) => figures.directory_boxes,
        Err(NotMeasured::ShortRoom(places)) => places,
        Err(NotMeasured::NotPoints) => unreachable(),
    }
}

// The figures, measured again in a room for all the directory boxes.
fn figures_in(header: &Header, points: &mut [Keys], room: &mut [u32]) -> Figures
    requires points { Points header.now.space points.old }
    requires directory_boxes_in_bounds { (figures (widths_of header.now.space) header.now.capacity (map keys_of points.old)).directory_boxes ≤ length room.old }
    ensures { result ≡ figures (widths_of header.now.space) header.now.capacity (map keys_of points.old) }
{
    measure(&header.space, header.capacity, points, room).unwrap()
}
