// The first line: the bucket capacity, and the widths of the keys.
ghost use Rattle.sheet.specs.Rows.{HeaderRead, WidthsRead};

use boxes::Space;
use numbers::{Row, numbers};

#[derive(Clone, Copy)]
pub struct Header {
    pub space: Space,
    pub capacity: usize,
}

// The capacity, from 1 to 169, and the space; none for a line of another form, or widths that are not allowed.
pub(crate) fn read_header(line: &[u8]) -> Option<Header>
    ensures { HeaderRead line.now result }
{
    let row = numbers(line)?;
    if row.count < 2 || row.count > 5 || row.first[0] == 0 || row.first[0] > 169 {
        return None;
    }
    let widths = widths_of(&row)?;
    let space = Space::new(&widths[..row.count - 1])?;
    Some(Header {
        space,
        capacity: row.first[0] as usize,
    })
}

// The four numbers behind the first; none if one of them is no byte.
fn widths_of(row: &Row) -> Option<[u8; 4]>
    ensures { WidthsRead row.now.first result }
{
    let [_, first, second, third, fourth, ..] = row.first;
    Some([
        u8::try_from(first).ok()?,
        u8::try_from(second).ok()?,
        u8::try_from(third).ok()?,
        u8::try_from(fourth).ok()?,
    ])
}
