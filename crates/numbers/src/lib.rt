// Lines of whole numbers, as the programs read them: decimal, without leading zeros, single spaces between them.
#![tactic(auto)]

ghost use Rattle.std.specs.Prelude.{◌≡◌, ◌<◌, ◌≤◌, ◌↔◌, length, IsTrue, slice_index};
ghost use Rattle.numbers.specs.Numbers.{DigitsRead, WholeRead, WholeUpTo, RowRead, RowReadAt};
ghost use Rattle.numbers.specs.Words.{FirstAt};

// The numbers of a line: how many there are, and the first eight of them. A library here takes no heap, so the list is an array with its count.
#[derive(Clone, Copy)]
pub struct Row {
    pub count: usize,
    pub first: [u32; 8],
}

// The number that the text writes; none if the text is no whole number, or one of 2^32 or more.
pub fn whole(text: &[u8]) -> Option<u32>
    ensures { WholeRead text.now result }
{
    whole_up_to(text, 4_294_967_295)
}

// The same of a number that is not above the greatest.
fn whole_up_to(text: &[u8], greatest: u32) -> Option<u32>
    ensures { WholeUpTo greatest text.now result }
{
    if text.len() == 0 || text.len() > 10 || has_leading_zero(text) {
        return None;
    }
    let number = digits(text)?;
    if number > greatest as u64 {
        return None;
    }
    Some(number as u32)
}

// Does a zero stand before another byte?
fn has_leading_zero(text: &[u8]) -> bool
    ensures { IsTrue result ↔ ((1 < length text.now) × (slice_index text.now 0 ≡ 48)) }
{
    matches!(text, [b'0', _, ..])
}

// The value of at most ten digits; none if one of the bytes is no digit. The library's `parse` would take a sign and leading zeros.
fn digits(text: &[u8]) -> Option<u64>
    requires { length text.now ≤ 10 }
    ensures { DigitsRead text.now result }
{
    let mut number: u64 = 0;
    for byte in text {
        if !byte.is_ascii_digit() {
            return None;
        }
        number = 10 * number + (*byte - b'0') as u64;
    }
    Some(number)
}

// The first place from `from` on at which the mark stands, or the length where there is none: a part of the text ends there either way.
pub fn until(text: &[u8], from: usize, mark: u8) -> usize
    ensures { FirstAt text.now from mark result }
{
    match text.iter().skip(from).position(|byte| *byte == mark) {
        Some(i) => from + i,
        None => text.len(),
    }
}

// The numbers of a line, with single spaces between them; none if some word of the line is no number.
pub fn numbers(line: &[u8]) -> Option<Row>
    ensures { RowRead line.now result }
{
    row_of(line, b' ')
}

// The same with another mark between them.
fn row_of(line: &[u8], mark: u8) -> Option<Row>
    ensures { RowReadAt mark line.now result }
{
    let mut count: usize = 0;
    let mut first = [0; 8];
    for word in line.split(|byte| *byte == mark) {
        let number = whole(word)?;
        // The count goes on past the eight that are kept.
        if count < 8 {
            first[count] = number;
        }
        count += 1;
    }
    Some(Row { count, first })
}
