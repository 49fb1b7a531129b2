// A page with the box that it is to be of.
ghost use Rattle.std.specs.Prelude.{◌<◌, IfSome};

use boxes::{GridBox, Keys};
use buckets::is_bucket;
use image_bytes::read_directory;
use kinds::{Daylight, Insulation, Kind, TrialT, TrialU, TrialX};
use numbers::whole;

#[derive(Clone, Copy)]
enum RecordKind {
    Daylight,
    Insulation,
    TrialT,
    TrialU,
    TrialX,
}

#[derive(Clone, Copy)]
enum Sort {
    Directory,
    Bucket,
}

#[derive(Clone, Copy)]
pub(crate) struct PageCase {
    kind: RecordKind,
    sort: Sort,
    pages: usize,
    level: usize,
    low: Keys,
    page: [u8; 512],
}

fn kind_of(text: &[u8]) -> Option<RecordKind> {
    match text {
        [b'D'] => Some(RecordKind::Daylight),
        [b'I'] => Some(RecordKind::Insulation),
        [b'T'] => Some(RecordKind::TrialT),
        [b'U'] => Some(RecordKind::TrialU),
        [b'X'] => Some(RecordKind::TrialX),
        _ => None,
    }
}

// What is one byte and not `d` names a bucket page.
fn sort_of(text: &[u8]) -> Option<Sort> {
    match text {
        [b'd'] => Some(Sort::Directory),
        [_] => Some(Sort::Bucket),
        _ => None,
    }
}

// At most four numbers with commas between them. How many there are follows from the places left free.
fn lower_ends(text: &[u8]) -> Option<Keys> {
    let mut values = [0; 4];
    let mut free = values.iter_mut();
    for number in text.split(|byte| *byte == b',') {
        *free.next()? = whole(number)?;
    }
    let left = free.len();
    let used = values.len().checked_sub(left)?;
    Keys::new(values.get(..used)?)
}

// The value of a hexadecimal digit in lower case. By hand, since `from_str_radix` takes upper case and signs too.
fn hex_digit(byte: u8) -> Option<u8>
    ensures { IfSome result (λ d. d < 16) }
{
    match byte {
        b'0'..=b'9' => Some(byte - b'0'),
        b'a'..=b'f' => Some(byte - b'a' + 10),
        _ => None,
    }
}

// The page that begins with these bytes, and is zero behind them.
fn page_of(hex: &[u8]) -> Option<[u8; 512]> {
    let mut page = [0; 512];
    if hex == b"-".as_slice() {
        return Some(page);
    }
    if hex.len() % 2 != 0 || hex.len() > 1024 {
        return None;
    }
    for (byte, digits) in page.iter_mut().zip(hex.chunks_exact(2)) {
        *byte = byte_of(digits)?;
    }
    Some(page)
}

// The byte that two hexadecimal digits write.
fn byte_of(digits: &[u8]) -> Option<u8> {
    match digits {
        [high, low] => Some(hex_digit(*high)? * 16 + hex_digit(*low)?),
        _ => None,
    }
}

impl PageCase {
    pub(crate) fn read(line: &[u8]) -> Option<PageCase> {
        let mut words = line.split(|byte| *byte == b' ');
        Some(PageCase {
            kind: kind_of(words.next()?)?,
            sort: sort_of(words.next()?)?,
            pages: whole(words.next()?)? as usize,
            level: whole(words.next()?)? as usize,
            low: lower_ends(words.next()?)?,
            page: page_of(words.next()?)?,
        })
    }

    pub(crate) fn verdict(&self) -> &'static str {
        match self.kind {
            RecordKind::Daylight => self.verdict_of(&Daylight::new()),
            RecordKind::Insulation => self.verdict_of(&Insulation::new()),
            RecordKind::TrialT => self.verdict_of(&TrialT::new()),
            RecordKind::TrialU => self.verdict_of(&TrialU::new()),
            RecordKind::TrialX => self.verdict_of(&TrialX::new()),
        }
    }

    fn verdict_of<K: Kind>(&self, kind: &K) -> &'static str {
        let space = kind.space();
        let Some(inner) = GridBox::around(&space, self.level, self.low.as_slice()) else {
            return "?";
        };
        let lawful = match self.sort {
            Sort::Directory => read_directory(&inner, self.pages, &self.page).is_some(),
            Sort::Bucket => is_bucket(kind, &inner, &self.page),
        };
        if lawful { "lawful" } else { "broken" }
    }
}
