// Bucket pages: is a page one of a box, and its records as parts of it.
// A kind and a page stay two parameters: of a struct of the two, each public function would be the twin of a method.
ghost use Rattle.std.specs.Prelude.{◌≡◌, ◌<◌, ◌≤◌, ◌↔◌, IsNone, IsTrue, MatchOption};
ghost use Rattle.std.specs.Option.{option_map};
ghost use Rattle.boxes.specs.GridBoxes.{box_of};
ghost use Rattle.boxes.specs.KeyLists.{keys_of};
ghost use Rattle.buckets.specs.Bucket.{Held, IsBucket, record_at};
ghost use Rattle.buckets.specs.BucketRules.{Header, RecordsValid, FirstRight, BucketRules, ZeroFrom, count_of};

use crate::bucket_writes::place_of;
use boxes::{GridBox, Keys};
use kinds::Kind;

fn has_header<K: Kind>(kind: &K, level: usize, page: &[u8; 512]) -> bool
    ensures { IsTrue result ↔ Header (K.Kind.meaning kind.now) level page.now }
{
    page[0] == 0x42
        && page[1] == 0x4B
        && page[2] as usize <= kind.capacity()
        && page[3] as usize == level
}

// image_bytes has an `is_zero` of its own: neither crate stands on the other.
fn is_zero_from(page: &[u8; 512], start: usize) -> bool
    ensures { IsTrue result ↔ ZeroFrom start page.now }
{
    // A fold and no `all`: most of a page is zero, and without a way out of the loop many bytes are looked at together.
    page[start.min(512)..]
        .iter()
        .fold(0, |any, byte| any | *byte)
        == 0
}

// The bytes of a record of the page.
fn record<'a, K: Kind>(kind: &K, page: &'a [u8; 512], place: usize) -> &'a [u8]
    requires { place < (K.Kind.meaning kind.now).capacity }
    ensures { result.now ≡ record_at (K.Kind.meaning kind.now) page.now place }
{
    let size = kind.size();
    let start = 4 + place * size;
    &page[start..start + size]
}

// The record at a place, as a part of the page; a bucket has no more places than its kind says.
pub fn record_at<'a, K: Kind>(kind: &K, page: &'a [u8; 512], place: usize) -> Option<&'a [u8]>
    ensures { MatchOption result ((K.Kind.meaning kind.now).capacity ≤ place) (λ s. (place < (K.Kind.meaning kind.now).capacity) × (s.now ≡ record_at (K.Kind.meaning kind.now) page.now place)) }
{
    (place < kind.capacity()).then(|| record(kind, page, place))
}

// The keys of the record at a place; none if there is no such place, or no record.
pub(crate) fn keys_at<K: Kind>(kind: &K, page: &[u8; 512], place: usize) -> Option<Keys>
    ensures here { place < (K.Kind.meaning kind.now).capacity → option_map keys_of result ≡ (K.Kind.meaning kind.now).read (record_at (K.Kind.meaning kind.now) page.now place) }
    ensures past { (K.Kind.meaning kind.now).capacity ≤ place → IsNone result }
{
    kind.keys(record_at(kind, page, place)?)
}

// Has the record at a place keys in the box, and is it the first with these?
fn is_valid_at<K: Kind>(kind: &K, inner: &GridBox, page: &[u8; 512], place: usize) -> bool
    ensures { IsTrue result ↔ FirstRight (K.Kind.meaning kind.now) (Held inner.now.space.now (box_of inner.now)) page.now place }
{
    // By `match`: in a closure of `is_some_and` the check finds no proof from what `contains` promises.
    match keys_at(kind, page, place) {
        Some(keys) => {
            let keys = keys.as_slice();
            inner.contains(keys) && place_of(kind, page, keys) == Some(place)
        }
        None => false,
    }
}

fn has_valid_records<K: Kind>(kind: &K, inner: &GridBox, page: &[u8; 512]) -> bool
    requires { count_of page.now ≤ (K.Kind.meaning kind.now).capacity }
    ensures { IsTrue result ↔ RecordsValid (K.Kind.meaning kind.now) (Held inner.now.space.now (box_of inner.now)) page.now }
{
    (0..page[2] as usize).all(|place| is_valid_at(kind, inner, page, place))
}

// Does the page keep all rules, byte by byte? The promise of `is_bucket` speaks of the list of records instead, and its proof goes from one to the other.
fn keeps_rules<K: Kind>(kind: &K, inner: &GridBox, page: &[u8; 512]) -> bool
    ensures { IsTrue result ↔ BucketRules (K.Kind.meaning kind.now) (Held inner.now.space.now (box_of inner.now)) inner.now.level page.now }
{
    has_header(kind, inner.level, page)
        && has_valid_records(kind, inner, page)
        && is_zero_from(page, 4 + page[2] as usize * kind.size())
}

// Is it a bucket page of the box?
pub fn is_bucket<K: Kind>(kind: &K, inner: &GridBox, page: &[u8; 512]) -> bool
    ensures { IsTrue result ↔ IsBucket (K.Kind.meaning kind.now) inner.now.space.now (box_of inner.now) page.now }
{
    keeps_rules(kind, inner, page)
}
