// Bucket pages searched and changed.
ghost use Rattle.std.specs.Prelude.{◌≡◌, ℕ, ◌+◌, ◌<◌, ◌≤◌, ◌↔◌, min, List, [], length, IsTrue, slice_index_or};
ghost use Rattle.kinds.specs.Meaning.{Meaning};
ghost use Rattle.buckets.specs.Bucket.{BucketOf, record_at};
ghost use Rattle.buckets.specs.BucketRules.{count_of};
ghost use Rattle.buckets.specs.Firsts.{FirstWith};
ghost use Rattle.buckets.specs.BucketWrites.{Added, TakenOut, Closed};

use crate::bucket::keys_at;
use crate::bucket_faults::{NoSuchRecord, NotAdded};
use kinds::Kind;

// Makes the page an empty bucket page of this level: the mark, no records and the level, and zeros behind them.
pub fn start_bucket(level: u8, page: &mut [u8; 512])
    ensures { (m : Meaning) → BucketOf m level [] page.new }
{
    *page = [0; 512];
    page[0] = 0x42;
    page[1] = 0x4B;
    page[3] = level;
}

// How many records the page holds: as many as it names, but no more than a bucket takes.
pub fn record_count<K: Kind>(kind: &K, page: &[u8; 512]) -> usize
    ensures any { result ≡ min (count_of page.now) (K.Kind.meaning kind.now).capacity }
    ensures listed { (level : ℕ) (rs : List (List ℕ)) → BucketOf (K.Kind.meaning kind.now) level rs page.now → result ≡ length rs }
{
    (page[2] as usize).min(kind.capacity())
}

// Has the record at a place these keys?
fn has_keys<K: Kind>(kind: &K, page: &[u8; 512], place: usize, keys: &[u32]) -> bool
    ensures { place < (K.Kind.meaning kind.now).capacity → (IsTrue result ↔ ((K.Kind.meaning kind.now).read (record_at (K.Kind.meaning kind.now) page.now place) ≡ Some keys.now)) }
{
    keys_at(kind, page, place).is_some_and(|own| own.as_slice() == keys)
}

// Where a record with these keys stands, the first one.
pub fn place_of<K: Kind>(kind: &K, page: &[u8; 512], keys: &[u32]) -> Option<usize>
    ensures any { FirstWith (λ i. (K.Kind.meaning kind.now).read (record_at (K.Kind.meaning kind.now) page.now i) ≡ Some keys.now) (min (count_of page.now) (K.Kind.meaning kind.now).capacity) result }
    ensures listed { (level : ℕ) (rs : List (List ℕ)) → BucketOf (K.Kind.meaning kind.now) level rs page.now → FirstWith (λ i. (K.Kind.meaning kind.now).read (slice_index_or rs i []) ≡ Some keys.now) (length rs) result }
{
    (0..record_count(kind, page)).find(|place| has_keys(kind, page, *place, keys))
}

// Adds a record behind the others.
pub fn add_record<K: Kind>(kind: &K, page: &mut [u8; 512], bytes: &[u8]) -> Result<(), NotAdded>
    ensures { Added (K.Kind.meaning kind.now) page.old bytes.now page.new result }
{
    let size = kind.size();
    if bytes.len() != size {
        return Err(NotAdded::WrongSize);
    }
    let count = page[2];
    if count as usize >= kind.capacity() {
        return Err(NotAdded::Full);
    }
    let start = 4 + count as usize * size;
    page[2] = count + 1;
    page[start..start + size].copy_from_slice(bytes);
    Ok(())
}

// Moves what stands behind a gap of so many bytes up to its start.
fn close_gap(page: &mut [u8; 512], start: usize, size: usize)
    requires { start + size ≤ 512 }
    ensures { Closed page.old start size page.new }
{
    page.copy_within(start + size.., start);
    page[512 - size..].fill(0);
}

// Takes out the record at a place, and moves those behind it up.
pub fn take_out<K: Kind>(kind: &K, page: &mut [u8; 512], place: usize) -> Result<(), NoSuchRecord>
    ensures { TakenOut (K.Kind.meaning kind.now) (min (count_of page.old) (K.Kind.meaning kind.now).capacity) page.old place page.new result }
{
    if place >= record_count(kind, page) {
        return Err(NoSuchRecord);
    }
    let size = kind.size();
    let count = page[2];
    close_gap(page, 4 + place * size, size);
    page[2] = count - 1;
    Ok(())
}

#[cfg(test)]
mod tests {
    use super::{add_record, place_of, start_bucket, take_out};
    use crate::bucket::is_bucket;
    use boxes::GridBox;
    use kinds::{Kind, TrialT};

    #[test]
    fn two_records_and_one_left(rt: HostRuntime) {
        let kind = TrialT::new();
        let space = kind.space();
        let whole = GridBox::whole(&space);
        let mut page = [0; 512];
        start_bucket(0, &mut page);
        assert!(rt; add_record(&kind, &mut page, &[0x54, 0x57, 1, 2]).is_ok());
        assert!(rt; add_record(&kind, &mut page, &[0x54, 0x57, 3, 0]).is_ok());
        assert!(rt; add_record(&kind, &mut page, &[0x54, 0x57, 0, 0]).is_err());
        assert!(rt; is_bucket(&kind, &whole, &page));
        assert_eq!(rt; place_of(&kind, &page, &[3, 0]), Some(1));
        assert!(rt; take_out(&kind, &mut page, 0).is_ok());
        assert_eq!(rt; place_of(&kind, &page, &[3, 0]), Some(0));
        assert!(rt; is_bucket(&kind, &whole, &page));
        page[511] = 1;
        assert!(rt; !is_bucket(&kind, &whole, &page));
    }
}
