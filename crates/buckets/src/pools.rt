// A bucket page from the records of a pool.
ghost use Rattle.std.specs.Prelude.{◌≡◌, ◌↔◌, length, IsTrue};
ghost use Rattle.boxes.specs.GridBoxes.{box_of};
ghost use Rattle.boxes.specs.Spaces.{widths_of, order_of};
ghost use Rattle.buckets.specs.Pools.{InBox, Took, Filled};

use crate::bucket_faults::{NotAdded, NotFilled};
use crate::bucket_writes::{add_record, start_bucket};
use boxes::GridBox;
use kinds::Kind;

// Is it a record of the kind, with its keys in the box?
fn is_in_box<K: Kind>(kind: &K, inner: &GridBox, bytes: &[u8]) -> bool
    ensures { IsTrue result ↔ InBox (K.Kind.meaning kind.now) (widths_of inner.now.space.now) (order_of inner.now.space.now) (box_of inner.now) bytes.now }
{
    // By `match`: in a closure of `is_some_and` the check finds no proof from what `contains` promises.
    match kind.keys(bytes) {
        Some(keys) => inner.contains(keys.as_slice()),
        None => false,
    }
}

// Adds the bytes if they are a record in the box.
fn take_in<K: Kind>(
    kind: &K,
    inner: &GridBox,
    bytes: &[u8],
    bucket: &mut [u8; 512],
) -> Result<(), NotAdded>
    requires { length bytes.now ≡ (K.Kind.meaning kind.now).size }
    ensures { Took (K.Kind.meaning kind.now) (InBox (K.Kind.meaning kind.now) (widths_of inner.now.space.now) (order_of inner.now.space.now) (box_of inner.now)) inner.now.level bytes.now bucket.old bucket.new result }
{
    if is_in_box(kind, inner, bytes) {
        add_record(kind, bucket, bytes)
    } else {
        Ok(())
    }
}

// Makes the page the bucket of the box, with those strings of the pool that are records in it, in their order. The strings stand side by side, each as long as a record.
pub fn fill_bucket<K: Kind>(
    kind: &K,
    inner: &GridBox,
    pool: &[u8],
    page: &mut [u8; 512],
) -> Result<(), NotFilled>
    ensures { Filled (K.Kind.meaning kind.now) (InBox (K.Kind.meaning kind.now) (widths_of inner.now.space.now) (order_of inner.now.space.now) (box_of inner.now)) inner.now.level pool.now page.old page.new result }
{
    let size = kind.size();
    if pool.len() % size != 0 {
        return Err(NotFilled::Ragged);
    }
    let mut bucket = [0; 512];
    start_bucket(inner.level as u8, &mut bucket);
    for bytes in pool.chunks_exact(size) {
        take_in(kind, inner, bytes, &mut bucket)?;
    }
    *page = bucket;
    Ok(())
}
