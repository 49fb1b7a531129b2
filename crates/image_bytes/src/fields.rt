// Fields of the bytes of an image.
ghost use Rattle.std.specs.Prelude.{◌≡◌, ◌+◌, ◌-◌, ◌*◌, ◌≤◌, ◌↔◌, map, length, take, replicate, IsTrue};
ghost use Rattle.images.specs.Bytes.{joined};
ghost use Rattle.image_bytes.specs.Fields.{Stands, Zeros, Put};

use crate::coded::Coded;

// What the bytes of a directory image begin with, and those of the root.
pub(crate) const DIRECTORY_MARK: [u8; 2] = [0x44, 0x49];

pub(crate) const ROOT_MARK: [u8; 2] = [0x52, 0x54];

// The item whose bytes begin at a place.
fn field<T: Coded<N>, const N: usize>(bytes: &[u8], at: usize) -> T
    requires { at + N ≤ length bytes.now }
    ensures { Stands bytes.now at (T.code result) }
{
    let mut field = [0; N];
    field.copy_from_slice(&bytes[at..at + N]);
    T::from_bytes(&field)
}

// The items whose bytes stand in turn from a place on, `count` of them, at the front of an array that holds `fill` behind them.
pub(crate) fn fields<T: Coded<N>, const N: usize, const LENGTH: usize>(
    bytes: &[u8],
    at: usize,
    count: usize,
    fill: T,
) -> [T; LENGTH]
    requires count_bound { count ≤ LENGTH }
    requires in_bounds { at + N * count ≤ length bytes.now }
    ensures long { length result ≡ LENGTH }
    ensures read { Stands bytes.now at (joined (map T.code (take count result))) }
{
    let mut items = [fill; LENGTH];
    for (i, item) in items[..count].iter_mut().enumerate() {
        *item = field(bytes, at + N * i);
    }
    items
}

// Are the bytes of a stretch all zero?
pub(crate) fn is_zero(bytes: &[u8], from: usize, to: usize) -> bool
    requires from_le_to { from ≤ to }
    requires to_in_bounds { to ≤ length bytes.now }
    ensures { IsTrue result ↔ Zeros bytes.now from to }
{
    bytes[from..to].iter().all(|byte| *byte == 0)
}

// Puts a field at a place.
pub(crate) fn put(bytes: &mut [u8], at: usize, field: &[u8])
    requires { at + length field.now ≤ length bytes.old }
    ensures { Put bytes.old at field.now bytes.new }
{
    bytes[at..at + field.len()].copy_from_slice(field);
}

// Puts all of these in turn, from a place on.
pub(crate) fn put_all<T: Coded<N>, const N: usize>(bytes: &mut [u8], at: usize, items: &[T])
    requires { at + N * length items.now ≤ length bytes.old }
    ensures { Put bytes.old at (joined (map T.code items.now)) bytes.new }
{
    for (i, item) in items.iter().enumerate() {
        put(bytes, at + N * i, &item.to_bytes());
    }
}

// Puts zeros over a stretch.
pub(crate) fn clear(bytes: &mut [u8], from: usize, to: usize)
    requires from_le_to { from ≤ to }
    requires to_in_bounds { to ≤ length bytes.old }
    ensures { Put bytes.old from (replicate (to - from) 0) bytes.new }
{
    bytes[from..to].fill(0);
}
