// Fields of a string of bytes, the highest byte first. An offset fits a byte, since a record has at most 252 of them; what would lie past the end counts as zero.
// image_bytes has a reader of its own: there a place is any number, and the field must lie inside.
ghost use Rattle.std.specs.Prelude.{◌≡◌, ℕ, ◌+◌, ◌<◌, ◌≤◌, slice_index};
ghost use Rattle.kinds.specs.Fields.{byte, be2, be3, be4, signed2, marked};
ghost use Rattle.kinds.specs.Formats.{sized};

// Is it a string of so many bytes?
#[tactic(auto, using(crate::specs::FormatsLemmas::bytes_tell))]
pub fn has_size(bytes: &[u8], size: usize) -> bool
    ensures { result ≡ sized size bytes.now }
{
    bytes.len() == size
}

// The bytes of a field at an offset.
fn field<const N: usize>(bytes: &[u8], at: u8) -> [u8; N]
    requires { N ≤ 4 }
    ensures { (i : ℕ) → i < N → slice_index result i ≡ byte bytes.now (at + i) }
{
    let mut field = [0; N];
    for (i, byte) in field.iter_mut().enumerate() {
        *byte = bytes.get(at as usize + i).copied().unwrap_or(0);
    }
    field
}

// The byte at an offset.
pub fn byte(bytes: &[u8], at: u8) -> u8
    ensures { result ≡ byte bytes.now at }
{
    u8::from_be_bytes(field(bytes, at))
}

// The field of two bytes at an offset.
pub fn be16(bytes: &[u8], at: u8) -> u16
    ensures { result ≡ be2 bytes.now at }
{
    u16::from_be_bytes(field(bytes, at))
}

// The field of three bytes at an offset.
pub fn be24(bytes: &[u8], at: u8) -> u32
    ensures { result ≡ be3 bytes.now at }
{
    let [a, b, c]: [u8; 3] = field(bytes, at);
    u32::from_be_bytes([0, a, b, c])
}

// The field of four bytes at an offset.
pub fn be32(bytes: &[u8], at: u8) -> u32
    ensures { result ≡ be4 bytes.now at }
{
    u32::from_be_bytes(field(bytes, at))
}

// The field of two bytes at an offset, in two's complement.
pub fn signed16(bytes: &[u8], at: u8) -> i16
    ensures { result ≡ signed2 bytes.now at }
{
    i16::from_be_bytes(field(bytes, at))
}

// Does the string begin with this mark?
#[tactic(auto, using(crate::proofs::Pairs::pair_eq))]
pub fn has_mark(bytes: &[u8], mark: [u8; 2]) -> bool
    ensures { result ≡ marked (slice_index mark 0) (slice_index mark 1) bytes.now }
{
    field(bytes, 0) == mark
}
