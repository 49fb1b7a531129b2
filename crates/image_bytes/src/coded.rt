// The items in the bytes of an image, N bytes each; a number's highest byte comes first.
ghost use Rattle.std.specs.Prelude.{◌≡◌, ℕ, List, length, refl};
ghost use Rattle.images.specs.Bytes.{two, four};
ghost use Rattle.image_bytes.specs.Fields.{named_bytes};

use images::Named;

pub(crate) trait Coded<const N: usize>: Copy {
    // The bytes of an item.
    ghost code: { Self → List ℕ };

    fn to_bytes(self) -> [u8; N]
        ensures { result ≡ code self };

    fn from_bytes(bytes: &[u8; N]) -> Self
        ensures { code result ≡ bytes.now };

    // Each item has N bytes.
    ghost wide: { (x : Self) → length (code x) ≡ N };
}

impl Coded<2> for u16 {
    ghost code = { two };

    ghost wide = { λ _. refl };

    fn to_bytes(self) -> [u8; 2] {
        self.to_be_bytes()
    }

    fn from_bytes(bytes: &[u8; 2]) -> u16 {
        u16::from_be_bytes(*bytes)
    }
}

impl Coded<4> for u32 {
    ghost code = { four };

    ghost wide = { λ _. refl };

    fn to_bytes(self) -> [u8; 4] {
        self.to_be_bytes()
    }

    fn from_bytes(bytes: &[u8; 4]) -> u32 {
        u32::from_be_bytes(*bytes)
    }
}

// What a cell names: a page in two bytes, and a level in one.
impl Coded<3> for Named {
    ghost code = { named_bytes };

    ghost wide = { λ _. refl };

    fn to_bytes(self) -> [u8; 3] {
        let page = self.page.to_be_bytes();
        [page[0], page[1], self.level]
    }

    fn from_bytes(bytes: &[u8; 3]) -> Named {
        Named {
            page: u16::from_be_bytes([bytes[0], bytes[1]]),
            level: bytes[2],
        }
    }
}
