// What the crates above know of a record kind.
ghost use Rattle.std.specs.Prelude.{◌≡◌};
ghost use Rattle.boxes.specs.KeyLists.{keys_of};
ghost use Rattle.boxes.specs.Spaces.{widths_of, order_of};
ghost use Rattle.kinds.specs.Meaning.{Meaning, Lawful};
ghost use Rattle.std.specs.Option.{option_map};

use boxes::{Keys, Space};

pub trait Kind {
    ghost meaning: { Self → Meaning };

    // The space of the keys.
    fn space(&self) -> Space
        ensures widths { widths_of result ≡ (meaning self.now).widths }
        ensures halvings { order_of result ≡ (meaning self.now).halvings };

    // How many bytes a record has.
    fn size(&self) -> usize
        ensures { result ≡ (meaning self.now).size };

    // How many records a bucket takes.
    fn capacity(&self) -> usize
        ensures { result ≡ (meaning self.now).capacity };

    // The keys of a record, or none if the bytes are no record.
    fn keys(&self, bytes: &[u8]) -> Option<Keys>
        ensures { option_map keys_of result ≡ (meaning self.now).read bytes.now };

    ghost lawful: { (s : Self) → Lawful (meaning s) };
}
