// What a maker writes of a kind whose records pass one test.
ghost use Rattle.std.specs.Prelude.{◌≡◌, Some, IsTrue};
ghost use Rattle.std.specs.Option.{option_map};
ghost use Rattle.boxes.specs.KeyLists.{keys_of};
ghost use Rattle.kinds.specs.Formats.{Format, meaning_of};
ghost use Rattle.kinds.specs.Meaning.{Lawful};

use boxes::Keys;

pub trait RecordFormat {
    ghost format: { Format };

    // The width of each key in bits.
    fn widths() -> &'static [u8]
        ensures { result.now ≡ format.widths };

    // How many bytes a record has.
    fn size() -> usize
        ensures { result ≡ format.size };

    // How many records a bucket takes.
    fn capacity() -> usize
        ensures { result ≡ format.capacity };

    // Does a string pass the test of the format? One of another size may pass it too, and is no record all the same.
    fn accepts(bytes: &[u8]) -> bool
        ensures { result ≡ format.accepts bytes.now };

    // The keys of a string that passes the test.
    fn keys(bytes: &[u8]) -> Option<Keys>
        ensures { IsTrue (format.accepts bytes.now) → option_map keys_of result ≡ Some (format.keys bytes.now) };

    ghost lawful: { Lawful (meaning_of format) };
}
