// Page stores. A page store means a list of pages of 512 bytes; how many it has is fixed.
#![tactic(auto)]

ghost use Rattle.std.specs.Prelude.{◌≡◌, ℕ, List, length};
ghost use Rattle.stores.specs.Pages.{Whole, Fetched, Stored, refusal_number};

mod flash;
pub mod flat;
pub mod sectors;

// The one refusal of a page store: the page number is not in the store.
#[derive(Clone, Copy, PartialEq, Eq, Debug)]
pub struct NoSuchPage;

impl NoSuchPage {
    // The refusal's number, for whoever is told of it.
    pub fn number(self) -> u8
        ensures { result ≡ refusal_number self }
    {
        1
    }
}

// A store's `read` and `write` test the number themselves, since what is left unchanged is told by each store in its own words.
pub trait PageStore {
    // The pages, from page 0 on.
    ghost pages: { Self → List (List ℕ) };

    // Every page has 512 bytes. The value of this member is the proof of it.
    ghost whole: { (s : Self) → Whole (pages s) };

    // How many pages there are.
    fn count(&self) -> usize
        ensures counted { result ≡ length (pages self.now) };

    // Fills the buffer with the bytes of a page. All pages stay as they are.
    fn read(&mut self, page: usize, buffer: &mut [u8; 512]) -> Result<(), NoSuchPage>
        ensures kept { pages self.new ≡ pages self.old }
        ensures fetched { Fetched (pages self.old) page buffer.old buffer.new result };

    // Gives a page new bytes. No other page changes, and their number stays.
    fn write(&mut self, page: usize, bytes: &[u8; 512]) -> Result<(), NoSuchPage>
        ensures stored { Stored (pages self.old) (pages self.new) page bytes.now result };
}
