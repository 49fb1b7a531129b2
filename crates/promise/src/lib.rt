// What every call of the grid does, and the promise over every run of calls, with its proof from what the calls do.
#![tactic(auto)]

ghost use Rattle.std.specs.Prelude.{◌≡◌, zero};
ghost use Rattle.promise.specs.Exact.{OneAnswer, TwoPages};
ghost use Rattle.promise.specs.Fresh.{FreshStands};
ghost use Rattle.promise.specs.Promise.{EveryRun, SameShape};
ghost use Rattle.promise.specs.Sets.{OneSet};

use boxes::laws_stand;
use buckets::bucket_laws_stand;
use images::image_laws_stand;

mod memory;
mod refusal;
mod refusals;
mod shape;

pub use memory::Memory;
pub use refusal::Refusal;
pub use shape::Shape;

// Computes nothing: its promise is what lasts over every run of calls.
pub fn every_run() -> u8
    ensures nothing { result ≡ zero }
    ensures lasting { EveryRun }
    ensures shapes { SameShape }
    ensures sets { OneSet }
{
    let _ = laws_stand();
    let _ = image_laws_stand();
    let _ = bucket_laws_stand();
    0
}

// Computes nothing: its promise is that find's answer and buffer follow from the grid's memory and two pages, whatever the pages hold.
pub fn find_has_one_answer() -> u8
    ensures nothing { result ≡ zero }
    ensures one { OneAnswer }
    ensures alike { TwoPages }
{
    0
}

// Computes nothing: its promise is that the pages of a new grid stand for the empty set.
pub fn fresh_stands() -> u8
    ensures nothing { result ≡ zero }
    ensures fresh { FreshStands }
{
    let _ = laws_stand();
    let _ = image_laws_stand();
    0
}
