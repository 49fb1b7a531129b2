// Bucket pages, and the map of the pages in use.
#![tactic(auto)]

mod bucket;
mod bucket_faults;
mod bucket_laws;
mod bucket_writes;
mod page_map;
mod page_maps;
mod pools;

pub use bucket::{is_bucket, record_at};
pub use bucket_faults::{NoSuchRecord, NotAdded, NotFilled};
pub use bucket_laws::bucket_laws_stand;
pub use bucket_writes::{add_record, place_of, record_count, start_bucket, take_out};
pub use page_map::{PageMap, PastMap};
pub use pools::fill_bucket;
