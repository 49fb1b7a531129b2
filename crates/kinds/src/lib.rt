// Record kinds: which strings of bytes are records, and the keys of each.
#![tactic(auto)]

mod daylight;
mod fields;
mod insulation;
mod kind;
mod kind_of;
mod record_format;
mod trial_t;
mod trial_u;
mod trial_x;

pub use boxes::{Keys, Space, greatest_key};
pub use daylight::{Daylight, DaylightFormat};
pub use fields::{be16, be24, be32, byte, has_mark, has_size, signed16};
pub use insulation::{Insulation, InsulationFormat};
pub use kind::Kind;
pub use kind_of::KindOf;
pub use record_format::RecordFormat;
pub use trial_t::{TrialT, TrialTFormat};
pub use trial_u::{TrialU, TrialUFormat};
pub use trial_x::{TrialX, TrialXFormat};
