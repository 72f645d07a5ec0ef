//! Which bytes are which scenario, or which refusal, as definitions: JSON values and their places, the fields
//! of operations and items, scripts, and scenarios. The crate has the types that these definitions are about,
//! and no code.
#![tactic(auto)]

mod bio_kind;
mod counts;
mod flag_set;
mod reading;
mod refusal;
mod sync_fields;

pub use bio_kind::BioKind;
pub use counts::Counts;
pub use flag_set::FlagSet;
pub use reading::Reading;
pub use refusal::{LimitName, PathText, Refusal, RefusalKind};
pub use sync_fields::{RangeFields, SyncFields};
