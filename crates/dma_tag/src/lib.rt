//! Tags of `bus_dma(9)`, and the sets of flags that its calls take.
#![tactic(auto)]

mod einval;
mod limits;
mod load_flags;
mod mem_flags;
mod sync_ops;
mod tag;
mod tag_flags;

pub use einval::Einval;
pub use load_flags::LoadFlags;
pub use mem_flags::MemFlags;
pub use sync_ops::SyncOps;
pub use tag::Tag;
pub use tag_flags::TagFlags;
