//! Scenarios: frames, drivers with their pages and scripts, and an order of steps.

mod buffer;
mod opening_laws;
mod operations;
mod queued;
mod scenario;
mod script;
mod words;

pub use buffer::Buffer;
pub use opening_laws::scenario_opens;
pub use operations::{ItemAbout, MadeName, NameKind, NameUse, Object, OpAbout, UsedName};
pub use queued::QueuedItem;
pub use scenario::{Driver, FrameRun, PageRun, Scenario};
pub use script::{Bytes, Item, Op, Place};
pub use words::{ItemWord, OpWord};
