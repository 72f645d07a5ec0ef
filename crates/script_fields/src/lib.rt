//! Reads the fields of operations and items of a script. A name is looked up among the operations before.
#![tactic(auto)]

mod bios;
mod bytes;
mod counts;
mod flags;
mod limits;
mod named_ops;
mod names;
mod numbers;
mod places;
mod spans;
mod syncs;
mod words;

pub use bios::bio_field;
pub use bytes::{byte_count, written_bytes};
pub use counts::{count_load, count_read, count_steps, judge_access};
pub use flags::flags_field;
pub use limits::STEPS;
pub use named_ops::NamedOps;
pub use names::{new_name, parent_tag, used_name};
pub use numbers::{byte_field, byte_or, short_field, short_or};
pub use places::{access_place, loaded_from};
pub use spans::{entries, entries_field, span_bytes};
pub use syncs::{range_fields, sync_fields};
pub use words::{item_word, op_word};
