//! Journals: what each step answered, and how a run ended.

mod answer;
mod journal;

pub use answer::Answer;
pub use journal::{Actor, Did, End, Journal, JournalEntry, Side};
