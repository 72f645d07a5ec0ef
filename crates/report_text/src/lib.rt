//! Writes the text of a run: a line for each step, the lines of its bounce zones, and its end. Writes the
//! line of a refused scenario. Each line ends with a line feed.
#![tactic(auto)]

mod answer;
mod did;
mod entry;
mod journal;
mod memory;
mod numbers;
mod refusal;
mod zone;

pub use entry::entry_line;
pub use journal::{end_line, end_word, report, report_count, write_report};
pub use refusal::{refusal_line, write_refusal};
pub use zone::zone_lines;
