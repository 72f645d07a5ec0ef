//! Keeps what the maps of a driver lend, and which of its bytes are Known.
#![tactic(auto)]

mod access;
mod buffer;
mod extents;
mod held;
mod lent;
mod loans;
mod losing;
mod marks;
mod piece;
mod room;
mod row;
mod slot;
mod sync;
mod table;

pub use table::LoanTable;
