//! Copies between a driver's buffers and its bounce pages: what a sync of a range of a load does.
//!
//! After the x86 bounce code, which copies a complete load; the range is this project's own. No call takes
//! memory.
#![tactic(auto)]

mod into_pages;
mod laws;
mod out_of_pages;

pub use into_pages::copy_in;
pub use laws::ranges_copy_alike;
pub use out_of_pages::copy_out;
