//! Two lanes at the doors of one hub.

mod opening;
mod replies;
mod two_doors;
mod two_threads;
