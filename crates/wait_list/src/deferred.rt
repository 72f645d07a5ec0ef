//! A deferred load.

use busdma_machine::{Pa, PageList, Waiter};

/// A load that was deferred, with the empty lists that its callback hands out: one for its pages and one for
/// their physical addresses. Each has room for all the pages that the load needs.
#[derive(Drop)]
pub struct Deferred {
    pub waiter: Waiter,
    pub pages: PageList,
    pub addresses: Vec<Pa>,
}
