//! Replies as values.

use busdma_machine::HubReply;

/// Returns whether two replies say the same.
pub fn same_reply(one: &HubReply, other: &HubReply) -> bool {
    match (one, other) {
        (HubReply::Nothing, HubReply::Nothing) => true,
        (HubReply::Grown(a), HubReply::Grown(b)) => a == b,
        (HubReply::Granted(a), HubReply::Granted(b)) => a.as_slice() == b.as_slice(),
        (HubReply::Queued(a), HubReply::Queued(b)) => a == b,
        (HubReply::NoPages, HubReply::NoPages) => true,
        (HubReply::Served(a), HubReply::Served(b)) => a == b,
        (HubReply::Called { map: m, pages: a }, HubReply::Called { map: n, pages: b }) => {
            m == n && a.as_slice() == b.as_slice()
        }
        (HubReply::Run { first: a, count: m }, HubReply::Run { first: b, count: n }) => {
            a == b && m == n
        }
        (HubReply::NoRun, HubReply::NoRun) => true,
        _ => false,
    }
}
