//! What the bytes say.

use crate::refusal::Refusal;
use busdma_base::Scenario;

/// What the bytes of a document are: a valid scenario, or the first refusal.
#[derive(Debug, Drop)]
pub enum Reading {
    /// The document is this valid scenario.
    Good(Scenario),
    /// The document is refused, for this reason first.
    Bad(Refusal),
}
