//! How a call of the program ends.

use busdma_base::Journal;
use scenario_format::Refusal;

/// How a call of the program ends: its status; the journal, if there was a run or a check found a legal one;
/// and the refusal, if what was read was refused.
#[derive(Debug, Drop)]
pub struct ProgramEnd {
    /// The exit status.
    pub status: u8,
    /// The journal of the run, or the one that a check found legal.
    pub journal: Option<Journal>,
    /// Why what was read is refused.
    pub fault: Option<Refusal>,
}
