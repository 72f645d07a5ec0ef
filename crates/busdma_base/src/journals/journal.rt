//! Journals: what a run did, step by step.

use crate::journals::Answer;
use busdma_machine::{LaneId, ListOf, MapId, Pa, ZoneCounts};
use std::alloc::AllocError;

/// One of the three sides that act for a driver.
#[derive(Clone, Copy, Debug, PartialEq, Eq)]
pub enum Side {
    /// The driver itself, along its script. Pages that it gives back go first.
    Script,
    /// Its device, along the transfer queue.
    Transfer,
    /// The callbacks of its deferred loads.
    Callback,
}

/// One side of one driver.
#[derive(Clone, Copy, Debug, PartialEq, Eq)]
pub struct Actor {
    pub lane: LaneId,
    pub side: Side,
}

/// What a step did.
#[derive(Clone, Copy, Debug, PartialEq, Eq)]
pub enum Did {
    /// The operation at this place of the script.
    Op(u32),
    /// The resend of the send at this place of the script: it loads the clusters.
    Again(u32),
    /// It gave back the page at this physical address, which the map held.
    Release { map: MapId, page: Pa },
    /// It completed the map's deferred load.
    Callback { map: MapId },
    /// The item at `place` in the list of the load or the kick at `load_at` of the script.
    Item { load_at: u32, place: u32 },
}

/// One step of a run.
#[derive(Debug, Drop)]
pub struct JournalEntry {
    pub actor: Actor,
    pub did: Did,
    pub answer: Answer,
}

impl Clone for JournalEntry {
    ghost use Rattle.std.specs.Prelude.{◌≡◌};

    ghost is_clone = { λ a b. b ≡ a };

    fn clone(&self) -> Result<JournalEntry, AllocError> {
        Ok(JournalEntry {
            actor: self.actor,
            did: self.did,
            answer: self.answer.clone()?,
        })
    }
}

/// How a run ends, once no actor can step.
#[derive(Clone, Copy, Debug, PartialEq, Eq)]
pub enum End {
    /// Every script has ended.
    Finished,
    /// Some script has not ended.
    Stuck,
}

/// A complete run: its steps in order, the counts of every zone after them, and its end.
#[derive(Debug, Drop)]
pub struct Journal {
    pub entries: ListOf<JournalEntry>,
    pub zones: ListOf<ZoneCounts>,
    pub end: End,
}
