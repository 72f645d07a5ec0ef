//! How a run ends, and the status of a journal.

ghost use Rattle.std.specs.Prelude.{◌≡◌};
ghost use Rattle.std.specs.List.{list_all};
ghost use Rattle.lane_core.specs.LaneIdeal.{ideal};
ghost use Rattle.ideal_world.specs.Ends as ends;
ghost use Rattle.ideal_world.specs.Ends.{world_end};
ghost use Rattle.ideal_world.specs.World.{has_ended};
ghost use Rattle.world_core.specs.Ideal.{ideal_world};

use crate::world::World;
use busdma_base::{End, Journal, JournalEntry};

impl World<'_> {
    /// Returns how a run that has come to rest in this world ends: `Finished` if all scripts have ended, else `Stuck`.
    pub fn end(&self) -> End
        ensures { result ≡ world_end (ideal_world self.now) }
    {
        if self.all_ended() {
            End::Finished
        } else {
            End::Stuck
        }
    }

    fn all_ended(&self) -> bool
        ensures { result ≡ list_all (λ lane. has_ended (ideal lane)) self.now.lanes.items }
    {
        self.lanes.iter().all(|lane| lane.has_ended())
    }
}

/// Returns the status of a journal: 2 if the run is stuck, else 1 if an entry is a report, else 0.
pub fn status(journal: &Journal) -> u8
    ensures { result ≡ ends.status journal.now }
{
    match journal.end {
        End::Stuck => 2,
        End::Finished => {
            if has_report(journal.entries.as_slice()) {
                1
            } else {
                0
            }
        }
    }
}

fn has_report(entries: &[JournalEntry]) -> bool
    ensures { result ≡ ends.has_report entries.now }
{
    entries.iter().any(|entry| entry.answer.is_report())
}
