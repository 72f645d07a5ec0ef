//! The end of a driver's script.

ghost use Rattle.std.specs.Prelude.{◌≡◌, length, nat_le};
ghost use Rattle.lane_core.specs.LaneIdeal.{ideal};

use crate::lane::Lane;

impl Lane<'_> {
    /// Returns whether the script has ended: all its operations are done.
    pub fn has_ended(&self) -> bool
        ensures { result ≡ nat_le (length (ideal self.now).script) (ideal self.now).place }
    {
        self.holdings.script.len() <= self.holdings.agenda.place()
    }
}
