//! Names of drivers, zones and maps.

ghost use Rattle.std.specs.Prelude.{◌≡◌, IfOk};

use std::alloc::AllocError;

/// A driver, by its place in the scenario.
#[derive(Clone, Copy, Debug, PartialEq, Eq, PartialOrd, Ord)]
pub struct LaneId(pub u32);

/// A bounce zone, by its place in the order of making.
#[derive(Clone, Copy, Debug, PartialEq, Eq, PartialOrd, Ord)]
pub struct ZoneId(pub u32);

impl ZoneId {
    /// Returns the name of the zone at a place in the order of making.
    ///
    /// # Errors
    ///
    /// `AllocError` if the place does not fit into the 32 bits of a name. A list of so many zones does not
    /// fit into memory.
    pub fn at(place: usize) -> Result<ZoneId, AllocError>
        ensures { IfOk result (λ zone. zone ≡ record { 0 = place }) }
    {
        match u32::try_from(place) {
            Ok(number) => Ok(ZoneId(number)),
            Err(_) => Err(AllocError),
        }
    }
}

/// A map or a dmamem memory, by its driver and the place in the script of the operation that made
/// it.
#[derive(Clone, Copy, Debug, PartialEq, Eq, PartialOrd, Ord)]
pub struct MapId {
    pub lane: LaneId,
    pub made_at: u32,
}
