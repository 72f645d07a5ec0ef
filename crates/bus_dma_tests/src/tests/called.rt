//! What calls give.

use bus_dma::{Callback, DmaError, Load};
use busdma_base::{ByteList, MapId};
use lane_turns::Turn;

/// What a call gave.
#[derive(Debug, Drop)]
pub enum Got {
    /// The call was done.
    Done,
    /// The name of what was made, or of what the next call makes.
    Name(MapId),
    /// A load that was not refused.
    Load(Load),
    /// The bytes that were read.
    Bytes(ByteList),
    /// A turn of a side.
    Turn(Turn),
    /// The callback that was taken, if there was one.
    Callback(Option<Callback>),
    /// Whether the driver is ready.
    Ready(bool),
    /// How many syncs copied a bounce page.
    Copied(u64),
}

/// Returns what a call without a value gave.
pub fn done(done: Result<(), DmaError>) -> Result<Got, DmaError> {
    match done {
        Ok(()) => Ok(Got::Done),
        Err(error) => Err(error),
    }
}

/// Returns what a load gave.
pub fn loaded(loaded: Result<Load, DmaError>) -> Result<Got, DmaError> {
    match loaded {
        Ok(load) => Ok(Got::Load(load)),
        Err(error) => Err(error),
    }
}

/// Returns what a read gave.
pub fn read(read: Result<ByteList, DmaError>) -> Result<Got, DmaError> {
    match read {
        Ok(bytes) => Ok(Got::Bytes(bytes)),
        Err(error) => Err(error),
    }
}

/// Returns what a call that made something gave.
pub fn name(id: MapId) -> Result<Got, DmaError> {
    Ok(Got::Name(id))
}
