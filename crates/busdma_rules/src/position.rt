//! Positions of buffers.

/// A position of a loaded map's buffer: the physical address of its byte, and whether the map lends
/// that byte to the device to read, and to write.
#[derive(Clone, Copy, Debug, PartialEq, Eq)]
pub struct Position {
    pub pa: u64,
    pub to_read: bool,
    pub to_write: bool,
}
