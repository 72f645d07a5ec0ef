//! Descriptors.

/// What a device is to do with the `len` bytes from the bus address `addr` on. This project's own.
///
/// The device reads the bytes if `kind` is 1, and writes `fill` to each of them if `kind` is 2. `owner`
/// is 1 while the descriptor is the device's, and `status` is 1 once the device has done it.
#[derive(Clone, Copy, Debug, PartialEq, Eq)]
pub struct Descriptor {
    pub addr: u64,
    pub len: u32,
    pub kind: u8,
    pub fill: u8,
    pub owner: u8,
    pub status: u8,
}
