//! The transfers of a storm.

use busdma_base::Va;

/// What a round of a storm moves: a map is loaded with the `len` bytes from the virtual address `va` on, and
/// the first `touched` of them are filled with `byte` on one side and read on the other.
#[derive(Clone, Copy, Debug)]
pub struct Transfer {
    /// The place in the script of the operation that makes the map.
    pub map: u32,
    /// The virtual address of the first byte.
    pub va: Va,
    /// How many bytes are loaded.
    pub len: u64,
    /// How many bytes are filled and read, from the first on.
    pub touched: u64,
    /// The byte that they are filled with.
    pub byte: u8,
}
