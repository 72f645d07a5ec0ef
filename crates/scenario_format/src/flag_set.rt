//! Sets of flags.

/// The kind of thing that a set of flags is for.
#[derive(Clone, Copy, Debug)]
pub enum FlagSet {
    /// The flags of a tag.
    Tag,
    /// The flags of a load.
    Load,
    /// The flags of a dmamem memory.
    Memory,
    /// The operations of a sync.
    Sync,
}
