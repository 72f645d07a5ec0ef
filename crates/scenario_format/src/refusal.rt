//! Why a scenario is refused.

use busdma_base::Text;

/// The limits of a scenario.
#[derive(Clone, Copy, Debug, PartialEq, Eq)]
pub enum LimitName {
    /// The frames of the machine.
    Frames,
    /// The number of a frame.
    FrameNumber,
    /// The number of pages up to which a zone grows for further maps.
    MaxBpages,
    /// The drivers.
    Drivers,
    /// The actors of the order.
    Order,
    /// The operations and items of a driver.
    Steps,
    /// The spans or frames of one load.
    Entries,
    /// The bytes of one access.
    Access,
    /// The bytes that all drivers and devices read, without those of ring steps and resends.
    Reads,
    /// The bytes of one load.
    Buffer,
    /// The bytes of all loads.
    Loaded,
}

/// What is wrong.
#[derive(Clone, Copy, Debug, PartialEq, Eq)]
pub enum RefusalKind {
    /// The bytes are no JSON value.
    NotJson,
    /// A key is not known, a field is missing, or its value is not allowed.
    BadField,
    /// A word of a set of flags is not known.
    BadFlag,
    /// The word of an operation or item is not known, or not allowed at its place.
    BadOp,
    /// A limit is passed.
    Limit(LimitName),
    /// A frame is given twice.
    FrameTwice,
    /// A page has a frame that the machine does not have, or a bio has a frame that the driver's pages do not
    /// have.
    FrameAbsent,
    /// A name is used that no earlier operation made, or made as a thing that cannot be used here.
    UnknownName,
    /// The input of a check does not begin with the number of a scenario's bytes, or has fewer bytes than
    /// that.
    BadHeader,
}

/// The text of a path.
pub type PathText = Text;

/// The first thing in a document that is wrong, and its place. The path is empty if the document itself is
/// wrong.
#[derive(Debug, Drop)]
pub struct Refusal {
    /// What is wrong.
    pub kind: RefusalKind,
    /// The text of the place that is wrong.
    pub path: PathText,
}
