//! The law of copies of a range.

ghost use Rattle.map_sync.specs.Traces.{EachRangeCopiesAlike};

/// If a load's trace has the positions of the chunks, in order, and beside them no bounced position, then a
/// copy of a range of the chunks is a copy of that range of the trace.
pub fn ranges_copy_alike()
    ensures { EachRangeCopiesAlike }
{}
