//! Loads in the device pages of a device behind an IOMMU.
#![tactic(auto)]

mod built;
mod frames;
mod gatherer;
mod laws;
mod measured;

pub use built::build_device;
pub use frames::frames_of;
pub use laws::{device_fronts_ask_no_more, device_segments_are_the_load};
pub use measured::measure_device;
