//! The tags, maps, dmamem memories and rings of a driver at work: how they come and go.
#![tactic(auto)]

mod maps;
mod memories;
mod rings;
mod tags;

pub use maps::{await_map, destroy_map, make_map};
pub use memories::{end_memory, make_memory};
pub use rings::make_ring;
pub use tags::{destroy_tag, make_iommu_tag, make_tag};
