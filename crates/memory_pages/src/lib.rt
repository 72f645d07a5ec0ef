//! How the frames of dmamem memories come to a driver's memory and leave it, after `bus_dmamem_alloc(9)` and
//! `bus_dmamem_free(9)`.
#![tactic(auto)]

mod pages;

pub use pages::{first_address, put, take};
