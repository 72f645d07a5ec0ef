//! The world in which a scenario opens.

ghost use Rattle.std.specs.Prelude.{◌≡◌, [], map, IfOk};
ghost use Rattle.busdma_base.specs.Scenarios.Opening.{maxmem_of, opening};
ghost use Rattle.busdma_base.specs.Scenarios.Valid.{IsValid};
ghost use Rattle.lane_core.specs.LaneIdeal.{ideal};
ghost use Rattle.ideal_world.specs.World as world;
ghost use Rattle.ideal_world.specs.World.{opening_world};
ghost use Rattle.world_core.specs.Ideal.{ideal_world};

use crate::world::World;
use bounce_hub::Hub;
use busdma_base::{LaneId, Scenario};
use lane_core::{Lane, opening_memory};
use opening_frames::{free_bank, memory_end};
use std::alloc::{AllocError, Global};

impl<'s> World<'s> {
    /// Makes the world in which a scenario opens. Its hub has the frames that no driver's pages have.
    ///
    /// # Errors
    ///
    /// `AllocError` if memory runs out.
    pub fn new(alloc: Global, scenario: &'s Scenario) -> Result<World<'s>, AllocError>
        requires { IsValid scenario.now }
        ensures { IfOk result (λ world. ideal_world world ≡ opening_world scenario.now) }
    {
        let (lanes, hub) = opening_parts(alloc, scenario)?;
        Ok(World {
            scenario,
            lanes,
            hub,
        })
    }
}

/// Makes the drivers with which a scenario opens, in the order of their numbers, and the hub that they are to share.
/// The hub has the frames that no driver's pages have, and its history is empty.
///
/// # Errors
///
/// `AllocError` if memory runs out.
pub fn opening_parts<'s>(
    alloc: Global,
    scenario: &'s Scenario,
) -> Result<(Vec<Lane<'s>>, Hub), AllocError>
    requires { IsValid scenario.now }
    ensures lanes { IfOk result (λ parts. map ideal parts.0.items ≡ (opening_world scenario.now).lanes) }
    ensures hub { IfOk result (λ parts. parts.1 ≡ record { opening = opening scenario.now; history = [] }) }
{
    let maxmem = memory_end(scenario.frames.as_slice());
    let bank = free_bank(alloc, scenario)?;
    let lanes = opening_lanes(alloc, scenario, maxmem)?;
    Ok((lanes, Hub::new(alloc, bank, scenario.max_bpages, maxmem)))
}

/// Makes the lanes of a scenario's drivers, which have done nothing yet, in the order of their numbers, in a machine
/// whose frame numbers are below `maxmem`.
fn opening_lanes<'s>(
    alloc: Global,
    scenario: &'s Scenario,
    maxmem: u64,
) -> Result<Vec<Lane<'s>>, AllocError>
    requires valid { IsValid scenario.now }
    requires end { maxmem ≡ maxmem_of scenario.now.frames }
    ensures { IfOk result (λ lanes. map ideal lanes.items
        ≡ world.opening_lanes 0 maxmem scenario.now.drivers) }
{
    let mut lanes = Vec::new(alloc);
    for driver in scenario.drivers.as_slice() {
        let memory = opening_memory(alloc, driver.pages.as_slice())?;
        let id = LaneId(lanes.len() as u32);
        lanes.push(Lane::new(alloc, id, maxmem, driver, memory)?)?;
    }
    Ok(lanes)
}
