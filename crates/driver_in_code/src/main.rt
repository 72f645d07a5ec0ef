//! A driver in code: it opens a machine, makes a tag and a map, and sends five bytes to its device.
#![tactic(auto)]

ghost use Rattle.std.specs.Prelude.{IfOk, IfSome};
ghost use Rattle.bounce_hub.specs.Seen.{door};
ghost use Rattle.busdma_base.specs.Scenarios.Valid.{IsValid};
ghost use Rattle.bus_dma.specs.State.{state};
ghost use Rattle.lane_state.specs.Served.{IsServed};

mod transfers;

use bounce_hub::Hub;
use bumpalo::Bump;
use bus_dma::{DmaDriver, DmaError};
use busdma_base::{ByteList, Pa, Place, Scenario, TagLimits, Va};
use scenario_read::{Reading, scenario_of};
use std::alloc::{AllocError, Global};
use std::io;
use transfers::send;
use world_core::World;

/// Eight low frames, and a page of the driver in frame 0x1000, which the device does not reach.
const MACHINE: &str = r#"{"frames": [["0x10", 8], ["0x1000", 16]],
 "drivers": [{"pages": [["0x1000", "0x1000", 1]], "script": []}]}"#;

/// The device reaches addresses up to 0xffffff, and takes one segment of up to 4096 bytes.
const LIMITS: TagLimits = TagLimits {
    alignment: 1,
    boundary: 0,
    lowaddr: Pa(0xff_ffff),
    highaddr: Pa(u64::MAX),
    maxsize: 4096,
    nsegments: 1,
    maxsegsz: 4096,
    flags: 0,
};

/// Returns the machine, or `None` if its text is no scenario.
fn machine(alloc: Global) -> Result<Option<Scenario>, AllocError>
    ensures { IfOk result (λ machine. IfSome machine IsValid) }
{
    match scenario_of(alloc, MACHINE.as_bytes())? {
        Reading::Good(scenario) => Ok(Some(scenario)),
        Reading::Bad(_) => Ok(None),
    }
}

/// Returns the last driver of a machine and its hub, or `None` if the machine has no driver.
fn open<'s>(
    alloc: Global,
    arena: &'s Bump,
    machine: &'s Scenario,
) -> Result<Option<(DmaDriver<'s>, Hub)>, AllocError>
    requires { IsValid machine.now }
    ensures { IfOk result (λ parts. IfSome parts (λ parts. IsServed (state parts.0) (door parts.1))) }
{
    let (mut lanes, hub) = World::new(alloc, machine)?.into_parts();
    let Some(lane) = lanes.pop() else {
        return Ok(None);
    };
    Ok(Some((DmaDriver::new(alloc, arena, lane), hub)))
}

/// Makes a tag and a map, and sends five bytes. Returns what the device read.
fn work(alloc: Global, driver: &mut DmaDriver<'_>, hub: &mut Hub) -> Result<ByteList, DmaError>
    requires { IsServed (state driver.old) (door hub.old) }
{
    let tag = driver.tag_create(hub, None, LIMITS)?;
    let map = driver.map_create(hub, tag)?;
    send(driver, hub, alloc, map, Place::At(Va(0x1000)), b"hello")
}

/// Opens the machine, and has its driver work. Returns what the device read, or `None` if there is no driver.
fn transfer(alloc: Global) -> Result<Option<ByteList>, DmaError> {
    let Some(machine) = machine(alloc)? else {
        return Ok(None);
    };
    let arena = Bump::new(alloc);
    let Some((mut driver, mut hub)) = open(alloc, &arena, &machine)? else {
        return Ok(None);
    };
    Ok(Some(work(alloc, &mut driver, &mut hub)?))
}

fn main(rt: HostRuntime) -> io::Result<()> {
    match transfer(rt.alloc()) {
        Ok(Some(read)) => println!(rt; "the device read {:?}", read.as_slice()),
        Ok(None) => println!(rt; "there is no driver"),
        Err(error) => println!(rt; "not sent: {error}"),
    }
}
