//! Two drivers in code, each on a thread, over one bounce lock. The first driver's load has all bounce pages, so the
//! second driver's load waits until the first driver has unloaded. Its callback then does the transfer.
#![tactic(auto)]

ghost use Rattle.busdma_base.specs.Scenarios.Valid.{IsValid};
ghost use Rattle.lane_core.specs.LaneIdeal.{ideal};
ghost use Rattle.lane_state.specs.Served.{IsServed};
ghost use Rattle.lane_threads.specs.PassDoor.{seen};

mod calls;
mod first;
mod machine;
mod seats;
mod second;
mod signals;

use bus_dma::DmaError;
use busdma_base::{ByteList, Scenario};
use first::first_driver;
use lane_threads::HubObject;
use machine::machine;
use seats::{Seat, take_seat};
use second::second_driver;
use signals::Signals;
use std::alloc::Global;
use std::io;
use std::sync::Wait;
use std::thread::{Threads, join};
use turnstile::Turnstile;
use world_core::opening_parts;

/// What the devices of the two drivers read.
type Reads = (ByteList, ByteList);

/// Has two drivers work, each on a thread. May wait forever.
fn run_both<Rt: Threads + Wait + Sync>(
    rt: &Rt,
    alloc: Global,
    first: Seat<'_, '_, Rt>,
    second: Seat<'_, '_, Rt>,
) -> Result<Reads, DmaError>
    requires first { IsServed (ideal first.lane) (seen first.door) }
    requires second { IsServed (ideal second.lane) (seen second.door) }
{
    let signals = Signals::new();
    let (first, second) = join(
        rt,
        || first_driver(rt, alloc, first, &signals),
        || second_driver(rt, alloc, second, &signals),
    );
    Ok((first?, second?))
}

/// Opens a machine and has its two drivers work. Returns `None` if it does not have two drivers. May wait forever.
fn run_machine<Rt: Threads + Wait + Sync>(
    rt: &Rt,
    alloc: Global,
    machine: &Scenario,
) -> Result<Option<Reads>, DmaError>
    requires { IsValid machine.now }
{
    let (mut lanes, hub) = opening_parts(alloc, machine)?;
    let names = lanes.len() as u32 + 1;
    let (turnstile, mut root) = Turnstile::new(alloc, HubObject::new(hub), names)?;
    let Some(second) = take_seat(rt, &turnstile, &mut root, &mut lanes) else {
        return Ok(None);
    };
    let Some(first) = take_seat(rt, &turnstile, &mut root, &mut lanes) else {
        return Ok(None);
    };
    Ok(Some(run_both(rt, alloc, first, second)?))
}

/// Makes the machine and runs it. Returns `None` if there is none, or if it does not have two drivers. May wait
/// forever.
fn run<Rt: Threads + Wait + Sync>(rt: &Rt, alloc: Global) -> Result<Option<Reads>, DmaError> {
    match machine(alloc)? {
        Some(machine) => run_machine(rt, alloc, &machine),
        None => Ok(None),
    }
}

fn main(rt: HostRuntime) -> io::Result<()> {
    match run(&rt, rt.alloc()) {
        Ok(Some((first, second))) => {
            println!(rt; "the first device read {:?}", first.as_slice())?;
            println!(rt; "the second device read {:?}", second.as_slice())
        }
        Ok(None) => println!(rt; "there are not two drivers"),
        Err(error) => println!(rt; "not done: {error}"),
    }
}
