//! A driver in code, opened and at work.

ghost use Rattle.std.specs.Prelude.{IfOk};
ghost use Rattle.busdma_base.specs.Scenarios.Valid.{IsValid};
ghost use Rattle.bounce_hub.specs.Seen.{door};
ghost use Rattle.bus_dma.specs.State.{state};
ghost use Rattle.lane_state.specs.Served.{IsServed};

use crate::tests::calls::Call;
use crate::tests::wanted::Want;
use bounce_hub::Hub;
use bumpalo::Bump;
use bus_dma::DmaDriver;
use busdma_base::Scenario;
use scenario_read::{Reading, scenario_of};
use std::alloc::{AllocError, Global};
use std::process::Abort;
use std::test::Fail;
use world_core::World;

/// A call, and the answer that is expected of it.
pub type Row<'a> = (Call<'a>, Want<'a>);

/// Reads the machine of a text. The test fails if the text is no scenario.
///
/// # Errors
///
/// `AllocError` if memory runs out.
fn read(rt: &impl Abort, alloc: Global, text: &str) -> Result<Scenario, AllocError>
    ensures { IfOk result IsValid }
{
    match scenario_of(alloc, text.as_bytes())? {
        Reading::Good(machine) => Ok(machine),
        Reading::Bad(refusal) => panic!(rt; "{refusal:?}"),
    }
}

/// Opens the last driver of a machine, and its hub. The test fails if there is no driver.
///
/// # Errors
///
/// `AllocError` if memory runs out.
fn open<'s>(
    rt: &impl Abort,
    alloc: Global,
    arena: &'s Bump,
    machine: &'s Scenario,
) -> Result<(DmaDriver<'s>, Hub), AllocError>
    requires { IsValid machine.now }
    ensures { IfOk result (λ parts. IsServed (state parts.0) (door parts.1)) }
{
    let (mut lanes, hub) = World::new(alloc, machine)?.into_parts();
    let Some(lane) = lanes.pop() else {
        panic!(rt; "there is no driver")
    };
    Ok((DmaDriver::new(alloc, arena, lane), hub))
}

/// Makes calls in order. The test fails at the first answer that is not the expected one.
fn make_all(rt: &impl Abort, alloc: Global, driver: &mut DmaDriver<'_>, hub: &mut Hub, rows: &[Row])
    requires { IsServed (state driver.old) (door hub.old) }
{
    for (row, (call, want)) in rows.iter().enumerate() {
        let got = call.make(alloc, driver, hub);
        assert!(rt; want.is_right(&got), "row {row}: {got:?}");
    }
}

/// Opens the last driver of a machine, with its operations in an arena, and makes calls.
fn play_in(
    rt: &impl Abort,
    alloc: Global,
    arena: &Bump,
    machine: &Scenario,
    rows: &[Row],
) -> Result<(), AllocError>
    requires { IsValid machine.now }
{
    let (mut driver, mut hub) = open(rt, alloc, arena, machine)?;
    make_all(rt, alloc, &mut driver, &mut hub, rows);
    Ok(())
}

/// Makes calls of the last driver of a machine.
fn play(rt: &impl Abort, alloc: Global, machine: &Scenario, rows: &[Row]) -> Result<(), AllocError>
    requires { IsValid machine.now }
{
    let arena = Bump::new(alloc);
    play_in(rt, alloc, &arena, machine, rows)
}

/// Reads the machine of a text, and makes calls of its last driver. The test fails at the first answer that is not the
/// expected one.
///
/// # Errors
///
/// `Fail` if memory runs out.
pub fn plays(rt: &impl Abort, alloc: Global, text: &str, rows: &[Row]) -> Result<(), Fail> {
    let machine = read(rt, alloc, text)?;
    play(rt, alloc, &machine, rows)?;
    Ok(())
}
