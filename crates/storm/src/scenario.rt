//! Makes the scenario of a storm.

ghost use Rattle.std.specs.Prelude.{◌≡◌, ◌*◌, ◌++◌, ◌≤◌, OnOk, IfOk};
ghost use Rattle.program_rules.specs.Storms.Generator.{drawn, next};
ghost use Rattle.program_rules.specs.Storms.Scenario as spec;

use crate::generator::Generator;
use crate::transfer::push_round;
use busdma_base::{Driver, FrameRun, ListOf, Name, Op, Pa, PageRun, Scenario, TagLimits, Va};
use std::alloc::{AllocError, Global};

const DRIVERS: u32 = 4;

/// The number of operations of a round.
const OPERATIONS: usize = 4;

const LIMITS: TagLimits = TagLimits {
    alignment: 1,
    boundary: 0,
    lowaddr: Pa(0xff_ffff),
    highaddr: Pa(u64::MAX),
    maxsize: 8192,
    nsegments: 4,
    maxsegsz: 0xffff_ffff,
    flags: 0,
};

fn named(alloc: Global, text: &str) -> Result<Name, AllocError>
    ensures { IfOk result (λ name. name ≡ text.now) }
{
    Ok(Name::new(String::from_str(alloc, text)?))
}

fn opening(alloc: Global) -> Result<Vec<Op>, AllocError>
    ensures { IfOk result (λ script. script.items ≡ spec.storm_setup) }
{
    let tag = Op::Tag {
        name: named(alloc, "t")?,
        parent: None,
        limits: LIMITS,
    };
    let first = Op::Map {
        name: named(alloc, "m0")?,
        tag: 0,
    };
    let second = Op::Map {
        name: named(alloc, "m1")?,
        tag: 0,
    };
    Ok(vec![in alloc; tag, first, second]?)
}

/// Appends the operations of the next round.
fn push_next(
    alloc: Global,
    script: &mut Vec<Op>,
    generator: &mut Generator,
) -> Result<(), AllocError>
    ensures script { OnOk result (script.new.items ≡ script.old.items ++ spec.round_after generator.old.last) }
    ensures drawn { generator.new.last ≡ next (next generator.old.last) }
{
    let p = generator.draw();
    let q = generator.draw();
    push_round(alloc, script, p, q)
}

fn push_rounds(
    alloc: Global,
    script: &mut Vec<Op>,
    n: u32,
    generator: &mut Generator,
) -> Result<(), AllocError>
    ensures script { OnOk result (script.new.items ≡ script.old.items ++ spec.storm_rounds n generator.old.last) }
    ensures drawn { OnOk result (generator.new.last ≡ drawn (2 * n) generator.old.last) }
{
    for _number in 0..n {
        push_next(alloc, script, generator)?;
    }
    Ok(())
}

fn pages(alloc: Global, number: u32) -> Result<Vec<PageRun>, AllocError>
    requires { number ≤ DRIVERS }
    ensures { IfOk result (λ pages. pages.items ≡ spec.pages number) }
{
    let run = PageRun {
        va: Va(0x10_0000),
        frame: 4096 + 16 * u64::from(number),
        count: 16,
    };
    Ok(vec![in alloc; run]?)
}

/// Makes the driver with this number. Its rounds draw the next numbers.
fn driver(
    alloc: Global,
    number: u32,
    n: u32,
    generator: &mut Generator,
) -> Result<Driver, AllocError>
    requires { number ≤ DRIVERS }
    ensures driver { IfOk result (λ driver. driver ≡ spec.driver_after number n generator.old.last) }
    ensures drawn { OnOk result (generator.new.last ≡ drawn (2 * n) generator.old.last) }
{
    let mut script = opening(alloc)?;
    script.reserve(OPERATIONS * n as usize)?;
    push_rounds(alloc, &mut script, n, generator)?;
    Ok(Driver {
        pages: ListOf::new(pages(alloc, number)?),
        script: ListOf::new(script),
    })
}

fn drivers(alloc: Global, n: u32, seed: u64) -> Result<Vec<Driver>, AllocError>
    ensures { IfOk result (λ drivers. drivers.items ≡ (spec.storm_scenario n seed).drivers) }
{
    let mut generator = Generator { last: seed };
    let mut drivers = Vec::new(alloc);
    for number in 0..DRIVERS {
        drivers.push(driver(alloc, number, n, &mut generator)?)?;
    }
    Ok(drivers)
}

/// Makes a storm of `n` rounds. Four drivers with two maps each do the rounds. A round is a load, its
/// transfer and its end, with numbers drawn from the seed. All loads bounce, and the zone has too few pages
/// for all of them.
///
/// # Errors
///
/// `AllocError` if memory runs out.
pub fn storm_scenario(alloc: Global, n: u32, seed: u64) -> Result<Scenario, AllocError>
    requires rounds { 1 ≤ n }
    requires few { n ≤ 256 }
    requires seed { 1 ≤ seed }
    ensures { IfOk result (λ scenario. scenario ≡ spec.storm_scenario n seed) }
{
    let low = FrameRun {
        first: 16,
        count: 32,
    };
    let high = FrameRun {
        first: 4096,
        count: 64,
    };
    Ok(Scenario {
        frames: ListOf::new(vec![in alloc; low, high]?),
        max_bpages: 4,
        drivers: ListOf::new(drivers(alloc, n, seed)?),
        order: ListOf::new(Vec::new(alloc)),
    })
}
