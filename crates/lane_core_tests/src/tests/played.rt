//! A scenario's last driver at work.

ghost use Rattle.busdma_base.specs.Scenarios.Valid.{IsValid};

use crate::tests::calling::{Part, parts};
use crate::tests::opened::{open, read, steps};
use crate::tests::wanted::Want;
use busdma_base::Scenario;
use std::alloc::Global;
use std::process::Abort;
use std::test::Fail;

/// Makes the first steps of a scenario's last driver, and then the calls, and compares the answers.
fn play(
    rt: &impl Abort,
    alloc: Global,
    scenario: &Scenario,
    wants: &[Want],
    calls: &[Part],
) -> Result<(), Fail>
    requires { IsValid scenario.now }
{
    let (mut lane, mut hub) = open(rt, alloc, scenario)?;
    steps(rt, alloc, &mut lane, &mut hub, wants)?;
    parts(rt, alloc, &mut lane, calls)
}

/// Reads a scenario's text, makes the first steps of its last driver and then the calls. The test fails at the first
/// answer that is not the expected one.
///
/// # Errors
///
/// `Fail` if memory runs out.
pub fn plays(
    rt: &impl Abort,
    alloc: Global,
    text: &str,
    wants: &[Want],
    calls: &[Part],
) -> Result<(), Fail> {
    let scenario = read(rt, alloc, text)?;
    play(rt, alloc, &scenario, wants, calls)
}
