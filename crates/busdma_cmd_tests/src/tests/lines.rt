//! The line of each status.

ghost use Rattle.std.specs.Prelude.{◌≡◌, ◌↔◌, ◌≢◌, IfOk, IsSome};
ghost use Rattle.program_rules.specs.Commands.Keeps.{IsStatus};

use busdma_cmd::{ProgramEnd, fault_line};
use scenario_read::{PathText, Refusal, RefusalKind};
use std::alloc::{AllocError, Global};
use std::process::Abort;
use std::test::Fail;

/// Checks that the line of an outcome is `want`, or that there is no line if `want` is empty.
fn is_told(rt: &impl Abort, alloc: Global, outcome: &ProgramEnd, want: &str) -> Result<(), Fail>
    requires known { IsStatus outcome.now.status }
    requires fault { IsSome outcome.now.fault ↔ (outcome.now.status ≡ 65) }
{
    match fault_line(alloc, outcome)? {
        Some(line) => assert_eq!(rt; line.as_slice(), want.as_bytes()),
        None => assert_eq!(rt; "", want),
    }
    Ok(())
}

/// Checks the line of a status without a refusal.
fn status_is_told(rt: &impl Abort, alloc: Global, status: u8, want: &str) -> Result<(), Fail>
    requires known { IsStatus status }
    requires unrefused { status ≢ 65 }
{
    let outcome = ProgramEnd {
        status,
        journal: None,
        fault: None,
    };
    is_told(rt, alloc, &outcome, want)
}

/// Returns the outcome of a refused scenario.
fn refused(alloc: Global) -> Result<ProgramEnd, AllocError>
    ensures status { IfOk result (λ outcome. outcome.status ≡ 65) }
    ensures fault { IfOk result (λ outcome. IsSome outcome.fault) }
{
    Ok(ProgramEnd {
        status: 65,
        journal: None,
        fault: Some(Refusal {
            kind: RefusalKind::BadField,
            path: PathText::new(String::from_str(alloc, "drivers[0]")?),
        }),
    })
}

#[test]
fn tells_why(rt: HostRuntime) -> Result<(), Fail> {
    let alloc = rt.alloc();
    status_is_told(&rt, alloc, 0, "")?;
    status_is_told(&rt, alloc, 1, "")?;
    status_is_told(&rt, alloc, 2, "")?;
    status_is_told(
        &rt,
        alloc,
        64,
        "usage: busdma_run replay | run | storm N SEED | check",
    )?;
    status_is_told(&rt, alloc, 66, "busdma_run: input is too long")?;
    status_is_told(&rt, alloc, 71, "busdma_run: out of memory")?;
    status_is_told(&rt, alloc, 73, "busdma_run: write failed")?;
    status_is_told(&rt, alloc, 74, "busdma_run: read failed")?;
    is_told(
        &rt,
        alloc,
        &refused(alloc)?,
        "busdma_run: bad scenario: BadField drivers[0]",
    )
}
