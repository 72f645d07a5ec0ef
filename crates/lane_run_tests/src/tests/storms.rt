//! Storms on threads. In each storm four drivers contend for few bounce pages.

ghost use Rattle.std.specs.Prelude.{◌≤◌};

use crate::tests::judging::is_legal;
use crate::tests::opened::Open;
use busdma_base::End;
use lane_run::run_lanes;
use std::alloc::{AllocError, Global};
use std::sync::Wait;
use std::test::Fail;
use std::thread::Threads;
use storm::{storm_scenario, storms_are_valid};

/// Returns whether the run of a storm on threads finishes with a legal journal.
fn is_right<R: Threads + Wait + Sync>(
    rt: &R,
    alloc: Global,
    n: u32,
    seed: u64,
) -> Result<bool, AllocError>
    requires rounds { 1 ≤ n }
    requires few { n ≤ 256 }
    requires seed { 1 ≤ seed }
{
    let scenario = storm_scenario(alloc, n, seed)?;
    storms_are_valid();
    let journal = run_lanes(rt, alloc, &scenario, &Open)?;
    Ok(journal.end == End::Finished && is_legal(alloc, &scenario, &journal)?)
}

/// Returns whether the 160 storms with the seeds from this one on are right.
fn are_right<R: Threads + Wait + Sync>(
    rt: &R,
    alloc: Global,
    first: u64,
) -> Result<bool, AllocError>
    requires low { 1 ≤ first }
    requires high { first ≤ 1000 }
{
    for more in 0..160u64 {
        if !is_right(rt, alloc, 1, first + more)? {
            return Ok(false);
        }
    }
    Ok(true)
}

#[test]
fn small_storms(rt: HostRuntime) -> Result<(), Fail> {
    assert!(rt; are_right(&rt, rt.alloc(), 1)?);
    Ok(())
}

#[test]
fn more_storms_and_a_larger_one(rt: HostRuntime) -> Result<(), Fail> {
    assert!(rt; are_right(&rt, rt.alloc(), 161)?);
    assert!(rt; is_right(&rt, rt.alloc(), 16, 7)?);
    Ok(())
}
