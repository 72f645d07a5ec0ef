ghost use Rattle.std.specs.Prelude.{◌≡◌, ◌+◌, ◌^◌, ◌<◌, All, IfOk};
ghost use denote.Param.Send.{IsSync};

use crate::{Counter, Pass, Turnstile};
use std::alloc::{AllocError, Global};
use std::sync::Wait;
use std::test::Fail;
use std::thread;
use std::thread::Threads;

#[test]
fn two_names(rt: HostRuntime) -> Result<(), Fail> {
    let alloc = rt.alloc();
    let (turnstile, mut first) = Turnstile::new(alloc, Counter::new(alloc), 2)?;
    let Some(mut second) = turnstile.split(&mut first, 1) else {
        panic!(rt; "the name 1 is free")
    };
    assert!(rt; first.name() == 0 && second.name() == 1);
    assert!(rt; turnstile.split(&mut first, 1).is_none());
    assert!(rt; turnstile.split(&mut second, 0).is_none());
    assert!(rt; turnstile.hold(&rt, &mut first, 1)? == 1);
    assert!(rt; turnstile.hold(&rt, &mut second, 2)? == 3);
    turnstile.join(&mut first, second);
    assert!(rt; turnstile.split(&mut first, 1).is_none());
    let counter = turnstile.close(&rt, first);
    assert!(rt; counter.total() == 3 && counter.history() == [1, 2].as_slice());
    Ok(())
}

// How many calls each of the four makes.
const CALLS: u64 = 1000;

// Adds a thousand numbers, from a thousand times the pass's name on.
fn add_thousand<R: Wait>(
    rt: &R,
    turnstile: &Turnstile<Counter>,
    pass: &mut Pass<Counter>,
) -> Result<(), AllocError>
    requires { pass.old.turnstile ≡ turnstile.now.id }
    ensures { pass.new.turnstile ≡ pass.old.turnstile }
{
    let first = u64::from(pass.name()) * CALLS;
    for i in 0..CALLS {
        turnstile.hold(rt, pass, first + i)?;
    }
    Ok(())
}

// Each pass in a thread of its own.
fn add_all<R: Threads + Wait + Sync>(
    rt: &R,
    turnstile: &Turnstile<Counter>,
    passes: Vec<Pass<Counter>>,
) -> Result<Vec<Pass<Counter>>, AllocError>
    requires { All (λ p. p.turnstile ≡ turnstile.now.id) passes.items }
    ensures { IfOk result (λ v. All (λ p. p.turnstile ≡ turnstile.now.id) v.items) }
{
    thread::map_vec(
        rt,
        passes,
        &|pass: Pass<Counter>| -> Pass<Counter>
            requires { IsSync R.row × (pass.turnstile ≡ turnstile.now.id) }
            ensures { result.turnstile ≡ turnstile.entry.now.id }
        {
            let mut pass = pass;
            let _added = add_thousand(rt, turnstile, &mut pass);
            pass
        },
    )
}

fn join_all(turnstile: &Turnstile<Counter>, into: &mut Pass<Counter>, passes: Vec<Pass<Counter>>)
    requires into { into.old.turnstile ≡ turnstile.now.id }
    requires passes { All (λ p. p.turnstile ≡ turnstile.now.id) passes.items }
    ensures { into.new.turnstile ≡ into.old.turnstile }
{
    for pass in passes {
        turnstile.join(into, pass);
    }
}

// The passes with the names 1 to 4.
fn four_passes(
    alloc: Global,
    turnstile: &Turnstile<Counter>,
    first: &mut Pass<Counter>,
) -> Result<Vec<Pass<Counter>>, AllocError>
    requires first { first.old.turnstile ≡ turnstile.now.id }
    requires names { turnstile.now.names ≡ 5 }
    ensures first { first.new.turnstile ≡ first.old.turnstile }
    ensures passes { IfOk result (λ v. All (λ p. p.turnstile ≡ turnstile.now.id) v.items) }
{
    let mut passes = Vec::new(alloc);
    for name in 1..5 {
        if let Some(pass) = turnstile.split(first, name) {
            passes.push(pass)?;
        }
    }
    Ok(passes)
}

// Each thread's numbers come in its order.
fn is_merge(numbers: &[u64]) -> bool {
    let mut next = [1000u64, 2000, 3000, 4000];
    for number in numbers {
        let thread = *number / CALLS;
        if thread < 1 || 4 < thread {
            return false;
        }
        let place = thread as usize - 1;
        if next[place] != *number {
            return false;
        }
        next[place] = next[place].wrapping_add(1);
    }
    true
}

#[test]
fn four_threads(rt: HostRuntime) -> Result<(), Fail> {
    let alloc = rt.alloc();
    let (turnstile, mut first) = Turnstile::new(alloc, Counter::new(alloc), 5)?;
    let passes = four_passes(alloc, &turnstile, &mut first)?;
    assert!(rt; passes.len() == 4);
    let passes = add_all(&rt, &turnstile, passes)?;
    join_all(&turnstile, &mut first, passes);
    let counter = turnstile.close(&rt, first);
    assert!(rt; counter.history().len() == 4000 && is_merge(counter.history()));
    Ok(())
}
