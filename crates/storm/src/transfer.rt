//! Makes the operations of one round.

ghost use Rattle.std.specs.Prelude.{◌≡◌, ◌++◌, OnOk, IfOk};
ghost use Rattle.program_rules.specs.Storms.Transfer as spec;

use busdma_base::{Buffer, Bytes, Item, ListOf, Op, Place, Va};
use dma_tag::SyncOps;
use program_rules::Transfer;
use std::alloc::{AllocError, Global};

/// Returns the transfer of a round that drew these numbers.
fn drawn(p: u64, q: u64) -> Transfer
    ensures { result ≡ spec.storm_transfer p q }
{
    let len = 1 + p / 8192 % 8192;
    Transfer {
        map: 1 + (p % 2) as u32,
        va: Va(0x10_0000 + 4096 * (q / 512 % 13) + p / 2 % 4096),
        len,
        touched: len.min(64),
        byte: (q / 2 % 256) as u8,
    }
}

fn filling(transfer: &Transfer) -> Bytes
    ensures { result ≡ Bytes.Filled transfer.now.byte transfer.now.touched }
{
    Bytes::Filled {
        byte: transfer.byte,
        len: transfer.touched,
    }
}

fn load_with(
    transfer: &Transfer,
    alloc: Global,
    before: SyncOps,
    work: Item,
    after: SyncOps,
) -> Result<Op, AllocError>
    ensures { IfOk result (λ o. o ≡ spec.load_with transfer.now before.0 work after.0) }
{
    let map = transfer.map;
    let then = vec![in alloc;
        Item::Sync { map, ops: before.0 },
        work,
        Item::Sync { map, ops: after.0 },
    ]?;
    Ok(Op::Load {
        map,
        buffer: Buffer::Flat {
            place: Place::At(transfer.va),
            len: transfer.len,
        },
        flags: 0,
        then: ListOf::new(then),
    })
}

fn push_to_device(
    transfer: &Transfer,
    alloc: Global,
    script: &mut Vec<Op>,
) -> Result<(), AllocError>
    ensures { OnOk result (script.new.items ≡ script.old.items ++ spec.to_device transfer.now) }
{
    let map = transfer.map;
    let read = Item::DevRead {
        map,
        off: 0,
        len: transfer.touched,
    };
    let load = load_with(transfer, alloc, SyncOps::PREWRITE, read, SyncOps::POSTWRITE)?;
    script.push(Op::CpuWrite {
        place: Place::At(transfer.va),
        bytes: filling(transfer),
    })?;
    script.push(load)?;
    script.push(Op::Await { map })?;
    script.push(Op::Unload { map })?;
    Ok(())
}

fn push_from_device(
    transfer: &Transfer,
    alloc: Global,
    script: &mut Vec<Op>,
) -> Result<(), AllocError>
    ensures { OnOk result (script.new.items ≡ script.old.items ++ spec.from_device transfer.now) }
{
    let map = transfer.map;
    let write = Item::DevWrite {
        map,
        off: 0,
        bytes: filling(transfer),
    };
    script.push(load_with(transfer, alloc, SyncOps::PREREAD, write, SyncOps::POSTREAD)?)?;
    script.push(Op::Await { map })?;
    script.push(Op::CpuRead {
        place: Place::At(transfer.va),
        len: transfer.touched,
    })?;
    script.push(Op::Unload { map })?;
    Ok(())
}

/// Appends the operations of a round that drew these numbers.
#[tactic(auto, unfolding(program_rules::specs::Storms::Transfer::round))]
pub(crate) fn push_round(
    alloc: Global,
    script: &mut Vec<Op>,
    p: u64,
    q: u64,
) -> Result<(), AllocError>
    ensures { OnOk result (script.new.items ≡ script.old.items ++ spec.round p q) }
{
    let transfer = drawn(p, q);
    if q % 2 == 0 {
        push_to_device(&transfer, alloc, script)
    } else {
        push_from_device(&transfer, alloc, script)
    }
}
