//! What an item does, what an operation waits for, and how the script and the transfer queue go on.

ghost use Rattle.std.specs.Prelude.{◌≡◌, ◌<◌, ◌≤◌, ◌+◌, ◌-◌, [], ◌∷◌, true, false};
ghost use Rattle.std.specs.Prelude.{IfNone, IfOk, IfSome, OnErr, OnOk, OnSome};
ghost use Rattle.busdma_base.specs.declared.scenarios.script.Op.TheVariants.{Await};
ghost use Rattle.busdma_base.specs.Scenarios.Operations.{bytes_of};
ghost use Rattle.ideal_lane.specs.Accesses as accesses;
ghost use Rattle.ideal_lane.specs.Asking.{Gives};
ghost use Rattle.ideal_lane.specs.Sends as sends;
ghost use Rattle.ideal_lane.specs.Standing.{Stands};
ghost use Rattle.ideal_lane.specs.Turns as turns;
ghost use Rattle.ideal_wire.specs.WireStep as wires;
ghost use Rattle.lane_turns.specs.TakenTurns.{IsAtTurn as IsAt};
ghost use Rattle.lane_state.specs.Wire.{IsWired, wire_of};
ghost use Rattle.lane_state.specs.Changes.{KeepsButAgenda, KeepsState};
ghost use Rattle.lane_state.specs.Ideal.{given, ideal_of};

use busdma_base::{Answer, Bytes, Errno, Item, Op, QueuedItem};
use dma_map::MapState;
use dma_tag::SyncOps;
use lane_access::{dev_read, dev_read_at, dev_write, dev_write_at, sync, sync_range};
use lane_rings::ring_step;
use lane_state::{Holdings, Resend};
use std::alloc::{AllocError, Global};

/// Does an item, except for taking it out of the queue.
pub(crate) fn transfer(
    holdings: &mut Holdings<'_>,
    alloc: Global,
    item: &Item,
) -> Result<Answer, AllocError>
    requires wired { IsWired holdings.old }
    requires stands { Stands (ideal_of holdings.old) }
    ensures done { IfOk result (λ answer.
        Gives (given holdings.new answer) ≡ turns.transfer item.now (ideal_of holdings.old)) }
    ensures wire { OnOk result (wire_of holdings.new
        ≡ wires.wire_transfer item.now (ideal_of holdings.old) (wire_of holdings.old)) }
    ensures script { holdings.new.script ≡ holdings.old.script }
    ensures memories { holdings.new.memories ≡ holdings.old.memories }
    ensures agenda { holdings.new.agenda ≡ holdings.old.agenda }
    ensures err { OnErr result (KeepsState holdings.old holdings.new) }
{
    match item {
        Item::Sync { map, ops } => sync(holdings, alloc, *map, SyncOps(*ops)),
        Item::SyncRange { map, off, len, ops } => {
            sync_range(holdings, alloc, *map, *off, *len, SyncOps(*ops))
        }
        Item::DevRead { map, off, len } => dev_read(holdings, alloc, *map, *off, *len),
        Item::DevWrite { map, off, bytes } => write_item(holdings, alloc, *map, *off, bytes),
        Item::DevReadAt { tag, addr, len } => dev_read_at(holdings, alloc, *tag, *addr, *len),
        Item::DevWriteAt { tag, addr, bytes } => write_item_at(holdings, alloc, *tag, *addr, bytes),
        Item::RingStep { ring } => ring_step(holdings, alloc, *ring),
    }
}

/// Writes the bytes of an item for the device. Listed bytes are not copied first.
fn write_item(
    holdings: &mut Holdings<'_>,
    alloc: Global,
    map: u32,
    off: u64,
    bytes: &Bytes,
) -> Result<Answer, AllocError>
    requires wired { IsWired holdings.old }
    requires stands { Stands (ideal_of holdings.old) }
    ensures done { IfOk result (λ answer.
        Gives (given holdings.new answer) ≡ accesses.dev_write map off (bytes_of bytes.now) (ideal_of holdings.old)) }
    ensures wire { IfOk result (λ answer.
        wire_of holdings.new ≡ wires.wire_dev_write map off (bytes_of bytes.now) (ideal_of holdings.old) (wire_of holdings.old)) }
    ensures script { holdings.new.script ≡ holdings.old.script }
    ensures memories { holdings.new.memories ≡ holdings.old.memories }
    ensures agenda { holdings.new.agenda ≡ holdings.old.agenda }
    ensures err { OnErr result (KeepsState holdings.old holdings.new) }
{
    match bytes {
        Bytes::Listed(listed) => dev_write(holdings, alloc, map, off, listed.as_slice()),
        Bytes::Filled { .. } => {
            let filled = bytes.to_vec(alloc)?;
            dev_write(holdings, alloc, map, off, &filled)
        }
    }
}

/// Writes the bytes of an item at device addresses, for the device of an IOMMU tag. Listed bytes are not copied first.
fn write_item_at(
    holdings: &mut Holdings<'_>,
    alloc: Global,
    tag: u32,
    addr: u64,
    bytes: &Bytes,
) -> Result<Answer, AllocError>
    requires wired { IsWired holdings.old }
    requires stands { Stands (ideal_of holdings.old) }
    ensures done { IfOk result (λ answer.
        Gives (given holdings.new answer) ≡ accesses.dev_write_at tag addr (bytes_of bytes.now) (ideal_of holdings.old)) }
    ensures wire { IfOk result (λ answer.
        wire_of holdings.new ≡ wires.wire_dev_write_at tag addr (bytes_of bytes.now) (ideal_of holdings.old) (wire_of holdings.old)) }
    ensures script { holdings.new.script ≡ holdings.old.script }
    ensures memories { holdings.new.memories ≡ holdings.old.memories }
    ensures agenda { holdings.new.agenda ≡ holdings.old.agenda }
    ensures err { OnErr result (KeepsState holdings.old holdings.new) }
{
    match bytes {
        Bytes::Listed(listed) => dev_write_at(holdings, alloc, tag, addr, listed.as_slice()),
        Bytes::Filled { .. } => {
            let filled = bytes.to_vec(alloc)?;
            dev_write_at(holdings, alloc, tag, addr, &filled)
        }
    }
}

/// Returns whether an operation waits, so that it cannot step.
pub(crate) fn waits(holdings: &Holdings<'_>, op: &Op) -> bool
    ensures { result ≡ turns.waits op.now (ideal_of holdings.now) }
{
    match op {
        Op::Await { map } => is_awaited(holdings, *map),
        Op::Tag { .. }
        | Op::IommuTag { .. }
        | Op::TagDestroy { .. }
        | Op::Map { .. }
        | Op::MapDestroy { .. }
        | Op::Dmamem { .. }
        | Op::DmamemFree { .. }
        | Op::Load { .. }
        | Op::Unload { .. }
        | Op::Sync { .. }
        | Op::SyncRange { .. }
        | Op::CpuRead { .. }
        | Op::CpuWrite { .. }
        | Op::Ring { .. }
        | Op::RingPost { .. }
        | Op::Kick { .. } => false,
    }
}

/// Returns whether a map exists whose load waits, or that an item of the transfer queue names.
fn is_awaited(holdings: &Holdings<'_>, map: u32) -> bool
    ensures { result ≡ turns.waits (Await map) (ideal_of holdings.now) }
{
    let Some(kept) = holdings.maps.get(map) else {
        return false;
    };
    let MapState::Waiting = kept.map.state() else {
        return holdings.agenda.names(map);
    };
    true
}

/// Returns whether the callback of an operation with this answer is kept: the operation is a send that has too many
/// segments, and its clusters are enough.
fn is_kept(op: &Op, answer: &Answer) -> bool
    ensures { result ≡ sends.is_kept (sends.send_of op.now) answer.now }
{
    Resend::of(op).is_some() && is_too_big(answer)
}

/// Returns whether a load is refused because it has too many segments.
fn is_too_big(answer: &Answer) -> bool
    ensures { result ≡ sends.is_too_big answer.now }
{
    matches!(answer, Answer::Refused(Errno::EFBIG))
}

/// Goes on to the operation after this one, unless this one's callback is kept. Then its resend is due.
pub(crate) fn go_on(holdings: &mut Holdings<'_>, op: &Op, answer: &Answer)
    requires { holdings.old.agenda.place < holdings.old.agenda.length }
    ensures kept { sends.is_kept (sends.send_of op.now) answer.now ≡ true →
        IsAt holdings.old.agenda.place true holdings.old holdings.new }
    ensures gone { sends.is_kept (sends.send_of op.now) answer.now ≡ false →
        IsAt (holdings.old.agenda.place + 1) false holdings.old holdings.new }
{
    if is_kept(op, answer) {
        holdings.due = true;
    } else {
        advance(holdings);
    }
}

/// Goes on to the next operation, at which no resend is due.
pub(crate) fn advance(holdings: &mut Holdings<'_>)
    requires { holdings.old.agenda.place < holdings.old.agenda.length }
    ensures { IsAt (holdings.old.agenda.place + 1) false holdings.old holdings.new }
{
    holdings.agenda.advance();
    holdings.due = false;
}

/// Takes the first item out of the transfer queue. Returns `None` if the queue is empty.
pub(crate) fn pop_item(holdings: &mut Holdings<'_>) -> Option<QueuedItem>
    ensures item { IfSome result (λ item. holdings.old.agenda.queue ≡ item ∷ holdings.new.agenda.queue) }
    ensures room { OnSome result (holdings.new.agenda.room ≡ holdings.old.agenda.room + 1) }
    ensures agenda { holdings.new.agenda
        ≡ record holdings.old.agenda { queue = holdings.new.agenda.queue; room = holdings.new.agenda.room } }
    ensures empty { IfNone result (holdings.old.agenda.queue ≡ []) }
    ensures same { IfNone result (holdings.new ≡ holdings.old) }
    ensures rest { KeepsButAgenda holdings.old holdings.new }
{
    holdings.agenda.pop()
}

/// Puts an item back at the head of the transfer queue, from which it was taken.
pub(crate) fn put_item_back(holdings: &mut Holdings<'_>, item: QueuedItem)
    requires { 1 ≤ holdings.old.agenda.room }
    ensures agenda { holdings.new.agenda ≡ record holdings.old.agenda {
      queue = item ∷ holdings.old.agenda.queue;
      room = holdings.old.agenda.room - 1;
    } }
    ensures rest { KeepsButAgenda holdings.old holdings.new }
{
    holdings.agenda.put_back(item);
}
