//! Resends: a chain is copied to clusters, and loaded again from there.

ghost use Rattle.std.specs.Prelude.{◌≡◌, ◌≤◌, length, IfNone, IfSome, OnOk};
ghost use Rattle.lane_state.specs.Ideal.{ideal_of};
ghost use Rattle.lane_state.specs.Sends.{the_send};
ghost use Rattle.lane_sends.specs.Resends.{AreCopied, AreItsExtents, IsResent, IsStopped, IsUnrefused, KeepsForResend};
ghost use Rattle.lane_sends.specs.Resends.{MayCopy, MayResend};

use busdma_base::{Answer, Extent, HubDoor, Judged, Report, ReportName};
use dma_map::MapState;
use lane_loads::load;
use lane_state::{Answered, Holdings, LoadBytes, Resend, unheld};
use mbuf_defrag::copy;
use std::alloc::{AllocError, Global};

/// Makes the resend that is due: the clusters get the bytes of the chain and are loaded. The script's place does not
/// move here. The load of a resend never waits.
///
/// A resend is refused with a report if its map is not idle, if its clusters cannot be loaded, if its chain cannot be
/// read, or if its clusters cannot be written. The load looks at none of the bytes. So they are copied after it, when
/// no memory can run out any more. This project's own rule, after network drivers that copy such a chain by
/// `m_defrag(9)`.
///
/// # Errors
///
/// `AllocError` if memory runs out, here or at the door. The driver and its bytes are then unchanged, no byte is
/// copied, and the call is not in the door's history.
pub fn resend<'s, D: HubDoor>(
    holdings: &mut Holdings<'s>,
    alloc: Global,
    door: &mut D,
    resend: Resend<'s>,
) -> Result<Answered, AllocError>
    requires { MayResend (the_send resend) holdings.old (D.seen door.old) }
    ensures resent { IsResent (the_send resend.entry) holdings.old holdings.new (D.seen door.old) (D.seen door.new)
        result }
    ensures fixed { D.fixed door.new ≡ D.fixed door.old }
{
    let from = holdings.extents(alloc, resend.chain)?;
    let to = holdings.extents(alloc, resend.clusters)?;
    if let Some(refusal) = refusal_of(holdings, resend, &from, &to) {
        return Ok(unheld(Answer::Report(refusal)));
    }
    make_room(holdings, alloc, &to)?;
    let clusters = LoadBytes::Spans(resend.clusters);
    let loaded = load(
        holdings,
        alloc,
        door,
        resend.map,
        clusters,
        true,
        resend.items,
    )?;
    copy_bytes(holdings, &from, &to);
    Ok(loaded)
}

/// Returns the refusal of a resend whose chain and clusters are in these extents: by its map, by the load of its
/// clusters, by reading its chain, or by writing its clusters. Returns `None` if the resend is not refused.
fn refusal_of(
    holdings: &Holdings<'_>,
    resend: Resend<'_>,
    from: &[Extent],
    to: &[Extent],
) -> Option<Report>
    requires { AreItsExtents holdings.now (the_send resend) from.now to.now }
    ensures refused { IfSome result (IsStopped (ideal_of holdings.now) (the_send resend.entry)) }
    ensures fine { IfNone result (IsUnrefused (ideal_of holdings.now) (the_send resend.entry)) }
{
    let Some(kept) = holdings.maps.get(resend.map) else {
        return Some(Report {
            name: ReportName::Absent,
            at: 0,
        });
    };
    let MapState::Idle = kept.map.state() else {
        return Some(Report {
            name: ReportName::MapBusy,
            at: 0,
        });
    };
    let clusters = LoadBytes::Spans(resend.clusters);
    if let Judged::Refused(refusal) = holdings.judge_load(resend.map, clusters) {
        return Some(refusal);
    }
    if let Judged::Refused(refusal) = holdings.loans.may_cpu_read(from) {
        return Some(refusal);
    }
    if let Judged::Refused(refusal) = holdings.loans.may_cpu_write(to) {
        return Some(refusal);
    }
    None
}

/// Makes room to mark the bytes of these extents as Known.
fn make_room(
    holdings: &mut Holdings<'_>,
    alloc: Global,
    extents: &[Extent],
) -> Result<(), AllocError>
    ensures room { OnOk result (length extents.now ≤ holdings.new.loans.spare) }
    ensures same { KeepsForResend holdings.old holdings.new }
{
    let parts = u32::try_from(extents.len()).map_err(|_| AllocError)?;
    holdings.loans.reserve(alloc, parts)
}

/// Copies the bytes of extents to as many others, in order, and marks these as Known. There is room to mark them.
fn copy_bytes(holdings: &mut Holdings<'_>, from: &[Extent], to: &[Extent])
    requires { MayCopy holdings.old from.now to.now }
    ensures { AreCopied from.now to.now holdings.old holdings.new }
{
    copy(from, to, &mut holdings.memory);
    holdings.loans.note_write(to);
}
