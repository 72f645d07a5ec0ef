//! Sends. If the chain of a send has too many segments, it is copied to clusters and loaded from there again.

ghost use Rattle.std.specs.Prelude.{◌≡◌, option_map};
ghost use Rattle.ideal_lane.specs.Sends as sends;
ghost use Rattle.ideal_lane.specs.Sends.{due_send};
ghost use Rattle.lane_state.specs.Ideal.{ideal_of};
ghost use Rattle.lane_state.specs.Sends.{the_send};

use crate::holdings::Holdings;
use busdma_base::{Buffer, ItemList, Mbuf, Op, Span};

/// What a resend needs to know of its send: the map, the chain, the clusters as a vector of spans with as many bytes as
/// the chain, and the items that its callback appends.
#[derive(Clone, Copy)]
pub struct Resend<'s> {
    pub map: u32,
    pub chain: &'s [Mbuf],
    pub clusters: &'s [Span],
    pub items: &'s ItemList,
}

impl<'s> Resend<'s> {
    /// Returns the resend of an operation. Returns `None` if the operation is no send, or if its clusters are not
    /// enough.
    pub fn of(op: &'s Op) -> Option<Resend<'s>>
        ensures { option_map the_send result ≡ sends.send_of op.now }
    {
        match op {
            Op::Load {
                map,
                buffer,
                then,
                ..
            } => Resend::of_buffer(*map, buffer, then),
            Op::Tag { .. }
            | Op::IommuTag { .. }
            | Op::TagDestroy { .. }
            | Op::Map { .. }
            | Op::MapDestroy { .. }
            | Op::Dmamem { .. }
            | Op::DmamemFree { .. }
            | Op::Unload { .. }
            | Op::Sync { .. }
            | Op::SyncRange { .. }
            | Op::CpuRead { .. }
            | Op::CpuWrite { .. }
            | Op::Await { .. }
            | Op::Ring { .. }
            | Op::RingPost { .. }
            | Op::Kick { .. } => None,
        }
    }

    /// Returns the resend of the load of this buffer. Returns `None` if the buffer is no send's, or if its clusters are
    /// not enough.
    fn of_buffer(map: u32, buffer: &'s Buffer, items: &'s ItemList) -> Option<Resend<'s>>
        ensures { option_map the_send result ≡ sends.send_in map items.now buffer.now }
    {
        match buffer {
            Buffer::Send { chain, clusters } => {
                let clusters = clusters.as_ref()?;
                Some(Resend {
                    map,
                    chain: chain.as_slice(),
                    clusters: clusters.as_slice(),
                    items,
                })
            }
            Buffer::Flat { .. } | Buffer::Vector(_) | Buffer::Mbuf(_) | Buffer::Bio(_) => None,
        }
    }
}

impl<'s> Holdings<'s> {
    /// Returns the resend that is due. Returns `None` if no resend is due.
    pub fn due_resend(&self) -> Option<Resend<'s>>
        ensures { option_map the_send result ≡ due_send (ideal_of self.now) }
    {
        if !self.due {
            return None;
        }
        Resend::of(self.script.get(self.agenda.place())?)
    }
}
