//! A map: the object by which a driver loads buffers.

ghost use Rattle.std.specs.Prelude.{◌≡◌, ◌^◌, ◌<◌, true, false, Some, None};
ghost use Rattle.std.specs.List.{AllByRecursion};
ghost use Rattle.std.specs.Option.{option_map};
ghost use Rattle.ring_device.specs.Ends.{EndsLow};
ghost use Rattle.busdma_rules.specs.Rings.Ranges.{address_of, segments_byte_count, place_of};
ghost use Rattle.dma_map.specs.declared.state.MapState.TheVariants.{Idle, Waiting, Loaded, Returning};
ghost use Rattle.busdma_machine.specs.Machine.PageList.{page_frames};
ghost use Rattle.dma_map.specs.MapView.{idle, waiting, loaded, state_of, held_waiting_load, held_chunks, segments_of};
ghost use Rattle.dma_map.specs.MapView.{held_pages_of, lent_frames, with_pages, without_pages, left_by};

use crate::callback::Callback;
use crate::room::LoadRoom;
use crate::segments::LoadSegments;
use crate::state::MapState;
use busdma_base::{Chunk, ChunkList, MapId, Pa, PageList, Segment, SegmentList, ZoneId};
use std::marker::Model;
use std::mem;
use std::snapshot::Snapshot;

/// What a load left in its map apart from its pages.
#[derive(Drop)]
struct Load {
    bounced: ChunkList,
    segments: LoadSegments,
}

/// What a map holds in each of its states. While its pages are lent out, the map remembers them only for
/// contracts.
#[derive(Drop)]
enum Held<C> {
    Idle,
    Waiting {
        load_at: u32,
        callback: C,
        room: LoadRoom,
    },
    Loaded {
        load: Load,
        pages: PageList,
    },
    Lent {
        load: Load,
        pages: Snapshot<PageList>,
    },
    Returning,
}

/// A map of a tag, with what its load left there, after `bus_dmamap_create(9)`. No call takes memory.
#[derive(Drop)]
pub struct DmaMap<C: Callback> {
    id: MapId,
    zone: Option<ZoneId>,
    tried: bool,
    held: Held<C>,
}

impl<C: Callback> Model for DmaMap<C> {
    ghost use Rattle.dma_map.specs.MapView.{MapView};

    ghost Value = { MapView C };

    ghost use Rattle.dma_map.specs.Held.{held_stage as stage_of};

    ghost view = { λ m. record {
      id = m.id;
      zone = m.zone;
      tried = m.tried;
      stage = stage_of m.held;
    } };
}

impl<C: Callback> DmaMap<C> {
    /// Makes an idle map. `zone` is the zone of its bounce pages, or `None` if its tag never bounces.
    pub fn new(id: MapId, zone: Option<ZoneId>) -> DmaMap<C>
        ensures { result ≡ record { id = id; zone = zone; tried = false; stage = idle } }
    {
        DmaMap {
            id,
            zone,
            tried: false,
            held: Held::Idle,
        }
    }

    /// Returns the map's name.
    pub fn id(&self) -> MapId
        ensures { result ≡ self.now.id }
    {
        self.id
    }

    /// Returns the zone of the map's bounce pages, or `None` if its tag never bounces.
    pub fn zone(&self) -> Option<ZoneId>
        ensures { result ≡ self.now.zone }
    {
        self.zone
    }

    /// Returns the state of the map. A map whose pages are lent out is `Loaded`.
    pub fn state(&self) -> MapState
        ensures { result ≡ state_of self.now.stage }
    {
        match &self.held {
            Held::Idle => MapState::Idle,
            Held::Waiting { .. } => MapState::Waiting,
            Held::Loaded { .. } | Held::Lent { .. } => MapState::Loaded,
            Held::Returning => MapState::Returning,
        }
    }

    /// Returns whether a load of the map has called or stored a callback.
    pub fn tried(&self) -> bool
        ensures { result ≡ self.now.tried }
    {
        self.tried
    }

    /// Notes a load that ended in `EINVAL` or `ENOMEM`.
    pub fn note_tried(&mut self)
        requires { state_of self.old.stage ≡ Idle }
        ensures { self.new ≡ record self.old { tried = true } }
    {
        self.tried = true;
    }

    /// Keeps the callback of a load that waits for bounce pages, with the load's place in the script and the
    /// room that its completion uses. The map is then `Waiting`.
    pub fn wait(&mut self, load_at: u32, callback: C, room: LoadRoom)
        requires { state_of self.old.stage ≡ Idle }
        ensures { self.new ≡ record self.old { tried = true; stage = waiting load_at callback room } }
    {
        self.tried = true;
        self.held = Held::Waiting {
            load_at,
            callback,
            room,
        };
    }

    /// Removes the load that waits, and returns its place in the script, its callback and its room. The map
    /// is then `Idle`.
    pub fn take_waiting(&mut self) -> (u32, C, LoadRoom)
        requires { state_of self.old.stage ≡ Waiting }
        ensures taken { held_waiting_load self.old.stage ≡ Some result }
        ensures idle { self.new ≡ record self.old { stage = idle } }
    {
        match mem::replace(&mut self.held, Held::Idle) {
            Held::Waiting {
                load_at,
                callback,
                room,
            } => (load_at, callback, room),
            _ => unreachable!(),
        }
    }

    /// Stores what a load ended with: its bounced chunks, its segments and its bounce pages, each in the
    /// order of the load's bytes. After `EFBIG` there are no segments, and `unload` gives the pages back.
    pub fn finish(&mut self, bounced: ChunkList, segments: SegmentList, pages: PageList)
        requires { state_of self.old.stage ≡ Idle }
        ensures { self.new ≡ record self.old { tried = true; stage = loaded bounced segments pages } }
    {
        self.tried = true;
        self.held = Held::Loaded {
            load: Load {
                bounced,
                segments: LoadSegments::new(segments),
            },
            pages,
        };
    }

    /// Returns the bounced chunks that `finish` stored, or an empty slice if the map is not `Loaded`.
    pub fn chunks(&self) -> &[Chunk]
        ensures { result.now ≡ held_chunks self.now.stage }
    {
        match &self.held {
            Held::Loaded { load, .. } | Held::Lent { load, .. } => load.bounced.as_slice(),
            Held::Idle | Held::Waiting { .. } | Held::Returning => &[],
        }
    }

    /// Returns the segments that `finish` stored, or an empty slice if the map is not `Loaded`.
    pub fn segments(&self) -> &[Segment]
        ensures { result.now ≡ segments_of self.now.stage }
    {
        match &self.held {
            Held::Loaded { load, .. } | Held::Lent { load, .. } => load.segments.as_slice(),
            Held::Idle | Held::Waiting { .. } | Held::Returning => &[],
        }
    }

    /// Returns the offset in the load, in bytes, of the `len` bytes from the bus address `addr` on, in the
    /// first segment that has all of them, or `None` if no segment has all of them. If the load has many
    /// segments and all lie elsewhere, no segment is looked at.
    pub fn find(&self, addr: u64, len: u64) -> Option<u64>
        requires { segments_byte_count (segments_of self.now.stage) < 2 ^ 64 }
        ensures { result ≡ place_of addr len (segments_of self.now.stage) }
    {
        match &self.held {
            Held::Loaded { load, .. } | Held::Lent { load, .. } => load.segments.find(addr, len),
            Held::Idle | Held::Waiting { .. } | Held::Returning => None,
        }
    }

    /// Returns the bus address of the byte `off` of the load. Returns `None` if no segment has the byte, or
    /// if its segment does not have all of the `len` bytes from there on. No segment that has a byte ends
    /// above 2^64.
    pub fn address_of(&self, off: u64, len: u64) -> Option<Pa>
        requires short { segments_byte_count (segments_of self.now.stage) < 2 ^ 64 }
        requires low { AllByRecursion EndsLow (segments_of self.now.stage) }
        ensures { option_map (λ pa. pa.0) result ≡ address_of off len (segments_of self.now.stage) }
    {
        match &self.held {
            Held::Loaded { load, .. } | Held::Lent { load, .. } => load
                .segments
                .address_of(off, len),
            Held::Idle | Held::Waiting { .. } | Held::Returning => None,
        }
    }

    /// Lends the bounce pages out, until `restore_pages` gives them back.
    pub fn lend_pages(&mut self) -> PageList
        requires loaded { state_of self.old.stage ≡ Loaded }
        requires unlent { lent_frames self.old.stage ≡ None }
        ensures pages { held_pages_of self.old.stage ≡ Some result }
        ensures lent { self.new ≡ record self.old { stage = without_pages result.items self.old.stage } }
    {
        match mem::replace(&mut self.held, Held::Idle) {
            Held::Loaded { load, pages } => {
                self.held = Held::Lent {
                    load,
                    pages: Snapshot::of(&pages),
                };
                pages
            }
            _ => unreachable!(),
        }
    }

    /// Takes the lent pages back: the same frames in the same order. Their bytes can have changed.
    pub fn restore_pages(&mut self, pages: PageList)
        requires { lent_frames self.old.stage ≡ Some (page_frames pages.items) }
        ensures { self.new ≡ record self.old { stage = with_pages pages self.old.stage } }
    {
        match mem::replace(&mut self.held, Held::Idle) {
            Held::Lent { load, pages: _ } => self.held = Held::Loaded { load, pages },
            _ => unreachable!(),
        }
    }

    /// Ends the load, and gives its bounce pages away to be released, in the order of `finish`. The map is
    /// `Returning` until they are released, or `Idle` if there are none. After `bus_dmamap_unload(9)`.
    pub fn unload(&mut self) -> PageList
        requires loaded { state_of self.old.stage ≡ Loaded }
        requires unlent { lent_frames self.old.stage ≡ None }
        ensures pages { held_pages_of self.old.stage ≡ Some result }
        ensures left { self.new ≡ record self.old { stage = left_by result.items } }
    {
        match mem::replace(&mut self.held, Held::Idle) {
            Held::Loaded { load: _, pages } => {
                if !pages.is_empty() {
                    self.held = Held::Returning;
                }
                pages
            }
            _ => unreachable!(),
        }
    }

    /// Notes that the last page was released. The map is then `Idle`.
    pub fn returned(&mut self)
        requires { state_of self.old.stage ≡ Returning }
        ensures { self.new ≡ record self.old { stage = idle } }
    {
        self.held = Held::Idle;
    }
}
