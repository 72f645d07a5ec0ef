//! A hub in a turnstile, and the passes of its two lanes.

ghost use Rattle.std.specs.Prelude.{◌≡◌, ◌<◌, ◌+◌, IfOk};
ghost use Rattle.lane_threads_tests.specs.Passes.{StartsAt};

use bounce_hub::Hub;
use busdma_machine::{LaneId, Pa, TagLimits, ZoneId};
use frame_bank::FrameBank;
use lane_threads::HubObject;
use std::alloc::{AllocError, Global};
use std::process::Abort;
use turnstile::{Pass, Turnstile};

/// The frames 0x10 to 0x17 and 0x1000 to 0x100f.
const FRAMES: [u64; 24] = [
    0x10, 0x11, 0x12, 0x13, 0x14, 0x15, 0x16, 0x17, 0x1000, 0x1001, 0x1002, 0x1003, 0x1004, 0x1005,
    0x1006, 0x1007, 0x1008, 0x1009, 0x100a, 0x100b, 0x100c, 0x100d, 0x100e, 0x100f,
];

/// The zone of all maps.
pub const ZONE: ZoneId = ZoneId(0);

/// Limits that reach up to the end of frame 0xfff.
pub const LOW: TagLimits = TagLimits {
    alignment: 1,
    boundary: 0,
    lowaddr: Pa(0xffffff),
    highaddr: Pa(u64::MAX),
    maxsize: 8192,
    nsegments: 4,
    maxsegsz: 8192,
    flags: 0,
};

/// Puts a hub of these frames into a turnstile with three names, and returns it with the first pass.
///
/// # Errors
///
/// `AllocError` if memory runs out.
pub fn open(
    alloc: Global,
    max_bpages: u32,
) -> Result<(Turnstile<HubObject>, Pass<HubObject>), AllocError>
    ensures names { IfOk result (λ r. r.0.names ≡ 3) }
    ensures first { IfOk result (λ r. StartsAt r.0.id r.1) }
{
    let bank = FrameBank::of_frames(alloc, &FRAMES)?;
    let hub = Hub::new(alloc, bank, max_bpages, 0x1010);
    Turnstile::new(alloc, HubObject::new(hub), 3)
}

/// Splits the pass of a lane from the first one. The test fails if the pass's name is taken.
pub fn pass_of(
    rt: &impl Abort,
    turnstile: &Turnstile<HubObject>,
    first: &mut Pass<HubObject>,
    lane: LaneId,
) -> Pass<HubObject>
    requires lane { lane.0 < 2 }
    requires names { turnstile.now.names ≡ 3 }
    requires first { StartsAt turnstile.now.id first.old }
    ensures first { StartsAt turnstile.now.id first.new }
    ensures starts { StartsAt turnstile.now.id result }
    ensures name { result.name ≡ lane.0 + 1 }
{
    let Some(pass) = turnstile.split(first, lane.0 + 1) else {
        panic!(rt; "the name is taken")
    };
    pass
}
