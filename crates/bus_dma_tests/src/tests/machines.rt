//! The machines of the tests, and the limits of their devices.

use busdma_base::{LaneId, MapId, Pa, Place, SpaceLimits, TagLimits, Va};

/// Eight low frames from 0x10 on, and a page of the driver in the frame 0x1000, which the device of a low tag does not
/// reach.
pub const ROOMY: &str = r#"{"frames": [["0x10", 8], ["0x1000", 16]],
 "drivers": [{"pages": [["0x1000", "0x1000", 1]], "script": []}]}"#;

/// One low frame, so at most one load of a low device has a bounce page, and two pages of the driver.
pub const NARROW: &str = r#"{"frames": [["0x10", 1], ["0x1000", 16]],
 "drivers": [{"pages": [["0x1000", "0x1000", 2]], "script": []}]}"#;

/// A driver with a script of its own: it loads four bytes, into which its device writes.
pub const SCRIPTED: &str = r#"{"frames": [["0x10", 1], ["0x1000", 16]],
 "drivers": [{"pages": [["0x1000", "0x1000", 1]], "script": [
    {"op": "tag", "name": "t", "lowaddr": "0xffffff", "maxsize": 4096},
    {"op": "map", "name": "m", "tag": "t"},
    {"op": "load", "map": "m", "va": "0x1000", "len": 4, "then": [
      {"op": "sync", "map": "m", "ops": ["PREREAD"]},
      {"op": "dev_write", "map": "m", "off": 0, "fill": 7, "len": 4},
      {"op": "sync", "map": "m", "ops": ["POSTREAD"]}]}]}]}"#;

/// The driver's first page.
pub const PAGE: Place = Place::At(Va(0x1000));

/// A device that reaches addresses up to 0xffffff, and takes one segment of up to 4096 bytes.
pub const LOW: TagLimits = TagLimits {
    alignment: 1,
    boundary: 0,
    lowaddr: Pa(0xff_ffff),
    highaddr: Pa(u64::MAX),
    maxsize: 4096,
    nsegments: 1,
    maxsegsz: 4096,
    flags: 0,
};

/// A device that reaches every address, and takes four segments.
pub const HIGH: TagLimits = TagLimits {
    lowaddr: Pa(u64::MAX),
    nsegments: 4,
    ..LOW
};

/// A low device whose only segment has at most 16 bytes.
pub const SHORT: TagLimits = TagLimits {
    maxsegsz: 16,
    ..LOW
};

/// A device behind an IOMMU that gives it one page of device addresses, from 0x1000 on.
pub const SPACE: SpaceLimits = SpaceLimits {
    boundary: 0,
    lowaddr: Pa(0x1fff),
    maxsize: 4096,
    nsegments: 1,
    maxsegsz: 4096,
};

/// What the driver's first call made.
pub const FIRST: MapId = MapId {
    lane: LaneId(0),
    made_at: 0,
};

/// What the driver's second call made.
pub const SECOND: MapId = MapId {
    lane: LaneId(0),
    made_at: 1,
};

/// What the driver's third call made.
pub const THIRD: MapId = MapId {
    lane: LaneId(0),
    made_at: 2,
};

/// What the second call of another driver made.
pub const FOREIGN: MapId = MapId {
    lane: LaneId(1),
    made_at: 1,
};
