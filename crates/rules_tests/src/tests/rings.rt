//! Descriptors, and ranges of bus addresses.

use busdma_machine::{Pa, Segment};
use busdma_rules::Descriptor;
use ring_device::{address_of, descriptor_bytes, descriptor_of, find};

/// A load of 15 bytes, of which the first two and the last four have the same bus addresses.
const SEGMENTS: [Segment; 4] = [
    Segment {
        addr: Pa(0x5ffe),
        len: 4,
    },
    Segment {
        addr: Pa(0x21000),
        len: 4,
    },
    Segment {
        addr: Pa(0x21004),
        len: 3,
    },
    Segment {
        addr: Pa(0x5ffc),
        len: 4,
    },
];

#[test]
fn a_descriptor_is_little_endian(rt: HostRuntime) {
    let bytes = [
        0x0a, 0, 0, 1, 0, 0, 0, 0x80, 4, 0, 0, 0x10, 2, 0x7e, 1, 0xff,
    ];
    let descriptor = Descriptor {
        addr: 0x8000_0000_0100_000a,
        len: 0x1000_0004,
        kind: 2,
        fill: 0x7e,
        owner: 1,
        status: 0xff,
    };
    assert!(rt; descriptor_of(&bytes) == descriptor);
    assert!(rt; descriptor_bytes(&descriptor) == bytes);
}

/// A range is found in the first segment that has all of it, and nowhere if two segments share it.
#[test]
fn ranges_are_found(rt: HostRuntime) {
    for (addr, len, place) in [
        (0x5ffe, 4, Some(0)),
        (0x5ffe, 2, Some(0)),
        (0x5ffd, 2, Some(12)),
        (0x21003, 1, Some(7)),
        (0x21003, 2, None),
        (0x21005, 2, Some(9)),
        (0x5ffc, 5, None),
        (u64::MAX, 2, None),
    ] {
        assert!(rt;
            find(&SEGMENTS, addr, len) == place,
            "{len} bytes at {addr}"
        );
    }
    for (at, len, addr) in [
        (0, 4, Some(Pa(0x5ffe))),
        (3, 1, Some(Pa(0x6001))),
        (3, 2, None),
        (7, 2, None),
        (9, 2, Some(Pa(0x21005))),
        (15, 1, None),
    ] {
        assert!(rt;
            address_of(&SEGMENTS, at, len) == addr,
            "{len} bytes from {at} on"
        );
    }
}
