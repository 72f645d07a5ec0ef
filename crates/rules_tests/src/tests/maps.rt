//! A map that is added to a table of loans, and a callback that has items.

ghost use Rattle.std.specs.Prelude.{◌≡◌};
ghost use Rattle.std.specs.FinMap.{empty};

use busdma_base::{Errno, Item, ItemList};
use busdma_machine::{Extent, LaneId, MapId, Pa, Segment, SegmentList};
use dma_map::{Callback, LoadEnd, Transfers};
use loan_table::LoanTable;
use std::alloc::{AllocError, Global};
use std::test::Fail;

/// Adds a map of two places with the same byte to an empty table, and returns its length.
fn add_map(alloc: Global, table: &mut LoanTable) -> Result<u64, AllocError>
    requires bytes { table.old.bytes ≡ empty }
    requires loans { table.old.loans ≡ empty }
{
    let map = MapId {
        lane: LaneId(0),
        made_at: 3,
    };
    let byte = Extent { pa: Pa(6), len: 1 };
    table.add_bytes(alloc, Pa(6), 1, true)?;
    table.add_map(alloc, map, &[byte, byte], false)?;
    Ok(table.len_of(map))
}

#[test]
fn a_map_is_added(rt: HostRuntime) -> Result<(), Fail> {
    let alloc = rt.alloc();
    let mut table = LoanTable::new(alloc);
    let len = add_map(alloc, &mut table)?;
    assert!(rt; len == 2);
    Ok(())
}

/// Returns how many items a callback gives the device at this end.
fn items_at<C: Callback>(callback: C, end: &LoadEnd) -> Option<usize> {
    Some(callback.call(end)?.len())
}

/// Makes a callback that lets the device read 60 bytes.
fn reads(alloc: Global) -> Result<Transfers, AllocError> {
    let item = Item::DevRead {
        map: 4,
        off: 0,
        len: 60,
    };
    Ok(Transfers {
        items: ItemList::new(vec![in alloc; item]?),
    })
}

#[test]
fn items_wait_for_segments(rt: HostRuntime) -> Result<(), Fail> {
    let alloc = rt.alloc();
    let segment = Segment {
        addr: Pa(0x1_0000),
        len: 60,
    };
    let end = LoadEnd::Segments(SegmentList::new(vec![in alloc; segment]?));
    assert!(rt; items_at(reads(alloc)?, &end) == Some(1));
    assert!(rt; items_at(reads(alloc)?, &LoadEnd::Refused(Errno::EINVAL)).is_none());
    Ok(())
}
