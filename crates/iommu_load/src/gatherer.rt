//! How the extents of an entry are gathered into one run of device addresses.

ghost use Rattle.std.specs.Prelude.{◌≡◌, ◌+◌, ◌≤◌, ◌<◌, ◌^◌};
ghost use Rattle.busdma_machine.specs.Machine.Entry.{IsPart, part_bytes};
ghost use Rattle.iommu_load.specs.Gathering.{after_part, ended_run, ungathered};

use busdma_machine::{PAGE_SIZE, Pa, Part, Segment};

/// What is known between two extents of a load.
///
/// `page` is the device page of the next extent. `run` is the run of device addresses of the last entry so
/// far, which has no byte before the first extent.
#[derive(Clone, Copy)]
pub(crate) struct Gatherer {
    page: u64,
    pub(crate) run: Segment,
}

impl Gatherer {
    /// Returns what is known before the first extent, whose device page is `first`.
    pub(crate) fn new(first: u64) -> Gatherer
        ensures { result ≡ ungathered first }
    {
        Gatherer {
            page: first,
            run: Segment {
                addr: Pa(0),
                len: 0,
            },
        }
    }

    /// Takes the next part, and returns the run that it ends, if it ends one.
    pub(crate) fn take(&mut self, part: Part) -> Option<Segment>
        requires part { IsPart part }
        requires paged { (after_part self.old part).page ≤ 2 ^ 52 }
        requires fits { self.old.run.len + part_bytes part < 2 ^ 64 }
        ensures after { self.new ≡ after_part self.old part }
        ensures ended { result ≡ ended_run self.old part }
    {
        let Part::Of { extent, opens, .. } = part else {
            return None;
        };
        let page = self.page;
        self.page += 1;
        if !opens {
            self.run.len += extent.len;
            return None;
        }
        let ended = self.run;
        self.run = Segment {
            addr: Pa(page * PAGE_SIZE + extent.pa.0 % PAGE_SIZE),
            len: extent.len,
        };
        Some(ended)
    }
}
