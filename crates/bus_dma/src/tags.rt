//! Tags.

ghost use Rattle.std.specs.Prelude.{◌≡◌, [], Some, None};
ghost use Rattle.busdma_base.specs.declared.scenarios.script.Op.TheVariants as op;
ghost use Rattle.bus_dma.specs.Answers.{IsResult};
ghost use Rattle.bus_dma.specs.Calls.{IsCall};
ghost use Rattle.bus_dma.specs.Names.{made_at};
ghost use Rattle.bus_dma.specs.State.{hindrance, state};
ghost use Rattle.ideal_lane.specs.State.{named};
ghost use Rattle.lane_state.specs.Served.{IsServed};

use crate::driver::DmaDriver;
use crate::failure::DmaError;
use crate::handles::Tag;
use busdma_base::{HubDoor, Name, Op, SpaceLimits, TagLimits};

impl DmaDriver<'_> {
    /// Makes a tag of these limits, below a parent if there is one. The `flags` of the limits are a set of `TagFlags`.
    /// After `bus_dma_tag_create(9)`.
    ///
    /// # Errors
    ///
    /// `EINVAL` if the alignment, the boundary or `maxsegsz` cannot be, and `ENOMEM` if `ALLOCNOW` wants more pages
    /// than there are; `Absent` if the parent does not exist; `NotReady`. Nothing is made then. If memory runs out, the
    /// driver is as it was, or has the making as its next operation.
    pub fn tag_create<D: HubDoor>(
        &mut self,
        door: &mut D,
        parent: Option<Tag>,
        limits: TagLimits,
    ) -> Result<Tag, DmaError>
        requires served { IsServed (state self.old) (D.seen door.old) }
        ensures call { IsCall (hindrance parent (state self.old))
            (IsResult (named (state self.old) (state self.old).place))
            (op.Tag [] (made_at parent) limits) (D.seen door.old) (state self.old) result (state self.new)
            (D.seen door.new) }
        ensures served { IsServed (state self.new) (D.seen door.new) }
        ensures fixed { D.fixed door.new ≡ D.fixed door.old }
    {
        let tag = Tag::named(self.next_id());
        let op = Op::Tag {
            name: Name::new(String::new(self.alloc)),
            parent: match parent {
                Some(parent) => Some(parent.id().made_at),
                None => None,
            },
            limits,
        };
        let on = match parent {
            Some(parent) => Some(parent.id()),
            None => None,
        };
        self.call_for(door, on, op, tag)
    }

    /// Makes a tag whose device is behind an IOMMU, and so has an address space of its own.
    ///
    /// # Errors
    ///
    /// `EINVAL` if the boundary or `maxsegsz` cannot be; `NotReady`. Nothing is made then. If memory runs out, the
    /// driver is as it was, or has the making as its next operation.
    pub fn iommu_tag_create<D: HubDoor>(
        &mut self,
        door: &mut D,
        limits: SpaceLimits,
    ) -> Result<Tag, DmaError>
        requires served { IsServed (state self.old) (D.seen door.old) }
        ensures call { IsCall (hindrance None (state self.old))
            (IsResult (named (state self.old) (state self.old).place))
            (op.IommuTag [] limits) (D.seen door.old) (state self.old) result (state self.new) (D.seen door.new) }
        ensures served { IsServed (state self.new) (D.seen door.new) }
        ensures fixed { D.fixed door.new ≡ D.fixed door.old }
    {
        let tag = Tag::named(self.next_id());
        let op = Op::IommuTag {
            name: Name::new(String::new(self.alloc)),
            limits,
        };
        self.call_for(door, None, op, tag)
    }

    /// Ends a tag. After `bus_dma_tag_destroy(9)`.
    ///
    /// # Errors
    ///
    /// `EBUSY` if the tag has maps or memories; `Absent` if it does not exist; `NotReady`. Nothing is done then. If
    /// memory runs out, the driver is as it was, or has the end of the tag as its next operation.
    pub fn tag_destroy<D: HubDoor>(&mut self, door: &mut D, tag: Tag) -> Result<(), DmaError>
        requires served { IsServed (state self.old) (D.seen door.old) }
        ensures call { IsCall (hindrance (Some tag) (state self.old)) (IsResult tt) (op.TagDestroy tag.made_at)
            (D.seen door.old) (state self.old) result (state self.new) (D.seen door.new) }
        ensures served { IsServed (state self.new) (D.seen door.new) }
        ensures fixed { D.fixed door.new ≡ D.fixed door.old }
    {
        let op = Op::TagDestroy {
            tag: tag.id().made_at,
        };
        self.call_for(door, Some(tag.id()), op, ())
    }
}
