//! The copy of bytes from extents to other extents of a driver's memory.

ghost use Rattle.std.specs.Prelude.{◌≡◌, ◌≤◌, length, take, drop, map};
ghost use Rattle.std.specs.List.{AllByRecursion};
ghost use Rattle.busdma_machine.specs.Machine.Wire.{put};
ghost use Rattle.busdma_machine.specs.Runs.{IsExtent, byte_count, run_of};
ghost use Rattle.phys_memory.specs.Extents.{LiesInFrames};
ghost use Rattle.phys_memory.specs.Frames.{Lie, SamePages};
ghost use Rattle.phys_memory.specs.Memory.{wire};
ghost use Rattle.mbuf_defrag.specs.Copying.{IsAway, ShareNone, extents_copied};
ghost use Rattle.mbuf_defrag.specs.CopySteps.{IsThere, rest_of};

use crate::cursor::Cursor;
use busdma_machine::{Extent, Pa};
use phys_memory::LanePages;

/// Copies the bytes of the extents `from` to the extents `to`, in order.
///
/// Both have as many bytes, lie in frames of the memory, and share no byte.
pub fn copy(from: &[Extent], to: &[Extent], memory: &mut LanePages)
    requires from { Lie memory.old.memory from.now }
    requires to { Lie memory.old.memory to.now }
    requires alike { byte_count from.now ≡ byte_count to.now }
    requires apart { ShareNone from.now to.now }
    ensures wire { wire memory.new.memory ≡ extents_copied from.now to.now (wire memory.old.memory) }
    ensures same { SamePages memory.old.memory memory.new.memory }
    ensures spare { memory.new.spare ≡ memory.old.spare }
{
    let mut source = Cursor::new(from);
    for target in to {
        copy_into(&mut source, *target, memory);
    }
}

/// Copies the next bytes of a source into an extent, until the extent is full.
fn copy_into(source: &mut Cursor<'_>, target: Extent, memory: &mut LanePages)
    requires target { IsExtent target }
    requires lies { LiesInFrames memory.old.memory target }
    requires enough { target.len ≤ length (rest_of source.old) }
    requires there { AllByRecursion (IsThere memory.old.memory) (rest_of source.old) }
    requires apart { AllByRecursion (IsAway (run_of target.pa.0 target.len)) (rest_of source.old) }
    ensures rest { rest_of source.new ≡ drop target.len (rest_of source.old) }
    ensures wire { wire memory.new.memory ≡ put (run_of target.pa.0 target.len)
        (map (wire memory.old.memory) (take target.len (rest_of source.old))) (wire memory.old.memory) }
    ensures same { SamePages memory.old.memory memory.new.memory }
    ensures spare { memory.new.spare ≡ memory.old.spare }
{
    let mut piece = [0; 4096];
    let mut done = 0;
    while done < target.len {
        let run = source.next(target.len - done);
        let bytes = &mut piece[..run.len as usize];
        memory.read(run.pa, bytes);
        memory.write(Pa(target.pa.0 + done), bytes);
        done += run.len;
    }
}
