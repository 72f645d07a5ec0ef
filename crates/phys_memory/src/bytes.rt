//! Reads and writes the bytes of frames by their physical addresses.

ghost use Rattle.std.specs.Prelude.{◌≡◌, ◌+◌, ◌/◌, ◌%◌, ◌≤◌, true, false, length, map};
ghost use Rattle.busdma_machine.specs.Runs.{run_of};
ghost use Rattle.phys_memory.specs.Memory.{memory_has_frame, rewritten, wire, memory_written};

use crate::pages::LanePages;
use busdma_machine::Pa;

impl LanePages {
    /// Returns `len` bytes from physical address `pa` on. They lie in one frame of the memory.
    pub fn bytes_at(&self, pa: Pa, len: u64) -> &[u8]
        requires there { memory_has_frame self.now.memory (pa.0 / 4096) ≡ true }
        requires inside { pa.0 % 4096 + len ≤ 4096 }
        ensures { result.now ≡ map (wire self.now.memory) (run_of pa.0 len) }
    {
        let page = self.frames.get(&(pa.0 / 4096)).unwrap();
        let at = (pa.0 % 4096) as usize;
        &page.bytes()[at..at + len as usize]
    }

    /// Copies the bytes from physical address `pa` on into `out`. They lie in one frame of the memory.
    pub fn read(&self, pa: Pa, out: &mut [u8])
        requires there { memory_has_frame self.now.memory (pa.0 / 4096) ≡ true }
        requires inside { pa.0 % 4096 + length out.old ≤ 4096 }
        ensures { out.new ≡ map (wire self.now.memory) (run_of pa.0 (length out.old)) }
    {
        out.copy_from_slice(self.bytes_at(pa, out.len() as u64));
    }

    /// Writes bytes from physical address `pa` on, into one frame of the memory.
    pub fn write(&mut self, pa: Pa, bytes: &[u8])
        requires there { memory_has_frame self.old.memory (pa.0 / 4096) ≡ true }
        requires inside { pa.0 % 4096 + length bytes.now ≤ 4096 }
        ensures memory { self.new.memory ≡ rewritten self.old.memory pa.0 bytes.now }
        ensures spare { self.new.spare ≡ self.old.spare }
        ensures wire { wire self.new.memory ≡ memory_written pa.0 bytes.now (wire self.old.memory) }
    {
        let page = self.frames.get_mut(&(pa.0 / 4096)).unwrap();
        page.write((pa.0 % 4096) as usize, bytes);
    }

    /// Writes bytes from physical address `pa` on, if the memory has the frame. Returns whether it has; if
    /// not, nothing changes.
    pub fn write_if_there(&mut self, pa: Pa, bytes: &[u8]) -> bool
        requires inside { pa.0 % 4096 + length bytes.now ≤ 4096 }
        ensures there { result ≡ memory_has_frame self.old.memory (pa.0 / 4096) }
        ensures memory { result ≡ true → self.new.memory ≡ rewritten self.old.memory pa.0 bytes.now }
        ensures left { result ≡ false → self.new.memory ≡ self.old.memory }
        ensures spare { self.new.spare ≡ self.old.spare }
        ensures wire { result ≡ true → wire self.new.memory ≡ memory_written pa.0 bytes.now (wire self.old.memory) }
    {
        let Some(page) = self.frames.get_mut(&(pa.0 / 4096)) else {
            return false;
        };
        page.write((pa.0 % 4096) as usize, bytes);
        true
    }
}
