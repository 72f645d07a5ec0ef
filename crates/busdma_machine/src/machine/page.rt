//! Owned frames.

ghost use Rattle.std.specs.Prelude.{◌≡◌, ◌+◌, ◌^◌, ◌<◌, ◌≤◌, length, replicate, IfOk};
ghost use Rattle.busdma_machine.specs.Machine.Page.{overwritten};

use std::alloc::{AllocError, Global};
use std::marker::Model;

/// The size of a page and of a frame, in bytes.
pub const PAGE_SIZE: u64 = 4096;

/// A frame of 4096 bytes with one owner. A page cannot be cloned. Whoever makes pages must not make
/// two of the same frame.
#[derive(Debug, Drop)]
pub struct Page {
    frame: u64,
    bytes: Box<[u8; 4096]>,
}

impl Model for Page {
    ghost use Rattle.std.specs.Prelude.{◌^◌, ◌<◌};
    ghost use Rattle.busdma_machine.specs.Machine.Page.{FrameBytes};

    ghost Value = { FrameBytes };

    ghost view = { λ p. record { frame = p.frame; bytes = p.bytes.value } };

    ghost invariant = { λ p. p.frame < 2 ^ 30 };
}

impl Page {
    /// Returns the frame with the number `frame`, with `fill` in every byte.
    ///
    /// # Errors
    ///
    /// `AllocError` if memory runs out.
    pub fn new(alloc: Global, frame: u64, fill: u8) -> Result<Page, AllocError>
        requires { frame < 2 ^ 30 }
        ensures frame { IfOk result (λ p. p.frame ≡ frame) }
        ensures bytes { IfOk result (λ p. p.bytes ≡ replicate 4096 fill) }
    {
        Ok(Page {
            frame,
            bytes: Box::new(alloc, [fill; 4096])?,
        })
    }

    /// Returns the number of the frame.
    pub fn frame(&self) -> u64
        ensures number { result ≡ self.now.frame }
        ensures below { result < 2 ^ 30 }
    {
        self.frame
    }

    /// Returns the bytes of the frame.
    pub fn bytes(&self) -> &[u8]
        ensures bytes { result.now ≡ self.now.bytes }
        ensures length { length result.now ≡ 4096 }
    {
        &*self.bytes
    }

    /// Writes `bytes` into the frame, from its byte `at` on. They must fit into the frame.
    pub fn write(&mut self, at: usize, bytes: &[u8])
        requires { at + length bytes.now ≤ 4096 }
        ensures page { self.new ≡ record self.old { bytes = overwritten self.old.bytes at bytes.now } }
        ensures whole { length self.old.bytes ≡ 4096 }
    {
        self.bytes[at..at + bytes.len()].copy_from_slice(bytes);
    }
}
