//! A scenario: the frames of a machine, its drivers, and an order of their steps.

use crate::journals::Actor;
use crate::scenarios::Op;
use busdma_machine::{ListOf, Va};

/// `count` frames of 4096 bytes, from the frame number `first` on.
#[derive(Clone, Copy, Debug, PartialEq, Eq)]
pub struct FrameRun {
    pub first: u64,
    pub count: u64,
}

/// `count` frames from the frame number `frame` on, at the virtual pages from `va` on.
#[derive(Clone, Copy, Debug, PartialEq, Eq)]
pub struct PageRun {
    pub va: Va,
    pub frame: u64,
    pub count: u64,
}

/// A driver: its pages and its script.
#[derive(Debug, Drop)]
pub struct Driver {
    pub pages: ListOf<PageRun>,
    pub script: ListOf<Op>,
}

/// A machine, its drivers, and an order of turns.
///
/// A bounce zone with `max_bpages` pages or more grows only by first allocations of tags.
#[derive(Debug, Drop)]
pub struct Scenario {
    pub frames: ListOf<FrameRun>,
    pub max_bpages: u32,
    pub drivers: ListOf<Driver>,
    pub order: ListOf<Actor>,
}
