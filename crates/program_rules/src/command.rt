//! The commands of the program.

/// A command of the program, with what its words give.
#[derive(Clone, Copy, Debug, PartialEq, Eq)]
pub enum Command {
    /// Reads a scenario, replays its order and writes the report.
    Replay,
    /// Reads a scenario, runs its drivers on threads and writes the report.
    Run,
    /// Makes the storm of `n` rounds of each driver and a seed, replays it and writes its summary.
    Storm { n: u32, seed: u64 },
    /// Reads a scenario and a printed report, and writes the verdict on it.
    Check,
}
