//! How many commands a controller refused and took.

/// How many commands a controller refused, and how many it took. Counts stop at their greatest value.
#[derive(Clone, Copy, Debug, PartialEq, Eq)]
pub struct CommandCounts {
    pub refusals: u64,
    pub commands: u64,
}
