//! What a turn did.

use pt_shard::Stop;

/// What a turn did.
#[derive(Clone, Copy, Debug, PartialEq, Eq)]
pub struct Turned {
    /// The number of letters that went from the outbox to lanes, staying at `u64::MAX` once it is reached.
    pub posted: u64,
    /// The number of letters handled.
    pub handled: u64,
    /// Why it stopped early, if it did. The letter at which it stopped stays in the hold.
    pub stopped: Option<Stop>,
}
