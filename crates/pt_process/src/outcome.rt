//! What a signal did.

use pt_signal::{Reason, Ref};

/// What a signal did to its receiver.
#[derive(Clone, Copy, Debug, PartialEq, Eq)]
pub enum Outcome {
    /// An item joined the mailbox.
    Queued,
    /// The mailbox stayed, and links, monitors or watches changed.
    Changed,
    /// Nothing changed.
    Dropped,
    /// Nothing changed. The process was asked under this reference whether it is alive: the caller sends yes back to
    /// the sender.
    Asked(Ref),
    /// The process exits with this reason.
    Ends(Reason),
}
