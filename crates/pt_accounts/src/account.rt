//! What is known of one process.

ghost use Rattle.std.specs.Prelude.{◌≡◌, Some};

use pt_signal::Reason;

/// What is known of one process: whether it exited, how many items arrived in its mailbox, and how many were taken.
#[derive(Clone, Copy, Debug, PartialEq, Eq)]
pub struct Account {
    /// Why it exited, if it has.
    pub ended: Option<Reason>,
    /// The number of items that arrived in its mailbox.
    pub arrived: u64,
    /// The number of them that it took.
    pub taken: u64,
    /// The number of them that wait, or were left at its exit.
    pub waiting: u64,
}

impl Account {
    /// The account of a process of which only its exit is kept.
    pub(crate) fn forgotten(reason: Reason) -> Account
        ensures { result ≡ record { ended = Some reason; arrived = 0; taken = 0; waiting = 0 } }
    {
        Account {
            ended: Some(reason),
            arrived: 0,
            taken: 0,
            waiting: 0,
        }
    }
}
