//! What nobody will ever take.

ghost use Rattle.std.specs.Prelude.{◌≡◌, length, slice_get};
ghost use Rattle.pt_shard.specs.Losses.{items_lost, loser, reason_lost};

use pt_process::Mailbox;
use pt_signal::{Item, Pid, Reason};

/// What a desk lost by one event. A desk that keeps losses tells of each once.
#[derive(Drop)]
pub enum Loss {
    /// The process exited with this reason, and these items waited in its mailbox, the oldest first.
    Exited(Pid, Reason, Mailbox),
    /// This message came to the process, which was not alive.
    Stray(Pid, Item),
}

impl Loss {
    /// The receiver.
    pub fn pid(&self) -> Pid
        ensures { result ≡ loser self.now }
    {
        match self {
            Loss::Exited(p, _, _) | Loss::Stray(p, _) => *p,
        }
    }

    /// The reason with which the receiver exited, or `None` if it was not alive as the message came.
    pub fn reason(&self) -> Option<Reason>
        ensures { result ≡ reason_lost self.now }
    {
        match self {
            Loss::Exited(_, reason, _) => Some(*reason),
            Loss::Stray(_, _) => None,
        }
    }

    /// The number of items that are lost.
    pub fn len(&self) -> usize
        ensures { result ≡ length (items_lost self.now) }
    {
        match self {
            Loss::Exited(_, _, waiting) => waiting.as_slice().len(),
            Loss::Stray(_, _) => 1,
        }
    }

    /// The item with this number among those that are lost, the oldest first, or `None` if there are not so many.
    pub fn item(&self, place: usize) -> Option<Item>
        ensures { result ≡ slice_get (items_lost self.now) place }
    {
        match self {
            Loss::Exited(_, _, waiting) => waiting.as_slice().get(place).copied(),
            Loss::Stray(_, item) => { if place == 0 { Some(*item) } else { None } }
        }
    }
}
