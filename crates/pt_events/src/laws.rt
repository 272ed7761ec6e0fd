//! What the journals of desks say of their own pids.

ghost use Rattle.pt_events.specs.Locality.{JournalsSay, ReadLocally, SentLocally};

/// What a process is after a history (alive or not, its trap flag, links, monitors and waiting items), all that
/// arrived in its mailbox, what it took, and what an event sends, is told by the events of its own desk. So a desk's
/// journal says of its own pids what every merge says.
pub fn journals_tell_their_pids()
    ensures life { ReadLocally }
    ensures sent { SentLocally }
    ensures journals { JournalsSay }
{}
