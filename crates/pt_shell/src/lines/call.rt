//! Calls, with their arguments.

use pt_signal::{Body, Config, Pick, Pid, Reason, Ref};

/// What a line asks a node to do.
#[derive(Clone, Copy)]
pub enum Call {
    Open(Config),
    Act(Act),
    Look(Look),
    Gather,
    Settle,
    Resume,
}

/// The calls that change a running node: those of its processes, and turns.
#[derive(Clone, Copy)]
pub enum Act {
    Spawn(u8),
    SpawnChild(Pid, bool),
    Send(Pid, Pid, Body),
    ExitSignal(Pid, Pid, Reason),
    Link(Pid, Pid),
    Unlink(Pid, Pid),
    Trap(Pid, bool),
    Exit(Pid, Reason),
    Monitor(Pid, Pid),
    Demonitor(Pid, Ref, bool),
    AskAlive(Pid, Pid),
    Receive(Pid, Pick),
    Turn(u8, u32),
    TurnAll(u32),
    TurnUntilStill(u32),
}

/// The calls that only read a node.
#[derive(Clone, Copy)]
pub enum Look {
    Clock(u8),
    Pending(u8),
    Journal(u8),
    /// The event of a desk with a stamp.
    Event(u8, u64),
    /// The number of events.
    Events,
    Vacant(u8),
    Alive(Pid),
    Knows(u8, Pid),
    Waiting(Pid),
    Linked(Pid, Pid),
    Watching(Pid, Ref),
    Kept(Pid, Ref),
    LeftOver,
    History,
    /// What the judge of histories says.
    Judge,
    Pids,
    Account(Pid),
    Ended(Pid),
}
