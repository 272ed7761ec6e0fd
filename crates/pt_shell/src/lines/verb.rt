//! The calls, by name.

ghost use Rattle.std.specs.Prelude.{◌≡◌, map};
ghost use Rattle.pt_shell.specs.Calls as spec;

use crate::lines::call::{Call, Look};

/// Which call it is, by what follows its name.
#[derive(Clone, Copy)]
pub enum Verb {
    /// The settings of a node.
    Open,
    /// Nothing: this call.
    Bare(Call),
    Desk(DeskVerb),
    Process(ProcessVerb),
    Pair(PairVerb),
    Look(LookVerb),
}

/// A call of a desk, or of all desks.
#[derive(Clone, Copy)]
pub enum DeskVerb {
    Spawn,
    Turn,
    TurnAll,
    TurnUntilStill,
    Clock,
    Pending,
    Journal,
    Event,
    Vacant,
    Knows,
}

/// A call of a process.
#[derive(Clone, Copy)]
pub enum ProcessVerb {
    SpawnChild,
    Send,
    ExitSignal,
    Trap,
    Exit,
    Demonitor,
    Receive,
}

/// A call of a process that names one other, and nothing else.
#[derive(Clone, Copy)]
pub enum PairVerb {
    Link,
    Unlink,
    Monitor,
    AskAlive,
}

/// A look at a process.
#[derive(Clone, Copy)]
pub enum LookVerb {
    Alive,
    Waiting,
    Linked,
    Watching,
    Kept,
    Account,
    Ended,
}

/// A call's name, and the words that follow it.
#[derive(Clone, Copy)]
pub struct Usage {
    pub verb: Verb,
    pub name: &'static str,
    pub arguments: &'static str,
}

/// Each call, in the order in which `help` prints them.
pub static CALLS: [Usage; 37] = [
    Usage {
        verb: Verb::Open,
        name: "open",
        arguments: "[desks=N] [slots=N] [top_version=N] [lane=N] [start=N]",
    },
    Usage {
        verb: Verb::Desk(DeskVerb::Spawn),
        name: "spawn",
        arguments: "DESK",
    },
    Usage {
        verb: Verb::Process(ProcessVerb::SpawnChild),
        name: "spawn_child",
        arguments: "PARENT LINKED",
    },
    Usage {
        verb: Verb::Process(ProcessVerb::Send),
        name: "send",
        arguments: "FROM TO KIND NUM [who PID]",
    },
    Usage {
        verb: Verb::Process(ProcessVerb::ExitSignal),
        name: "exit_signal",
        arguments: "FROM TO REASON",
    },
    Usage {
        verb: Verb::Pair(PairVerb::Link),
        name: "link",
        arguments: "PID TO",
    },
    Usage {
        verb: Verb::Pair(PairVerb::Unlink),
        name: "unlink",
        arguments: "PID TO",
    },
    Usage {
        verb: Verb::Process(ProcessVerb::Trap),
        name: "trap",
        arguments: "PID BOOL",
    },
    Usage {
        verb: Verb::Process(ProcessVerb::Exit),
        name: "exit",
        arguments: "PID REASON",
    },
    Usage {
        verb: Verb::Pair(PairVerb::Monitor),
        name: "monitor",
        arguments: "PID TARGET",
    },
    Usage {
        verb: Verb::Process(ProcessVerb::Demonitor),
        name: "demonitor",
        arguments: "PID REF FLUSH",
    },
    Usage {
        verb: Verb::Pair(PairVerb::AskAlive),
        name: "ask_alive",
        arguments: "PID TARGET",
    },
    Usage {
        verb: Verb::Process(ProcessVerb::Receive),
        name: "receive",
        arguments: "PID [PICK]",
    },
    Usage {
        verb: Verb::Desk(DeskVerb::Turn),
        name: "turn",
        arguments: "DESK BUDGET",
    },
    Usage {
        verb: Verb::Desk(DeskVerb::TurnAll),
        name: "turn_all",
        arguments: "BUDGET",
    },
    Usage {
        verb: Verb::Desk(DeskVerb::TurnUntilStill),
        name: "turn_until_still",
        arguments: "BUDGET",
    },
    Usage {
        verb: Verb::Desk(DeskVerb::Clock),
        name: "clock",
        arguments: "DESK",
    },
    Usage {
        verb: Verb::Desk(DeskVerb::Pending),
        name: "pending",
        arguments: "DESK",
    },
    Usage {
        verb: Verb::Desk(DeskVerb::Journal),
        name: "journal",
        arguments: "DESK",
    },
    Usage {
        verb: Verb::Desk(DeskVerb::Event),
        name: "event",
        arguments: "DESK STAMP",
    },
    Usage {
        verb: Verb::Bare(Call::Look(Look::Events)),
        name: "events",
        arguments: "",
    },
    Usage {
        verb: Verb::Desk(DeskVerb::Vacant),
        name: "vacant",
        arguments: "DESK",
    },
    Usage {
        verb: Verb::Look(LookVerb::Alive),
        name: "alive",
        arguments: "PID",
    },
    Usage {
        verb: Verb::Desk(DeskVerb::Knows),
        name: "knows",
        arguments: "DESK PID",
    },
    Usage {
        verb: Verb::Look(LookVerb::Waiting),
        name: "waiting",
        arguments: "PID",
    },
    Usage {
        verb: Verb::Look(LookVerb::Linked),
        name: "linked",
        arguments: "PID PEER",
    },
    Usage {
        verb: Verb::Look(LookVerb::Watching),
        name: "watching",
        arguments: "PID REF",
    },
    Usage {
        verb: Verb::Look(LookVerb::Kept),
        name: "kept",
        arguments: "PID REF",
    },
    Usage {
        verb: Verb::Bare(Call::Gather),
        name: "gather",
        arguments: "",
    },
    Usage {
        verb: Verb::Bare(Call::Look(Look::LeftOver)),
        name: "left_over",
        arguments: "",
    },
    Usage {
        verb: Verb::Bare(Call::Look(Look::History)),
        name: "history",
        arguments: "",
    },
    Usage {
        verb: Verb::Bare(Call::Look(Look::Judge)),
        name: "judge",
        arguments: "",
    },
    Usage {
        verb: Verb::Bare(Call::Settle),
        name: "settle",
        arguments: "",
    },
    Usage {
        verb: Verb::Bare(Call::Look(Look::Pids)),
        name: "pids",
        arguments: "",
    },
    Usage {
        verb: Verb::Look(LookVerb::Account),
        name: "account",
        arguments: "PID",
    },
    Usage {
        verb: Verb::Look(LookVerb::Ended),
        name: "ended",
        arguments: "PID",
    },
    Usage {
        verb: Verb::Bare(Call::Resume),
        name: "resume",
        arguments: "",
    },
];

/// The call of this name.
pub fn verb_of(word: &[u8]) -> Option<Verb>
    ensures { result ≡ spec.verb_of word.now }
{
    verb_in(CALLS.as_slice(), word)
}

/// The call of this name among those of a table.
fn verb_in(table: &[Usage], word: &[u8]) -> Option<Verb>
    ensures { result ≡ spec.first_named (map spec.named_row table.now) word.now }
{
    for place in 0..table.len() {
        if table[place].name.as_bytes() == word {
            return Some(table[place].verb);
        }
    }
    None
}
