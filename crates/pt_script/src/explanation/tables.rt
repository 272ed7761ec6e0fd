//! The members that the objects of a script have, and what each holds.

use crate::limits::{MAX_BUDGET, MAX_DESKS, MAX_FORMAT, MAX_LANE, MAX_SLOTS, MAX_TIMES};

// The members of each object, in the order in which they are read.
pub(crate) static SCRIPT: [&str; 7] = [
    "format",
    "desks",
    "slots",
    "top",
    "lane",
    "budget",
    "processes",
];

pub(crate) static PROCESS: [&str; 4] = ["name", "desk", "trap", "ops"];

static SEND: [&str; 5] = ["op", "to", "kind", "num", "who"];

static RECEIVE: [&str; 3] = ["op", "pick", "after"];

static CHECK: [&str; 2] = ["op", "pick"];

static LINK: [&str; 2] = ["op", "to"];

static MONITOR: [&str; 3] = ["op", "to", "tag"];

static DEMONITOR: [&str; 3] = ["op", "tag", "flush"];

static TRAP: [&str; 2] = ["op", "on"];

static EXIT: [&str; 2] = ["op", "reason"];

static SIGNAL: [&str; 3] = ["op", "to", "reason"];

static SPAWN: [&str; 5] = ["op", "name", "linked", "trap", "ops"];

static REPEAT: [&str; 2] = ["op", "times"];

static PASS: [&str; 1] = ["op"];

/// The members of an operation in a format, if there is one of this name.
pub(crate) fn members_of(operation: &str, format: u64) -> Option<&'static [&'static str]> {
    match operation {
        "send" => Some(SEND.as_slice()),
        "receive" if 3 <= format => Some(RECEIVE.as_slice()),
        "receive" | "check" => Some(CHECK.as_slice()),
        "link" | "unlink" => Some(LINK.as_slice()),
        "monitor" => Some(MONITOR.as_slice()),
        "alive" if 2 <= format => Some(MONITOR.as_slice()),
        "demonitor" => Some(DEMONITOR.as_slice()),
        "trap" => Some(TRAP.as_slice()),
        "exit" => Some(EXIT.as_slice()),
        "signal" => Some(SIGNAL.as_slice()),
        "spawn" => Some(SPAWN.as_slice()),
        "pass" => Some(PASS.as_slice()),
        _ if 3 <= format => members_of_block(operation),
        _ => None,
    }
}

/// The members of an operation that begins or ends a block.
fn members_of_block(operation: &str) -> Option<&'static [&'static str]> {
    match operation {
        "if" => Some(CHECK.as_slice()),
        "repeat" => Some(REPEAT.as_slice()),
        "else" | "end" | "again" => Some(PASS.as_slice()),
        _ => None,
    }
}

/// The first format that has an operation, if only later ones than the first have it.
pub(crate) fn format_of(operation: &str) -> Option<u64> {
    match operation {
        "alive" => Some(2),
        _ if members_of_block(operation).is_some() => Some(3),
        _ => None,
    }
}

/// What a member holds.
#[derive(Clone, Copy)]
pub(crate) enum Kind {
    /// A whole number in a range.
    Whole { least: u64, most: u64 },
    /// A signed number of 64 bits.
    Signed,
    /// True or false.
    Flag,
    /// A list.
    List,
    /// A text, without a further condition here.
    Text,
    /// A name or a tag that is new.
    New,
    /// The name of a process.
    Process,
    /// A tag that was made before.
    Tag,
    /// The reason of an exit.
    Reason,
    /// Which items are taken.
    Pick,
}

/// The most that 32 bits have.
const MOST: u64 = 4_294_967_295;

/// What a member of this name holds, in a script whose last desk has this number. Only a tag is not the same
/// everywhere: a demonitor names a tag that was made before.
pub(crate) fn kind_of(name: &str, ends_monitor: bool, last_desk: u64) -> Kind {
    match name {
        "tag" if ends_monitor => Kind::Tag,
        "name" | "tag" => Kind::New,
        "to" | "who" => Kind::Process,
        "trap" | "flush" | "on" | "linked" => Kind::Flag,
        "processes" | "ops" => Kind::List,
        "num" => Kind::Signed,
        "reason" => Kind::Reason,
        "pick" => Kind::Pick,
        "op" => Kind::Text,
        _ => whole_of(name, last_desk),
    }
}

/// The range of a member that is a whole number.
fn whole_of(name: &str, last_desk: u64) -> Kind {
    let (least, most) = match name {
        "format" => (1, MAX_FORMAT),
        "desks" => (1, MAX_DESKS as u64),
        "slots" => (1, MAX_SLOTS),
        "lane" => (1, MAX_LANE),
        "budget" => (1, MAX_BUDGET),
        "desk" => (0, last_desk),
        "top" => (1, MOST),
        "after" => (0, MAX_TIMES),
        "times" => (1, MAX_TIMES),
        _ => (0, MOST),
    };
    Kind::Whole { least, most }
}

/// The full name of a pick's member, and what it holds, in a format that has it.
pub(crate) fn kind_of_pick(name: &str, format: u64) -> Option<(&'static str, Kind)> {
    match name {
        "kind" => Some((
            "pick.kind",
            Kind::Whole {
                least: 0,
                most: MOST,
            },
        )),
        "from" => Some(("pick.from", Kind::Process)),
        "exit" => Some(("pick.exit", Kind::Process)),
        "down" => Some(("pick.down", Kind::Tag)),
        "alive" if 2 <= format => Some(("pick.alive", Kind::Tag)),
        _ => None,
    }
}

/// Whether a member of this name may be missing.
pub(crate) fn may_miss(name: &str) -> bool {
    match name {
        "slots" | "top" | "lane" | "budget" => true,
        "trap" | "linked" | "flush" | "who" | "pick" | "after" => true,
        _ => false,
    }
}
