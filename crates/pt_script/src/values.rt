//! The plain values that make up a script.

use pt_signal::Reason;

/// The settings of a script's node.
#[derive(Clone, Copy, Debug, PartialEq, Eq)]
pub struct Settings {
    /// The script's format, 1 to 3. From 2 on a process can ask whether another is alive. From 3 on a list can branch and
    /// repeat, and a receive can end after some tries.
    pub format: u8,
    /// The number of desks of the node, 1 to 64.
    pub desks: u8,
    /// The number of slots of each desk, 1 to 65,536.
    pub slots: u32,
    /// The last version of a slot, 1 or more.
    pub top_version: u32,
    /// The number of letters that a lane holds, 1 to 65,536.
    pub lane: u32,
    /// The most letters that a turn handles, 1 to 65,536.
    pub budget: u32,
}

/// The items that a `receive` takes. A process is named by its number in the script, a tag by its number among the tags
/// of its list.
#[derive(Clone, Copy, Debug, PartialEq, Eq)]
pub enum Pattern {
    /// Every item.
    Any,
    /// Messages of this kind.
    Kind(u32),
    /// Messages from this process.
    From(u32),
    /// Exits of this process.
    ExitOf(u32),
    /// The DOWN of the monitor with this tag.
    DownOf(u32),
    /// The answer to the ask with this tag.
    AliveOf(u32),
}

/// One operation of a process. A process is named by its number in the script. The tags of a list are numbered from
/// 0 in the order in which its monitors and asks make them.
#[derive(Clone, Copy, Debug, PartialEq, Eq)]
pub enum Operation {
    /// Send a message.
    Send {
        to: u32,
        kind: u32,
        num: i64,
        who: Option<u32>,
    },
    /// Take an item, waiting for one.
    Receive(Pattern),
    /// Take an item if there is one.
    Check(Pattern),
    /// Take an item, and wait for one no longer than so many tries.
    ReceiveAfter {
        pattern: Pattern,
        tries: u32,
    },
    /// Do what follows, up to `Else` or `End`, if the item that was taken just before fits. Else go on behind that.
    If(Pattern),
    /// Here the operations end that are done if the item fits, and those begin that are done if it does not.
    Else,
    /// Here what an `If` began ends.
    End,
    /// Do what follows, up to `Again`, so many times. No script that was read has it: its operations are written out.
    Repeat(u32),
    /// Here what a `Repeat` began ends. No script that was read has it.
    Again,
    /// Link with a process.
    Link(u32),
    /// Unlink from a process.
    Unlink(u32),
    /// Monitor a process.
    Monitor {
        to: u32,
        tag: u32,
    },
    /// Cancel the monitor with this tag.
    Demonitor {
        tag: u32,
        flush: bool,
    },
    /// Ask whether a process is alive.
    Alive {
        to: u32,
        tag: u32,
    },
    /// Trap exits, or no longer.
    Trap(bool),
    /// Exit.
    Exit(Reason),
    /// Send an exit signal.
    Signal {
        to: u32,
        reason: Reason,
    },
    /// Spawn the process of this number.
    Spawn {
        process: u32,
        linked: bool,
    },
    /// Do nothing.
    Pass,
}

/// A process that no other spawns.
#[derive(Clone, Copy, Debug, PartialEq, Eq)]
pub struct Top {
    /// Its number in the script.
    pub process: u32,
    /// The desk on which it runs.
    pub desk: u8,
}
