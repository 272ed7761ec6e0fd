//! The structs that cross: plain, and with codes in place of enums.
//!
//! In a struct that the library fills, each field that has no meaning for the code is zero.

/// The name of a process.
#[repr(C)]
#[derive(Clone, Copy)]
pub struct PtPid {
    /// The number of the desk on which the process is for all its life.
    pub shard: u8,
    /// The slot of that desk.
    pub slot: u32,
    /// How often the slot was used, this time included.
    pub version: u32,
}

/// The reference of a monitor or of a question, or the id of a link: the desk and the stamp of the event that made it.
#[repr(C)]
#[derive(Clone, Copy)]
pub struct PtRef {
    pub desk: u8,
    pub number: u64,
}

/// The ids under which two processes are linked, in order of entry. There are two if both sides made the link at the
/// same time.
#[repr(C)]
#[derive(Clone, Copy)]
pub struct PtIds {
    pub one: PtRef,
    pub has_two: bool,
    pub two: PtRef,
}

/// An exit reason. Code 0 is normal, 1 kill, 2 killed, 3 noproc, 4 shutdown, and 5 is `number`. A call that gets any
/// other code refuses it as 16.
#[repr(C)]
#[derive(Clone, Copy)]
pub struct PtReason {
    pub code: u32,
    pub number: u32,
}

/// What a message holds.
#[repr(C)]
#[derive(Clone, Copy)]
pub struct PtBody {
    pub kind: u32,
    pub num: i64,
    /// Whether the message names a process, which is `who`.
    pub has_who: bool,
    pub who: PtPid,
}

/// An item of a mailbox. The codes are:
///
/// - 0: a message (`pid`, `body`);
/// - 1: a trapped exit (`pid`, `reason`);
/// - 2: a DOWN (`reference`, `pid`, `reason`);
/// - 3: the answer to the question whether a process is alive (`reference`, `pid`, `alive`).
#[repr(C)]
#[derive(Clone, Copy)]
pub struct PtItem {
    pub code: u32,
    pub alive: bool,
    pub pid: PtPid,
    pub reference: PtRef,
    pub reason: PtReason,
    pub body: PtBody,
}

/// The items that a receive takes. The codes are:
///
/// - 0: a message of `kind`;
/// - 1: a message from `pid`;
/// - 2: a trapped exit of `pid`;
/// - 3: the DOWN of `reference`;
/// - 4: the answer to the question `reference`;
/// - 5: every item.
///
/// A call that gets any other code refuses it as 16.
#[repr(C)]
#[derive(Clone, Copy)]
pub struct PtPick {
    pub code: u32,
    pub kind: u32,
    pub pid: PtPid,
    pub reference: PtRef,
}

/// What one process sends another. The codes are:
///
/// - 0: a message (`body`);
/// - 1: a link (`ids.one`);
/// - 2: an unlink of these ids (`ids`);
/// - 3: an exit signal that no link carries (`reason`);
/// - 4: an exit signal that a link carries (`ids`, `reason`);
/// - 5: a monitor (`reference`);
/// - 6: its demonitor (`reference`);
/// - 7: its DOWN (`reference`, `reason`);
/// - 8: the question whether the receiver is alive (`reference`);
/// - 9: the answer (`reference`, `alive`).
#[repr(C)]
#[derive(Clone, Copy)]
pub struct PtSignal {
    pub code: u32,
    pub alive: bool,
    pub reason: PtReason,
    pub reference: PtRef,
    pub ids: PtIds,
    pub body: PtBody,
}

/// An event. The codes are:
///
/// - 0: `pid` was spawned, by the parent `peer` if `has_peer` is true, with the link `link` if `has_link` is true;
/// - 1: `pid` sent `peer` a signal (`signal`);
/// - 2: `pid` got a signal of `peer` (`signal`);
/// - 3: `pid` took an item (`pick`, `item`);
/// - 4: `pid` set its flag (`on`);
/// - 5: `pid` exited by its own call (`reason`);
/// - 6: a call of `pid` failed, since `peer` had exited.
#[repr(C)]
#[derive(Clone, Copy)]
pub struct PtEvent {
    pub stamp: u64,
    pub desk: u8,
    pub has_peer: bool,
    pub has_link: bool,
    pub on: bool,
    pub code: u32,
    pub pid: PtPid,
    pub peer: PtPid,
    pub link: PtRef,
    pub reason: PtReason,
    pub pick: PtPick,
    pub item: PtItem,
    pub signal: PtSignal,
}

/// A letter that was sent and did not arrive at its receiver before the desks were gathered.
#[repr(C)]
#[derive(Clone, Copy)]
pub struct PtLeftOver {
    /// The desk of its sender.
    pub from_desk: u8,
    /// The desk of its receiver.
    pub to_desk: u8,
    pub from: PtPid,
    pub to: PtPid,
    /// The stamp of the event that sent it.
    pub stamp: u64,
    pub signal: PtSignal,
}

/// What a turn did. `stopped` is 0, or the code of the fault that stopped it.
#[repr(C)]
#[derive(Clone, Copy)]
pub struct PtTurned {
    pub posted: u64,
    pub handled: u64,
    pub stopped: u32,
}

/// What became of a process.
#[repr(C)]
#[derive(Clone, Copy)]
pub struct PtAccount {
    /// Whether it exited, with the reason `ended`.
    pub has_ended: bool,
    pub ended: PtReason,
    pub arrived: u64,
    pub taken: u64,
    pub waiting: u64,
}

/// What a desk lost by one event: how many items of this process. Either it exited with this reason, and they waited in
/// its mailbox; or it was not alive as a message came.
#[repr(C)]
#[derive(Clone, Copy)]
pub struct PtLoss {
    pub has_exited: bool,
    pub pid: PtPid,
    pub reason: PtReason,
    pub items: usize,
}

/// The settings of a node. It has as many desks as handles were passed.
#[repr(C)]
#[derive(Clone, Copy)]
pub struct PtConfig {
    /// The number of slots of a desk: 1 to 65,536.
    pub slots: u32,
    /// The greatest version of a slot: 1 to 4,294,967,295.
    pub top_version: u32,
    /// The number of letters that a lane holds: 1 to 65,536.
    pub lane: u32,
    /// The start of the clocks: 0 to 2^62.
    pub start: u64,
}

/// What a process of a crew does next. The codes are:
///
/// - 0: it waits for an item that `pick` takes;
/// - 1: the same, but no longer than until the time `until`;
/// - 2: it proceeds;
/// - 3: it exits with `reason`;
/// - 4: it is running, until it is answered.
///
/// A call that gets any other code refuses it as 16. So it does if the code in the pick of 0 and 1, or in the reason of
/// 3, is none of its enumeration.
#[repr(C)]
#[derive(Clone, Copy)]
pub struct PtNext {
    pub code: u32,
    pub reason: PtReason,
    pub until: u64,
    pub pick: PtPick,
}

/// What a running process does next.
#[repr(C)]
#[derive(Clone, Copy)]
pub struct PtAnswer {
    pub pid: PtPid,
    pub next: PtNext,
}

/// A supervisor without its children.
#[repr(C)]
#[derive(Clone, Copy)]
pub struct PtSupervisorSpec {
    /// Which others it ends and starts again with a child that has exited: 0 no other, 1 all others, 2 those that were
    /// listed after it. A call that gets any other code refuses it as 16.
    pub strategy: u32,
    /// Whether the span is one of time, and not of stamps of the desk.
    pub timed: bool,
    /// Whether it exits with a process, which is `parent`.
    pub has_parent: bool,
    pub parent: PtPid,
    /// The number of restarts that it makes within the span.
    pub most: usize,
    pub span: u64,
}

/// What a supervisor knows of a child. A call that gets any other code than these refuses it as 16.
#[repr(C)]
#[derive(Clone, Copy)]
pub struct PtChildSpec {
    /// The tag that it is started with.
    pub tag: u64,
    /// Whether it is started again when it has exited: 0 always, 1 unless it exited with `normal` or `shutdown`, 2 never.
    pub restart: u32,
    /// How it is ended: 0 by `shutdown`, however long that takes; 1 by `shutdown`, and after `time` by `kill`; 2 by `kill`.
    pub shutdown: u32,
    pub time: u64,
    /// Whether the program starts it, on another desk.
    pub elsewhere: bool,
}

/// A child of a supervisor, in its place. Its codes are those of [`PtChildSpec`].
#[repr(C)]
#[derive(Clone, Copy)]
pub struct PtChild {
    /// Whether it has a pid, which is `pid`: it was started, and the supervisor has not got its exit.
    pub has_pid: bool,
    /// Whether the supervisor wants it alive.
    pub wanted: bool,
    pub pid: PtPid,
    pub restart: u32,
    pub shutdown: u32,
    pub time: u64,
}

/// How many children a supervisor has.
#[repr(C)]
#[derive(Clone, Copy)]
pub struct PtChildCounts {
    /// All, alive or not.
    pub specs: usize,
    /// Those that are alive, by all that the supervisor has heard.
    pub active: usize,
    /// Those that it is to start.
    pub restarting: usize,
}

/// Why a supervisor gave up: a child exited that was to be started again, and its limit allowed no further restart.
#[repr(C)]
#[derive(Clone, Copy)]
pub struct PtGaveUp {
    /// The tag of that child.
    pub tag: u64,
    /// The place of that child.
    pub place: usize,
    /// The reason with which it exited.
    pub reason: PtReason,
    /// How many restarts the supervisor had made within the span.
    pub restarts: usize,
    /// The span of the limit.
    pub span: u64,
    /// Whether the span is one of time, and not of stamps.
    pub timed: bool,
}

/// What a process of a crew is told. The codes are:
///
/// - 0: it begins. If a supervisor started it, that is `supervisor`, and `again` is whether a child in the same place had
///   exited before;
/// - 1: it proceeds;
/// - 2: it gets an item (`item`);
/// - 3: the time until which it waited has come;
/// - 4: it has exited (`reason`), and this was what it was to do (`was`).
#[repr(C)]
#[derive(Clone, Copy)]
pub struct PtJob {
    pub code: u32,
    pub pid: PtPid,
    pub tag: u64,
    pub item: PtItem,
    pub reason: PtReason,
    pub was: PtNext,
    pub has_supervisor: bool,
    pub again: bool,
    pub supervisor: PtPid,
}
