//! The structs of timers, of ways in and of calls that are answered, as they cross: plain.

use pt_c_values::types::{PtBody, PtPid, PtReason, PtRef};

/// The name of a timer: when it is due, and the number of timers that were started before it.
#[repr(C)]
#[derive(Clone, Copy)]
pub struct PtTimer {
    pub at: u64,
    pub number: u64,
}

/// A timer that is due, and the number that it was started with.
#[repr(C)]
#[derive(Clone, Copy)]
pub struct PtFired {
    pub timer: PtTimer,
    pub body: u64,
}

/// A message from outside, to a process of any desk.
#[repr(C)]
#[derive(Clone, Copy)]
pub struct PtPost {
    pub to: PtPid,
    pub body: PtBody,
}

/// A call that was made: the server that it waits for, until when (`deadline`, if `has_deadline`), and whether it still
/// does.
///
/// The answer carries the number of the reference of its monitor. With `left_open` the monitor could not be cancelled as the
/// call ended.
#[repr(C)]
#[derive(Clone, Copy)]
pub struct PtCall {
    pub client: PtPid,
    pub server: PtPid,
    pub monitor: PtRef,
    pub has_deadline: bool,
    pub waits: bool,
    pub left_open: bool,
    pub deadline: u64,
}

/// A request that arrived: who asks, under which number, and what, as a number of the program's own.
#[repr(C)]
#[derive(Clone, Copy)]
pub struct PtRequest {
    pub from: PtPid,
    pub asks: u32,
    pub number: i64,
}

/// What an item means to a call. The codes are:
///
/// - 0: its answer (`answer`): the call has ended;
/// - 1: its server has exited (`reason`), and there is no answer: the call has ended;
/// - 2: its answer or its `DOWN`, after the call had ended;
/// - 3: nothing of this call.
#[repr(C)]
#[derive(Clone, Copy)]
pub struct PtHeard {
    pub code: u32,
    pub answer: u32,
    pub reason: PtReason,
}
