//! How a call hears that it has ended.

ghost use Rattle.std.specs.Prelude.{◌≡◌, pos, false};
ghost use Rattle.std.specs.Ordering.{int_eq};
ghost use Rattle.pt_desk.specs.DeskState.{GoesOn};
ghost use Rattle.pt_names.specs.Asking.{speaks_of};
ghost use Rattle.pt_names.specs.Ending.{Closes, IsGivenUp, heard_by_call, is_answer_to_call, is_due, says_to_call};
ghost use Rattle.pt_c_tools.specs.Asking.{CallsEndOnce, HearsItem, call_after, call_noting, pending_of, heard_out};

use crate::items::item_in;
use crate::types::{PtCall, PtHeard};
use pt_behaviour::demonitor;
use pt_c_values::codes::{BAD_CODE, DONE};
use pt_c_values::crossing::{no_reason, pid_in, reason_out, ref_in};
use pt_c_values::types::PtItem;
use pt_names::Heard;
use pt_workers::{Body, Desk, Item, Pid};

fn heard_out(heard: Heard) -> PtHeard
    ensures { result ≡ heard_out heard }
{
    match heard {
        Heard::Answer(answer) => PtHeard {
            code: 0,
            answer,
            reason: no_reason(),
        },
        Heard::Down(reason) => PtHeard {
            code: 1,
            answer: 0,
            reason: reason_out(reason),
        },
        Heard::Late => PtHeard {
            code: 2,
            answer: 0,
            reason: no_reason(),
        },
        Heard::NotMine => PtHeard {
            code: 3,
            answer: 0,
            reason: no_reason(),
        },
    }
}

/// Reads an item that the client got, as `Pending::hear` does, and writes what it means to the call. It is apart from the
/// call of the handle, since the prover does not prove both as one.
#[tactic(auto, unfolding(crate::specs::Asking::HearsItem))]
pub(crate) fn hear(desk: &mut Desk, call: &mut PtCall, item: PtItem, out: &mut PtHeard) -> u32
    ensures { HearsItem item result call.old call.new out.old out.new desk.old desk.new }
{
    let Some(item) = item_in(item) else {
        return BAD_CODE;
    };
    *out = heard_out(heard(desk, call, item));
    DONE
}

/// What the item means to the call. If it ends by it, its monitor is cancelled, or left open.
fn heard(desk: &mut Desk, call: &mut PtCall, item: Item) -> Heard
    ensures heard { result ≡ heard_by_call (pending_of call.old) item }
    ensures after { call.new ≡ call_noting call.new.left_open (call_after call.old item) }
    ensures closes { Closes (pending_of call.old) item desk.old call.new.left_open desk.new }
    ensures goes_on { GoesOn desk.old desk.new }
{
    let Some(said) = says(*call, item) else {
        return Heard::NotMine;
    };
    if !call.waits {
        return Heard::Late;
    }
    close(desk, call);
    said
}

/// Ends the call, and cancels its monitor, or notes that this failed.
pub(crate) fn close(desk: &mut Desk, call: &mut PtCall)
    ensures after { call.new ≡ call_noting call.new.left_open (record call.old { waits = false }) }
    ensures closes { IsGivenUp (pending_of call.old) desk.old call.new.left_open desk.new }
    ensures goes_on { GoesOn desk.old desk.new }
{
    call.waits = false;
    call.left_open = demonitor(desk, pid_in(call.client), ref_in(call.monitor)).is_err();
}

/// Whether the deadline has come, if there is one.
pub(crate) fn is_due(call: PtCall, now: u64) -> bool
    ensures { result ≡ is_due (pending_of call) now }
{
    call.has_deadline && call.deadline <= now
}

/// What the item means to the call, while it is open.
fn says(call: PtCall, item: Item) -> Option<Heard>
    ensures { result ≡ says_to_call (pending_of call) item }
{
    match item {
        Item::User(from, body) => {
            is_answer(call, from, body).then_some(Heard::Answer(body.kind))
        }
        Item::Down(monitor, _, reason) => {
            (monitor == ref_in(call.monitor)).then_some(Heard::Down(reason))
        }
        _ => None,
    }
}

/// Whether the message is an answer of its server, under its number.
fn is_answer(call: PtCall, from: Pid, body: Body) -> bool
    ensures { result ≡ is_answer_to_call (pending_of call) from body }
{
    from == pid_in(call.server)
        && speaks_of(body, pid_in(call.client))
        && is_number(body.num, call.monitor.number)
}

/// Whether the message names this process.
pub(crate) fn speaks_of(body: Body, pid: Pid) -> bool
    ensures { result ≡ speaks_of body pid }
{
    match body.who {
        Some(who) => who == pid,
        None => false,
    }
}

/// Whether a message carries this number.
fn is_number(carried: i64, number: u64) -> bool
    ensures { result ≡ int_eq carried (pos number) }
{
    match u64::try_from(carried) {
        Ok(carried) => carried == number,
        Err(_) => false,
    }
}

/// Each call ends once, by the first of the items and moments of which it is told that ends it. The function does nothing:
/// its contract is the promise.
pub fn calls_end_once()
    ensures { CallsEndOnce }
{}
