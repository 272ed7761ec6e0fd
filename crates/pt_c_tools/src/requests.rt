//! Calls that are answered, through the handle of a desk: those of `pt_names`, with plain structs.
//!
//! Each that gets a desk returns 9 if the handle has none, and nothing has changed then. Those that get an item return 16
//! next if its code, or that of its reason, is none of its enumeration.

ghost use Rattle.std.specs.Prelude.{◌≡◌, true, false};
ghost use Rattle.pt_c_values.specs.Places.{CallsThrough};
ghost use Rattle.pt_c_values.specs.Crossing.{pid_crossed};
ghost use Rattle.pt_c_tools.specs.Asking.{AsksServer, ExpiresCode, HearsItem, RepliesCode};

use crate::asking::{asked_code, begin, write_call};
use crate::hearing::{self, close, is_due};
use crate::replying::{request_in, told_code};
use crate::types::{PtCall, PtHeard, PtRequest};
use pt_c_desks::desk_handle::{DeskHandle, claim, hold};
use pt_c_values::codes::{DONE, EMPTY};
use pt_c_values::crossing::pid_in;
use pt_c_values::types::{PtItem, PtPid};
use pt_names::reply as reply_to;
use std::alloc::Global;

/// Asks a server, as `Pending::ask` does: it monitors the server, and sends the request under the monitor's number. It
/// writes the call to `out` if it returns 0.
#[tactic(auto, unfolding(crate::specs::Asking::AsksServer))]
pub fn ask(
    alloc: Global,
    h: &mut DeskHandle,
    me: PtPid,
    server: PtPid,
    asks: u32,
    out: &mut PtCall,
) -> u32
    ensures { CallsThrough h.old.state h.new.state result (out.new ≡ out.old)
        (AsksServer (pid_crossed me) (pid_crossed server) asks false 0 result out.old out.new) }
{
    let Some(mut place) = claim(alloc, h) else {
        return EMPTY;
    };
    let code = match &mut place.desk {
        Some(desk) => {
            let asked = begin(desk, pid_in(me), pid_in(server), asks);
            write_call(asked, pid_in(me), pid_in(server), false, 0, out);
            asked_code(asked)
        }
        None => EMPTY,
    };
    *h = hold(place);
    code
}

/// Asks a server, as `Pending::ask_until` does: the call ends at the moment `deadline` if it is open then.
#[tactic(auto, unfolding(crate::specs::Asking::AsksServer))]
pub fn ask_until(
    alloc: Global,
    h: &mut DeskHandle,
    me: PtPid,
    server: PtPid,
    asks: u32,
    deadline: u64,
    out: &mut PtCall,
) -> u32
    ensures { CallsThrough h.old.state h.new.state result (out.new ≡ out.old)
        (AsksServer (pid_crossed me) (pid_crossed server) asks true deadline result out.old out.new) }
{
    let Some(mut place) = claim(alloc, h) else {
        return EMPTY;
    };
    let code = match &mut place.desk {
        Some(desk) => {
            let asked = begin(desk, pid_in(me), pid_in(server), asks);
            write_call(asked, pid_in(me), pid_in(server), true, deadline, out);
            asked_code(asked)
        }
        None => EMPTY,
    };
    *h = hold(place);
    code
}

/// Reads an item that the client got, as `Pending::hear` does. It writes to `out` what the item means to the call, and the
/// call ends if it is its answer or the `DOWN` of its server.
pub fn hear(
    alloc: Global,
    h: &mut DeskHandle,
    call: &mut PtCall,
    item: PtItem,
    out: &mut PtHeard,
) -> u32
    ensures { CallsThrough h.old.state h.new.state result ((call.new ≡ call.old) × (out.new ≡ out.old))
        (HearsItem item result call.old call.new out.old out.new) }
{
    let Some(mut place) = claim(alloc, h) else {
        return EMPTY;
    };
    let code = match &mut place.desk {
        Some(desk) => hearing::hear(desk, call, item, out),
        None => EMPTY,
    };
    *h = hold(place);
    code
}

/// Reports the time, as `Pending::expire` does. It writes to `out` whether the call ends by its deadline now.
#[tactic(auto, unfolding(crate::specs::Asking::ExpiresCode))]
pub fn expire(alloc: Global, h: &mut DeskHandle, call: &mut PtCall, now: u64, out: &mut bool) -> u32
    ensures { CallsThrough h.old.state h.new.state result ((call.new ≡ call.old) × (out.new ≡ out.old))
        (ExpiresCode now result call.old call.new out.new) }
{
    let Some(mut place) = claim(alloc, h) else {
        return EMPTY;
    };
    let code = match &mut place.desk {
        Some(desk) => {
            *out = call.waits && is_due(*call, now);
            if *out {
                close(desk, call);
            }
            DONE
        }
        None => EMPTY,
    };
    *h = hold(place);
    code
}

/// Answers a request, as `reply` does.
#[tactic(auto, unfolding(crate::specs::Asking::RepliesCode))]
pub fn reply(alloc: Global, h: &mut DeskHandle, me: PtPid, request: PtRequest, n: u32) -> u32
    ensures { CallsThrough h.old.state h.new.state result (Unit {0}) (RepliesCode (pid_crossed me) request n result) }
{
    let Some(mut place) = claim(alloc, h) else {
        return EMPTY;
    };
    let code = match &mut place.desk {
        Some(desk) => told_code(reply_to(desk, pid_in(me), request_in(request), n)),
        None => EMPTY,
    };
    *h = hold(place);
    code
}
