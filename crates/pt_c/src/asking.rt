//! Calls that are answered: the calls of `pt_crew`, with a call and a request as plain structs.
//!
//! Each that gets a desk returns 9 if the handle has none, and nothing has changed then. Those that get an item return 16
//! next if its code, or that of its reason, is none of its enumeration.

ghost use Rattle.std.specs.Prelude.{◌≡◌, true, false};
ghost use Rattle.pt_c_values.specs.Places.{CallsThrough};
ghost use Rattle.pt_c_values.specs.Crossing.{pid_crossed};
ghost use Rattle.pt_c_tools.specs.Asking.{AsksServer, ExpiresCode, HearsItem, ReadsRequest, RepliesCode, TellsIfCall};
ghost use Rattle.pt_c_tools.specs.AboutAsking.{asking_about};

use pt_c_desks::desk_handle::DeskHandle;
use pt_c_tools::about_asking::{PtAskingAbout, about};
use pt_c_tools::replying::request_of;
use pt_c_tools::requests;
use pt_c_tools::telling::is_call;
use pt_c_tools::types::{PtCall, PtHeard, PtRequest};
use pt_c_values::types::{PtItem, PtPid};
use std::alloc::Global;

/// Asks a server, as `Pending::ask` does: it monitors the server, and sends the request under the monitor's number. It
/// writes the call to `out` if it returns 0.
#[unsafe(no_mangle)]
pub extern "C" fn pt_ask(
    alloc: Global,
    h: &mut DeskHandle,
    me: PtPid,
    server: PtPid,
    asks: u32,
    out: &mut PtCall,
) -> u32
    ensures { CallsThrough h.old.state h.new.state result (out.new ≡ out.old)
        (AsksServer (pid_crossed me) (pid_crossed server) asks false 0 result out.old out.new) }
{
    requests::ask(alloc, h, me, server, asks, out)
}

/// Asks a server, as `Pending::ask_until` does: the call ends at the moment `deadline` if it is open then.
#[unsafe(no_mangle)]
pub extern "C" fn pt_ask_until(
    alloc: Global,
    h: &mut DeskHandle,
    me: PtPid,
    server: PtPid,
    asks: u32,
    deadline: u64,
    out: &mut PtCall,
) -> u32
    ensures { CallsThrough h.old.state h.new.state result (out.new ≡ out.old)
        (AsksServer (pid_crossed me) (pid_crossed server) asks true deadline result out.old out.new) }
{
    requests::ask_until(alloc, h, me, server, asks, deadline, out)
}

/// Reads an item that the client got, as `Pending::hear` does. It writes to `out` what the item means to the call, and the
/// call ends if it is its answer or the `DOWN` of its server.
#[unsafe(no_mangle)]
pub extern "C" fn pt_hear(
    alloc: Global,
    h: &mut DeskHandle,
    call: &mut PtCall,
    item: PtItem,
    out: &mut PtHeard,
) -> u32
    ensures { CallsThrough h.old.state h.new.state result ((call.new ≡ call.old) × (out.new ≡ out.old))
        (HearsItem item result call.old call.new out.old out.new) }
{
    requests::hear(alloc, h, call, item, out)
}

/// Reports the time, as `Pending::expire` does. It writes to `out` whether the call ends by its deadline now.
#[unsafe(no_mangle)]
pub extern "C" fn pt_expire(
    alloc: Global,
    h: &mut DeskHandle,
    call: &mut PtCall,
    now: u64,
    out: &mut bool,
) -> u32
    ensures { CallsThrough h.old.state h.new.state result ((call.new ≡ call.old) × (out.new ≡ out.old))
        (ExpiresCode now result call.old call.new out.new) }
{
    requests::expire(alloc, h, call, now, out)
}

/// The request that the item is, as `request_of` returns it; 8 if it is none.
#[unsafe(no_mangle)]
pub extern "C" fn pt_request_of(item: PtItem, out: &mut PtRequest) -> u32
    ensures { ReadsRequest item result out.old out.new }
{
    request_of(item, out)
}

/// Writes to `out` whether an item that `me` got is a message of a call: a request, or an answer.
#[unsafe(no_mangle)]
pub extern "C" fn pt_is_call(me: PtPid, item: PtItem, out: &mut bool) -> u32
    ensures { TellsIfCall (pid_crossed me) item result out.old out.new }
{
    is_call(me, item, out)
}

/// Answers a request, as `reply` does.
#[unsafe(no_mangle)]
pub extern "C" fn pt_reply(
    alloc: Global,
    h: &mut DeskHandle,
    me: PtPid,
    request: PtRequest,
    n: u32,
) -> u32
    ensures { CallsThrough h.old.state h.new.state result (Unit {0}) (RepliesCode (pid_crossed me) request n result) }
{
    requests::reply(alloc, h, me, request, n)
}

/// Writes a sample of each struct of calls, and its size: the fields have the numbers 1, 2, 3 and so on in order, a bool being
/// true.
#[unsafe(no_mangle)]
pub extern "C" fn pt_about_asking(out: &mut PtAskingAbout)
    ensures { out.new ≡ asking_about }
{
    *out = about();
}
