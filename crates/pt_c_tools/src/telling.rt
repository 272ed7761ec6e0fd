//! Which messages are of calls.

ghost use Rattle.std.specs.Prelude.{◌≡◌};
ghost use Rattle.pt_c_values.specs.Crossing.{pid_crossed};
ghost use Rattle.pt_c_tools.specs.Asking.{CallsAreTold, TellsIfCall, is_of_call};

use crate::hearing::speaks_of;
use crate::items::item_in;
use pt_c_values::codes::{BAD_CODE, DONE};
use pt_c_values::crossing::pid_in;
use pt_c_values::types::{PtItem, PtPid};
use pt_workers::{Item, Pid};

/// Writes whether an item that `me` got is a message of a call: a request, or an answer. What a message of the program's
/// own is by its kind, such a message is not.
#[tactic(auto, unfolding(crate::specs::Asking::TellsIfCall))]
pub fn is_call(me: PtPid, item: PtItem, out: &mut bool) -> u32
    ensures { TellsIfCall (pid_crossed me) item result out.old out.new }
{
    let Some(item) = item_in(item) else {
        return BAD_CODE;
    };
    *out = is_of_call(pid_in(me), item);
    DONE
}

/// Whether the item is a message that names its sender, or the process that got it.
fn is_of_call(me: Pid, item: Item) -> bool
    ensures { result ≡ is_of_call me item }
{
    match item {
        Item::User(from, body) => speaks_of(body, from) || speaks_of(body, me),
        _ => false,
    }
}

/// Each request and each answer is a message of a call, and no other message means anything to a server or to a call. The
/// function does nothing: its contract is the promise.
pub fn calls_are_told()
    ensures { CallsAreTold }
{}
