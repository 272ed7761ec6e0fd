//! The side that is asked.

ghost use Rattle.std.specs.Prelude.{◌≡◌};
ghost use Rattle.pt_desk.specs.DeskState.{GoesOn};
ghost use Rattle.pt_behaviour.specs.Behaving.{takes};
ghost use Rattle.pt_names.specs.Asking.{answer, request_of, speaks_of};
ghost use Rattle.pt_behaviour.specs.Telling.{SendsTo};

use pt_behaviour::{CallFault, send};
use pt_workers::{Body, Desk, Item, Pid};

/// A request that arrived: who asks, under which number, and what.
#[derive(Clone, Copy, Debug, PartialEq, Eq)]
pub struct Request {
    pub from: Pid,
    /// The number of the client's reference, which the answer carries too.
    pub number: i64,
    /// What is asked, as a number of the program's own.
    pub asks: u32,
}

/// The request that the item is, or `None` if it is none. A request is a message that names its own sender.
pub fn request_of(item: Item) -> Option<Request>
    ensures { result ≡ request_of item }
{
    let Item::User(from, body) = item else {
        return None;
    };
    if !speaks_of(body, from) {
        return None;
    }
    Some(Request {
        from,
        number: body.num,
        asks: body.kind,
    })
}

/// Whether the message names this process.
pub(crate) fn speaks_of(body: Body, pid: Pid) -> bool
    ensures { result ≡ speaks_of body pid }
{
    match body.who {
        Some(who) => who == pid,
        None => false,
    }
}

/// Answers a request: Erlang's `gen_server:reply`.
///
/// It fails as [`send`] does, and the client gets no answer then. If the client has exited, it fails with `NoProc` or
/// does nothing. Either way there is nothing left to do.
pub fn reply(desk: &mut Desk, me: Pid, request: Request, n: u32) -> Result<(), CallFault>
    ensures does { SendsTo me request.from (answer request n) desk.old result desk.new }
    ensures takes { takes desk.new.shard.journal ≡ takes desk.old.shard.journal }
    ensures goes_on { GoesOn desk.old desk.new }
{
    send(
        desk,
        me,
        request.from,
        Body {
            kind: n,
            num: request.number,
            who: Some(request.from),
        },
    )
}
