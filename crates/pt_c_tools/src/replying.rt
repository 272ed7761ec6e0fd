//! The side that is asked.

ghost use Rattle.std.specs.Prelude.{◌≡◌};
ghost use Rattle.pt_c_tools.specs.Asking.{ReadsRequest, request_in, request_out, told_code};

use crate::asking::fault_code;
use crate::items::item_in;
use crate::types::PtRequest;
use pt_behaviour::CallFault;
use pt_c_values::codes::{BAD_CODE, DONE, NOTHING};
use pt_c_values::crossing::{pid_in, pid_out};
use pt_c_values::types::PtItem;
use pt_names::{Request, request_of as read_request};

fn request_out(request: Request) -> PtRequest
    ensures { result ≡ request_out request }
{
    PtRequest {
        from: pid_out(request.from),
        asks: request.asks,
        number: request.number,
    }
}

pub(crate) fn request_in(request: PtRequest) -> Request
    ensures { result ≡ request_in request }
{
    Request {
        from: pid_in(request.from),
        number: request.number,
        asks: request.asks,
    }
}

/// The request that the item is, as `request_of` returns it.
#[tactic(auto, unfolding(crate::specs::Asking::ReadsRequest))]
pub fn request_of(item: PtItem, out: &mut PtRequest) -> u32
    ensures { ReadsRequest item result out.old out.new }
{
    let Some(item) = item_in(item) else {
        return BAD_CODE;
    };
    match read_request(item) {
        Some(request) => {
            *out = request_out(request);
            DONE
        }
        None => NOTHING,
    }
}

/// The code of an answer that was sent, or was not.
pub(crate) fn told_code(told: Result<(), CallFault>) -> u32
    ensures { result ≡ told_code told }
{
    match told {
        Ok(()) => DONE,
        Err(fault) => fault_code(fault),
    }
}
