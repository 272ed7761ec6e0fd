//! What the library reports of the structs of calls, to be compared with a header.

ghost use Rattle.std.specs.Prelude.{◌≡◌};
ghost use Rattle.pt_c_tools.specs.AboutAsking.{asking_about, sample_call, sample_heard, sample_request};

use crate::types::{PtCall, PtHeard, PtRequest};
use pt_c_values::types::{PtPid, PtReason, PtRef};
use std::mem::size_of;

/// A sample of each struct of calls, whose fields have the numbers 1, 2, 3 and so on in order, each bool being true. And the
/// size of each, in bytes.
#[repr(C)]
#[derive(Clone, Copy)]
pub struct PtAskingAbout {
    pub call: PtCall,
    pub request: PtRequest,
    pub heard: PtHeard,
    pub call_size: usize,
    pub request_size: usize,
    pub heard_size: usize,
}

/// The samples and the sizes.
pub fn about() -> PtAskingAbout
    ensures { result ≡ asking_about }
{
    PtAskingAbout {
        call: sample_call(),
        request: sample_request(),
        heard: sample_heard(),
        call_size: size_of::<PtCall>(),
        request_size: size_of::<PtRequest>(),
        heard_size: size_of::<PtHeard>(),
    }
}

fn sample_call() -> PtCall
    ensures { result ≡ sample_call }
{
    PtCall {
        client: PtPid {
            shard: 1,
            slot: 2,
            version: 3,
        },
        server: PtPid {
            shard: 4,
            slot: 5,
            version: 6,
        },
        monitor: PtRef { desk: 7, number: 8 },
        has_deadline: true,
        waits: true,
        left_open: true,
        deadline: 12,
    }
}

fn sample_request() -> PtRequest
    ensures { result ≡ sample_request }
{
    PtRequest {
        from: PtPid {
            shard: 1,
            slot: 2,
            version: 3,
        },
        asks: 4,
        number: 5,
    }
}

fn sample_heard() -> PtHeard
    ensures { result ≡ sample_heard }
{
    PtHeard {
        code: 1,
        answer: 2,
        reason: PtReason { code: 3, number: 4 },
    }
}
