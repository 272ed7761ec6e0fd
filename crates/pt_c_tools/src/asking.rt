//! The side that asks.

ghost use Rattle.std.specs.Prelude.{◌≡◌, ◌<◌, ◌^◌, pos, Option, ℕ};
ghost use Rattle.pt_desk.specs.DeskState.{GoesOn};
ghost use Rattle.pt_names.specs.Asking.{Asks, refusal, unsent_fault};
ghost use Rattle.pt_c_tools.specs.Asking.{asked_code, call_or, call_under, fault_code, pending_asked};

use crate::types::PtCall;
use pt_behaviour::{CallFault, demonitor, monitor, send};
use pt_c_values::codes::{DONE, UNKNOWN, code_of};
use pt_c_values::crossing::{pid_out, ref_out};
use pt_names::AskFault;
use pt_workers::{Body, Desk, Fault, Pid, Ref};

/// The code of a call that failed.
pub(crate) fn fault_code(fault: CallFault) -> u32
    ensures { result ≡ fault_code fault }
{
    match fault {
        CallFault::Unknown => UNKNOWN,
        CallFault::Refused(fault) => code_of(fault),
    }
}

/// Writes the call that was made. Of one that was not, whose monitor is still open, it writes that it has ended.
pub(crate) fn write_call(
    asked: Result<Ref, AskFault>,
    me: Pid,
    server: Pid,
    has_deadline: bool,
    deadline: u64,
    out: &mut PtCall,
)
    ensures { out.new ≡ call_or out.old me server has_deadline deadline asked }
{
    match asked {
        Ok(reference) => *out = made(me, server, reference, true, has_deadline, deadline),
        Err(AskFault::LeftOpen(_, reference)) => {
            *out = made(me, server, reference, false, has_deadline, deadline);
        }
        Err(AskFault::Unasked(_)) => {}
    }
}

/// The code of a call that was asked, or was not.
pub(crate) fn asked_code(asked: Result<Ref, AskFault>) -> u32
    ensures { result ≡ asked_code asked }
{
    match asked {
        Ok(_) => DONE,
        Err(AskFault::Unasked(fault)) => fault_code(fault),
        Err(AskFault::LeftOpen(fault, _)) => fault_code(fault),
    }
}

/// The call under this reference. It waits, or it has ended and its monitor is still open.
fn made(
    me: Pid,
    server: Pid,
    reference: Ref,
    waits: bool,
    has_deadline: bool,
    deadline: u64,
) -> PtCall
    ensures { result ≡ call_under me server reference waits has_deadline deadline }
{
    PtCall {
        client: pid_out(me),
        server: pid_out(server),
        monitor: ref_out(reference),
        has_deadline,
        waits,
        left_open: !waits,
        deadline,
    }
}

/// Makes the monitor, and sends the request under its number. It returns the monitor's reference.
pub(crate) fn begin(desk: &mut Desk, me: Pid, server: Pid, asks: u32) -> Result<Ref, AskFault>
    ensures does { (deadline : Option ℕ)
        → Asks me server asks deadline desk.old (pending_asked me server deadline result) desk.new }
    ensures goes_on { GoesOn desk.old desk.new }
{
    let reference = monitor(desk, me, server)?;
    let body = Body {
        kind: asks,
        num: number_of(reference),
        who: Some(me),
    };
    if let Some(fault) = refusal(send(desk, me, server, body)) {
        return Err(unsent(fault, reference, demonitor(desk, me, reference)));
    }
    Ok(reference)
}

/// The number of a reference, as a message carries it.
fn number_of(monitor: Ref) -> i64
    requires { monitor.number < 2 ^ 63 }
    ensures { result ≡ pos monitor.number }
{
    monitor.number as i64
}

/// What the client learns of a request that was not sent for this fault, once its monitor was to be cancelled.
fn unsent(fault: CallFault, reference: Ref, cancelled: Result<bool, Fault>) -> AskFault
    ensures { result ≡ unsent_fault fault reference cancelled }
{
    match cancelled {
        Ok(_) => AskFault::Unasked(fault),
        Err(_) => AskFault::LeftOpen(fault, reference),
    }
}

/// The fault for which a request was not sent. That the server is seen to have exited is none: its `DOWN` arrives.
fn refusal(told: Result<(), CallFault>) -> Option<CallFault>
    ensures { result ≡ refusal told }
{
    match told {
        Ok(()) => None,
        Err(CallFault::Refused(Fault::NoProc)) => None,
        Err(fault) => Some(fault),
    }
}
