//! What a program asks of a supervisor of a crew about its children, at run time.
//!
//! Each makes the call of `Scheduler` that has its name on the crew of the handle, and returns its code. It returns `EMPTY`
//! if the handle has none, and nothing has changed then.

ghost use Rattle.std.specs.Prelude.{◌≡◌};
ghost use Rattle.pt_c_values.specs.Places.{CallsThrough, ReadsThrough};
ghost use Rattle.pt_c_values.specs.Crossing.{pid_crossed};
ghost use Rattle.pt_c_crews.specs.Crewing.{TellsChild, TellsChildCount};
ghost use Rattle.pt_c_crews.specs.Children.{CrewAsksProgram, CrewDeletesChild, CrewRestartsChild, CrewStartsChild};
ghost use Rattle.pt_c_crews.specs.Children.{CrewIsToldNotStarted, CrewIsToldStarted, CrewTerminatesChild, TellsCause, TellsCounts};

use crate::crew_handle::{CrewHandle, claim, hold};
use pt_c_tools::crossing_children::{
    cause_out, child_code, child_in, child_out, counts_out, value_code,
};
use pt_c_values::codes::{BAD_CODE, DONE, EMPTY, NOTHING};
use pt_c_values::crossing::pid_in;
use pt_c_values::types::{PtChild, PtChildCounts, PtChildSpec, PtGaveUp, PtPid};
use pt_workers::Fault;
use std::alloc::Global;

/// The number of the children of a supervisor; 8 if the process is no supervisor of the crew.
pub fn child_count(alloc: Global, c: &mut CrewHandle, p: PtPid, out: &mut usize) -> u32
    ensures { ReadsThrough c.old.state c.new.state result (out.new ≡ out.old)
        (λ crew. TellsChildCount crew (pid_crossed p) result out.old out.new) }
{
    let Some(held) = claim(alloc, c) else {
        return EMPTY;
    };
    let code = match &held.crew {
        Some(crew) => match crew.children(pid_in(p)) {
            Some(children) => {
                *out = children.len();
                DONE
            }
            None => NOTHING,
        },
        None => EMPTY,
    };
    *c = hold(held);
    code
}

/// The child at a place of a supervisor; 8 if the process is no supervisor of the crew, or has fewer children.
pub fn child_at(alloc: Global, c: &mut CrewHandle, p: PtPid, place: usize, out: &mut PtChild) -> u32
    ensures { ReadsThrough c.old.state c.new.state result (out.new ≡ out.old)
        (λ crew. TellsChild crew (pid_crossed p) place result out.old out.new) }
{
    let Some(held) = claim(alloc, c) else {
        return EMPTY;
    };
    let code = match &held.crew {
        Some(crew) => match crew.children(pid_in(p)) {
            Some(children) => match children.get(place) {
                Some(child) => {
                    *out = child_out(*child);
                    DONE
                }
                None => NOTHING,
            },
            None => NOTHING,
        },
        None => EMPTY,
    };
    *c = hold(held);
    code
}

/// Asks a supervisor for one more child, behind the others. It writes the place of the child to `out` if it returns 0. It
/// returns 16 if a code of the child is none of its enumeration, and 8 if the process is no supervisor of the crew. If there
/// is a child with its tag it returns 23 if that is running, and else 25.
pub fn start_child(
    alloc: Global,
    c: &mut CrewHandle,
    p: PtPid,
    child: PtChildSpec,
    out: &mut usize,
) -> u32
    ensures { CallsThrough c.old.state c.new.state result (out.new ≡ out.old)
        (λ old new. CrewStartsChild (pid_crossed p) child result out.old out.new old new) }
{
    let Some(mut held) = claim(alloc, c) else {
        return EMPTY;
    };
    let code = match &mut held.crew {
        Some(crew) => match child_in(child) {
            Some(known) => value_code(crew.start_child(pid_in(p), known), out),
            None => BAD_CODE,
        },
        None => EMPTY,
    };
    *c = hold(held);
    code
}

/// Asks a supervisor to end the child with this tag; 8 if the process is no supervisor of the crew, or has no such child.
pub fn terminate_child(alloc: Global, c: &mut CrewHandle, p: PtPid, tag: u64) -> u32
    ensures { CallsThrough c.old.state c.new.state result (Unit {0})
        (λ old new. CrewTerminatesChild (pid_crossed p) tag result old new) }
{
    let Some(mut held) = claim(alloc, c) else {
        return EMPTY;
    };
    let code = match &mut held.crew {
        Some(crew) => child_code(crew.terminate_child(pid_in(p), tag)),
        None => EMPTY,
    };
    *c = hold(held);
    code
}

/// Tells a supervisor that the child with this tag was started on another desk, as this process; 8 if p is no supervisor of
/// the crew, or does not wait for this child.
pub fn child_started(alloc: Global, c: &mut CrewHandle, p: PtPid, tag: u64, child: PtPid) -> u32
    ensures { CallsThrough c.old.state c.new.state result (Unit {0})
        (λ old new. CrewIsToldStarted (pid_crossed p) tag (pid_crossed child) result old new) }
{
    let started = pid_in(child);
    let Some(mut held) = claim(alloc, c) else {
        return EMPTY;
    };
    let code = match &mut held.crew {
        Some(crew) => child_code(crew.child_started(pid_in(p), tag, started)),
        None => EMPTY,
    };
    *c = hold(held);
    code
}

/// Tells a supervisor that the child with this tag was not started on another desk; 8 if p is no supervisor of the crew, or does
/// not wait for this child.
pub fn child_not_started(alloc: Global, c: &mut CrewHandle, p: PtPid, tag: u64) -> u32
    ensures { CallsThrough c.old.state c.new.state result (Unit {0})
        (λ old new. CrewIsToldNotStarted (pid_crossed p) tag result old new) }
{
    let Some(mut held) = claim(alloc, c) else {
        return EMPTY;
    };
    let code = match &mut held.crew {
        Some(crew) => child_code(crew.child_not_started(pid_in(p), tag, Fault::NoProc)),
        None => EMPTY,
    };
    *c = hold(held);
    code
}

/// The tag of the child that a supervisor wants started on another desk, which it writes to `out` if it returns 0; 8 if there is
/// none, or it was told before, or the process is no supervisor of the crew.
pub fn child_to_start(alloc: Global, c: &mut CrewHandle, p: PtPid, out: &mut u64) -> u32
    ensures { CallsThrough c.old.state c.new.state result (out.new ≡ out.old)
        (λ old new. CrewAsksProgram (pid_crossed p) result out.old out.new old new) }
{
    let Some(mut held) = claim(alloc, c) else {
        return EMPTY;
    };
    let code = match &mut held.crew {
        Some(crew) => value_code(crew.child_to_start(pid_in(p)), out),
        None => EMPTY,
    };
    *c = hold(held);
    code
}

/// Asks a supervisor to start the child with this tag, which it ended or which is done; 8 if the process is no supervisor of
/// the crew, or has no such child, 23 if the child is running, and 24 if it is to be started.
pub fn restart_child(alloc: Global, c: &mut CrewHandle, p: PtPid, tag: u64) -> u32
    ensures { CallsThrough c.old.state c.new.state result (Unit {0})
        (λ old new. CrewRestartsChild (pid_crossed p) tag result old new) }
{
    let Some(mut held) = claim(alloc, c) else {
        return EMPTY;
    };
    let code = match &mut held.crew {
        Some(crew) => child_code(crew.restart_child(pid_in(p), tag)),
        None => EMPTY,
    };
    *c = hold(held);
    code
}

/// Has a supervisor forget the child with this tag. It writes the place that the child had to `out` if it returns 0. It
/// returns 8, 23 and 24 as `restart_child` does.
pub fn delete_child(alloc: Global, c: &mut CrewHandle, p: PtPid, tag: u64, out: &mut usize) -> u32
    ensures { CallsThrough c.old.state c.new.state result (out.new ≡ out.old)
        (λ old new. CrewDeletesChild (pid_crossed p) tag result out.old out.new old new) }
{
    let Some(mut held) = claim(alloc, c) else {
        return EMPTY;
    };
    let code = match &mut held.crew {
        Some(crew) => value_code(crew.delete_child(pid_in(p), tag), out),
        None => EMPTY,
    };
    *c = hold(held);
    code
}

/// How many children a supervisor has; 8 if the process is no supervisor of the crew.
pub fn count_children(alloc: Global, c: &mut CrewHandle, p: PtPid, out: &mut PtChildCounts) -> u32
    ensures { ReadsThrough c.old.state c.new.state result (out.new ≡ out.old)
        (λ crew. TellsCounts crew (pid_crossed p) result out.old out.new) }
{
    let Some(held) = claim(alloc, c) else {
        return EMPTY;
    };
    let code = match &held.crew {
        Some(crew) => match crew.count_children(pid_in(p)) {
            Some(counts) => {
                *out = counts_out(counts);
                DONE
            }
            None => NOTHING,
        },
        None => EMPTY,
    };
    *c = hold(held);
    code
}

/// Why a supervisor gave up; 8 if it has not, or if the process is no supervisor of the crew.
pub fn gave_up(alloc: Global, c: &mut CrewHandle, p: PtPid, out: &mut PtGaveUp) -> u32
    ensures { ReadsThrough c.old.state c.new.state result (out.new ≡ out.old)
        (λ crew. TellsCause crew (pid_crossed p) result out.old out.new) }
{
    let Some(held) = claim(alloc, c) else {
        return EMPTY;
    };
    let code = match &held.crew {
        Some(crew) => match crew.gave_up(pid_in(p)) {
            Some(cause) => {
                *out = cause_out(cause);
                DONE
            }
            None => NOTHING,
        },
        None => EMPTY,
    };
    *c = hold(held);
    code
}
