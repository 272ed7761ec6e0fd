//! The calls of a crew alone.
//!
//! Each makes the call of `Scheduler` that has its name on the crew of the handle, and returns its code. It returns `EMPTY`
//! if the handle has none, and nothing has changed then.

ghost use Rattle.std.specs.Prelude.{◌≡◌, length};
ghost use Rattle.pt_crew.specs.Crews.{crew_size, queue, was_refused};
ghost use Rattle.pt_scheduler.specs.Scheduling.{member_views, crew_of};
ghost use Rattle.pt_c_values.specs.Places.{CallsThrough, ReadsThrough, ShowsCode};
ghost use Rattle.pt_c_values.specs.Crossing.{pid_crossed};
ghost use Rattle.pt_c_values.specs.Filling.{GivesUp};
ghost use Rattle.pt_c_tools.specs.Nexts.{next_out};
ghost use Rattle.pt_c_crews.specs.Crewing.{CrewBeginsAgain, CrewSupervises, TellsTime};
ghost use Rattle.pt_c_crews.specs.Through.{AnswersInOrder, OpensCrew, SetsCrewTime};

use crate::batches::answer_all;
use crate::crew_handle::{CrewHandle, claim, filled, hold, is_full, spare};
use pt_c_tools::crossing_children::{are_children, children_in, spec_in};
use pt_c_tools::crossing_nexts::next_out;
use pt_c_values::codes::{BAD_CODE, DONE, EMPTY, FILLED, MEMORY, NOT_RUNNING, NOTHING};
use pt_c_values::crossing::pid_in;
use pt_c_values::ending::end_code;
use pt_c_values::types::{PtAnswer, PtChildSpec, PtNext, PtPid, PtSupervisorSpec};
use pt_scheduler::Scheduler;
use std::alloc::Global;

/// Begins a crew. The handle must be empty: it returns 10 if it is not.
pub fn open(alloc: Global, c: &mut CrewHandle) -> u32
    ensures { OpensCrew result c.old.state c.new.state }
{
    if is_full(alloc, c) {
        return FILLED;
    }
    let Ok(place) = spare(alloc) else {
        return MEMORY;
    };
    *c = filled(place, Scheduler::new(alloc));
    DONE
}

/// Gives up the crew. Its processes stay on their desk, and are of no crew.
pub fn give_up(alloc: Global, c: &mut CrewHandle) -> u32
    ensures { GivesUp result c.old.state c.new.state }
{
    match claim(alloc, c) {
        Some(place) => end_code(place.crew.is_some()),
        None => EMPTY,
    }
}

/// Says that a running process is a supervisor from now on. It returns 16 if a code of it or of a child is none of its
/// enumeration, and 17 if the process is not running or is none of the crew.
pub fn supervise(
    alloc: Global,
    c: &mut CrewHandle,
    p: PtPid,
    spec: PtSupervisorSpec,
    children: &[PtChildSpec],
) -> u32
    ensures { CallsThrough c.old.state c.new.state result (Unit {0})
        (λ old new. CrewSupervises (pid_crossed p) spec children.now result old new) }
{
    let Some(mut held) = claim(alloc, c) else {
        return EMPTY;
    };
    let code = match &mut held.crew {
        Some(crew) => match spec_in(spec) {
            Some(known) if are_children(children) => match children_in(alloc, children) {
                Ok(list) => match crew.supervise(alloc, pid_in(p), known, list.as_slice()) {
                    Ok(true) => DONE,
                    Ok(false) => NOT_RUNNING,
                    Err(_) => MEMORY,
                },
                Err(_) => MEMORY,
            },
            _ => BAD_CODE,
        },
        None => EMPTY,
    };
    *c = hold(held);
    code
}

/// Takes the answers in order, up to the first that is refused. `taken` is the number of those taken then. It returns the
/// code of the one that was refused, if there is one.
pub fn answer(alloc: Global, c: &mut CrewHandle, answers: &[PtAnswer], taken: &mut usize) -> u32
    ensures { CallsThrough c.old.state c.new.state result (taken.new ≡ taken.old)
        (λ old new. AnswersInOrder answers.now result taken.new old new) }
{
    let Some(mut held) = claim(alloc, c) else {
        return EMPTY;
    };
    let code = match &mut held.crew {
        Some(crew) => answer_all(crew, answers, taken),
        None => EMPTY,
    };
    *c = hold(held);
    code
}

/// Says what time it is in the calls that follow.
pub fn set_time(alloc: Global, c: &mut CrewHandle, now: u64) -> u32
    ensures { CallsThrough c.old.state c.new.state result (Unit {0}) (λ old new. SetsCrewTime now result old new) }
{
    let Some(mut held) = claim(alloc, c) else {
        return EMPTY;
    };
    let code = match &mut held.crew {
        Some(crew) => {
            crew.set_time(now);
            DONE
        }
        None => EMPTY,
    };
    *c = hold(held);
    code
}

/// Continues over the desk of the same number in a node that was resumed. It may be called again if it returns 2.
pub fn begin_again(alloc: Global, c: &mut CrewHandle) -> u32
    ensures { CallsThrough c.old.state c.new.state result (Unit {0}) (λ old new. CrewBeginsAgain result old new) }
{
    let Some(mut held) = claim(alloc, c) else {
        return EMPTY;
    };
    let code = match &mut held.crew {
        Some(crew) => match crew.begin_again() {
            Ok(()) => DONE,
            Err(_) => MEMORY,
        },
        None => EMPTY,
    };
    *c = hold(held);
    code
}

/// The earliest time until which a process waits that is not in the queue; 8 if there is no such process.
pub fn next_time(alloc: Global, c: &mut CrewHandle, out: &mut u64) -> u32
    ensures { ReadsThrough c.old.state c.new.state result (out.new ≡ out.old)
        (λ crew. TellsTime crew result out.old out.new) }
{
    let Some(held) = claim(alloc, c) else {
        return EMPTY;
    };
    let code = match &held.crew {
        Some(crew) => match crew.next_time() {
            Some(time) => {
                *out = time;
                DONE
            }
            None => NOTHING,
        },
        None => EMPTY,
    };
    *c = hold(held);
    code
}

/// The tag of a process; 8 if it is none of the crew.
pub fn tag(alloc: Global, c: &mut CrewHandle, p: PtPid, out: &mut u64) -> u32
    ensures { ReadsThrough c.old.state c.new.state result (out.new ≡ out.old)
        (λ crew. ShowsCode result out.old out.new (λ v. v.tag) (member_views crew (pid_crossed p))) }
{
    let Some(held) = claim(alloc, c) else {
        return EMPTY;
    };
    let code = match &held.crew {
        Some(crew) => match crew.tag(pid_in(p)) {
            Some(tag) => {
                *out = tag;
                DONE
            }
            None => NOTHING,
        },
        None => EMPTY,
    };
    *c = hold(held);
    code
}

/// What a process does next; 8 if it is none of the crew.
pub fn next(alloc: Global, c: &mut CrewHandle, p: PtPid, out: &mut PtNext) -> u32
    ensures { ReadsThrough c.old.state c.new.state result (out.new ≡ out.old)
        (λ crew. ShowsCode result out.old out.new (λ v. next_out v.next) (member_views crew (pid_crossed p))) }
{
    let Some(held) = claim(alloc, c) else {
        return EMPTY;
    };
    let code = match &held.crew {
        Some(crew) => match crew.next(pid_in(p)) {
            Some(next) => {
                *out = next_out(next);
                DONE
            }
            None => NOTHING,
        },
        None => EMPTY,
    };
    *c = hold(held);
    code
}

/// The number of processes of the crew, supervisors too.
pub fn len(alloc: Global, c: &mut CrewHandle, out: &mut usize) -> u32
    ensures { ReadsThrough c.old.state c.new.state result (out.new ≡ out.old)
        (λ crew. (result ≡ 0) × (out.new ≡ crew_size (crew_of crew))) }
{
    let Some(held) = claim(alloc, c) else {
        return EMPTY;
    };
    let code = match &held.crew {
        Some(crew) => {
            *out = crew.len();
            DONE
        }
        None => EMPTY,
    };
    *c = hold(held);
    code
}

/// The number of processes of the crew that may have something to do.
pub fn queued(alloc: Global, c: &mut CrewHandle, out: &mut usize) -> u32
    ensures { ReadsThrough c.old.state c.new.state result (out.new ≡ out.old)
        (λ crew. (result ≡ 0) × (out.new ≡ length (queue (crew_of crew)))) }
{
    let Some(held) = claim(alloc, c) else {
        return EMPTY;
    };
    let code = match &held.crew {
        Some(crew) => {
            *out = crew.queued();
            DONE
        }
        None => EMPTY,
    };
    *c = hold(held);
    code
}

/// Whether a process was refused memory or a stamp in the last step.
pub fn refused(alloc: Global, c: &mut CrewHandle, out: &mut bool) -> u32
    ensures { ReadsThrough c.old.state c.new.state result (out.new ≡ out.old)
        (λ crew. (result ≡ 0) × (out.new ≡ was_refused (crew_of crew))) }
{
    let Some(held) = claim(alloc, c) else {
        return EMPTY;
    };
    let code = match &held.crew {
        Some(crew) => {
            *out = crew.refused();
            DONE
        }
        None => EMPTY,
    };
    *c = hold(held);
    code
}
