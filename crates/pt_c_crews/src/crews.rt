//! The calls of a crew that get a desk or a history, too.
//!
//! Each makes the call of `Scheduler` that has its name on the crew of the handle, and returns its code. It returns 9 if a
//! handle has none, and nothing has changed then. Of those that get a desk each returns 18 if the crew is that of a desk
//! with another number, and nothing has changed then either. So 9 comes before 16, and 16 before 18 and each other refusal.

ghost use Rattle.std.specs.Prelude.{◌≡◌};
ghost use Rattle.pt_c_values.specs.Places.{CallsThrough, ReadsThrough};
ghost use Rattle.pt_c_values.specs.Codes.{code_at, told_or};
ghost use Rattle.pt_c_values.specs.Crossing.{pid_crossed, pid_out};
ghost use Rattle.pt_c_crews.specs.Crewing.{NotesIfOwn, SpawnsBossInCrew, SpawnsChildInCrew, SpawnsInCrew, CrewTells};
ghost use Rattle.pt_c_crews.specs.Owning.{is_own};
ghost use Rattle.pt_c_crews.specs.Through.{GoesOnIn, StepsIfOwn};

use crate::batches::fill;
use crate::crew_handle::{CrewHandle, claim, hold};
use pt_c_desks::desk_handle::{DeskHandle, claim as claim_desk, hold as hold_desk};
use pt_c_desks::history_handle::{HistoryHandle, claim as claim_history, hold as hold_history};
use pt_c_tools::crossing_children::{are_children, children_in, spec_in};
use pt_c_tools::crossing_nexts::next_in;
use pt_c_values::codes::{BAD_CODE, DONE, EMPTY, MEMORY, NOTHING, WRONG_DESK, code_of, stop_code};
use pt_c_values::crossing::{pid_in, pid_out};
use pt_c_values::types::{PtChildSpec, PtJob, PtNext, PtPid, PtSupervisorSpec, PtTurned};
use pt_scheduler::Scheduler;
use pt_workers::{Desk, Fault, Pid};
use std::alloc::Global;

/// Whether the desk is the crew's own, or the crew may be that of any desk.
fn is_own(crew: &Scheduler, desk: &Desk) -> bool
    ensures { result ≡ is_own crew.now desk.now }
{
    match crew.desk() {
        Some(number) => number == desk.number(),
        None => true,
    }
}

/// The code of a spawn. It writes the pid, if there is one.
fn spawn_code(spawned: Result<Pid, Fault>, out: &mut PtPid) -> u32
    ensures code { result ≡ code_at spawned }
    ensures wrote { out.new ≡ told_or pid_out out.old spawned }
{
    match spawned {
        Ok(pid) => {
            *out = pid_out(pid);
            DONE
        }
        Err(fault) => code_of(fault),
    }
}

/// Spawns a process on the desk with this tag, which does `first` next, as `Scheduler::spawn` does. It writes the pid to
/// `out` if it returns 0. It returns 16 if a code in `first` is none of its enumeration.
pub fn spawn(
    alloc: Global,
    c: &mut CrewHandle,
    h: &mut DeskHandle,
    tag: u64,
    first: PtNext,
    out: &mut PtPid,
) -> u32
    ensures { CallsThrough h.old.state h.new.state result ((c.new.state ≡ c.old.state) × (out.new ≡ out.old))
        (λ d e. CallsThrough c.old.state c.new.state result ((e ≡ d) × (out.new ≡ out.old))
        (λ old new. SpawnsInCrew tag first result out.old out.new old d new e)) }
{
    let Some(mut place) = claim_desk(alloc, h) else {
        return EMPTY;
    };
    let Some(mut held) = claim(alloc, c) else {
        *h = hold_desk(place);
        return EMPTY;
    };
    let code = match (&mut held.crew, &mut place.desk) {
        (Some(crew), Some(desk)) => match next_in(first) {
            Some(_) if !is_own(crew, desk) => WRONG_DESK,
            Some(next) => spawn_code(crew.spawn(desk, tag, next), out),
            None => BAD_CODE,
        },
        _ => EMPTY,
    };
    *c = hold(held);
    *h = hold_desk(place);
    code
}

/// Spawns a child of the parent with this tag, linked with it if `linked` is true, as `Scheduler::spawn_child` does. It writes
/// the pid to `out` if it returns 0. It returns 16 if a code in `first` is none of its enumeration.
pub fn spawn_child(
    alloc: Global,
    c: &mut CrewHandle,
    h: &mut DeskHandle,
    parent: PtPid,
    linked: bool,
    tag: u64,
    first: PtNext,
    out: &mut PtPid,
) -> u32
    ensures { CallsThrough h.old.state h.new.state result ((c.new.state ≡ c.old.state) × (out.new ≡ out.old))
        (λ d e. CallsThrough c.old.state c.new.state result ((e ≡ d) × (out.new ≡ out.old))
        (λ old new. SpawnsChildInCrew (pid_crossed parent) linked tag first result out.old out.new old d new e)) }
{
    let Some(mut place) = claim_desk(alloc, h) else {
        return EMPTY;
    };
    let Some(mut held) = claim(alloc, c) else {
        *h = hold_desk(place);
        return EMPTY;
    };
    let code = match (&mut held.crew, &mut place.desk) {
        (Some(crew), Some(desk)) => match next_in(first) {
            Some(_) if !is_own(crew, desk) => WRONG_DESK,
            Some(next) => {
                let child = crew.spawn_child(desk, pid_in(parent), linked, tag, next);
                spawn_code(child, out)
            }
            None => BAD_CODE,
        },
        _ => EMPTY,
    };
    *c = hold(held);
    *h = hold_desk(place);
    code
}

/// Spawns a supervisor on the desk with this tag, which starts its children when it runs, as `Scheduler::spawn_supervisor`
/// does. It writes the pid to `out` if it returns 0. It returns 16 if a code of it or of a child is none of its enumeration.
pub fn spawn_supervisor(
    alloc: Global,
    c: &mut CrewHandle,
    h: &mut DeskHandle,
    tag: u64,
    spec: PtSupervisorSpec,
    children: &[PtChildSpec],
    out: &mut PtPid,
) -> u32
    ensures { CallsThrough h.old.state h.new.state result ((c.new.state ≡ c.old.state) × (out.new ≡ out.old))
        (λ d e. CallsThrough c.old.state c.new.state result ((e ≡ d) × (out.new ≡ out.old))
        (λ old new. SpawnsBossInCrew tag spec children.now result out.old out.new old d new e)) }
{
    let Some(mut place) = claim_desk(alloc, h) else {
        return EMPTY;
    };
    let Some(mut held) = claim(alloc, c) else {
        *h = hold_desk(place);
        return EMPTY;
    };
    let code = match (&mut held.crew, &mut place.desk) {
        (Some(crew), Some(desk)) => match spec_in(spec) {
            Some(_) if !are_children(children) => BAD_CODE,
            Some(_) if !is_own(crew, desk) => WRONG_DESK,
            Some(known) => match children_in(alloc, children) {
                Ok(list) => {
                    let boss = crew.spawn_supervisor(alloc, desk, tag, known, list.as_slice());
                    spawn_code(boss, out)
                }
                Err(_) => MEMORY,
            },
            None => BAD_CODE,
        },
        _ => EMPTY,
    };
    *c = hold(held);
    *h = hold_desk(place);
    code
}

/// Does a turn of the desk, and then a step of the crew, which hands out at most as many jobs as `jobs` has places.
/// The jobs are in front of `jobs` then, `count` is their number, and `turned` is what the turn did.
pub fn step(
    alloc: Global,
    c: &mut CrewHandle,
    h: &mut DeskHandle,
    budget: u32,
    jobs: &mut [PtJob],
    count: &mut usize,
    turned: &mut PtTurned,
) -> u32
    ensures { CallsThrough h.old.state h.new.state result ((c.new.state ≡ c.old.state) × (jobs.new ≡ jobs.old)
        × (count.new ≡ count.old) × (turned.new ≡ turned.old))
        (λ d e. CallsThrough c.old.state c.new.state result ((e ≡ d) × (jobs.new ≡ jobs.old)
        × (count.new ≡ count.old) × (turned.new ≡ turned.old))
        (λ old new. StepsIfOwn budget result jobs.old jobs.new count.old count.new turned.old turned.new old d new e)) }
{
    let Some(mut place) = claim_desk(alloc, h) else {
        return EMPTY;
    };
    let Some(mut held) = claim(alloc, c) else {
        *h = hold_desk(place);
        return EMPTY;
    };
    let code = match (&mut held.crew, &mut place.desk) {
        (Some(crew), Some(desk)) if !is_own(crew, desk) => WRONG_DESK,
        (Some(crew), Some(desk)) => {
            let turn = desk.turn(budget);
            crew.begin_step(desk);
            *count = fill(crew, desk, jobs);
            crew.end_step(desk);
            *turned = PtTurned {
                posted: turn.posted,
                handled: turn.handled,
                stopped: stop_code(turn.stopped),
            };
            DONE
        }
        _ => EMPTY,
    };
    *c = hold(held);
    *h = hold_desk(place);
    code
}

/// Notes what the loss with this number of the desk tells, as `Scheduler::note_loss` does: the reason of an exit. It returns 8
/// if there is no such loss.
pub fn note_loss(alloc: Global, c: &mut CrewHandle, h: &mut DeskHandle, place: usize) -> u32
    ensures { ReadsThrough h.old.state h.new.state result (c.new.state ≡ c.old.state)
        (λ d. CallsThrough c.old.state c.new.state result (Unit {0}) (λ old new. NotesIfOwn place result old d new)) }
{
    let Some(desk_place) = claim_desk(alloc, h) else {
        return EMPTY;
    };
    let Some(mut held) = claim(alloc, c) else {
        *h = hold_desk(desk_place);
        return EMPTY;
    };
    let code = match (&mut held.crew, &desk_place.desk) {
        (Some(crew), Some(desk)) if !is_own(crew, desk) => WRONG_DESK,
        (Some(crew), Some(desk)) => match desk.loss(place) {
            Some(loss) => {
                crew.note_loss(loss);
                DONE
            }
            None => NOTHING,
        },
        _ => EMPTY,
    };
    *c = hold(held);
    *h = hold_desk(desk_place);
    code
}

/// Continues over the desk of the same number in a node that was resumed, with the history of the node before, as
/// `Scheduler::go_on` does.
pub fn go_on(alloc: Global, c: &mut CrewHandle, history: &mut HistoryHandle) -> u32
    ensures { ReadsThrough history.old.state history.new.state result (c.new.state ≡ c.old.state)
        (λ told. CallsThrough c.old.state c.new.state result (Unit {0}) (λ old new. GoesOnIn told.events result old new)) }
{
    let Some(place) = claim_history(alloc, history) else {
        return EMPTY;
    };
    let Some(mut held) = claim(alloc, c) else {
        *history = hold_history(place);
        return EMPTY;
    };
    let code = match (&mut held.crew, &place.history) {
        (Some(crew), Some(told)) => {
            crew.go_on(told.events.as_slice());
            DONE
        }
        _ => EMPTY,
    };
    *c = hold(held);
    *history = hold_history(place);
    code
}

/// Whether no process is in the queue, and all that happened on the desk was read.
pub fn is_idle(alloc: Global, c: &mut CrewHandle, h: &mut DeskHandle, out: &mut bool) -> u32
    ensures { ReadsThrough h.old.state h.new.state result ((c.new.state ≡ c.old.state) × (out.new ≡ out.old))
        (λ d. ReadsThrough c.old.state c.new.state result (out.new ≡ out.old)
        (λ crew. CrewTells result crew d out.old out.new)) }
{
    let Some(place) = claim_desk(alloc, h) else {
        return EMPTY;
    };
    let Some(held) = claim(alloc, c) else {
        *h = hold_desk(place);
        return EMPTY;
    };
    let code = match (&held.crew, &place.desk) {
        (Some(crew), Some(desk)) if !is_own(crew, desk) => WRONG_DESK,
        (Some(crew), Some(desk)) => {
            *out = crew.is_idle(desk);
            DONE
        }
        _ => EMPTY,
    };
    *c = hold(held);
    *h = hold_desk(place);
    code
}
