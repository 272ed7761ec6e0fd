//! The calls of a crew: the processes of one desk whose handlers are outside, with their supervisors.
//!
//! Each makes the call of `Scheduler` that has its name on the crew of the handle, and returns its code. It returns 9 if a
//! handle has none, and nothing has changed then. Of those that get a desk each returns 18 if the crew is that of a desk
//! with another number, and nothing has changed then either.

ghost use Rattle.std.specs.Prelude.{◌≡◌, length};
ghost use Rattle.pt_crew.specs.Crews.{crew_size, queue, was_refused};
ghost use Rattle.pt_c_values.specs.Places.{CallsThrough, ReadsThrough, ShowsCode};
ghost use Rattle.pt_c_values.specs.Crossing.{pid_crossed};
ghost use Rattle.pt_c_tools.specs.Nexts.{next_out};
ghost use Rattle.pt_scheduler.specs.Scheduling.{member_views, crew_of};
ghost use Rattle.pt_c_crews.specs.Crewing.{CrewBeginsAgain, CrewSupervises, CrewTells, NotesIfOwn, SpawnsBossInCrew};
ghost use Rattle.pt_c_crews.specs.Crewing.{SpawnsChildInCrew, SpawnsInCrew, TellsChild, TellsChildCount, TellsTime};
ghost use Rattle.pt_c_crews.specs.Children.{CrewAsksProgram, CrewDeletesChild, CrewRestartsChild, CrewStartsChild};
ghost use Rattle.pt_c_crews.specs.Children.{CrewIsToldNotStarted, CrewIsToldStarted, CrewTerminatesChild, TellsCause, TellsCounts};
ghost use Rattle.pt_c_crews.specs.Through.{AnswersInOrder, GoesOnIn, OpensCrew, SetsCrewTime, StepsIfOwn};
ghost use Rattle.pt_c_values.specs.Filling.{GivesUp};

use pt_c_crews::crew_handle::CrewHandle;
use pt_c_crews::{calls, children, crews};
use pt_c_desks::desk_handle::DeskHandle;
use pt_c_desks::history_handle::HistoryHandle;
use pt_c_values::types::{
    PtAnswer, PtChild, PtChildCounts, PtChildSpec, PtGaveUp, PtJob, PtNext, PtPid,
    PtSupervisorSpec, PtTurned,
};
use std::alloc::Global;

/// Begins a crew, with no process and at the time 0. It is that of the desk on which it spawns its first process or makes
/// its first step.
///
/// The handle must be empty: it returns 10 if it is not.
#[unsafe(no_mangle)]
pub extern "C" fn pt_crew_open(alloc: Global, c: &mut CrewHandle) -> u32
    ensures { OpensCrew result c.old.state c.new.state }
{
    calls::open(alloc, c)
}

/// Gives up a crew. Its processes stay on their desk, and are of no crew.
#[unsafe(no_mangle)]
pub extern "C" fn pt_crew_give_up(alloc: Global, c: &mut CrewHandle) -> u32
    ensures { GivesUp result c.old.state c.new.state }
{
    calls::give_up(alloc, c)
}

/// Spawns a process on the desk with this tag, which does `first` next, as `Scheduler::spawn` does. It writes the pid to
/// `out` if it returns 0. It returns 16 if a code in `first` is none of its enumeration.
#[unsafe(no_mangle)]
pub extern "C" fn pt_crew_spawn(
    alloc: Global,
    c: &mut CrewHandle,
    h: &mut DeskHandle,
    tag: u64,
    first: PtNext,
    out: &mut PtPid,
) -> u32
    ensures { CallsThrough h.old.state h.new.state result ((c.new.state ≡ c.old.state) × (out.new ≡ out.old))
        (λ d e. CallsThrough c.old.state c.new.state result ((e ≡ d) × (out.new ≡ out.old))
        (λ old new. SpawnsInCrew tag first result out.old out.new old d new e)) }
{
    crews::spawn(alloc, c, h, tag, first, out)
}

/// Spawns a child of the parent with this tag, linked with it if `linked` is true, as `Scheduler::spawn_child` does. It writes
/// the pid to `out` if it returns 0. It returns 16 if a code in `first` is none of its enumeration.
#[unsafe(no_mangle)]
pub extern "C" fn pt_crew_spawn_child(
    alloc: Global,
    c: &mut CrewHandle,
    h: &mut DeskHandle,
    parent: PtPid,
    linked: bool,
    tag: u64,
    first: PtNext,
    out: &mut PtPid,
) -> u32
    ensures { CallsThrough h.old.state h.new.state result ((c.new.state ≡ c.old.state) × (out.new ≡ out.old))
        (λ d e. CallsThrough c.old.state c.new.state result ((e ≡ d) × (out.new ≡ out.old))
        (λ old new. SpawnsChildInCrew (pid_crossed parent) linked tag first result out.old out.new old d new e)) }
{
    crews::spawn_child(alloc, c, h, parent, linked, tag, first, out)
}

/// Spawns a supervisor on the desk with this tag, which starts its children when it runs, as `Scheduler::spawn_supervisor`
/// does. It writes the pid to `out` if it returns 0. It returns 16 if a code of it or of a child is none of its enumeration.
#[unsafe(no_mangle)]
pub extern "C" fn pt_crew_spawn_supervisor(
    alloc: Global,
    c: &mut CrewHandle,
    h: &mut DeskHandle,
    tag: u64,
    spec: PtSupervisorSpec,
    children: &[PtChildSpec],
    out: &mut PtPid,
) -> u32
    ensures { CallsThrough h.old.state h.new.state result ((c.new.state ≡ c.old.state) × (out.new ≡ out.old))
        (λ d e. CallsThrough c.old.state c.new.state result ((e ≡ d) × (out.new ≡ out.old))
        (λ old new. SpawnsBossInCrew tag spec children.now result out.old out.new old d new e)) }
{
    crews::spawn_supervisor(alloc, c, h, tag, spec, children, out)
}

/// Says that a running process is a supervisor from now on, which starts its children when it runs, as `Scheduler::supervise`
/// does. It returns 16 if a code of it or of a child is none of its enumeration, and 17 if the process is not running or is
/// none of the crew.
#[unsafe(no_mangle)]
pub extern "C" fn pt_crew_supervise(
    alloc: Global,
    c: &mut CrewHandle,
    p: PtPid,
    spec: PtSupervisorSpec,
    children: &[PtChildSpec],
) -> u32
    ensures { CallsThrough c.old.state c.new.state result (Unit {0})
        (λ old new. CrewSupervises (pid_crossed p) spec children.now result old new) }
{
    calls::supervise(alloc, c, p, spec, children)
}

/// Does a turn of the desk, and then a step of the crew, which hands out at most as many jobs as `jobs` has places.
/// The jobs are in front of `jobs` then, `count` is their number, and `turned` is what the turn did.
#[unsafe(no_mangle)]
pub extern "C" fn pt_crew_step(
    alloc: Global,
    c: &mut CrewHandle,
    h: &mut DeskHandle,
    budget: u32,
    jobs: &mut [PtJob],
    count: &mut usize,
    turned: &mut PtTurned,
) -> u32
    ensures { CallsThrough h.old.state h.new.state result ((c.new.state ≡ c.old.state) × (jobs.new ≡ jobs.old)
        × (count.new ≡ count.old) × (turned.new ≡ turned.old))
        (λ d e. CallsThrough c.old.state c.new.state result ((e ≡ d) × (jobs.new ≡ jobs.old)
        × (count.new ≡ count.old) × (turned.new ≡ turned.old))
        (λ old new. StepsIfOwn budget result jobs.old jobs.new count.old count.new turned.old turned.new old d new e)) }
{
    crews::step(alloc, c, h, budget, jobs, count, turned)
}

/// Takes the answers in order, up to the first that is refused. `taken` is the number of those taken then.
///
/// If all were taken it returns 0. Else it returns the code of the one at place `taken`: 16 if a code in it is none of
/// its enumeration, and 17 if its process is not running or is none of the crew.
#[unsafe(no_mangle)]
pub extern "C" fn pt_crew_answer(
    alloc: Global,
    c: &mut CrewHandle,
    answers: &[PtAnswer],
    taken: &mut usize,
) -> u32
    ensures { CallsThrough c.old.state c.new.state result (taken.new ≡ taken.old)
        (λ old new. AnswersInOrder answers.now result taken.new old new) }
{
    calls::answer(alloc, c, answers, taken)
}

/// Says what time it is in the calls that follow.
#[unsafe(no_mangle)]
pub extern "C" fn pt_crew_set_time(alloc: Global, c: &mut CrewHandle, now: u64) -> u32
    ensures { CallsThrough c.old.state c.new.state result (Unit {0}) (λ old new. SetsCrewTime now result old new) }
{
    calls::set_time(alloc, c, now)
}

/// Notes what the loss with this number of the desk tells, as `Scheduler::note_loss` does: the reason of an exit. It returns 8
/// if there is no such loss.
#[unsafe(no_mangle)]
pub extern "C" fn pt_crew_note_loss(
    alloc: Global,
    c: &mut CrewHandle,
    h: &mut DeskHandle,
    place: usize,
) -> u32
    ensures { ReadsThrough h.old.state h.new.state result (c.new.state ≡ c.old.state)
        (λ d. CallsThrough c.old.state c.new.state result (Unit {0}) (λ old new. NotesIfOwn place result old d new)) }
{
    crews::note_loss(alloc, c, h, place)
}

/// Continues over the desk of the same number in a node that was resumed, as `Scheduler::begin_again` does. It may be called
/// again if it returns 2.
#[unsafe(no_mangle)]
pub extern "C" fn pt_crew_begin_again(alloc: Global, c: &mut CrewHandle) -> u32
    ensures { CallsThrough c.old.state c.new.state result (Unit {0}) (λ old new. CrewBeginsAgain result old new) }
{
    calls::begin_again(alloc, c)
}

/// Continues over the desk of the same number in a node that was resumed, with the history of the node before, as
/// `Scheduler::go_on` does.
#[unsafe(no_mangle)]
pub extern "C" fn pt_crew_go_on(
    alloc: Global,
    c: &mut CrewHandle,
    history: &mut HistoryHandle,
) -> u32
    ensures { ReadsThrough history.old.state history.new.state result (c.new.state ≡ c.old.state)
        (λ told. CallsThrough c.old.state c.new.state result (Unit {0}) (λ old new. GoesOnIn told.events result old new)) }
{
    crews::go_on(alloc, c, history)
}

/// The earliest time until which a process waits that is not in the queue; 8 if there is no such process.
#[unsafe(no_mangle)]
pub extern "C" fn pt_crew_next_time(alloc: Global, c: &mut CrewHandle, out: &mut u64) -> u32
    ensures { ReadsThrough c.old.state c.new.state result (out.new ≡ out.old)
        (λ crew. TellsTime crew result out.old out.new) }
{
    calls::next_time(alloc, c, out)
}

/// The tag of a process; 8 if it is none of the crew.
#[unsafe(no_mangle)]
pub extern "C" fn pt_crew_tag(alloc: Global, c: &mut CrewHandle, p: PtPid, out: &mut u64) -> u32
    ensures { ReadsThrough c.old.state c.new.state result (out.new ≡ out.old)
        (λ crew. ShowsCode result out.old out.new (λ v. v.tag) (member_views crew (pid_crossed p))) }
{
    calls::tag(alloc, c, p, out)
}

/// What a process does next; 8 if it is none of the crew.
#[unsafe(no_mangle)]
pub extern "C" fn pt_crew_next(alloc: Global, c: &mut CrewHandle, p: PtPid, out: &mut PtNext) -> u32
    ensures { ReadsThrough c.old.state c.new.state result (out.new ≡ out.old)
        (λ crew. ShowsCode result out.old out.new (λ v. next_out v.next) (member_views crew (pid_crossed p))) }
{
    calls::next(alloc, c, p, out)
}

/// The number of processes of the crew, supervisors too.
#[unsafe(no_mangle)]
pub extern "C" fn pt_crew_len(alloc: Global, c: &mut CrewHandle, out: &mut usize) -> u32
    ensures { ReadsThrough c.old.state c.new.state result (out.new ≡ out.old)
        (λ crew. (result ≡ 0) × (out.new ≡ crew_size (crew_of crew))) }
{
    calls::len(alloc, c, out)
}

/// The number of processes of the crew that may have something to do.
#[unsafe(no_mangle)]
pub extern "C" fn pt_crew_queued(alloc: Global, c: &mut CrewHandle, out: &mut usize) -> u32
    ensures { ReadsThrough c.old.state c.new.state result (out.new ≡ out.old)
        (λ crew. (result ≡ 0) × (out.new ≡ length (queue (crew_of crew)))) }
{
    calls::queued(alloc, c, out)
}

/// Whether a process was refused memory or a stamp in the last step.
#[unsafe(no_mangle)]
pub extern "C" fn pt_crew_refused(alloc: Global, c: &mut CrewHandle, out: &mut bool) -> u32
    ensures { ReadsThrough c.old.state c.new.state result (out.new ≡ out.old)
        (λ crew. (result ≡ 0) × (out.new ≡ was_refused (crew_of crew))) }
{
    calls::refused(alloc, c, out)
}

/// Whether no process is in the queue, and all that happened on the desk was read.
#[unsafe(no_mangle)]
pub extern "C" fn pt_crew_is_idle(
    alloc: Global,
    c: &mut CrewHandle,
    h: &mut DeskHandle,
    out: &mut bool,
) -> u32
    ensures { ReadsThrough h.old.state h.new.state result ((c.new.state ≡ c.old.state) × (out.new ≡ out.old))
        (λ d. ReadsThrough c.old.state c.new.state result (out.new ≡ out.old)
        (λ crew. CrewTells result crew d out.old out.new)) }
{
    crews::is_idle(alloc, c, h, out)
}

/// The number of the children of a supervisor; 8 if the process is no supervisor of the crew.
#[unsafe(no_mangle)]
pub extern "C" fn pt_crew_children(
    alloc: Global,
    c: &mut CrewHandle,
    p: PtPid,
    out: &mut usize,
) -> u32
    ensures { ReadsThrough c.old.state c.new.state result (out.new ≡ out.old)
        (λ crew. TellsChildCount crew (pid_crossed p) result out.old out.new) }
{
    children::child_count(alloc, c, p, out)
}

/// The child at a place of a supervisor; 8 if the process is no supervisor of the crew, or has fewer children.
#[unsafe(no_mangle)]
pub extern "C" fn pt_crew_child(
    alloc: Global,
    c: &mut CrewHandle,
    p: PtPid,
    place: usize,
    out: &mut PtChild,
) -> u32
    ensures { ReadsThrough c.old.state c.new.state result (out.new ≡ out.old)
        (λ crew. TellsChild crew (pid_crossed p) place result out.old out.new) }
{
    children::child_at(alloc, c, p, place, out)
}

/// Asks a supervisor for one more child, behind the others, as `Scheduler::start_child` does. It writes the place of the child
/// to `out` if it returns 0. It returns 16 if a code of the child is none of its enumeration, and 8 if the process is no
/// supervisor of the crew. If there is a child with its tag it returns 23 if that is running, and else 25.
#[unsafe(no_mangle)]
pub extern "C" fn pt_crew_start_child(
    alloc: Global,
    c: &mut CrewHandle,
    p: PtPid,
    child: PtChildSpec,
    out: &mut usize,
) -> u32
    ensures { CallsThrough c.old.state c.new.state result (out.new ≡ out.old)
        (λ old new. CrewStartsChild (pid_crossed p) child result out.old out.new old new) }
{
    children::start_child(alloc, c, p, child, out)
}

/// Asks a supervisor to end the child with this tag, as `Scheduler::terminate_child` does; 8 if the process is no supervisor of
/// the crew, or has no such child.
#[unsafe(no_mangle)]
pub extern "C" fn pt_crew_terminate_child(
    alloc: Global,
    c: &mut CrewHandle,
    p: PtPid,
    tag: u64,
) -> u32
    ensures { CallsThrough c.old.state c.new.state result (Unit {0})
        (λ old new. CrewTerminatesChild (pid_crossed p) tag result old new) }
{
    children::terminate_child(alloc, c, p, tag)
}

/// Tells a supervisor that the child with this tag was started on another desk, as `Scheduler::child_started` does; 8 if p is
/// no supervisor of the crew, or does not wait for this child.
#[unsafe(no_mangle)]
pub extern "C" fn pt_crew_child_started(
    alloc: Global,
    c: &mut CrewHandle,
    p: PtPid,
    tag: u64,
    child: PtPid,
) -> u32
    ensures { CallsThrough c.old.state c.new.state result (Unit {0})
        (λ old new. CrewIsToldStarted (pid_crossed p) tag (pid_crossed child) result old new) }
{
    children::child_started(alloc, c, p, tag, child)
}

/// Tells a supervisor that the child with this tag was not started on another desk, as `Scheduler::child_not_started` does; 8 if
/// p is no supervisor of the crew, or does not wait for this child.
#[unsafe(no_mangle)]
pub extern "C" fn pt_crew_child_not_started(
    alloc: Global,
    c: &mut CrewHandle,
    p: PtPid,
    tag: u64,
) -> u32
    ensures { CallsThrough c.old.state c.new.state result (Unit {0})
        (λ old new. CrewIsToldNotStarted (pid_crossed p) tag result old new) }
{
    children::child_not_started(alloc, c, p, tag)
}

/// The tag of the child that a supervisor wants started on another desk, as `Scheduler::child_to_start` tells it; 8 if there is
/// none, or it was told before, or the process is no supervisor of the crew.
#[unsafe(no_mangle)]
pub extern "C" fn pt_crew_child_to_start(
    alloc: Global,
    c: &mut CrewHandle,
    p: PtPid,
    out: &mut u64,
) -> u32
    ensures { CallsThrough c.old.state c.new.state result (out.new ≡ out.old)
        (λ old new. CrewAsksProgram (pid_crossed p) result out.old out.new old new) }
{
    children::child_to_start(alloc, c, p, out)
}

/// Asks a supervisor to start the child with this tag, as `Scheduler::restart_child` does; 8 if the process is no supervisor of
/// the crew, or has no such child, 23 if the child is running, and 24 if it is to be started.
#[unsafe(no_mangle)]
pub extern "C" fn pt_crew_restart_child(
    alloc: Global,
    c: &mut CrewHandle,
    p: PtPid,
    tag: u64,
) -> u32
    ensures { CallsThrough c.old.state c.new.state result (Unit {0})
        (λ old new. CrewRestartsChild (pid_crossed p) tag result old new) }
{
    children::restart_child(alloc, c, p, tag)
}

/// Has a supervisor forget the child with this tag, as `Scheduler::delete_child` does. It writes the place that the child had
/// to `out` if it returns 0. It returns 8, 23 and 24 as `pt_crew_restart_child` does.
#[unsafe(no_mangle)]
pub extern "C" fn pt_crew_delete_child(
    alloc: Global,
    c: &mut CrewHandle,
    p: PtPid,
    tag: u64,
    out: &mut usize,
) -> u32
    ensures { CallsThrough c.old.state c.new.state result (out.new ≡ out.old)
        (λ old new. CrewDeletesChild (pid_crossed p) tag result out.old out.new old new) }
{
    children::delete_child(alloc, c, p, tag, out)
}

/// How many children a supervisor has; 8 if the process is no supervisor of the crew.
#[unsafe(no_mangle)]
pub extern "C" fn pt_crew_count_children(
    alloc: Global,
    c: &mut CrewHandle,
    p: PtPid,
    out: &mut PtChildCounts,
) -> u32
    ensures { ReadsThrough c.old.state c.new.state result (out.new ≡ out.old)
        (λ crew. TellsCounts crew (pid_crossed p) result out.old out.new) }
{
    children::count_children(alloc, c, p, out)
}

/// Why a supervisor gave up; 8 if it has not, or if the process is no supervisor of the crew.
#[unsafe(no_mangle)]
pub extern "C" fn pt_crew_gave_up(
    alloc: Global,
    c: &mut CrewHandle,
    p: PtPid,
    out: &mut PtGaveUp,
) -> u32
    ensures { ReadsThrough c.old.state c.new.state result (out.new ≡ out.old)
        (λ crew. TellsCause crew (pid_crossed p) result out.old out.new) }
{
    children::gave_up(alloc, c, p, out)
}
