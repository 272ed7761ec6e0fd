//! What a supervisor and its children are made of, and what a call about a child returns, as the structs and codes that cross.

ghost use Rattle.std.specs.Prelude.{◌≡◌, IfOk, is_some, map};
ghost use Rattle.std.specs.List.{list_all};
ghost use Rattle.pt_c_tools.specs.CrossingChildren.{cause_out, child_code, child_fault_code, child_in, child_or, child_out};
ghost use Rattle.pt_c_tools.specs.CrossingChildren.{counts_out, restart_code, restart_in, shutdown_code, shutdown_in};
ghost use Rattle.pt_c_tools.specs.CrossingChildren.{shutdown_time, spec_in, strategy_code, strategy_in, told_after};

use pt_c_values::codes::{CHILD_PRESENT, CHILD_RESTARTING, CHILD_RUNNING, DONE, MEMORY, NOTHING};
use pt_c_values::crossing::{pid_in, pid_or_none, reason_out};
use pt_c_values::types::{PtChild, PtChildCounts, PtChildSpec, PtGaveUp, PtSupervisorSpec};
use pt_children::{
    Child, ChildCounts, ChildFault, ChildSpec, GaveUp, Restart, Shutdown, Strategy, SupervisorSpec,
};
use std::alloc::{AllocError, Global};

pub fn strategy_in(code: u32) -> Option<Strategy>
    ensures { result ≡ strategy_in code }
{
    if code == 0 {
        Some(Strategy::OneForOne)
    } else if code == 1 {
        Some(Strategy::OneForAll)
    } else if code == 2 {
        Some(Strategy::RestForOne)
    } else {
        None
    }
}

pub fn restart_in(code: u32) -> Option<Restart>
    ensures { result ≡ restart_in code }
{
    if code == 0 {
        Some(Restart::Permanent)
    } else if code == 1 {
        Some(Restart::Transient)
    } else if code == 2 {
        Some(Restart::Temporary)
    } else {
        None
    }
}

pub fn shutdown_in(code: u32, time: u64) -> Option<Shutdown>
    ensures { result ≡ shutdown_in code time }
{
    if code == 0 {
        Some(Shutdown::Infinity)
    } else if code == 1 {
        Some(Shutdown::After(time))
    } else if code == 2 {
        Some(Shutdown::BrutalKill)
    } else {
        None
    }
}

/// The child; none if a code is none of its enumeration.
pub fn child_in(child: PtChildSpec) -> Option<ChildSpec>
    ensures { result ≡ child_in child }
{
    match (
        restart_in(child.restart),
        shutdown_in(child.shutdown, child.time),
    ) {
        (Some(restart), Some(shutdown)) => Some(ChildSpec {
            tag: child.tag,
            restart,
            shutdown,
            elsewhere: child.elsewhere,
        }),
        (_, _) => None,
    }
}

/// The child, and some other if a code is none of its enumeration.
pub fn child_or(child: PtChildSpec) -> ChildSpec
    ensures { result ≡ child_or (child_in child) }
{
    match child_in(child) {
        Some(known) => known,
        None => ChildSpec {
            tag: 0,
            restart: Restart::Temporary,
            shutdown: Shutdown::Infinity,
            elsewhere: false,
        },
    }
}

/// Whether each code of these children is one of its enumeration.
pub fn are_children(children: &[PtChildSpec]) -> bool
    ensures { result ≡ list_all (λ c. is_some (child_in c)) children.now }
{
    children.iter().all(|child| child_in(*child).is_some())
}

/// The children, each of whose codes is one of its enumeration.
pub fn children_in(alloc: Global, children: &[PtChildSpec]) -> Result<Vec<ChildSpec>, AllocError>
    ensures { IfOk result (λ v. v.items ≡ map (λ c. child_or (child_in c)) children.now) }
{
    children.iter().map(|child| child_or(*child)).collect(alloc)
}

/// The supervisor; none if its code is that of no strategy.
pub fn spec_in(spec: PtSupervisorSpec) -> Option<SupervisorSpec>
    ensures { result ≡ spec_in spec }
{
    let strategy = strategy_in(spec.strategy)?;
    Some(SupervisorSpec {
        strategy,
        most: spec.most,
        span: spec.span,
        timed: spec.timed,
        parent: if spec.has_parent {
            Some(pid_in(spec.parent))
        } else {
            None
        },
    })
}

pub fn strategy_code(strategy: Strategy) -> u32
    ensures { result ≡ strategy_code strategy }
{
    match strategy {
        Strategy::OneForOne => 0,
        Strategy::OneForAll => 1,
        Strategy::RestForOne => 2,
    }
}

pub fn restart_code(restart: Restart) -> u32
    ensures { result ≡ restart_code restart }
{
    match restart {
        Restart::Permanent => 0,
        Restart::Transient => 1,
        Restart::Temporary => 2,
    }
}

pub fn shutdown_code(shutdown: Shutdown) -> u32
    ensures { result ≡ shutdown_code shutdown }
{
    match shutdown {
        Shutdown::Infinity => 0,
        Shutdown::After(_) => 1,
        Shutdown::BrutalKill => 2,
    }
}

pub fn shutdown_time(shutdown: Shutdown) -> u64
    ensures { result ≡ shutdown_time shutdown }
{
    match shutdown {
        Shutdown::After(time) => time,
        _ => 0,
    }
}

pub fn child_out(child: Child) -> PtChild
    ensures { result ≡ child_out child }
{
    PtChild {
        has_pid: child.pid.is_some(),
        wanted: child.wanted,
        pid: pid_or_none(child.pid),
        restart: restart_code(child.restart),
        shutdown: shutdown_code(child.shutdown),
        time: shutdown_time(child.shutdown),
    }
}

pub fn child_fault_code(fault: ChildFault) -> u32
    ensures { result ≡ child_fault_code fault }
{
    match fault {
        ChildFault::NotFound => NOTHING,
        ChildFault::Running => CHILD_RUNNING,
        ChildFault::Restarting => CHILD_RESTARTING,
        ChildFault::AlreadyPresent => CHILD_PRESENT,
        ChildFault::AlreadyStarted(_) => CHILD_RUNNING,
        ChildFault::NotAwaited => NOTHING,
        ChildFault::Memory => MEMORY,
    }
}

/// The code of what a supervisor made of a question, if the process is one.
pub fn child_code(answer: Option<Result<(), ChildFault>>) -> u32
    ensures { result ≡ child_code answer }
{
    match answer {
        Some(Ok(())) => DONE,
        Some(Err(fault)) => child_fault_code(fault),
        None => NOTHING,
    }
}

/// The same of one that is answered by a place or a tag, which it writes.
pub fn value_code<T: Copy>(answer: Option<Result<T, ChildFault>>, out: &mut T) -> u32
    ensures code { result ≡ child_code answer }
    ensures wrote { out.new ≡ told_after answer out.old }
{
    match answer {
        Some(Ok(value)) => {
            *out = value;
            DONE
        }
        Some(Err(fault)) => child_fault_code(fault),
        None => NOTHING,
    }
}

pub fn counts_out(counts: ChildCounts) -> PtChildCounts
    ensures { result ≡ counts_out counts }
{
    PtChildCounts {
        specs: counts.specs,
        active: counts.active,
        restarting: counts.restarting,
    }
}

pub fn cause_out(cause: GaveUp) -> PtGaveUp
    ensures { result ≡ cause_out cause }
{
    PtGaveUp {
        tag: cause.id,
        place: cause.place,
        reason: reason_out(cause.reason),
        restarts: cause.restarts,
        span: cause.span,
        timed: cause.timed,
    }
}
