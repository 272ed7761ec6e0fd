//! What the library reports of the codes and structs of supervisors, so that a header or a wrapper can be compared with it.

ghost use Rattle.std.specs.Prelude.{◌≡◌};
ghost use Rattle.pt_c_tools.specs.AboutSupervisors.{sample_child, sample_child_spec, sample_supervisor_spec};
ghost use Rattle.pt_c_tools.specs.AboutSupervisors.{sample_child_counts, sample_gave_up};
ghost use Rattle.pt_c_tools.specs.AboutSupervisors.{all_supervisor_codes};

use crate::crossing_children::{restart_code, shutdown_code, strategy_code};
use pt_c_values::codes::{CHILD_PRESENT, CHILD_RESTARTING, CHILD_RUNNING};
use pt_c_values::samples::sample_pid;
use pt_c_values::types::{
    PtChild, PtChildCounts, PtChildSpec, PtGaveUp, PtReason, PtSupervisorSpec,
};
use pt_children::{Restart, Shutdown, Strategy};
use std::mem::size_of;

/// Each code of supervisors, and the size of each of their structs that cross, in bytes.
#[repr(C)]
#[derive(Clone, Copy)]
pub struct PtSupervisorCodes {
    pub one_for_one: u32,
    pub one_for_all: u32,
    pub rest_for_one: u32,
    pub permanent: u32,
    pub transient: u32,
    pub temporary: u32,
    pub infinity: u32,
    pub after: u32,
    pub brutal_kill: u32,
    pub supervisor_spec: usize,
    pub child_spec: usize,
    pub child: usize,
    pub child_running: u32,
    pub child_restarting: u32,
    pub child_present: u32,
    pub child_counts: usize,
    pub gave_up: usize,
}

/// Writes a sample of a supervisor: its fields have the numbers 1, 2, 3 and so on in order, a bool being true.
pub fn supervisor_spec(out: &mut PtSupervisorSpec)
    ensures { out.new ≡ sample_supervisor_spec }
{
    *out = PtSupervisorSpec {
        strategy: 1,
        timed: true,
        has_parent: true,
        parent: sample_pid(4),
        most: 7,
        span: 8,
    };
}

/// Writes a sample of what a supervisor knows of a child: its fields have the numbers 1, 2, 3 and so on in order, a bool
/// being true.
pub fn child_spec(out: &mut PtChildSpec)
    ensures { out.new ≡ sample_child_spec }
{
    *out = PtChildSpec {
        tag: 1,
        restart: 2,
        shutdown: 3,
        time: 4,
        elsewhere: true,
    };
}

/// Writes a sample of a child: its fields have the numbers 1, 2, 3 and so on in order, a bool being true.
pub fn child(out: &mut PtChild)
    ensures { out.new ≡ sample_child }
{
    *out = PtChild {
        has_pid: true,
        wanted: true,
        pid: sample_pid(3),
        restart: 6,
        shutdown: 7,
        time: 8,
    };
}

/// Writes a sample of how many children a supervisor has: its fields have the numbers 1, 2, 3 in order.
pub fn child_counts(out: &mut PtChildCounts)
    ensures { out.new ≡ sample_child_counts }
{
    *out = PtChildCounts {
        specs: 1,
        active: 2,
        restarting: 3,
    };
}

/// Writes a sample of why a supervisor gave up: its fields have the numbers 1, 2, 3 and so on in order, a bool being true.
pub fn gave_up(out: &mut PtGaveUp)
    ensures { out.new ≡ sample_gave_up }
{
    *out = PtGaveUp {
        tag: 1,
        place: 2,
        reason: PtReason { code: 3, number: 4 },
        restarts: 5,
        span: 6,
        timed: true,
    };
}

/// Writes each code, from the same functions as the calls, and the sizes.
pub fn codes(out: &mut PtSupervisorCodes)
    ensures { out.new ≡ all_supervisor_codes }
{
    *out = PtSupervisorCodes {
        one_for_one: strategy_code(Strategy::OneForOne),
        one_for_all: strategy_code(Strategy::OneForAll),
        rest_for_one: strategy_code(Strategy::RestForOne),
        permanent: restart_code(Restart::Permanent),
        transient: restart_code(Restart::Transient),
        temporary: restart_code(Restart::Temporary),
        infinity: shutdown_code(Shutdown::Infinity),
        after: shutdown_code(Shutdown::After(0)),
        brutal_kill: shutdown_code(Shutdown::BrutalKill),
        supervisor_spec: size_of::<PtSupervisorSpec>(),
        child_spec: size_of::<PtChildSpec>(),
        child: size_of::<PtChild>(),
        child_running: CHILD_RUNNING,
        child_restarting: CHILD_RESTARTING,
        child_present: CHILD_PRESENT,
        child_counts: size_of::<PtChildCounts>(),
        gave_up: size_of::<PtGaveUp>(),
    };
}
