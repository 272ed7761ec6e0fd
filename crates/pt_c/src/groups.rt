//! Groups: which process is in which group.
//!
//! Each makes the call of `Groups` that has its name on the groups of the handle, and returns its code. It returns 9 if the
//! handle has none. Nothing has changed then.

ghost use Rattle.std.specs.Prelude.{◌≡◌, length, slice_get};
ghost use Rattle.pt_names.specs.Groups.{groups_of, members_of, monitor_kept, times_of};
ghost use Rattle.pt_c_values.specs.Places.{CallsThrough, ReadsThrough, ShowsCode};
ghost use Rattle.pt_c_values.specs.Crossing.{pid_crossed, pid_out, ref_in, ref_out};
ghost use Rattle.pt_c_tools.specs.Grouping.{ForgetsMember, JoinsByCode, LeavesByCode, OpensGroups, group_in};
ghost use Rattle.pt_c_values.specs.Filling.{GivesUp};

use pt_c_tools::groups;
use pt_c_tools::groups_handle::GroupsHandle;
use pt_c_values::types::{PtPid, PtRef};
use std::alloc::Global;

/// Begins groups, in which there is no process. The handle must be empty: it returns 10 if it is not.
#[unsafe(no_mangle)]
pub extern "C" fn pt_groups_open(alloc: Global, g: &mut GroupsHandle) -> u32
    ensures { OpensGroups result g.old.state g.new.state }
{
    groups::open(alloc, g)
}

/// Gives up groups. The processes stay as they are.
#[unsafe(no_mangle)]
pub extern "C" fn pt_groups_give_up(alloc: Global, g: &mut GroupsHandle) -> u32
    ensures { GivesUp result g.old.state g.new.state }
{
    groups::give_up(alloc, g)
}

/// Adds a process to a group, as `Groups::join` does, and writes its monitor to `out`: the given one if it was in no group,
/// otherwise the one that it had. It returns 1 if the process cannot join the group once more.
#[unsafe(no_mangle)]
pub extern "C" fn pt_groups_join(
    alloc: Global,
    g: &mut GroupsHandle,
    group: u64,
    p: PtPid,
    monitor: PtRef,
    out: &mut PtRef,
) -> u32
    ensures { CallsThrough g.old.state g.new.state result (out.new ≡ out.old)
        (λ old new. JoinsByCode (group_in group) (pid_crossed p) (ref_in monitor) result out.old out.new old new) }
{
    groups::join(alloc, g, group, p, monitor, out)
}

/// Takes a process out of a group once, as `Groups::leave` does; 8 if it is not in the group. `last` gets whether it is in no
/// group any more, and `out` its monitor then.
#[unsafe(no_mangle)]
pub extern "C" fn pt_groups_leave(
    alloc: Global,
    g: &mut GroupsHandle,
    group: u64,
    p: PtPid,
    last: &mut bool,
    out: &mut PtRef,
) -> u32
    ensures { CallsThrough g.old.state g.new.state result ((last.new ≡ last.old) × (out.new ≡ out.old))
        (λ old new. LeavesByCode (group_in group) (pid_crossed p) result last.old last.new out.old out.new old new) }
{
    groups::leave(alloc, g, group, p, last, out)
}

/// Removes a process that has exited from all its groups, and writes its monitor to `out`; 8 if it is in none.
#[unsafe(no_mangle)]
pub extern "C" fn pt_groups_forget(
    alloc: Global,
    g: &mut GroupsHandle,
    p: PtPid,
    out: &mut PtRef,
) -> u32
    ensures { CallsThrough g.old.state g.new.state result (out.new ≡ out.old)
        (λ old new. ForgetsMember (pid_crossed p) result out.old out.new old new) }
{
    groups::forget(alloc, g, p, out)
}

/// The monitor of a process; 8 if it is in no group.
#[unsafe(no_mangle)]
pub extern "C" fn pt_groups_monitor_of(
    alloc: Global,
    g: &mut GroupsHandle,
    p: PtPid,
    out: &mut PtRef,
) -> u32
    ensures { ReadsThrough g.old.state g.new.state result (out.new ≡ out.old)
        (λ groups. ShowsCode result out.old out.new ref_out (monitor_kept groups (pid_crossed p))) }
{
    groups::monitor_of(alloc, g, p, out)
}

/// How often a process is in a group: 0 if it is not.
#[unsafe(no_mangle)]
pub extern "C" fn pt_groups_times(
    alloc: Global,
    g: &mut GroupsHandle,
    group: u64,
    p: PtPid,
    out: &mut u64,
) -> u32
    ensures { ReadsThrough g.old.state g.new.state result (out.new ≡ out.old)
        (λ groups. (result ≡ 0) × (out.new ≡ times_of groups (group_in group) (pid_crossed p))) }
{
    groups::times(alloc, g, group, p, out)
}

/// The number of processes in a group, each counted once.
#[unsafe(no_mangle)]
pub extern "C" fn pt_groups_len(
    alloc: Global,
    g: &mut GroupsHandle,
    group: u64,
    out: &mut usize,
) -> u32
    ensures { ReadsThrough g.old.state g.new.state result (out.new ≡ out.old)
        (λ groups. (result ≡ 0) × (out.new ≡ length (members_of groups (group_in group)))) }
{
    groups::len(alloc, g, group, out)
}

/// The process at a place of a group, counted from 0; 8 if the group has not so many.
#[unsafe(no_mangle)]
pub extern "C" fn pt_groups_member_at(
    alloc: Global,
    g: &mut GroupsHandle,
    group: u64,
    place: usize,
    out: &mut PtPid,
) -> u32
    ensures { ReadsThrough g.old.state g.new.state result (out.new ≡ out.old)
        (λ groups. ShowsCode result out.old out.new pid_out (slice_get (members_of groups (group_in group)) place)) }
{
    groups::member_at(alloc, g, group, place, out)
}

/// The group at a place of the groups of a process, counted from 0; 8 if the process is not in so many.
#[unsafe(no_mangle)]
pub extern "C" fn pt_groups_group_at(
    alloc: Global,
    g: &mut GroupsHandle,
    p: PtPid,
    place: usize,
    out: &mut u64,
) -> u32
    ensures { ReadsThrough g.old.state g.new.state result (out.new ≡ out.old)
        (λ groups. ShowsCode result out.old out.new (λ h. h.0) (slice_get (groups_of groups (pid_crossed p)) place)) }
{
    groups::group_at(alloc, g, p, place, out)
}
