//! Groups: which process is in which group.
//!
//! Each makes the call of `Groups` that has its name on the groups of the handle, and returns its code. It returns 9 if the
//! handle has none. Nothing has changed then.

ghost use Rattle.std.specs.Prelude.{◌≡◌, length, slice_get};
ghost use Rattle.pt_names.specs.Groups.{groups_of, members_of, monitor_kept, times_of};
ghost use Rattle.pt_c_values.specs.Places.{CallsThrough, ReadsThrough, ShowsCode};
ghost use Rattle.pt_c_values.specs.Crossing.{pid_crossed, pid_out, ref_in, ref_out};
ghost use Rattle.pt_c_tools.specs.Grouping.{ForgetsMember, JoinsByCode, LeavesByCode, OpensGroups, group_in};
ghost use Rattle.pt_c_values.specs.Filling.{GivesUp};

use crate::grouping::{show_joined, show_left};
use crate::groups_handle::{GroupsHandle, claim, filled, hold, is_full, spare};
use pt_c_values::codes::{DONE, EMPTY, FILLED, MEMORY, NOTHING};
use pt_c_values::crossing::{pid_in, pid_out, ref_in, ref_out};
use pt_c_values::ending::end_code;
use pt_c_values::types::{PtPid, PtRef};
use pt_names::{Group, Groups};
use std::alloc::Global;

/// Begins groups, in which there is no process. The handle must be empty: it returns 10 if it is not.
pub fn open(alloc: Global, g: &mut GroupsHandle) -> u32
    ensures { OpensGroups result g.old.state g.new.state }
{
    if is_full(alloc, g) {
        return FILLED;
    }
    let Ok(place) = spare(alloc) else {
        return MEMORY;
    };
    *g = filled(place, Groups::new(alloc));
    DONE
}

/// Gives up groups. The processes stay as they are.
pub fn give_up(alloc: Global, g: &mut GroupsHandle) -> u32
    ensures { GivesUp result g.old.state g.new.state }
{
    match claim(alloc, g) {
        Some(place) => end_code(place.groups.is_some()),
        None => EMPTY,
    }
}

/// Adds a process to a group, as `Groups::join` does, and writes its monitor to `out`: the given one if it was in no group,
/// otherwise the one that it had. It returns 1 if the process cannot join the group once more.
pub fn join(
    alloc: Global,
    g: &mut GroupsHandle,
    group: u64,
    p: PtPid,
    monitor: PtRef,
    out: &mut PtRef,
) -> u32
    ensures { CallsThrough g.old.state g.new.state result (out.new ≡ out.old)
        (λ old new. JoinsByCode (group_in group) (pid_crossed p) (ref_in monitor) result out.old out.new old new) }
{
    let Some(mut held) = claim(alloc, g) else {
        return EMPTY;
    };
    let code = match &mut held.groups {
        Some(groups) => show_joined(groups.join(Group(group), pid_in(p), ref_in(monitor)), out),
        None => EMPTY,
    };
    *g = hold(held);
    code
}

/// Takes a process out of a group once, as `Groups::leave` does; 8 if it is not in the group. `last` gets whether it is in no
/// group any more, and `out` its monitor then.
pub fn leave(
    alloc: Global,
    g: &mut GroupsHandle,
    group: u64,
    p: PtPid,
    last: &mut bool,
    out: &mut PtRef,
) -> u32
    ensures { CallsThrough g.old.state g.new.state result ((last.new ≡ last.old) × (out.new ≡ out.old))
        (λ old new. LeavesByCode (group_in group) (pid_crossed p) result last.old last.new out.old out.new old new) }
{
    let Some(mut held) = claim(alloc, g) else {
        return EMPTY;
    };
    let code = match &mut held.groups {
        Some(groups) => show_left(groups.leave(Group(group), pid_in(p)), last, out),
        None => EMPTY,
    };
    *g = hold(held);
    code
}

/// Removes a process that has exited from all its groups, and writes its monitor to `out`; 8 if it is in none.
pub fn forget(alloc: Global, g: &mut GroupsHandle, p: PtPid, out: &mut PtRef) -> u32
    ensures { CallsThrough g.old.state g.new.state result (out.new ≡ out.old)
        (λ old new. ForgetsMember (pid_crossed p) result out.old out.new old new) }
{
    let Some(mut held) = claim(alloc, g) else {
        return EMPTY;
    };
    let code = match &mut held.groups {
        Some(groups) => match groups.forget(pid_in(p)) {
            Some(monitor) => {
                *out = ref_out(monitor);
                DONE
            }
            None => NOTHING,
        },
        None => EMPTY,
    };
    *g = hold(held);
    code
}

/// The monitor of a process; 8 if it is in no group.
pub fn monitor_of(alloc: Global, g: &mut GroupsHandle, p: PtPid, out: &mut PtRef) -> u32
    ensures { ReadsThrough g.old.state g.new.state result (out.new ≡ out.old)
        (λ groups. ShowsCode result out.old out.new ref_out (monitor_kept groups (pid_crossed p))) }
{
    let Some(held) = claim(alloc, g) else {
        return EMPTY;
    };
    let code = match &held.groups {
        Some(groups) => match groups.monitor_of(pid_in(p)) {
            Some(monitor) => {
                *out = ref_out(monitor);
                DONE
            }
            None => NOTHING,
        },
        None => EMPTY,
    };
    *g = hold(held);
    code
}

/// How often a process is in a group: 0 if it is not.
pub fn times(alloc: Global, g: &mut GroupsHandle, group: u64, p: PtPid, out: &mut u64) -> u32
    ensures { ReadsThrough g.old.state g.new.state result (out.new ≡ out.old)
        (λ groups. (result ≡ 0) × (out.new ≡ times_of groups (group_in group) (pid_crossed p))) }
{
    let Some(held) = claim(alloc, g) else {
        return EMPTY;
    };
    let code = match &held.groups {
        Some(groups) => {
            *out = groups.times(Group(group), pid_in(p));
            DONE
        }
        None => EMPTY,
    };
    *g = hold(held);
    code
}

/// The number of processes in a group, each counted once.
pub fn len(alloc: Global, g: &mut GroupsHandle, group: u64, out: &mut usize) -> u32
    ensures { ReadsThrough g.old.state g.new.state result (out.new ≡ out.old)
        (λ groups. (result ≡ 0) × (out.new ≡ length (members_of groups (group_in group)))) }
{
    let Some(held) = claim(alloc, g) else {
        return EMPTY;
    };
    let code = match &held.groups {
        Some(groups) => {
            *out = groups.len(Group(group));
            DONE
        }
        None => EMPTY,
    };
    *g = hold(held);
    code
}

/// The process at a place of a group, counted from 0; 8 if the group has not so many.
pub fn member_at(
    alloc: Global,
    g: &mut GroupsHandle,
    group: u64,
    place: usize,
    out: &mut PtPid,
) -> u32
    ensures { ReadsThrough g.old.state g.new.state result (out.new ≡ out.old)
        (λ groups. ShowsCode result out.old out.new pid_out (slice_get (members_of groups (group_in group)) place)) }
{
    let Some(held) = claim(alloc, g) else {
        return EMPTY;
    };
    let code = match &held.groups {
        Some(groups) => match groups.members(Group(group)).get(place) {
            Some(pid) => {
                *out = pid_out(*pid);
                DONE
            }
            None => NOTHING,
        },
        None => EMPTY,
    };
    *g = hold(held);
    code
}

/// The group at a place of the groups of a process, counted from 0; 8 if the process is not in so many.
pub fn group_at(alloc: Global, g: &mut GroupsHandle, p: PtPid, place: usize, out: &mut u64) -> u32
    ensures { ReadsThrough g.old.state g.new.state result (out.new ≡ out.old)
        (λ groups. ShowsCode result out.old out.new (λ h. h.0) (slice_get (groups_of groups (pid_crossed p)) place)) }
{
    let Some(held) = claim(alloc, g) else {
        return EMPTY;
    };
    let code = match &held.groups {
        Some(groups) => match groups.groups_of(pid_in(p)).get(place) {
            Some(group) => {
                *out = group.0;
                DONE
            }
            None => NOTHING,
        },
        None => EMPTY,
    };
    *g = hold(held);
    code
}
