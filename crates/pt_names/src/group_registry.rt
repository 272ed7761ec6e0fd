//! Groups with the monitors of their processes.

ghost use Rattle.std.specs.Prelude.{◌≡◌, ◌+◌, ◌<◌, ◌^◌, None};
ghost use Rattle.pt_desk.specs.DeskState.{GoesOn};
ghost use Rattle.pt_behaviour.specs.Behaving.{takes};
ghost use Rattle.pt_names.specs.GroupRegistering.{CountsSend, SendsAll};

use crate::group::{Group, JoinError, Left};
use crate::groups::Groups;
use crate::not_joined::not_joined;
use pt_behaviour::{CallFault, demonitor, monitor, send};
use pt_workers::{Body, Desk, Fault, Item, Pid, Ref};
use std::alloc::Global;
use thiserror::Error;

/// Why a process did not join a group. No group has changed then.
#[derive(Clone, Copy, Debug, PartialEq, Eq, Error)]
pub enum GroupError {
    /// The groups refuse it: it is in the group `u64::MAX` times, or there is no memory.
    #[error("{0}")]
    Refused(JoinError),
    /// The registry cannot monitor the process. With `NoProc` the process is seen to have exited.
    #[error("{0}")]
    Unwatched(CallFault),
    /// The groups refuse it, and cancelling the monitor that was made failed too. The monitor is still open:
    /// [`demonitor`] cancels it. If it is left, its `DOWN` may arrive, which changes no group.
    #[error("{0}, and its monitor is still open")]
    LeftOpen(JoinError, Ref),
}

/// What came of a message to a group.
#[derive(Clone, Copy, Debug, PartialEq, Eq)]
pub struct Sent {
    /// The number of members to which it was sent.
    pub sent: usize,
    /// The number of members that are seen to have exited. Their `DOWN`s are on their way.
    pub exited: usize,
    /// Why it was not sent to the members after these.
    pub stopped: Option<CallFault>,
}

/// Which process is in which group, with a monitor of each process that is in one.
#[derive(Drop)]
pub struct GroupRegistry {
    me: Pid,
    groups: Groups,
}

impl GroupRegistry {
    ghost use Rattle.pt_names.specs.Grouping.{AreNone};
    ghost use Rattle.pt_names.specs.Groups.{members_of};
    ghost use Rattle.pt_names.specs.GroupRegistering.{ForgetsWatched, HearsGroups, JoinsAgain, JoinsFirst};
    ghost use Rattle.pt_names.specs.GroupRegistering.{JoinsWatched, KeepsPlace, LeavesWatched};

    /// No groups, kept by this process. It takes no memory.
    pub fn new(alloc: Global, me: Pid) -> GroupRegistry
        ensures me { result.me ≡ me }
        ensures groups { AreNone result.groups }
    {
        GroupRegistry {
            me,
            groups: Groups::new(alloc),
        }
    }

    /// The groups, for reading.
    pub fn groups(&self) -> &Groups
        ensures { result.now ≡ self.now.groups }
    {
        &self.groups
    }

    /// Adds the process to the group, once more if it is there already (`join`). If it is in no group yet, it is monitored.
    ///
    /// Fails with `Unwatched` as [`monitor`] fails, and with `Refused` as [`Groups::join`] does. No group has changed then.
    /// If a monitor was made before there was no memory, it is cancelled. If that fails as well, the failure is `LeftOpen`,
    /// which has the monitor.
    pub fn join(&mut self, desk: &mut Desk, group: Group, pid: Pid) -> Result<(), GroupError>
        ensures does { JoinsWatched group pid self.old desk.old result self.new desk.new }
        ensures takes { takes desk.new.shard.journal ≡ takes desk.old.shard.journal }
        ensures goes_on { GoesOn desk.old desk.new }
    {
        match self.groups.monitor_of(pid) {
            Some(reference) => self.join_again(group, pid, reference),
            None => self.join_first(desk, group, pid),
        }
    }

    /// Adds a process that has a monitor.
    fn join_again(&mut self, group: Group, pid: Pid, reference: Ref) -> Result<(), GroupError>
        ensures { JoinsAgain group pid reference self.old result self.new }
    {
        match self.groups.join(group, pid, reference) {
            Ok(_) => Ok(()),
            Err(error) => Err(GroupError::Refused(error)),
        }
    }

    /// Monitors a process, and adds it.
    fn join_first(&mut self, desk: &mut Desk, group: Group, pid: Pid) -> Result<(), GroupError>
        ensures does { JoinsFirst group pid self.old desk.old result self.new desk.new }
        ensures takes { takes desk.new.shard.journal ≡ takes desk.old.shard.journal }
        ensures goes_on { GoesOn desk.old desk.new }
    {
        match monitor(desk, self.me, pid) {
            Ok(reference) => self.keep(desk, group, pid, reference),
            Err(fault) => Err(GroupError::Unwatched(fault)),
        }
    }

    /// Adds a process that was monitored just now. If there is no memory, the monitor is cancelled.
    fn keep(
        &mut self,
        desk: &mut Desk,
        group: Group,
        pid: Pid,
        reference: Ref,
    ) -> Result<(), GroupError>
        ensures does { KeepsPlace group pid reference self.old desk.old result self.new desk.new }
        ensures takes { takes desk.new.shard.journal ≡ takes desk.old.shard.journal }
        ensures goes_on { GoesOn desk.old desk.new }
    {
        match self.groups.join(group, pid, reference) {
            Ok(_) => Ok(()),
            Err(error) => Err(not_joined(error, reference, demonitor(desk, self.me, reference))),
        }
    }

    /// Takes the process out of the group once, as often as it joined (`leave`), and returns whether it was there. With its
    /// last place in any group its monitor is cancelled.
    ///
    /// Fails as [`demonitor`] does, for want of memory or stamps or if the registry's process has exited. Then nothing has
    /// changed.
    pub fn leave(&mut self, desk: &mut Desk, group: Group, pid: Pid) -> Result<bool, Fault>
        ensures does { LeavesWatched group pid self.old desk.old result self.new desk.new }
        ensures takes { takes desk.new.shard.journal ≡ takes desk.old.shard.journal }
        ensures goes_on { GoesOn desk.old desk.new }
    {
        match self.groups.leaving(group, pid) {
            Left::NotThere => return Ok(false),
            Left::Stays => {}
            Left::Last(reference) => {
                demonitor(desk, self.me, reference)?;
            }
        }
        Ok(self.groups.leave(group, pid) != Left::NotThere)
    }

    /// Reads an item that the registry's process got. The `DOWN` of the monitor of a process takes it out of all its groups,
    /// and it is returned. Any other item changes nothing, and the answer is `None`. So is it for the `DOWN` of another
    /// monitor of such a process.
    pub fn hear(&mut self, item: Item) -> Option<Pid>
        ensures { HearsGroups item self.old result self.new }
    {
        match item {
            Item::Down(reference, pid, _) => self.forget(pid, reference),
            _ => None,
        }
    }

    /// Takes a process with this monitor out of all its groups.
    fn forget(&mut self, pid: Pid, reference: Ref) -> Option<Pid>
        ensures { ForgetsWatched pid reference self.old result self.new }
    {
        if self.groups.monitor_of(pid)? != reference {
            return None;
        }
        self.groups.forget(pid)?;
        Some(pid)
    }

    /// Sends a message to each member of the group, once.
    ///
    /// A member that is seen to have exited is skipped. It stops at the first other failure, which is that of [`send`]: the
    /// members after it get nothing.
    pub fn send_all(&self, desk: &mut Desk, from: Pid, group: Group, body: Body) -> Sent
        ensures does { SendsAll from body (members_of self.now.groups group) desk.old result desk.new }
        ensures takes { takes desk.new.shard.journal ≡ takes desk.old.shard.journal }
        ensures goes_on { GoesOn desk.old desk.new }
    {
        send_to(desk, from, self.groups.members(group), body)
    }
}

/// Sends a message to each of these, up to the first failure but `NoProc`.
fn send_to(desk: &mut Desk, from: Pid, members: &[Pid], body: Body) -> Sent
    ensures does { SendsAll from body members.now desk.old result desk.new }
    ensures takes { takes desk.new.shard.journal ≡ takes desk.old.shard.journal }
    ensures goes_on { GoesOn desk.old desk.new }
{
    let mut done = Sent {
        sent: 0,
        exited: 0,
        stopped: None,
    };
    for member in members {
        let answer = send(desk, from, *member, body);
        if stops(&mut done, answer) {
            return done;
        }
    }
    done
}

/// Counts what came of a send to a member, and returns whether the members after it get nothing.
fn stops(done: &mut Sent, answer: Result<(), CallFault>) -> bool
    requires room { done.old.sent + done.old.exited < 2 ^ 63 }
    requires runs { done.old.stopped ≡ None }
    ensures { CountsSend answer done.old result done.new }
{
    match answer {
        Ok(()) => done.sent += 1,
        Err(CallFault::Refused(Fault::NoProc)) => done.exited += 1,
        Err(fault) => done.stopped = Some(fault),
    }
    done.stopped.is_some()
}
