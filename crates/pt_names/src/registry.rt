//! Names with the monitors of their processes.

ghost use Rattle.pt_names.specs.State.{IsOneToOne};

use crate::name::Name;
use crate::names::{Names, RegisterError};
use crate::request::Request;
use crate::unregistered::unkept;
use pt_behaviour::{CallFault, demonitor, monitor};
use pt_workers::{Desk, Fault, Item, Pid, Ref};
use std::alloc::Global;
use thiserror::Error;

/// Why a process was not registered. No name has changed then.
#[derive(Clone, Copy, Debug, PartialEq, Eq, Error)]
pub enum RegistryError {
    /// The names refuse it: a process has the name, the process has another one, or there is no memory.
    #[error("{0}")]
    Refused(RegisterError),
    /// The registry cannot monitor the process. With `NoProc` the process is seen to have exited.
    #[error("{0}")]
    Unwatched(CallFault),
    /// The names refuse it, and cancelling the monitor that was made failed too. The monitor is still open:
    /// [`demonitor`] cancels it. If it is left, its `DOWN` may arrive, which frees no name.
    #[error("{0}, and its monitor is still open")]
    LeftOpen(RegisterError, Ref),
    /// The list has no name at this place.
    #[error("there is no such name")]
    NoName,
}

/// Which process has which name, with a monitor of each of them.
#[derive(Drop)]
pub struct Registry {
    me: Pid,
    names: Names,
    ghost one: { IsOneToOne names },
}

impl Registry {
    ghost use Rattle.std.specs.Prelude.{◌≡◌};
    ghost use Rattle.pt_desk.specs.DeskState.{GoesOn};
    ghost use Rattle.pt_names.specs.Calls.{IsNone};
    ghost use Rattle.pt_names.specs.State.{pid_of};
    ghost use Rattle.pt_behaviour.specs.Behaving.{takes};
    ghost use Rattle.pt_names.specs.Registering.{FreesName, GivesUpName, HearsOf, IsFreed, KeepsName, NamesSender};
    ghost use Rattle.pt_names.specs.Registering.{RegistersWatched};

    /// No names, kept by this process. It takes no memory.
    pub fn new(alloc: Global, me: Pid) -> Registry
        ensures me { result.me ≡ me }
        ensures names { IsNone result.names }
    {
        Registry {
            me,
            names: Names::new(alloc),
        }
    }

    /// The process that has the name, or `None` if no process has it (`whereis`).
    pub fn whereis(&self, name: Name) -> Option<Pid>
        ensures { result ≡ pid_of self.now.names name }
    {
        self.names.whereis(name)
    }

    /// Gives a process a name, and monitors it (`register`).
    ///
    /// Fails with `Refused` if a process has the name or the process has one, and otherwise with `Unwatched` as
    /// [`monitor`] fails. Then nothing is done. Fails with `Refused` too if there is no memory for one more name. The
    /// monitor is cancelled then. If that fails as well, the failure is `LeftOpen`, which has the monitor.
    pub fn register(&mut self, desk: &mut Desk, name: Name, pid: Pid) -> Result<(), RegistryError>
        ensures does { RegistersWatched name pid self.old desk.old result self.new desk.new }
        ensures takes { takes desk.new.shard.journal ≡ takes desk.old.shard.journal }
        ensures goes_on { GoesOn desk.old desk.new }
    {
        if let Err(error) = self.names.check(name, pid) {
            return Err(RegistryError::Refused(error));
        }
        match monitor(desk, self.me, pid) {
            Ok(reference) => self.keep(desk, name, pid, reference),
            Err(fault) => Err(RegistryError::Unwatched(fault)),
        }
    }

    /// Notes a name whose process is monitored. If there is no memory, the monitor is cancelled.
    fn keep(
        &mut self,
        desk: &mut Desk,
        name: Name,
        pid: Pid,
        reference: Ref,
    ) -> Result<(), RegistryError>
        ensures does { KeepsName name pid reference self.old desk.old result self.new desk.new }
        ensures takes { takes desk.new.shard.journal ≡ takes desk.old.shard.journal }
        ensures goes_on { GoesOn desk.old desk.new }
    {
        match self.names.register(name, pid, reference) {
            Ok(()) => Ok(()),
            Err(error) => Err(unkept(error, reference, demonitor(desk, self.me, reference))),
        }
    }

    /// Gives the sender of a request the name for which its number stands: its place in the list.
    ///
    /// Fails with `NoName` if the list is not as long, and otherwise as [`Registry::register`] does.
    pub fn register_sender(
        &mut self,
        desk: &mut Desk,
        list: &[Name],
        request: Request,
    ) -> Result<(), RegistryError>
        ensures does { NamesSender list.now request self.old desk.old result self.new desk.new }
        ensures takes { takes desk.new.shard.journal ≡ takes desk.old.shard.journal }
        ensures goes_on { GoesOn desk.old desk.new }
    {
        match list.get(request.asks as usize) {
            Some(name) => self.register(desk, *name, request.from),
            None => Err(RegistryError::NoName),
        }
    }

    /// Removes a name and cancels its monitor, and returns the process that had it, or `None` if no process has it
    /// (`unregister`).
    ///
    /// Fails as [`demonitor`] does, for want of memory or stamps or if the registry's process has exited. Then the process
    /// keeps the name, and nothing has changed.
    pub fn unregister(&mut self, desk: &mut Desk, name: Name) -> Result<Option<Pid>, Fault>
        ensures does { GivesUpName name self.old desk.old result self.new desk.new }
        ensures takes { takes desk.new.shard.journal ≡ takes desk.old.shard.journal }
        ensures goes_on { GoesOn desk.old desk.new }
    {
        let Some(holder) = self.names.holder(name) else {
            return Ok(None);
        };
        demonitor(desk, self.me, holder.monitor)?;
        Ok(self.names.unregister(name).map(|removed| removed.pid))
    }

    /// Reads an item that the registry's process got. The `DOWN` of the monitor that a name has removes the name, which
    /// is returned: no name has that monitor then. Any other item changes nothing, and the answer is `None`. So is it for
    /// the `DOWN` of another monitor of a process that has a name.
    #[tactic(auto, using(crate::proofs::Naming::freed))]
    pub fn hear(&mut self, item: Item) -> Option<Name>
        ensures hears { HearsOf item self.old result self.new }
        ensures freed { IsFreed item self.new }
    {
        match item {
            Item::Down(monitor, pid, _) => self.free(pid, monitor),
            _ => None,
        }
    }

    /// Removes the name that the process has with this monitor, and returns it, or `None` if there is no such name.
    #[tactic(auto, using(crate::proofs::Naming::unnamed, crate::proofs::Naming::unheld, crate::proofs::Naming::otherwise, crate::proofs::Naming::forgotten))]
    fn free(&mut self, pid: Pid, monitor: Ref) -> Option<Name>
        ensures frees { FreesName (record { pid = pid; monitor = monitor }) self.old.names result self.new.names }
        ensures me { self.new.me ≡ self.old.me }
    {
        let name = self.names.name_of(pid)?;
        if self.names.holder(name)?.monitor != monitor {
            return None;
        }
        self.names.forget(pid)
    }
}
