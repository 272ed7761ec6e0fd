//! Which process has which name.

ghost use Rattle.std.specs.Prelude.{◌≡◌, length};
ghost use Rattle.std.specs.Option.{option_map};
ghost use Rattle.pt_names.specs.State.{holder_of, name_at};
ghost use Rattle.pt_names.specs.Calls.{Checks, Forgets, IsNone, Registers, Unregisters};

use crate::name::Name;
use indexmap::IndexMap;
use pt_signal::{Pid, Ref};
use std::alloc::Global;
use std::marker::Model;
use thiserror::Error;

/// The process that has a name.
#[derive(Clone, Copy, Debug, PartialEq, Eq)]
pub struct Holder {
    pub pid: Pid,
    /// The monitor that reports its exit.
    pub monitor: Ref,
}

/// Why a process was not registered. Nothing has changed then.
#[derive(Clone, Copy, Debug, PartialEq, Eq, Error)]
pub enum RegisterError {
    /// A process has the name: this one.
    #[error("a process has the name")]
    Taken(Pid),
    /// The process has a name already: this one.
    #[error("the process has a name already")]
    HasName(Name),
    /// There was no memory for one more name.
    #[error("no memory for one more name")]
    Memory,
}

/// Which process has which name.
#[derive(Drop)]
pub struct Names {
    holders: IndexMap<Name, Holder>,
    names: IndexMap<Pid, Name>,
}

impl Model for Names {
    ghost use Rattle.pt_names.specs.State.{NamesState, state, IsOneToOne};

    ghost Value = { NamesState };

    ghost view = { λ s. state s.holders s.names };

    ghost invariant = { λ s. IsOneToOne (state s.holders s.names) };
}

impl Names {
    /// No names. It takes no memory.
    pub fn new(alloc: Global) -> Names
        ensures { IsNone result }
    {
        Names {
            holders: IndexMap::new(alloc),
            names: IndexMap::new(alloc),
        }
    }

    /// The process that has the name, or `None` if no process has it.
    pub fn whereis(&self, name: Name) -> Option<Pid>
        ensures { result ≡ option_map (λ h. h.pid) (holder_of self.now name) }
    {
        match self.holders.get(&name) {
            Some(holder) => Some(holder.pid),
            None => None,
        }
    }

    /// The process that has the name, with its monitor, or `None` if no process has it.
    pub fn holder(&self, name: Name) -> Option<Holder>
        ensures { result ≡ holder_of self.now name }
    {
        self.holders.get(&name).copied()
    }

    /// The name of a process, or `None` if it has no name.
    pub fn name_of(&self, pid: Pid) -> Option<Name>
        ensures { result ≡ name_at self.now pid }
    {
        self.names.get(&pid).copied()
    }

    /// The number of names.
    pub fn len(&self) -> usize
        ensures { result ≡ length self.now.holders }
    {
        self.holders.len()
    }

    /// Checks whether the process can have the name. Fails with `Taken` or `HasName` as `register` would. If it
    /// succeeds, `register` fails only if there is no memory.
    pub fn check(&self, name: Name, pid: Pid) -> Result<(), RegisterError>
        ensures { Checks name pid self.now result }
    {
        if let Some(holder) = self.whereis(name) {
            return Err(RegisterError::Taken(holder));
        }
        match self.name_of(pid) {
            Some(other) => Err(RegisterError::HasName(other)),
            None => Ok(()),
        }
    }

    /// Gives a process a name, and keeps the monitor that will report its exit.
    ///
    /// Fails with `Taken` if a process has the name, otherwise with `HasName` if the process has a name, and otherwise
    /// with `Memory` if there is no memory for one more. Then nothing has changed.
    pub fn register(&mut self, name: Name, pid: Pid, monitor: Ref) -> Result<(), RegisterError>
        ensures { Registers name pid monitor self.old result self.new }
    {
        self.check(name, pid)?;
        if self.names.reserve(1).is_err() {
            return Err(RegisterError::Memory);
        }
        if self.holders.insert(name, Holder { pid, monitor }).is_err() {
            return Err(RegisterError::Memory);
        }
        let _ = self.names.insert(pid, name);
        Ok(())
    }

    /// Removes a name, and returns the process that had it, or `None` if no process has the name.
    pub fn unregister(&mut self, name: Name) -> Option<Holder>
        ensures { Unregisters name self.old result self.new }
    {
        let holder = self.holders.swap_remove(&name)?;
        let _ = self.names.swap_remove(&holder.pid);
        Some(holder)
    }

    /// Removes the name of a process that has exited, and returns it, or `None` if it has none.
    pub fn forget(&mut self, pid: Pid) -> Option<Name>
        ensures { Forgets pid self.old result self.new }
    {
        let name = self.names.swap_remove(&pid)?;
        let _ = self.holders.swap_remove(&name);
        Some(name)
    }
}
