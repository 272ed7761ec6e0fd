//! The processes of a desk, by their slots.

ghost use Rattle.std.specs.Prelude.{◌≡◌, ℕ, ◌<◌, ◌≤◌, Some, None, IsSome, IfOk, IfSome, OnOk, OnErr};
ghost use Rattle.std.specs.Option.{option_copied};
ghost use Rattle.pt_signal.specs.Process.{fresh};
ghost use Rattle.pt_slots.specs.State.{issued, next_key};
ghost use Rattle.pt_slots.specs.Calls.{IsEmpty, Inserted};
ghost use Rattle.pt_slots.specs.Taken.{taken_slots};
ghost use Rattle.pt_events.specs.History.{linked};
ghost use Rattle.std.specs.Borrow.{sem};
ghost use Rattle.std.specs.Option.{option_copied_mut};
ghost use Rattle.pt_signal.specs.declared.config.TheConstants.{MAX_SLOTS};
ghost use Rattle.pt_shard.specs.Processes.{living_at, in_place, process_at, vacant_at, Changes, Ends, HasRoomFor};
ghost use Rattle.pt_shard.specs.Reading.{read_of};

use pt_process::{Estate, Process};
use pt_signal::{LinkId, Pid, Reason};
use pt_slots::{InsertError, Key, Slots};
use std::alloc::{AllocError, Global};
use std::marker::Model;

/// The live processes of a desk.
#[derive(Drop)]
pub(crate) struct Processes {
    desk: u8,
    table: Slots<Process>,
}

impl Model for Processes {
    ghost use Rattle.pt_shard.specs.Processes.{ProcessesState};

    ghost Value = { ProcessesState };

    ghost view = { λ r. record { desk = r.desk; table = r.table } };
}

/// The key of a process in the slots of its desk.
fn key_of(p: Pid) -> Key
    ensures slot { result.slot ≡ p.slot }
    ensures version { result.version ≡ p.version }
{
    Key {
        slot: p.slot,
        version: p.version,
    }
}

impl Processes {
    ghost use Rattle.pt_shard.specs.Lending.{LendsProcess};

    pub(crate) fn new(
        alloc: Global,
        desk: u8,
        slots: u32,
        top_version: u32,
    ) -> Result<Processes, AllocError>
        requires { (0 < slots) × (slots ≤ MAX_SLOTS) × (0 < top_version) }
        ensures desk { IfOk result (λ r. r.desk ≡ desk) }
        ensures empty { IfOk result (λ r. IsEmpty slots top_version r.table) }
    {
        Ok(Processes {
            desk,
            table: Slots::new(alloc, slots, top_version)?,
        })
    }

    /// The number of the desk.
    pub(crate) fn desk(&self) -> u8
        ensures { result ≡ self.now.desk }
    {
        self.desk
    }

    /// The number of slots of the desk. No other slot has had a process.
    pub fn slots(&self) -> u32
        ensures slots { result ≡ self.now.table.capacity }
        ensures beyond { (slot : ℕ) → self.now.table.capacity ≤ slot → issued self.now.table slot ≡ 0 }
    {
        self.table.capacity()
    }

    /// The number of live processes.
    pub(crate) fn len(&self) -> u32
        ensures { result ≡ taken_slots self.now.table }
    {
        self.table.len()
    }

    /// The latest version of a slot.
    #[inline(always)]
    pub(crate) fn issued(&self, slot: u32) -> u32
        ensures { result ≡ issued self.now.table slot }
    {
        self.table.issued(slot)
    }

    /// The process, if it is alive here.
    pub(crate) fn find(&self, p: Pid) -> Option<&Process>
        ensures { read_of (option_copied result) ≡ process_at self.now.desk self.now.table p }
    {
        if p.shard != self.desk {
            return None;
        }
        self.table.get(key_of(p))
    }

    /// The process, to be changed, if it is alive here.
    pub(crate) fn find_mut(&mut self, p: Pid) -> Option<&mut Process>
        ensures* writes_back { sem 𝓛 (LendsProcess self.entry p result) }
        ensures value { option_copied_mut result ≡ living_at self.old.desk self.old.table p }
    {
        if p.shard != self.desk {
            return None;
        }
        self.table.get_mut(Key {
            slot: p.slot,
            version: p.version,
        })
    }

    /// The pid that the next process spawned here will have, or `None` if no slot is free.
    pub(crate) fn vacant(&self) -> Option<Pid>
        ensures { result ≡ vacant_at self.now.desk self.now.table }
    {
        let key = self.table.next()?;
        Some(Pid {
            shard: self.desk,
            slot: key.slot,
            version: key.version,
        })
    }

    /// Takes a new process in, under the pid that is vacant.
    #[inline(always)]
    pub(crate) fn admit(&mut self, process: Process) -> Result<(), AllocError>
        requires { IsSome (next_key self.old.table) }
        ensures desk { self.new.desk ≡ self.old.desk }
        ensures ok { OnOk result
            (IfSome (next_key self.old.table) (λ key. Inserted process key self.old.table self.new.table)) }
        ensures err { OnErr result (self.new ≡ self.old) }
    {
        match self.table.insert(process) {
            Ok(_) => Ok(()),
            Err(InsertError::Full(_)) => unreachable!(),
            Err(InsertError::Memory(_)) => Err(AllocError),
        }
    }

    /// Enters a live parent's half of the link with its child, if there is one.
    pub(crate) fn link_parent(&mut self, parent: Pid, child: Pid, link: Option<LinkId>)
        requires lives { IsSome (in_place self.old.table parent) }
        requires room { HasRoomFor link parent self.old.table }
        ensures desk { self.new.desk ≡ self.old.desk }
        ensures changes { Changes parent (λ me s. linked (Some child) link s) self.old.table self.new.table }
    {
        let Some(id) = link else {
            return;
        };
        let Some(process) = self.table.get_mut(key_of(parent)) else {
            unreachable!()
        };
        let Ok(()) = process.add_link(child, id) else {
            unreachable!()
        };
    }

    /// Takes out a live process that exits with this reason, and returns what it owes.
    #[inline(always)]
    pub(crate) fn end(&mut self, p: Pid, reason: Reason) -> Estate
        requires { IsSome (in_place self.old.table p) }
        ensures desk { self.new.desk ≡ self.old.desk }
        ensures ends { Ends p reason result self.old.table self.new.table }
    {
        let Some(process) = self.table.remove(key_of(p)) else {
            unreachable!()
        };
        process.estate(reason)
    }
}

/// A new process, linked with its parent if there is a link.
pub(crate) fn new_process(
    alloc: Global,
    me: Pid,
    parent: Pid,
    link: Option<LinkId>,
) -> Result<Process, AllocError>
    ensures me { IfOk result (λ r. r.me ≡ me) }
    ensures state { IfOk result (λ r. r.state ≡ linked (Some parent) link fresh) }
{
    let mut process = Process::new(alloc, me);
    if let Some(id) = link {
        process.add_link(parent, id)?;
    }
    Ok(process)
}
