//! The processes of all desks.

ghost use Rattle.std.specs.Prelude.{◌≡◌, ◌++◌, is_some, IfOk, OnOk};
ghost use Rattle.std.specs.Map.{lookup};
ghost use Rattle.std.specs.List.{list_any};
ghost use Rattle.pt_signal.specs.Values.{same_ref};
ghost use Rattle.pt_signal.specs.Process.{held};
ghost use Rattle.pt_events.specs.History.{life, state, open_monitors};
ghost use Rattle.pt_accounts.specs.LivesState.{Tell, AreAllPids, account_in, all_pids};

use crate::Account;
use crate::desk_lives::DeskLives;
use pt_events::journals_tell_their_pids;
use pt_signal::{Ids, Pid, Ref};
use std::alloc::{AllocError, Global};
use std::marker::Model;

/// What became of every process of a node.
///
/// The reading calls take no memory and find a process by its pid in constant time. What they return holds in every
/// merge of the journals that were read.
#[derive(Drop)]
pub struct Lives {
    desks: Vec<DeskLives>,
}

impl Model for Lives {
    ghost use Rattle.pt_accounts.specs.LivesState as state;

    ghost Value = { state.Lives };

    ghost view = { λ l. l.desks.items };
}

/// Adds the pids of all processes, by shard, slot and version.
fn list_all(desks: &[DeskLives], pids: &mut Vec<Pid>) -> Result<(), AllocError>
    ensures { OnOk result (pids.new.items ≡ pids.old.items ++ all_pids desks.now) }
{
    for desk in 0..desks.len() {
        desks[desk].list(pids)?;
    }
    Ok(())
}

impl Lives {
    /// The lives of the desks with these tables, desk 0 first. It takes no memory.
    pub fn of(desks: Vec<DeskLives>) -> Lives
        ensures { result ≡ desks.items }
    {
        Lives { desks }
    }

    /// The tables of the desks, desk 0 first, to be read.
    pub fn desks(&self) -> &[DeskLives]
        ensures { result.now ≡ self.now }
    {
        self.desks.as_slice()
    }

    /// The tables of the desks, desk 0 first.
    pub fn into_desks(self) -> Vec<DeskLives>
        ensures { result.items ≡ self }
    {
        let Lives { desks } = self;
        desks
    }

    /// The pids of all processes that were spawned, by shard, slot and version. Fails only if there is no memory.
    pub fn list(&self, alloc: Global) -> Result<Vec<Pid>, AllocError>
        ensures listed { IfOk result (λ pids. pids.items ≡ all_pids self.now) }
        ensures told { IfOk result (λ pids. Tell self.now (λ start past. AreAllPids start past pids.items)) }
    {
        journals_tell_their_pids();
        let mut pids = Vec::new(alloc);
        list_all(self.desks.as_slice(), &mut pids)?;
        Ok(pids)
    }

    /// What is known of the process, or `None` if it was never spawned.
    pub fn account(&self, pid: Pid) -> Option<Account>
        ensures { Tell self.now (λ start past. result ≡ account_in start past pid) }
    {
        journals_tell_their_pids();
        let desk = usize::from(pid.shard);
        if desk < self.desks.len() {
            self.desks[desk].account(pid)
        } else {
            None
        }
    }

    /// The ids under which it is linked with the other process, or was just after its exit.
    pub fn linked(&self, pid: Pid, peer: Pid) -> Option<Ids>
        ensures { Tell self.now (λ start past. result ≡ held (state start past pid).links peer) }
    {
        journals_tell_their_pids();
        let desk = usize::from(pid.shard);
        if desk < self.desks.len() {
            self.desks[desk].linked(pid, peer)
        } else {
            None
        }
    }

    /// Whether it keeps a watch of this reference, or did just after its exit.
    pub fn kept(&self, target: Pid, monitor: Ref) -> bool
        ensures { Tell self.now
            (λ start past. result ≡ list_any (λ k. same_ref monitor k.0) (state start past target).kept) }
    {
        journals_tell_their_pids();
        let desk = usize::from(target.shard);
        if desk < self.desks.len() {
            self.desks[desk].kept(target, monitor)
        } else {
            false
        }
    }

    /// Whether its monitor of this reference is open. False once it has exited.
    pub fn watching(&self, watcher: Pid, monitor: Ref) -> bool
        ensures { Tell self.now
            (λ start past. result ≡ is_some (lookup (same_ref monitor) (open_monitors (life start past watcher)))) }
    {
        journals_tell_their_pids();
        let desk = usize::from(watcher.shard);
        if desk < self.desks.len() {
            self.desks[desk].watching(watcher, monitor)
        } else {
            false
        }
    }
}
