//! The processes that one slot has had.

ghost use Rattle.std.specs.Prelude.{◌≡◌, ◌+◌, ◌-◌, ◌≤◌, ◌<◌, ◌^◌, ◌++◌, ◌∷◌};
ghost use Rattle.std.specs.Prelude.{[], ◌==◌, false, ℕ, List, cond, length, map};
ghost use Rattle.std.specs.Prelude.{slice_get, option_to_list, None, IfSome, OnOk, OnErr};
ghost use Rattle.std.specs.Option.{option_map};
ghost use Rattle.pt_events.specs.History.{is_ended};
ghost use Rattle.pt_accounts.specs.LifeState.{LifeState, account_of};
ghost use Rattle.pt_accounts.specs.Table.{of_version};
ghost use Rattle.pt_accounts.specs.DeskLives.{pids_of, linked_in, kept_by, watching_in, forgotten, bare, latest_end};
ghost use Rattle.pt_accounts.specs.SlotState.{AreOver, Finds, IsCounted, reasons_of, life_end, left_of, living_of};
ghost use Rattle.pt_accounts.specs.Steps.{life_after, MaySee, IsNextOf};

use crate::Account;
use crate::life::Life;
use crate::reasons::Reasons;
use pt_events::Event;
use pt_signal::{Ids, Pid, Reason, Ref};
use std::alloc::{AllocError, Global};
use std::marker::Model;

/// The processes by version; the first is version 1.
///
/// All but the newest have exited. For forgotten ones only the reasons are kept, as runs of equal ones.
#[derive(Drop)]
pub(crate) struct Slot {
    desk: u8,
    slot: u32,
    /// It has room for all that are not forgotten yet.
    forgotten: Reasons,
    ended: Vec<Life>,
    newest: Option<Life>,
}

impl Model for Slot {
    ghost use Rattle.std.specs.Prelude.{List, length, ◌+◌};
    ghost use Rattle.pt_accounts.specs.LifeState.{LifeState};
    ghost use Rattle.pt_accounts.specs.SlotState.{lives_of, IsSlot};

    ghost Value = { List LifeState };

    ghost view = { λ s. lives_of s.desk s.slot s.forgotten.listed s.ended.items s.newest };

    ghost invariant = { λ s.
        IsSlot s.desk s.slot s.forgotten.listed (length s.forgotten.listed + s.forgotten.room) s.ended.items s.newest };
}

/// The process at this place among those that are not forgotten.
fn recent<'a>(ended: &'a [Life], newest: &'a Option<Life>, place: usize) -> Option<&'a Life>
    ensures { option_map (λ life. life.now) result ≡ slice_get (ended.now ++ option_to_list newest.now) place }
{
    if place < ended.len() {
        Some(&ended[place])
    } else if place == ended.len() {
        newest.as_ref()
    } else {
        None
    }
}

/// Adds a reason, if there is one.
fn add_reason(forgotten: &mut Reasons, reason: Option<Reason>)
    requires room { length (option_to_list reason) ≤ forgotten.old.room }
    requires few { length forgotten.old.listed + length (option_to_list reason) < 2 ^ 32 }
    ensures listed { forgotten.new.listed ≡ forgotten.old.listed ++ option_to_list reason }
    ensures room { forgotten.old.room ≤ forgotten.new.room + length (option_to_list reason) }
{
    if let Some(reason) = reason {
        forgotten.push_reserved(reason);
    }
}

/// Adds their reasons.
fn add_reasons(forgotten: &mut Reasons, ended: &[Life])
    requires room { length ended.now ≤ forgotten.old.room }
    requires few { length forgotten.old.listed + length ended.now < 2 ^ 32 }
    ensures listed { forgotten.new.listed ≡ forgotten.old.listed ++ reasons_of ended.now }
    ensures room { forgotten.old.room ≤ forgotten.new.room + length ended.now }
{
    for place in 0..ended.len() {
        add_reason(forgotten, ended[place].ended());
    }
}

/// Counts anew what it takes. An exited one is removed, and its reason is returned.
fn forget_newest(newest: &mut Option<Life>) -> Option<Reason>
    ensures reason { result ≡ life_end newest.old }
    ensures left { newest.new ≡ left_of newest.old }
{
    let Some(life) = newest else {
        return None;
    };
    let reason = life.ended();
    if reason.is_some() {
        *newest = None;
    } else {
        life.count_anew();
    }
    reason
}

/// Adds the reason of each process that exited, and removes the process. A newest that has not exited counts anew.
fn keep_ends(forgotten: &mut Reasons, ended: &mut Vec<Life>, newest: &mut Option<Life>)
    requires over { AreOver ended.old.items }
    requires room { length ended.old.items + length (option_to_list newest.old) ≤ forgotten.old.room }
    requires few { length forgotten.old.listed + length ended.old.items + length (option_to_list newest.old) < 2 ^ 32 }
    ensures listed { forgotten.new.listed
        ≡ (forgotten.old.listed ++ reasons_of ended.old.items) ++ option_to_list (life_end newest.old) }
    ensures room { length forgotten.old.listed + forgotten.old.room ≤ length forgotten.new.listed + forgotten.new.room }
    ensures ended { ended.new.items ≡ [] }
    ensures newest { newest.new ≡ left_of newest.old }
{
    add_reasons(forgotten, ended.as_slice());
    ended.clear();
    ended.shrink_to_fit();
    let reason = forget_newest(newest);
    add_reason(forgotten, reason);
}

/// Moves the newest, if there is one, to those that exited. If it fails, both are as before.
fn move_newest(ended: &mut Vec<Life>, newest: &mut Option<Life>) -> Result<(), AllocError>
    ensures moved { OnOk result (ended.new.items ≡ ended.old.items ++ option_to_list newest.old) }
    ensures gone { OnOk result (newest.new ≡ None) }
    ensures ended { OnErr result (ended.new.items ≡ ended.old.items) }
    ensures newest { OnErr result (newest.new ≡ newest.old) }
{
    if newest.is_none() {
        return Ok(());
    }
    ended.reserve(1)?;
    if let Some(life) = newest.take() {
        ended.push_reserved(life);
    }
    Ok(())
}

/// The number of processes: one or none.
fn count(newest: &Option<Life>) -> usize
    ensures { result ≡ length (option_to_list newest.now) }
{
    match newest {
        Some(_) => 1,
        None => 0,
    }
}

/// The number of live processes.
fn living(newest: &Option<Life>) -> usize
    ensures { result ≡ living_of newest.now }
{
    match newest {
        Some(life) if life.ended().is_none() => 1,
        _ => 0,
    }
}

impl Slot {
    pub(crate) fn new(alloc: Global) -> Slot
        ensures { result ≡ [] }
    {
        Slot {
            desk: 0,
            slot: 0,
            forgotten: Reasons::new(alloc),
            ended: Vec::new(alloc),
            newest: None,
        }
    }

    /// The number of versions that there were.
    fn len(&self) -> usize
        ensures len { result ≡ length self.now }
        ensures few { result < 2 ^ 32 }
    {
        self.forgotten.len() + self.ended.len() + count(&self.newest)
    }

    /// Plays one of that version's own events. If it fails, each is as before.
    #[inline(always)]
    pub(crate) fn see(&mut self, version: u32, event: Event) -> Result<(), AllocError>
        requires { IfSome (of_version self.old version) (MaySee event) }
        ensures versions { OnOk result
            ((v : ℕ)
            → of_version self.new v
            ≡ cond (version == v) (option_map (life_after event) (of_version self.old v)) (of_version self.old v)) }
        ensures length { OnOk result (length self.new ≡ length self.old) }
        ensures refused { OnErr result (self.new ≡ self.old) }
    {
        let before = self.forgotten.len() + self.ended.len();
        let Some(life) = &mut self.newest else {
            return Ok(());
        };
        if version as usize != before + 1 {
            return Ok(());
        }
        life.see(event)
    }

    /// Adds the next version. If it fails, each is as before.
    pub(crate) fn push(&mut self, pid: Pid, life: Life) -> Result<(), AllocError>
        requires pid { life.pid ≡ pid }
        requires next { IsNextOf pid self.old }
        ensures added { OnOk result (self.new ≡ self.old ++ life ∷ []) }
        ensures refused { OnErr result (self.new ≡ self.old) }
    {
        self.forgotten.reserve(self.ended.len() + 2)?;
        move_newest(&mut self.ended, &mut self.newest)?;
        self.desk = pid.shard;
        self.slot = pid.slot;
        self.newest = Some(life);
        Ok(())
    }

    /// Takes back the newest, which has not exited.
    pub(crate) fn pop(&mut self)
        requires { (lives : List LifeState) × (life : LifeState) × (self.old ≡ lives ++ life ∷ [])
            × (is_ended life.phase ≡ false) }
        ensures { (lives : List LifeState) (life : LifeState) → self.old ≡ lives ++ life ∷ [] → self.new ≡ lives }
    {
        self.newest = self.ended.pop();
    }

    /// Keeps only the reason of each exited process, and counts anew what the others take.
    pub(crate) fn forget(&mut self)
        ensures { self.new ≡ map forgotten self.old }
    {
        keep_ends(&mut self.forgotten, &mut self.ended, &mut self.newest);
    }

    /// Keeps of each exited process that it exited, and not why; counts anew what the others take.
    pub(crate) fn forget_reasons(&mut self)
        ensures { self.new ≡ map bare self.old }
    {
        keep_ends(&mut self.forgotten, &mut self.ended, &mut self.newest);
        self.forgotten.fill(Reason::Noproc);
    }

    /// The latest exited process.
    pub(crate) fn latest_end(&self) -> Option<Pid>
        ensures { result ≡ latest_end self.now }
    {
        let ended = self.len() - living(&self.newest);
        if ended == 0 {
            return None;
        }
        Some(Pid {
            shard: self.desk,
            slot: self.slot,
            version: ended as u32,
        })
    }

    /// Adds the pids, by version.
    pub(crate) fn list(&self, pids: &mut Vec<Pid>) -> Result<(), AllocError>
        ensures { OnOk result (pids.new.items ≡ pids.old.items ++ pids_of self.now) }
    {
        for place in 0..self.len() {
            pids.push(Pid {
                shard: self.desk,
                slot: self.slot,
                version: place as u32 + 1,
            })?;
        }
        Ok(())
    }

    fn life(&self, version: u32) -> Option<&Life>
        ensures { Finds (of_version self.now version) (option_map (λ life. life.now) result) }
    {
        let before = self.forgotten.len();
        let version = version as usize;
        if version <= before {
            return None;
        }
        recent(self.ended.as_slice(), &self.newest, version - before - 1)
    }

    pub(crate) fn account(&self, version: u32) -> Option<Account>
        requires { IfSome (of_version self.now version) (IsCounted (2 ^ 64 - 1)) }
        ensures { result ≡ option_map account_of (of_version self.now version) }
    {
        if version == 0 {
            return None;
        }
        let place = version as usize - 1;
        if let Some(reason) = self.forgotten.get(place) {
            return Some(Account::forgotten(reason));
        }
        let before = self.forgotten.len();
        match recent(self.ended.as_slice(), &self.newest, place - before) {
            Some(life) => Some(life.account()),
            None => None,
        }
    }

    pub(crate) fn linked(&self, version: u32, peer: Pid) -> Option<Ids>
        ensures { result ≡ linked_in (of_version self.now version) peer }
    {
        match self.life(version) {
            Some(life) => life.linked(peer),
            None => None,
        }
    }

    pub(crate) fn kept(&self, version: u32, monitor: Ref) -> bool
        ensures { result ≡ kept_by (of_version self.now version) monitor }
    {
        match self.life(version) {
            Some(life) => life.kept(monitor),
            None => false,
        }
    }

    pub(crate) fn watching(&self, version: u32, monitor: Ref) -> bool
        ensures { result ≡ watching_in (of_version self.now version) monitor }
    {
        match self.life(version) {
            Some(life) => life.watching(monitor),
            None => false,
        }
    }
}
