//! The processes of one desk.

ghost use Rattle.std.specs.Prelude.{◌≡◌, [], ◌∷◌, ◌+◌, ◌<◌, ◌^◌, ◌++◌, ℕ, length, map, option_to_list, OnOk, OnErr};
ghost use Rattle.std.specs.Option.{option_map};
ghost use Rattle.std.specs.List.{Contains};
ghost use Rattle.pt_accounts.specs.LifeState.{account_of};
ghost use Rattle.pt_accounts.specs.DeskLives.{life_in, linked_in, kept_by, watching_in, pids_in, MayRead, ReadsOn};
ghost use Rattle.pt_accounts.specs.DeskLives.{forgotten, all_forgotten, BeginsAnew, latest_ends};
ghost use Rattle.pt_accounts.specs.DeskLives.{bare, all_bare, BeginsBare};
ghost use Rattle.pt_accounts.specs.Table.{slot_at, of_version_in};
ghost use Rattle.pt_events.specs.declared.event.Event.TheVariants.{Born};
ghost use Rattle.pt_accounts.specs.SlotState.{IsCountedUpTo};
ghost use Rattle.pt_accounts.specs.Changed.{SlotIsNoted, OthersAreForgotten};
ghost use Rattle.pt_accounts.specs.Steps.{ChangesLife, PutsLife, Observes, AreAlike, IsNextOf, TableGoesOn};
ghost use Rattle.pt_accounts.specs.Steps.{MayShow, MayObserve, life_after};

use crate::Account;
use crate::changed::Changed;
use crate::life::Life;
use crate::slot::Slot;
use pt_events::{Event, Journal};
use pt_signal::{Ids, LinkId, Pid, Ref, Signal};
use std::alloc::{AllocError, Global};
use std::marker::Model;

/// What became of every process of one desk, as far as its journal has been read.
///
/// Contracts see the life of each process, by slot and version, and how many events of the journal have been read.
#[derive(Drop)]
pub struct DeskLives {
    alloc: Global,
    desk: u8,
    slots: Vec<Slot>,
    /// The slots of processes of which there may be something to forget.
    changed: Changed,
    read: usize,
    /// The number of events ever read: no process got more items.
    ever: u64,
}

impl Model for DeskLives {
    ghost use Rattle.pt_accounts.specs.DeskLives.{DeskTable};
    ghost use Rattle.pt_accounts.specs.Changed.{IsWellKept};

    ghost Value = { DeskTable };

    ghost view = { λ d. record { desk = d.desk; slots = d.slots.items; read = d.read } };

    ghost invariant = { λ d. IsWellKept d.ever d.changed d.slots.items };
}

/// Plays one of the process's own events.
#[inline(always)]
fn show(slots: &mut Vec<Slot>, pid: Pid, event: Event) -> Result<(), AllocError>
    requires { MayShow slots.old.items pid event }
    ensures changes { OnOk result (ChangesLife pid (life_after event) slots.old.items slots.new.items) }
    ensures len { length slots.new.items ≡ length slots.old.items }
    ensures refused { OnErr result (AreAlike slots.old.items slots.new.items) }
{
    let slot = pid.slot as usize;
    if slot < slots.len() {
        slots[slot].see(pid.version, event)?;
    }
    Ok(())
}

/// Makes the table long enough for the slot.
fn grow(alloc: Global, slots: &mut Vec<Slot>, slot: usize) -> Result<(), AllocError>
    ensures long { OnOk result (slot < length slots.new.items) }
    ensures same { AreAlike slots.old.items slots.new.items }
{
    while slots.len() <= slot {
        slots.push(Slot::new(alloc))?;
    }
    Ok(())
}

/// Begins a process, in the next version of its slot.
fn bear(alloc: Global, slots: &mut Vec<Slot>, pid: Pid, life: Life) -> Result<(), AllocError>
    requires pid { life.pid ≡ pid }
    requires next { IsNextOf pid (slot_at slots.old.items pid.slot) }
    ensures long { OnOk result (pid.slot < length slots.new.items) }
    ensures puts { OnOk result (PutsLife pid life slots.old.items slots.new.items) }
    ensures lives { OnOk result
        (slot_at slots.new.items pid.slot ≡ slot_at slots.old.items pid.slot ++ life ∷ []) }
    ensures others { OnOk result
        ((s : ℕ) → (pid.slot ≡ s → ⊥) → slot_at slots.new.items s ≡ slot_at slots.old.items s) }
    ensures refused { OnErr result (AreAlike slots.old.items slots.new.items) }
{
    let slot = pid.slot as usize;
    grow(alloc, slots, slot)?;
    slots[slot].push(pid, life)?;
    Ok(())
}

/// Plays the spawn of a process, linked with its parent if its event says so. If it fails, each process is as before.
fn bear_child(
    alloc: Global,
    slots: &mut Vec<Slot>,
    pid: Pid,
    parent: Option<Pid>,
    link: Option<LinkId>,
) -> Result<(), AllocError>
    requires { MayObserve slots.old.items (Born pid parent link) }
    ensures observes { OnOk result (Observes (Born pid parent link) slots.old.items slots.new.items) }
    ensures refused { OnErr result (AreAlike slots.old.items slots.new.items) }
{
    let life = Life::born(alloc, pid, parent, link)?;
    bear(alloc, slots, pid, life)?;
    let Some(maker) = parent else {
        return Ok(());
    };
    let shown = show(slots, maker, Event::Born(pid, parent, link));
    if shown.is_err() {
        slots[pid.slot as usize].pop();
    }
    shown
}

/// Plays one of the process's own events, after which there may be something to forget of it. So its slot is noted.
#[inline(always)]
fn show_and_note(
    slots: &mut Vec<Slot>,
    changed: &mut Changed,
    pid: Pid,
    event: Event,
) -> Result<(), AllocError>
    requires { MayShow slots.old.items pid event }
    ensures changes { OnOk result (ChangesLife pid (life_after event) slots.old.items slots.new.items) }
    ensures noted { OnOk result (Contains changed.new pid.slot) }
    ensures stays { (s : ℕ) → Contains changed.old s → Contains changed.new s }
    ensures refused { OnErr result (AreAlike slots.old.items slots.new.items) }
{
    changed.note(pid.slot)?;
    show(slots, pid, event)
}

/// Plays an event. If it fails, each process is as before. The slot of its process is noted, unless the event leaves
/// nothing to forget: only what a process took and that it ended is to be forgotten, and a message ends nobody.
#[inline(always)]
fn observe(
    alloc: Global,
    slots: &mut Vec<Slot>,
    changed: &mut Changed,
    event: Event,
) -> Result<(), AllocError>
    requires { MayObserve slots.old.items event }
    ensures observes { OnOk result (Observes event slots.old.items slots.new.items) }
    ensures noted { OnOk result (SlotIsNoted event changed.new) }
    ensures stays { (s : ℕ) → Contains changed.old s → Contains changed.new s }
    ensures refused { OnErr result (AreAlike slots.old.items slots.new.items) }
{
    match event {
        Event::Born(pid, parent, link) => bear_child(alloc, slots, pid, parent, link),
        Event::Said(from, _, _) => show(slots, from, event),
        Event::Came(_, to, Signal::Message(_)) => show(slots, to, event),
        Event::Came(_, to, _) => show_and_note(slots, changed, to, event),
        Event::Took(pid, _, _) => show_and_note(slots, changed, pid, event),
        Event::Flag(pid, _) => show(slots, pid, event),
        Event::Left(pid, _) => show_and_note(slots, changed, pid, event),
        Event::Refused(_, _) => Ok(()),
    }
}

/// Keeps only the reason of each exited process, and counts anew what the others take. It looks at the slots in the list
/// alone: of the others there is nothing to forget.
fn forget_changed(changed: &mut Changed, slots: &mut Vec<Slot>)
    requires { OthersAreForgotten changed.old slots.old.items }
    ensures forgets { slots.new.items ≡ map (λ lives. map forgotten lives) slots.old.items }
    ensures none { changed.new ≡ [] }
{
    while let Some(slot) = changed.take() {
        let slot = slot as usize;
        if slot < slots.len() {
            slots[slot].forget();
        }
    }
}

/// Keeps of each exited process that it exited, and not why; counts anew what the others take.
fn forget_all_reasons(slots: &mut Vec<Slot>)
    ensures { slots.new.items ≡ map (λ lives. map bare lives) slots.old.items }
{
    for slot in 0..slots.len() {
        slots[slot].forget_reasons();
    }
}

/// Adds the exit, if there is one.
fn add_end(ends: &mut Vec<(Pid, u64)>, pid: Option<Pid>, low: u64) -> Result<(), AllocError>
    ensures { OnOk result (ends.new.items ≡ ends.old.items ++ map (λ p. (p, low)) (option_to_list pid)) }
{
    if let Some(pid) = pid {
        ends.push((pid, low))?;
    }
    Ok(())
}

impl DeskLives {
    /// The table of the desk with this number, without a process. It takes no memory.
    pub fn new(alloc: Global, desk: u8) -> DeskLives
        ensures { result ≡ record { desk = desk; slots = []; read = 0 } }
    {
        DeskLives {
            alloc,
            desk,
            slots: Vec::new(alloc),
            changed: Changed::new(alloc),
            read: 0,
            ever: 0,
        }
    }

    /// Reads the journal from the first event that it has not read yet to the last.
    ///
    /// Fails if there is no memory. The events before the one that found none have been read then, and that one has
    /// changed nothing. The next call resumes there.
    pub fn read(&mut self, journal: &Journal) -> Result<(), AllocError>
        requires { MayRead self.old journal.now.past }
        ensures on { ReadsOn journal.now.past self.old self.new }
        ensures whole { OnOk result (self.new.read ≡ length journal.now.past) }
    {
        let events = journal.events();
        for place in self.read..events.len() {
            self.step(events[place].event)?;
        }
        Ok(())
    }

    /// Plays the next event of the journal. If it fails, each process is as before.
    fn step(&mut self, event: Event) -> Result<(), AllocError>
        requires next { TableGoesOn self.old event }
        requires few { self.old.read + 1 < 2 ^ 64 }
        ensures desk { self.new.desk ≡ self.old.desk }
        ensures read { OnOk result (self.new.read ≡ self.old.read + 1) }
        ensures observes { OnOk result (Observes event self.old.slots self.new.slots) }
        ensures unread { OnErr result (self.new.read ≡ self.old.read) }
        ensures refused { OnErr result (AreAlike self.old.slots self.new.slots) }
    {
        let Some(ever) = self.ever.checked_add(1) else {
            return Err(AllocError);
        };
        observe(self.alloc, &mut self.slots, &mut self.changed, event)?;
        self.ever = ever;
        self.read += 1;
        Ok(())
    }

    /// Forgets what the exited processes held, and how they came to it. Only the reason of each is kept, in 8 bytes.
    /// The others stay as they are, and what they take is counted anew. The next journal that is read must be the one
    /// that continues from here. It takes no memory, and looks only at slots whose processes took an item or exited since
    /// the table last forgot, or got a signal other than a message.
    pub fn forget(&mut self)
        ensures forgets { self.new ≡ all_forgotten self.old }
        ensures anew { BeginsAnew self.old self.new }
    {
        forget_changed(&mut self.changed, &mut self.slots);
        self.read = 0;
    }

    /// Forgets of each exited process also why it exited: its reason is [`Reason::Noproc`](pt_signal::Reason) from now
    /// on. Each stays exited, and the others stay as they are. A slot keeps 12 bytes for all its exited processes
    /// together, and room for two runs of reasons. Else it is as [`forget`](DeskLives::forget), and takes no memory.
    pub fn forget_reasons(&mut self)
        ensures forgets { self.new ≡ all_bare self.old }
        ensures bare { BeginsBare self.old self.new }
        ensures ends { latest_ends self.new ≡ latest_ends self.old }
    {
        forget_all_reasons(&mut self.slots);
        self.read = 0;
    }

    /// For each slot in which a process has exited, adds the latest such process, by slot, each with this stamp.
    pub fn latest_ends(&self, low: u64, ends: &mut Vec<(Pid, u64)>) -> Result<(), AllocError>
        ensures { OnOk result (ends.new.items ≡ ends.old.items ++ map (λ p. (p, low)) (latest_ends self.now)) }
    {
        for slot in 0..self.slots.len() {
            add_end(ends, self.slots[slot].latest_end(), low)?;
        }
        Ok(())
    }

    fn slot(&self, pid: Pid) -> Option<&Slot>
        ensures slot { life_in self.now pid ≡ of_version_in (option_map (λ slot. slot.now) result) pid.version }
        ensures counted { (n : ℕ) × IsCountedUpTo n self.now.slots }
    {
        if pid.shard != self.desk {
            return None;
        }
        let slot = pid.slot as usize;
        if slot < self.slots.len() {
            Some(&self.slots[slot])
        } else {
            None
        }
    }

    /// What is known of the process, or `None` if it was never spawned. A forgotten one has no items.
    pub fn account(&self, pid: Pid) -> Option<Account>
        ensures { result ≡ option_map account_of (life_in self.now pid) }
    {
        match self.slot(pid) {
            Some(slot) => slot.account(pid.version),
            None => None,
        }
    }

    /// The ids under which it is linked with the other process, or was just after its exit. A forgotten one has none.
    pub fn linked(&self, pid: Pid, peer: Pid) -> Option<Ids>
        ensures { result ≡ linked_in (life_in self.now pid) peer }
    {
        match self.slot(pid) {
            Some(slot) => slot.linked(pid.version, peer),
            None => None,
        }
    }

    /// Whether it keeps a watch of this reference, or did just after its exit. A forgotten one keeps none.
    pub fn kept(&self, target: Pid, monitor: Ref) -> bool
        ensures { result ≡ kept_by (life_in self.now target) monitor }
    {
        match self.slot(target) {
            Some(slot) => slot.kept(target.version, monitor),
            None => false,
        }
    }

    /// Whether its monitor of this reference is open. False once it has exited.
    pub fn watching(&self, watcher: Pid, monitor: Ref) -> bool
        ensures { result ≡ watching_in (life_in self.now watcher) monitor }
    {
        match self.slot(watcher) {
            Some(slot) => slot.watching(watcher.version, monitor),
            None => false,
        }
    }

    /// Adds the pids of all its processes, by slot, then version.
    pub fn list(&self, pids: &mut Vec<Pid>) -> Result<(), AllocError>
        ensures { OnOk result (pids.new.items ≡ pids.old.items ++ pids_in self.now.slots) }
    {
        for slot in 0..self.slots.len() {
            self.slots[slot].list(pids)?;
        }
        Ok(())
    }
}
