//! A desk without its lanes.

ghost use Rattle.std.specs.Prelude.{◌≡◌, [], true, ◌<◌, ◌≤◌, ◌^◌, ◌-◌, min, length, slice_get, Some, None};
ghost use Rattle.std.specs.Prelude.{IfOk, OnOk, drop, Ok, Err, cond, false, is_some, option_to_list, ◌==◌, ◌++◌};
ghost use Rattle.pt_shard.specs.declared.fault.Fault.TheVariants.{Gone, Myself};
ghost use Rattle.pt_signal.specs.Values.{same_pid};
ghost use Rattle.std.specs.Option.{option_copied};
ghost use Rattle.pt_signal.specs.declared.signal.Signal.{Signal};
ghost use Rattle.pt_events.specs.declared.event.Event.{Event};
ghost use Rattle.pt_shard.specs.ShardState.{phase_of, lives, state_in, box, Handles};
ghost use Rattle.pt_shard.specs.Restart.{restarted, forgetful};
ghost use Rattle.pt_shard.specs.InTurn.{IsInTurn};
ghost use Rattle.pt_events.specs.History.{is_unborn};
ghost use Rattle.pt_events.specs.Leaving.{outcome};
ghost use Rattle.pt_events.specs.Forgetting.{reasonless};
ghost use Rattle.pt_signal.specs.declared.pid.Pid.{Pid};
ghost use Rattle.pt_signal.specs.Settings.{IsInRange};
ghost use Rattle.pt_shard.specs.Opening.{fresh_shard};
ghost use Rattle.pt_shard.specs.Living.{living_in, living_count, living_pids};
ghost use Rattle.pt_shard.specs.Known.{knows};
ghost use Rattle.pt_shard.specs.Reading.{read_of};
ghost use Rattle.pt_shard.specs.Extends.{Extends};
ghost use Rattle.pt_shard.specs.Fit.{IsFit};
ghost use Rattle.pt_shard.specs.Outbox.{sent_on, sent_on_some, holding, count_pending};
ghost use Rattle.pt_shard.specs.Calls.{Calls, Monitors, Bears, BearsChild, link_event, unlink_event, first_match};
ghost use Rattle.pt_shard.specs.Calls.{take_event, demonitor_event, held_by, new_ref, Refuses};
ghost use Rattle.pt_shard.specs.Plain.{IsPlainSignal};
ghost use Rattle.pt_signal.specs.declared.config.TheConstants.{MAX_STAMP};

use crate::acts::{
    ask, bounce, close_monitor, drop_link, end_by, keep_link, open_monitor, prepare_birth,
    prepare_ending, set_flag, take, take_in, tell,
};
use crate::fault::Fault;
use crate::ledger::Ledger;
use crate::loss::Loss;
use crate::processes::{Processes, new_process};
use crate::stop::Stop;
use pt_events::{Event, Journal};
use pt_process::Process;
use pt_signal::{Body, Config, Ids, Item, Letter, Pick, Pid, Reason, Ref, Signal};
use std::alloc::{AllocError, Global};
use std::marker::Model;

/// A desk without its lanes: its processes, its clock and journal, and the letters that wait in it.
///
/// A call writes its event, changes the process that makes it, and puts letters out. The desk's call of the same name
/// says, in Erlang's words, what it means to the other process.
#[derive(Drop)]
pub struct Shard {
    alloc: Global,
    config: Config,
    ledger: Ledger,
    processes: Processes,
}

impl Model for Shard {
    ghost use Rattle.pt_shard.specs.ShardState.{ShardState};
    ghost use Rattle.pt_shard.specs.Whole.{parts_of, shard_of, IsWhole};

    ghost Value = { ShardState };

    ghost view = { λ a. shard_of (parts_of a.config a.ledger.book a.processes) };

    ghost invariant = { λ a. IsWhole (parts_of a.config a.ledger.book a.processes) };
}

impl Shard {
    /// A desk on which nothing has happened. The first process will have version 1 of slot 0.
    ///
    /// Fails exactly if there is no memory for its tables.
    pub fn new(alloc: Global, config: Config, number: u8) -> Result<Shard, AllocError>
        requires settings { IsInRange config }
        requires number { number < config.desks }
        ensures fresh { IfOk result (λ d. d ≡ fresh_shard config number) }
        ensures fit { OnOk result (IsFit (fresh_shard config number)) }
    {
        Ok(Shard {
            alloc,
            config,
            ledger: Ledger::new(alloc, number, config.desks, config.start)?,
            processes: Processes::new(alloc, number, config.slots, config.top_version)?,
        })
    }

    /// Restarts the desk: its journal is empty, over the start that the one so far leaves, and its clock is at `start`,
    /// which is no earlier than it was. The processes are as they were.
    pub fn restart(self, start: u64) -> Shard
        requires later { self.clock ≤ start }
        requires within { start ≤ MAX_STAMP }
        ensures restarted { result ≡ restarted start self }
        ensures processes { (p : Pid) → phase_of result p ≡ outcome (phase_of self p) }
        ensures known { (p : Pid) → knows result p ≡ knows self p }
        ensures fit { IsFit result }
    {
        let Shard {
            alloc,
            config,
            mut ledger,
            processes,
        } = self;
        ledger.restart(start);
        Shard {
            alloc,
            config: Config { start, ..config },
            ledger,
            processes,
        }
    }

    /// Forgets why the processes exited that had exited before the journal, which is empty: their reason is `noproc`
    /// from now on. Each stays exited for ever, and all else is as it was.
    pub fn forget_reasons(&mut self)
        requires fresh { self.old.journal ≡ [] }
        ensures forgets { self.new ≡ forgetful self.old }
        ensures processes { (p : Pid) → phase_of self.new p ≡ reasonless (phase_of self.old p) }
        ensures known { (p : Pid) → knows self.new p ≡ knows self.old p }
        ensures fit { IsFit self.new }
    {
        self.ledger.forget_reasons();
    }

    /// The number of the desk.
    pub fn number(&self) -> u8
        ensures { result ≡ self.now.number }
    {
        self.processes.desk()
    }

    /// The settings of the node.
    pub fn config(&self) -> Config
        ensures { result ≡ self.now.config }
    {
        self.config
    }

    /// The stamp of the newest event, or the start of the clock.
    pub fn clock(&self) -> u64
        ensures { result ≡ self.now.clock }
    {
        self.ledger.clock()
    }

    /// What happened here, oldest event first.
    ///
    /// It is a lawful journal of this desk: each event was allowed after those before it. The versions of a slot are 1,
    /// 2, 3 and so on, each after the exit of the one before.
    pub fn journal(&self) -> &Journal
        ensures desk { result.now.desk ≡ self.now.number }
        ensures past { result.now.past ≡ self.now.journal }
        ensures fit { IsFit self.now }
    {
        // looked at for the proof alone: what holds of the shard is said of all its fields
        let _ = &self.processes;
        self.ledger.journal()
    }

    /// Whether p is alive here. False if another process has its slot by now.
    pub fn alive_here(&self, p: Pid) -> bool
        ensures { result ≡ lives self.now p }
    {
        self.processes.find(p).is_some()
    }

    /// The live process in that slot, or `None` if there is none. So a program visits all live processes of this desk
    /// by going through the slots below `Config::slots`.
    pub fn lives_in(&self, slot: u32) -> Option<Pid>
        ensures is { result ≡ living_in self.now slot }
        ensures only { (p : Pid) → lives self.now p ≡ true → p.slot ≡ slot → result ≡ Some p }
    {
        let p = Pid {
            shard: self.processes.desk(),
            slot,
            version: self.processes.issued(slot),
        };
        if self.alive_here(p) { Some(p) } else { None }
    }

    /// The live processes of this desk, by slot: Erlang's `processes/0`. It looks into each slot. Fails only if there
    /// is no memory for the list.
    pub fn pids(&self, alloc: Global) -> Result<Vec<Pid>, AllocError>
        ensures { IfOk result (λ v. v.items ≡ living_pids self.now) }
    {
        let mut pids = Vec::new(alloc);
        for slot in 0..self.config().slots {
            self.list_slot(slot, &mut pids)?;
        }
        Ok(pids)
    }

    /// Lists the live process in that slot, if there is one.
    fn list_slot(&self, slot: u32, pids: &mut Vec<Pid>) -> Result<(), AllocError>
        ensures { OnOk result (pids.new.items ≡ pids.old.items ++ option_to_list (living_in self.now slot)) }
    {
        let Some(p) = self.lives_in(slot) else {
            return Ok(());
        };
        pids.push(p)?;
        Ok(())
    }

    /// The number of live processes.
    pub fn len(&self) -> u32
        ensures { result ≡ living_count self.now }
    {
        self.processes.len()
    }

    /// Whether no process is alive here.
    pub fn is_empty(&self) -> bool
        ensures { result ≡ (living_count self.now == 0) }
    {
        self.len() == 0
    }

    /// The items that wait in the mailbox of p, oldest first, or `None` if p is not alive here.
    pub fn waiting(&self, p: Pid) -> Option<&[Item]>
        ensures { option_copied result ≡ cond (lives self.now p) (Some (state_in self.now p).waiting) None }
    {
        match self.processes.find(p) {
            Some(process) => Some(process.waiting()),
            None => None,
        }
    }

    /// The ids under which p is linked with q, or `None` if there is no link, or p is not alive here.
    ///
    /// This is p's own half of the link. The half of q may differ while letters of the two are in flight.
    pub fn linked(&self, p: Pid, q: Pid) -> Option<Ids>
        ensures { result ≡ cond (lives self.now p) (held_by self.now p q) None }
    {
        self.processes.find(p)?.linked(q)
    }

    /// The process p, to be read: its links, open monitors and watchers by place, its mailbox and its flag. `None` if
    /// it is not alive here.
    pub fn process(&self, p: Pid) -> Option<&Process>
        ensures { read_of (option_copied result) ≡ cond (lives self.now p) (Some (p, state_in self.now p)) None }
    {
        match self.processes.find(p) {
            Some(process) => Some(process),
            None => None,
        }
    }

    /// The number of letters that wait in the outbox and the hold, staying at `u64::MAX` once it is reached.
    pub fn pending(&self) -> u64
        ensures { result ≡ min (count_pending self.now) (2 ^ 64 - 1) }
    {
        self.ledger.pending()
    }

    /// Whether p may be the target of a call. Its numbers must be in the node's ranges, and if it is of this desk, its
    /// version must have been issued.
    #[inline(always)]
    pub fn knows(&self, p: Pid) -> bool
        ensures { result ≡ knows self.now p }
    {
        p.shard < self.config.desks
            && p.slot < self.config.slots
            && p.version >= 1
            && p.version <= self.config.top_version
            && (p.shard != self.processes.desk() || p.version <= self.processes.issued(p.slot))
    }

    /// Stops a trial run if the target of a call is not known.
    ///
    /// A trial run has proved nothing, so it stops here and names the call. A built program tests nothing: its caller
    /// has proved that the target is known, the test is inlined and cannot fail.
    #[inline(always)]
    pub fn expect_known(&self, target: Pid)
        requires { knows self.now target ≡ true }
    {
        let known = self.knows(target);
        prove!(known);
    }

    /// The pid that the next process spawned on this desk will have, or `None` exactly if no slot is free. Then `spawn`
    /// fails with `Full`, or with `Worn` if the clock is at its limit.
    pub fn vacant(&self) -> Option<Pid>
        ensures { result ≡ self.now.vacant }
    {
        self.processes.vacant()
    }

    /// What holds for each process spawned here: it is of a slot of the desk and has a version, and those before it in
    /// its slot have exited. The function does nothing: its contract is the promise.
    pub fn versions(&self)
        ensures { (p : Pid) → is_unborn (phase_of self.now p) ≡ false → IsInTurn self.now p }
    {
        // read for the proof alone: it says that no slot beyond those of the desk has had a process
        let _ = self.processes.slots();
    }

    /// Writes that a process sends a message, and puts its letter out.
    ///
    /// Fails with `Gone`, `Worn` or `Memory`.
    #[inline(always)]
    pub fn send(&mut self, from: Pid, to: Pid, body: Body) -> Result<(), Fault>
        requires { knows self.old to ≡ true }
        ensures does { Calls from (Some (Event.Said from to (Signal.Message body))) tt self.old result self.new }
        ensures extends { Extends self.old self.new }
        ensures fit { IsFit self.new }
    {
        self.expect_known(to);
        self.say(from, to, Signal::Message(body))
    }

    /// The same for a sender that is known to be alive here, which is not looked up.
    ///
    /// Fails with `Worn` or `Memory`.
    #[inline(always)]
    pub fn send_living(&mut self, from: Pid, to: Pid, body: Body) -> Result<(), Fault>
        requires known { knows self.old to ≡ true }
        requires lives { lives self.old from ≡ true }
        ensures does { Calls from (Some (Event.Said from to (Signal.Message body))) tt self.old result self.new }
        ensures extends { Extends self.old self.new }
        ensures fit { IsFit self.new }
    {
        self.expect_known(to);
        tell(&mut self.ledger, from, to, Signal::Message(body))
    }

    /// Writes that a process sends an exit signal that no link carries, and puts its letter out.
    ///
    /// Fails with `Gone`, `Worn` or `Memory`.
    pub fn exit_signal(&mut self, from: Pid, to: Pid, reason: Reason) -> Result<(), Fault>
        requires { knows self.old to ≡ true }
        ensures does { Calls from (Some (Event.Said from to (Signal.Exit reason))) tt self.old result self.new }
        ensures extends { Extends self.old self.new }
        ensures fit { IsFit self.new }
    {
        self.expect_known(to);
        self.say(from, to, Signal::Exit(reason))
    }

    /// Enters p's own half of a link, and puts out the letter that enters the other. Nothing happens if p is the
    /// target, or holds a link with it.
    ///
    /// Fails with `Gone`, `Worn` or `Memory`.
    pub fn link(&mut self, p: Pid, to: Pid) -> Result<(), Fault>
        requires { knows self.old to ≡ true }
        ensures does { Calls p (link_event self.old p to) tt self.old result self.new }
        ensures extends { Extends self.old self.new }
        ensures fit { IsFit self.new }
    {
        // read for the proof alone: it says what holds of every shard
        let _ = self.journal();
        if !self.has_link_to_make(p, to)? {
            return Ok(());
        }
        self.make_link(p, to)
    }

    /// Whether p has a link to make: it has none if it is the target, or holds a link with it.
    ///
    /// Fails with `Gone` if p does not live here.
    pub fn has_link_to_make(&self, p: Pid, to: Pid) -> Result<bool, Fault>
        ensures { result ≡ cond (lives self.now p) (Ok (is_some (link_event self.now p to))) (Err Gone) }
    {
        let Some(process) = self.processes.find(p) else {
            return Err(Fault::Gone);
        };
        if p == to {
            return Ok(false);
        }
        Ok(process.linked(to).is_none())
    }

    /// Makes the link that p has to make, as `has_link_to_make` tells it.
    ///
    /// Fails with `Gone`, `Worn` or `Memory`.
    pub fn make_link(&mut self, p: Pid, to: Pid) -> Result<(), Fault>
        requires known { knows self.old to ≡ true }
        requires new { is_some (link_event self.old p to) ≡ true }
        ensures does { Calls p (link_event self.old p to) tt self.old result self.new }
        ensures extends { Extends self.old self.new }
        ensures fit { IsFit self.new }
    {
        self.expect_known(to);
        let Some(process) = self.processes.find_mut(p) else {
            return Err(Fault::Gone);
        };
        keep_link(process, &mut self.ledger, p, to)
    }

    /// Removes p's own half of a link, and puts out the letter that removes the other. Nothing happens if there is
    /// none.
    ///
    /// Fails with `Gone`, `Worn` or `Memory`.
    pub fn unlink(&mut self, p: Pid, to: Pid) -> Result<(), Fault>
        requires { knows self.old to ≡ true }
        ensures does { Calls p (unlink_event self.old p to) tt self.old result self.new }
        ensures extends { Extends self.old self.new }
        ensures fit { IsFit self.new }
    {
        self.expect_known(to);
        let Some(process) = self.processes.find_mut(p) else {
            return Err(Fault::Gone);
        };
        drop_link(process, &mut self.ledger, p, to)
    }

    /// Writes that p traps exits from now on, or does not, and returns whether it did before.
    ///
    /// Fails with `Gone`, `Worn` or `Memory`.
    pub fn trap(&mut self, p: Pid, on: bool) -> Result<bool, Fault>
        ensures does { Calls p (Some (Event.Flag p on)) (state_in self.old p).traps self.old result self.new }
        ensures extends { Extends self.old self.new }
        ensures fit { IsFit self.new }
    {
        let Some(process) = self.processes.find_mut(p) else {
            return Err(Fault::Gone);
        };
        set_flag(process, &mut self.ledger, p, on)
    }

    /// Takes the first matching item out of the mailbox of p, and writes the event. It returns `Ok(None)`, and writes
    /// no event, if no item matches.
    ///
    /// Fails with `Gone`, and if an item matches, with `Worn` or `Memory`.
    #[inline(always)]
    pub fn receive(&mut self, p: Pid, pick: Pick) -> Result<Option<Item>, Fault>
        ensures does { Calls p (take_event self.old p pick) (first_match self.old p pick) self.old result self.new }
        ensures extends { Extends self.old self.new }
        ensures fit { IsFit self.new }
    {
        let Some(process) = self.processes.find_mut(p) else {
            return Err(Fault::Gone);
        };
        take(process, &mut self.ledger, p, pick)
    }

    /// Opens a monitor of w under a new reference, which it returns, and puts out the letter to the target.
    ///
    /// Fails with `Gone`, with `Myself` if w is the target, with `Worn` or `Memory`.
    pub fn monitor(&mut self, w: Pid, t: Pid) -> Result<Ref, Fault>
        requires { knows self.old t ≡ true }
        ensures does { Monitors w t self.old result self.new }
        ensures extends { Extends self.old self.new }
        ensures fit { IsFit self.new }
    {
        // read for the proof alone: it says what holds of every shard
        let _ = self.journal();
        self.may_monitor(w, t)?;
        self.make_monitor(w, t)
    }

    /// Fails if w can have no monitor of t: with `Gone` if w does not live here, with `Myself` if it is the target.
    pub fn may_monitor(&self, w: Pid, t: Pid) -> Result<(), Fault>
        ensures { result ≡ cond (lives self.now w) (cond (same_pid w t) (Err Myself) (Ok tt)) (Err Gone) }
    {
        if !self.alive_here(w) {
            return Err(Fault::Gone);
        }
        if w == t {
            return Err(Fault::Myself);
        }
        Ok(())
    }

    /// Opens the monitor that w may have, as `may_monitor` tells it.
    ///
    /// Fails with `Gone`, `Worn` or `Memory`.
    pub fn make_monitor(&mut self, w: Pid, t: Pid) -> Result<Ref, Fault>
        requires known { knows self.old t ≡ true }
        requires other { same_pid w t ≡ false }
        ensures does { Monitors w t self.old result self.new }
        ensures extends { Extends self.old self.new }
        ensures fit { IsFit self.new }
    {
        self.expect_known(t);
        let Some(process) = self.processes.find_mut(w) else {
            return Err(Fault::Gone);
        };
        open_monitor(process, &mut self.ledger, w, t)
    }

    /// Closes a monitor of w and puts out the letter to the target, or takes its DOWN out of the mailbox, if `flush` is
    /// true and it waits there. It returns whether it wrote an event.
    ///
    /// Fails with `Gone`, and if there is an event to write, with `Worn` or `Memory`.
    pub fn demonitor(&mut self, w: Pid, monitor: Ref, flush: bool) -> Result<bool, Fault>
        ensures does { Calls w (demonitor_event self.old w monitor flush)
            (is_some (demonitor_event self.old w monitor flush)) self.old result self.new }
        ensures extends { Extends self.old self.new }
        ensures fit { IsFit self.new }
    {
        let Some(process) = self.processes.find_mut(w) else {
            return Err(Fault::Gone);
        };
        close_monitor(process, &mut self.ledger, w, monitor, flush)
    }

    /// Puts out a question, whether t is alive, under a new reference, which it returns; t may be p.
    ///
    /// Fails with `Gone`, `Worn` or `Memory`.
    pub fn ask_alive(&mut self, p: Pid, t: Pid) -> Result<Ref, Fault>
        requires { knows self.old t ≡ true }
        ensures does { Calls p (Some (Event.Said p t (Signal.AliveAsk (new_ref self.old))))
            (new_ref self.old) self.old result self.new }
        ensures extends { Extends self.old self.new }
        ensures fit { IsFit self.new }
    {
        self.expect_known(t);
        let Some(_process) = self.processes.find(p) else {
            return Err(Fault::Gone);
        };
        ask(&mut self.ledger, p, t)
    }

    /// Notes a call of p that fails, since the desk has seen the exit of t at this stamp. Nothing is sent to t, and the
    /// journal's note is stamped above that exit too.
    ///
    /// It returns `NoProc`. It returns `Worn` if the note's stamp would pass the limit of clocks, else `Memory` if
    /// there is none. After these two the desk is as it was.
    #[cold]
    #[inline(never)]
    pub fn refuse(&mut self, p: Pid, t: Pid, seen: u64) -> Fault
        requires alive { lives self.old p ≡ true }
        requires known { knows self.old t ≡ true }
        ensures does { Refuses p t seen self.old result self.new }
        ensures extends { Extends self.old self.new }
        ensures fit { IsFit self.new }
    {
        match self.ledger.prepare(seen) {
            Ok(()) => {
                self.ledger.write(seen, Event::Refused(p, t));
                Fault::NoProc
            }
            Err(stop) => stop.into(),
        }
    }

    /// Takes p out of its slot, which is then free for its next version, or retired if p had the top one. What waits in
    /// its mailbox is lost ([`Shard::next_loss`]). It puts out what p owes: an exit signal to each linked process, a DOWN to each watcher, and a demonitor to the target of
    /// each open monitor.
    ///
    /// Fails with `Gone`, `Worn` or `Memory`.
    pub fn exit(&mut self, p: Pid, reason: Reason) -> Result<(), Fault>
        ensures does { Calls p (Some (Event.Left p reason)) tt self.old result self.new }
        ensures extends { Extends self.old self.new }
        ensures fit { IsFit self.new }
    {
        let Some(process) = self.processes.find_mut(p) else {
            return Err(Fault::Gone);
        };
        self.ledger.prepare_end(0, process)?;
        let estate = self.processes.end(p, reason);
        self.ledger.write_end(0, Event::Left(p, reason), p, &estate);
        self.ledger.lose_estate(p, reason, estate);
        Ok(())
    }

    /// Puts a process into the slot that `vacant` returns, under its next version.
    ///
    /// Fails with `Worn` if the clock is at its limit, else with `Full` if no slot is free, else with `Memory` if there
    /// is none.
    pub fn spawn(&mut self) -> Result<Pid, Fault>
        ensures does { Bears None None self.old result self.new }
        ensures known { IfOk result (λ p. (p.shard ≡ self.new.number) × (knows self.new p ≡ true)) }
        ensures extends { Extends self.old self.new }
        ensures fit { IsFit self.new }
    {
        if self.ledger.is_worn(0) {
            return Err(Fault::Worn);
        }
        let Some(pid) = self.processes.vacant() else {
            return Err(Fault::Full);
        };
        self.ledger.prepare(0)?;
        self.processes.admit(Process::new(self.alloc, pid))?;
        self.ledger.write(0, Event::Born(pid, None, None));
        Ok(pid)
    }

    /// The same for a child. If it is linked, both halves are made at once, without a letter.
    ///
    /// Fails with `Gone` if the parent is not alive here, else as `spawn` does.
    pub fn spawn_child(&mut self, parent: Pid, linked: bool) -> Result<Pid, Fault>
        ensures does { BearsChild parent linked self.old result self.new }
        ensures known { IfOk result (λ p. (p.shard ≡ self.new.number) × (knows self.new p ≡ true)) }
        ensures extends { Extends self.old self.new }
        ensures fit { IsFit self.new }
    {
        let vacant = self.processes.vacant();
        let Some(process) = self.processes.find_mut(parent) else {
            return Err(Fault::Gone);
        };
        if self.ledger.is_worn(0) {
            return Err(Fault::Worn);
        }
        let Some(pid) = vacant else {
            return Err(Fault::Full);
        };
        let link = prepare_birth(process, &mut self.ledger, linked)?;
        let child = new_process(self.alloc, pid, parent, link)?;
        // The parent is looked up once more where there is a link. The birth may be refused here, so its half cannot
        // enter before; and the birth may move the slots, so no reference into them lasts until after.
        self.processes.admit(child)?;
        self.processes.link_parent(parent, pid, link);
        self.ledger.write(0, Event::Born(pid, Some(parent), link));
        Ok(pid)
    }

    /// Delivers a letter to its receiver, as a turn does, and returns the process that exited by it, if one did.
    ///
    /// Fails with `Worn` if the receipt's stamp would pass the limit of clocks, else with `Memory` if there is none.
    /// The desk is then as it was.
    pub fn handle(&mut self, letter: Letter) -> Result<Option<Pid>, Stop>
        requires here { letter.to.shard ≡ self.old.number }
        requires near { letter.from.shard < self.old.config.desks }
        ensures does { Handles letter self.old result self.new }
        ensures extends { Extends self.old self.new }
        ensures fit { IsFit self.new }
    {
        self.handle_in_place(&letter)
    }

    /// The same for a letter that stays in its place, as in its lane: a letter is large to move.
    #[inline(never)]
    pub fn handle_in_place(&mut self, letter: &Letter) -> Result<Option<Pid>, Stop>
        requires here { letter.now.to.shard ≡ self.old.number }
        requires near { letter.now.from.shard < self.old.config.desks }
        ensures does { Handles letter.now self.old result self.new }
        ensures extends { Extends self.old self.new }
        ensures fit { IsFit self.new }
    {
        let Some(process) = self.processes.find_mut(letter.to) else {
            bounce(&mut self.ledger, letter)?;
            return Ok(None);
        };
        let Some(reason) = process.would_end(letter.from, &letter.signal) else {
            take_in(process, &mut self.ledger, letter)?;
            return Ok(None);
        };
        prepare_ending(process, &mut self.ledger, letter)?;
        end_by(&mut self.processes, &mut self.ledger, letter, reason);
        Ok(Some(letter.to))
    }

    /// The letters that wait to be posted to desk `to`, oldest first.
    #[inline(always)]
    pub fn letters_for(&self, to: u8) -> &[Letter]
        requires { to < self.now.config.desks }
        ensures { result.now ≡ box self.now to }
    {
        // looked at for the proof alone: what holds of the shard is said of all its fields
        let _ = &self.processes;
        self.ledger.letters_for(to)
    }

    /// The number of letters that wait to be posted to desk `to`.
    pub fn count_out(&self, to: u8) -> usize
        requires { to < self.now.config.desks }
        ensures { result ≡ length (box self.now to) }
    {
        self.letters_for(to).len()
    }

    /// The letter at this place among those that wait to be posted to desk `to`, counted from the oldest.
    pub fn out_at(&self, to: u8, place: usize) -> Option<Letter>
        requires { to < self.now.config.desks }
        ensures { result ≡ slice_get (box self.now to) place }
    {
        self.letters_for(to).get(place).copied()
    }

    /// Removes so many of the oldest letters that wait to be posted to desk `to`.
    #[inline(always)]
    pub fn pass_out(&mut self, to: u8, count: usize)
        requires desk { to < self.old.config.desks }
        requires wait { count ≤ length (box self.old to) }
        ensures rest { self.new ≡ sent_on_some to count self.old }
        ensures extends { Extends self.old self.new }
        ensures fit { IsFit self.new }
    {
        self.ledger.pass_out(to, count);
    }

    /// Takes out the oldest letter that waits to be posted to desk `to`.
    pub fn next_out(&mut self, to: u8) -> Option<Letter>
        requires { to < self.old.config.desks }
        ensures first { result ≡ slice_get (box self.old to) 0 }
        ensures rest { self.new ≡ sent_on to self.old }
        ensures extends { Extends self.old self.new }
        ensures fit { IsFit self.new }
    {
        self.ledger.next_out(to)
    }

    /// The letter that was collected and is not yet handled.
    pub fn held(&self) -> Option<Letter>
        ensures { result ≡ self.now.hold }
    {
        self.ledger.held()
    }

    /// Whether there is a letter that was collected and is not yet handled.
    #[inline(always)]
    pub fn holds(&self) -> bool
        ensures { result ≡ is_some self.now.hold }
    {
        self.ledger.holds()
    }

    /// Takes out the letter that was collected and is not yet handled.
    pub fn take_hold(&mut self) -> Option<Letter>
        ensures held { result ≡ self.old.hold }
        ensures rest { self.new ≡ holding None self.old }
        ensures extends { Extends self.old self.new }
        ensures fit { IsFit self.new }
    {
        self.ledger.take_hold()
    }

    /// Keeps a letter that was collected and is not yet handled.
    pub fn put_hold(&mut self, letter: Letter)
        requires empty { self.old.hold ≡ None }
        requires here { letter.to.shard ≡ self.old.number }
        requires near { letter.from.shard < self.old.config.desks }
        ensures held { self.new ≡ holding (Some letter) self.old }
        ensures extends { Extends self.old self.new }
        ensures fit { IsFit self.new }
    {
        self.ledger.put_hold(letter);
    }

    /// Sets whether what is lost from now on is kept until it is told. It is not kept at first.
    ///
    /// An exit keeps its process's mailbox then, and a message that comes to a process that is not alive is kept. Both
    /// take memory until [`Shard::next_loss`] tells of them.
    pub fn keep_losses(&mut self, on: bool)
        ensures keeps { self.new ≡ record self.old { keeps = on } }
        ensures extends { Extends self.old self.new }
        ensures fit { IsFit self.new }
    {
        self.ledger.keep_losses(on);
    }

    /// The loss with this number among those kept and not told, the oldest first, or `None` if there are not so many.
    pub fn loss(&self, place: usize) -> Option<&Loss>
        ensures { option_copied result ≡ slice_get self.now.lost place }
    {
        self.ledger.loss(place)
    }

    /// Takes out the oldest loss that was kept, or returns `None` if there is none.
    pub fn next_loss(&mut self) -> Option<Loss>
        ensures first { result ≡ slice_get self.old.lost 0 }
        ensures rest { self.new ≡ record self.old { lost = drop 1 self.old.lost } }
        ensures extends { Extends self.old self.new }
        ensures fit { IsFit self.new }
    {
        self.ledger.next_loss()
    }

    /// Sends a signal that changes nothing in its sender.
    #[inline(always)]
    fn say(&mut self, from: Pid, to: Pid, signal: Signal) -> Result<(), Fault>
        requires known { knows self.old to ≡ true }
        requires plain { IsPlainSignal signal }
        ensures does { Calls from (Some (Event.Said from to signal)) tt self.old result self.new }
        ensures extends { Extends self.old self.new }
        ensures fit { IsFit self.new }
    {
        let Some(_process) = self.processes.find(from) else {
            return Err(Fault::Gone);
        };
        tell(&mut self.ledger, from, to, signal)
    }
}
