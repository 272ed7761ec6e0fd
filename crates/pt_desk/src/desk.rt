//! A desk of a node.

ghost use Rattle.std.specs.Prelude.{◌≡◌, ◌<◌, ◌≤◌, ◌+◌, ◌-◌, ◌^◌, ◌++◌, ℕ, [], length, min, true, Some, None, IfSome};
ghost use Rattle.std.specs.Prelude.{IfOk, IsOk, cond, drop, is_some, nat_lt, slice_get, slice_index_or, ◌==◌};
ghost use Rattle.std.specs.Option.{option_copied};
ghost use Rattle.pt_signal.specs.declared.signal.Signal.{Signal};
ghost use Rattle.pt_events.specs.declared.event.Event.{Event};
ghost use Rattle.pt_events.specs.Journal.{IsLocal, Agrees, posts, gots, clock};
ghost use Rattle.pt_carrier.specs.Meeting.{Meets};
ghost use Rattle.pt_shard.specs.ShardState.{lives, state_in, box};
ghost use Rattle.pt_shard.specs.Known.{knows};
ghost use Rattle.pt_shard.specs.Living.{living_count, living_in, living_pids};
ghost use Rattle.pt_signal.specs.declared.pid.Pid.{Pid};
ghost use Rattle.pt_shard.specs.Reading.{read_of};
ghost use Rattle.pt_shard.specs.Outbox.{count_pending, held_from};
ghost use Rattle.pt_shard.specs.Fit.{IsFit};
ghost use Rattle.pt_shard.specs.Calls.{Calls, Monitors, Bears, BearsChild, link_event, unlink_event, first_match};
ghost use Rattle.pt_shard.specs.Calls.{take_event, demonitor_event, held_by, new_ref};
ghost use Rattle.std.specs.Arc.{arc_value};
ghost use Rattle.pt_directory.specs.Seats.{add_death, death_of};
ghost use Rattle.pt_desk.specs.DeskState.{IsDesk, IsAccounted, HasSameEnds, GoesOn, posted_to, waits_for};
ghost use Rattle.pt_desk.specs.DeskState.{collected_from};
ghost use Rattle.pt_desk.specs.Meeting.{DesksMeet, MeetsItself};
ghost use Rattle.pt_desk.specs.Forgetting.{forgetful_desk};
ghost use Rattle.pt_desk.specs.Sight.{IsSeated, seat_of};
ghost use Rattle.pt_desk.specs.Reaching.{LooksFirst, Reaches, has_link_to_make, has_monitor_to_make};
ghost use Rattle.pt_desk.specs.Posting.{PostsTo, PostsSome, Posts, total};
ghost use Rattle.pt_desk.specs.InPlace.{HandlesFront, HoldsFront, CanTell, seat_told};
ghost use Rattle.pt_desk.specs.Turns.{HandlesAtMostOne, Turns, looking_first};
ghost use Rattle.pt_desk.specs.Own.{IsClear, MayGoBy, HandlesOwn, PostsLeft, waits_here};
ghost use Rattle.pt_carrier.specs.Ends.{HasPlaces};

use crate::turned::Turned;
use pt_accounts::DeskLives;
use pt_carrier::{Ins, Outs};
use pt_directory::{Directory, Seat};
use pt_events::Journal;
use pt_process::Process;
use pt_shard::{Config, Fault, Loss, Shard, Stop};
use pt_signal::{Body, Ids, Item, Letter, Pick, Pid, Reason, Ref};
use std::alloc::{AllocError, Global};
use std::marker::Model;
use std::sync::Arc;

/// A desk of a node: its processes, its journal, the letters that wait in it, and its ends of the lanes. It also has
/// its seat in the directory of exited processes, and the table of what became of its processes before the journal.
///
/// It cannot be dropped: [`Desk::apart`] takes it, and so does gathering a node.
pub struct Desk {
    shard: Shard,
    outs: Outs,
    ins: Ins,
    directory: Arc<Directory, Global>,
    seat: Seat,
    before: DeskLives,
}

impl Model for Desk {
    ghost use Rattle.std.specs.Prelude.{◌≡◌};
    ghost use Rattle.std.specs.Arc.{arc_value};
    ghost use Rattle.pt_desk.specs.DeskState.{DeskState, IsDesk};
    ghost use Rattle.pt_desk.specs.Sight.{seat_of};

    ghost Value = { DeskState };

    ghost view = { λ d. record {
      shard = d.shard;
      outs = d.outs;
      ins = d.ins;
      sight = record {
        directory = arc_value d.directory;
        reads = d.seat.reads;
        before = d.before;
        told = d.seat.marked;
      };
    } };

    ghost invariant = { λ d.
        IsDesk (record {
          shard = d.shard;
          outs = d.outs;
          ins = d.ins;
          sight = record {
            directory = arc_value d.directory;
            reads = d.seat.reads;
            before = d.before;
            told = d.seat.marked;
          };
        })
        × (d.seat ≡ seat_of d.shard (record {
          directory = arc_value d.directory;
          reads = d.seat.reads;
          before = d.before;
          told = d.seat.marked;
        })) };
}

impl Desk {
    /// The desk of this shard, with its ends of the lanes, its seat in the directory and its table of what was before.
    ///
    /// These are required:
    ///
    /// - The ends are those of the shard's number, and two of them are the two ends of the desk's lane to itself.
    /// - The letters that the shard's journal sent to each desk are those posted there, followed by those waiting in
    ///   its outbox.
    /// - The letters collected from each desk are those that its journal received from there, followed by the letter in
    ///   its hold.
    /// - The seat is the home of this desk alone. It has reported exits before the journal, the latest of each slot among
    ///   them, and marked them. Then it has reported the exits of the journal.
    /// - For each failed call that the journal notes, it had seen the exit, at a lower stamp.
    /// - The table has what the shard's start says of its processes.
    pub fn whole(
        shard: Shard,
        outs: Outs,
        ins: Ins,
        directory: Arc<Directory, Global>,
        seat: Seat,
        before: DeskLives,
    ) -> Desk
        requires accounted { IsAccounted shard outs ins }
        requires seated { IsSeated shard (record {
          directory = arc_value directory;
          reads = seat.reads;
          before = before;
          told = seat.marked;
        }) }
        requires seat { seat ≡ seat_of shard (record {
          directory = arc_value directory;
          reads = seat.reads;
          before = before;
          told = seat.marked;
        }) }
        ensures { result ≡ record {
          shard = shard;
          outs = outs;
          ins = ins;
          sight = record {
            directory = arc_value directory;
            reads = seat.reads;
            before = before;
            told = seat.marked;
          };
        } }
    {
        // read for the proof alone: it says what holds of every shard
        let _ = shard.journal();
        Desk {
            shard,
            outs,
            ins,
            directory,
            seat,
            before,
        }
    }

    /// Takes the desk apart: the reverse of `whole`, and the same holds for what it returns.
    pub fn apart(self) -> (Shard, Outs, Ins, Arc<Directory, Global>, Seat, DeskLives)
        ensures parts { (self.shard ≡ result.0) × (self.outs ≡ result.1) × (self.ins ≡ result.2) }
        ensures sight { self.sight
            ≡ record {
              directory = arc_value result.3;
              reads = result.4.reads;
              before = result.5;
              told = result.4.marked;
            } }
        ensures fit { IsFit result.0 }
        ensures accounts { IsAccounted result.0 result.1 result.2 }
        ensures seated { IsSeated self.shard self.sight }
        ensures seat { result.4 ≡ seat_of self.shard self.sight }
    {
        let Desk {
            shard,
            outs,
            ins,
            directory,
            seat,
            before,
        } = self;
        (shard, outs, ins, directory, seat, before)
    }

    /// What happened here, oldest event first.
    ///
    /// It is a lawful journal of this desk: each event was allowed after those before it. The versions of a slot are 1,
    /// 2, 3 and so on, each after the exit of the one before. The clock is that of its newest event. For every desk,
    /// the letters that it sent there are those posted to that desk, followed by those waiting for it in the outbox.
    /// The letters collected from that desk are those that it received from there, one for one and in order, followed
    /// by the letter in the hold.
    pub fn journal(&self) -> &Journal
        ensures desk { result.now.desk ≡ self.now.shard.number }
        ensures past { result.now.past ≡ self.now.shard.journal }
        ensures whole { IsDesk self.now }
        ensures local { IsLocal self.now.shard.start self.now.shard.config.start self.now.shard.config.top_version
            self.now.shard.number self.now.shard.journal }
        ensures clock { self.now.shard.clock ≡ clock self.now.shard.config.start self.now.shard.journal }
        ensures posted { (e : ℕ)
            → posts self.now.shard.start self.now.shard.journal e ≡ posted_to self.now e ++ waits_for self.now e }
        ensures collected { (d : ℕ)
            → Agrees (collected_from self.now d) (gots self.now.shard.journal d) (held_from d self.now.shard.hold) }
    {
        self.shard.journal()
    }

    /// The number of the desk.
    pub fn number(&self) -> u8
        ensures { result ≡ self.now.shard.number }
    {
        self.shard.number()
    }

    /// The settings of the node.
    pub fn config(&self) -> Config
        ensures { result ≡ self.now.shard.config }
    {
        self.shard.config()
    }

    /// The stamp of the newest event, or the start of the clock.
    pub fn clock(&self) -> u64
        ensures { result ≡ self.now.shard.clock }
    {
        self.shard.clock()
    }

    /// Whether p is alive here. False if another process has its slot by now.
    pub fn alive_here(&self, p: Pid) -> bool
        ensures { result ≡ lives self.now.shard p }
    {
        self.shard.alive_here(p)
    }

    /// The live process in that slot, or `None` if there is none. So a program visits all live processes of this desk
    /// by going through the slots below `Config::slots`.
    pub fn lives_in(&self, slot: u32) -> Option<Pid>
        ensures is { result ≡ living_in self.now.shard slot }
        ensures only { (p : Pid) → lives self.now.shard p ≡ true → p.slot ≡ slot → result ≡ Some p }
    {
        self.shard.lives_in(slot)
    }

    /// The live processes of this desk, by slot: Erlang's `processes/0`. It looks into each slot. Fails only if there
    /// is no memory for the list.
    pub fn pids(&self, alloc: Global) -> Result<Vec<Pid>, AllocError>
        ensures { IfOk result (λ v. v.items ≡ living_pids self.now.shard) }
    {
        self.shard.pids(alloc)
    }

    /// The number of live processes of this desk, in constant time: Erlang's `length(processes())`.
    pub fn len(&self) -> u32
        ensures { result ≡ living_count self.now.shard }
    {
        self.shard.len()
    }

    /// Whether no process is alive here.
    pub fn is_empty(&self) -> bool
        ensures { result ≡ (living_count self.now.shard == 0) }
    {
        self.shard.is_empty()
    }

    /// The items that wait in the mailbox of p, oldest first, or `None` if p is not alive here.
    pub fn waiting(&self, p: Pid) -> Option<&[Item]>
        ensures { option_copied result ≡ cond (lives self.now.shard p) (Some (state_in self.now.shard p).waiting) None }
    {
        self.shard.waiting(p)
    }

    /// The ids under which p is linked with q, or `None` if there is no link, or p is not alive here.
    ///
    /// This is p's own half of the link. The half of q may differ while letters of the two are in flight.
    pub fn linked(&self, p: Pid, q: Pid) -> Option<Ids>
        ensures { result ≡ cond (lives self.now.shard p) (held_by self.now.shard p q) None }
    {
        self.shard.linked(p, q)
    }

    /// The process p, to be read: its links, open monitors and watchers by place, its mailbox and its flag. `None` if
    /// it is not alive here. Erlang's `process_info/2`, module `erlang`.
    pub fn process(&self, p: Pid) -> Option<&Process>
        ensures { read_of (option_copied result)
            ≡ cond (lives self.now.shard p) (Some (p, state_in self.now.shard p)) None }
    {
        self.shard.process(p)
    }

    /// The number of letters that wait in the outbox and the hold, staying at `u64::MAX` once it is reached.
    pub fn pending(&self) -> u64
        ensures { result ≡ min (count_pending self.now.shard) (2 ^ 64 - 1) }
    {
        self.shard.pending()
    }

    /// Forgets why processes of this desk exited before its journal, which is empty. The reason of each is `noproc` from
    /// now on, as a monitor of it is told. Each stays exited for ever, and all else is as it was. It takes no memory. It
    /// gives back what the reasons took, but for one entry of 12 bytes a slot and the room for a second.
    pub fn forget_reasons(&mut self)
        requires fresh { self.old.shard.journal ≡ [] }
        ensures { self.new ≡ forgetful_desk self.old }
    {
        self.shard.forget_reasons();
        self.before.forget_reasons();
    }

    /// Looks at the lane from another desk of the node to this one, from both of its ends.
    ///
    /// This desk then knows each letter in the lane, and the other desk how many were collected. They know no more of
    /// other lanes than before, and nothing else of them changes. A turn looks from its own end alone.
    pub fn meet(&mut self, from: &mut Desk)
        requires { Meets from.old.outs self.old.ins }
        ensures { DesksMeet from.old self.old from.new self.new }
    {
        self.ins.meet(&mut from.outs);
    }

    /// The same for the lane from this desk to itself.
    pub fn meet_itself(&mut self)
        requires { Meets self.old.outs self.old.ins }
        ensures { MeetsItself self.old self.new }
    {
        self.ins.meet(&mut self.outs);
    }

    /// Whether p may be the target of a call. Its numbers must be in the node's ranges, and if it is of this desk, its
    /// version must have been issued.
    pub fn knows(&self, p: Pid) -> bool
        ensures { result ≡ knows self.now.shard p }
    {
        self.shard.knows(p)
    }

    /// The pid that the next process spawned on this desk will have, or `None` exactly if no slot is free. Then `spawn`
    /// fails with `Full`, or with `Worn` if the clock is at its limit.
    pub fn vacant(&self) -> Option<Pid>
        ensures { result ≡ self.now.shard.vacant }
    {
        self.shard.vacant()
    }

    /// Spawns a process without a parent: Erlang's `spawn/1`, called from outside of the desk (section Process
    /// Creation).
    ///
    /// Its pid is the one that `vacant` returns, which no process had before. Fails with `Worn` if the clock is at its
    /// limit, else with `Full` if no slot is free, else with `Memory` if there is none.
    pub fn spawn(&mut self) -> Result<Pid, Fault>
        ensures does { Bears None None self.old.shard result self.new.shard }
        ensures known { IfOk result (λ p. (p.shard ≡ self.new.shard.number) × (knows self.new.shard p ≡ true)) }
        ensures ends { HasSameEnds self.old self.new }
        ensures sight { self.new.sight ≡ self.old.sight }
        ensures goes_on { GoesOn self.old self.new }
    {
        self.shard.spawn()
    }

    /// Spawns a child of the parent, linked with it if `linked` is true: Erlang's `spawn/1` and `spawn_link/1`,
    /// sections Process Creation and Links.
    ///
    /// Both halves of the link are made at once, without a letter. Fails with `Gone` if the parent is not alive here.
    /// Else it fails with `Worn` if the clock is at its limit, else with `Full` if no slot is free, else with `Memory`
    /// if there is none.
    pub fn spawn_child(&mut self, parent: Pid, linked: bool) -> Result<Pid, Fault>
        ensures does { BearsChild parent linked self.old.shard result self.new.shard }
        ensures known { IfOk result (λ p. (p.shard ≡ self.new.shard.number) × (knows self.new.shard p ≡ true)) }
        ensures ends { HasSameEnds self.old self.new }
        ensures sight { self.new.sight ≡ self.old.sight }
        ensures goes_on { GoesOn self.old self.new }
    {
        self.shard.spawn_child(parent, linked)
    }

    /// Sends a message: Erlang's `!`, chapter Processes, section Signals.
    ///
    /// It arrives after all that the sender sent this receiver before. If the receiver is not alive then, it is lost,
    /// and no process is notified. Fails with `Gone`, with `NoProc` if the desk sees that the receiver has exited, with
    /// `Worn` or `Memory`.
    #[inline(always)]
    pub fn send(&mut self, from: Pid, to: Pid, body: Body) -> Result<(), Fault>
        requires { knows self.old.shard to ≡ true }
        ensures does { Reaches (lives self.old.shard from) from to
            (Calls from (Some (Event.Said from to (Signal.Message body))) tt self.old.shard result self.new.shard)
            self.old result self.new }
        ensures ends { HasSameEnds self.old self.new }
        ensures goes_on { GoesOn self.old self.new }
    {
        if !self.shard.alive_here(from) {
            return Err(Fault::Gone);
        }
        self.look(from, to)?;
        self.shard.send_living(from, to, body)
    }

    /// Sends an exit signal that no link carries: Erlang's `exit/2`, section Receiving Exit Signals.
    ///
    /// `kill` makes its receiver exit with the reason `killed`, whether it traps exits or not. A receiver that traps
    /// exits gets any other reason as an item. Any other receiver exits with that reason, except that `normal` has this
    /// effect only if it is the sender itself. Fails with `Gone`, `Worn` or `Memory`.
    pub fn exit_signal(&mut self, from: Pid, to: Pid, reason: Reason) -> Result<(), Fault>
        requires { knows self.old.shard to ≡ true }
        ensures does { Calls from
            (Some (Event.Said from to (Signal.Exit reason))) tt self.old.shard result self.new.shard }
        ensures ends { HasSameEnds self.old self.new }
        ensures sight { self.new.sight ≡ self.old.sight }
        ensures goes_on { GoesOn self.old self.new }
    {
        self.shard.exit_signal(from, to, reason)
    }

    /// Links p with another process: Erlang's `link/1`, section Links.
    ///
    /// Nothing happens if p is the target, or holds a link with it. If the target is not alive when the link arrives,
    /// an exit signal with `noproc` goes back. Fails with `Gone`, and if there is a link to make, with `NoProc` (the
    /// desk sees that the target has exited), `Worn` or `Memory`.
    pub fn link(&mut self, p: Pid, to: Pid) -> Result<(), Fault>
        requires { knows self.old.shard to ≡ true }
        ensures does { Reaches (has_link_to_make self.old.shard p to) p to
            (Calls p (link_event self.old.shard p to) tt self.old.shard result self.new.shard) self.old result
            self.new }
        ensures ends { HasSameEnds self.old self.new }
        ensures goes_on { GoesOn self.old self.new }
    {
        if !self.shard.has_link_to_make(p, to)? {
            return Ok(());
        }
        self.look(p, to)?;
        self.shard.make_link(p, to)
    }

    /// Removes the link of p with another process: Erlang's `unlink/1`, section Links.
    ///
    /// Nothing happens if there is none. From here on an exit signal that the link carries has no effect on p: it may
    /// still arrive, and is dropped. Fails with `Gone`, `Worn` or `Memory`.
    pub fn unlink(&mut self, p: Pid, to: Pid) -> Result<(), Fault>
        requires { knows self.old.shard to ≡ true }
        ensures does { Calls p (unlink_event self.old.shard p to) tt self.old.shard result self.new.shard }
        ensures ends { HasSameEnds self.old self.new }
        ensures sight { self.new.sight ≡ self.old.sight }
        ensures goes_on { GoesOn self.old self.new }
    {
        self.shard.unlink(p, to)
    }

    /// Monitors another process: Erlang's `monitor/2`, section Monitors. It returns the reference that the one DOWN
    /// will have.
    ///
    /// If the target is not alive when the monitor arrives, a DOWN with `noproc` goes back. Fails with `Gone`, with
    /// `Myself` if w is the target, with `NoProc` if the desk sees that the target has exited, with `Worn` or `Memory`.
    pub fn monitor(&mut self, w: Pid, t: Pid) -> Result<Ref, Fault>
        requires { knows self.old.shard t ≡ true }
        ensures does { Reaches (has_monitor_to_make self.old.shard w t) w t
            (Monitors w t self.old.shard result self.new.shard) self.old result self.new }
        ensures ends { HasSameEnds self.old self.new }
        ensures goes_on { GoesOn self.old self.new }
    {
        self.shard.may_monitor(w, t)?;
        self.look(w, t)?;
        self.shard.make_monitor(w, t)
    }

    /// Cancels a monitor of w: Erlang's `demonitor/2`, section Monitors. It returns whether it wrote an event.
    ///
    /// A monitor is open until its DOWN arrives, or w cancels it or exits. If it is open, its DOWN enters the mailbox
    /// no more. If it is not, its DOWN is taken out of the mailbox if `flush` is true and it waits there. Fails with
    /// `Gone`, and if there is an event to write, with `Worn` or `Memory`.
    pub fn demonitor(&mut self, w: Pid, monitor: Ref, flush: bool) -> Result<bool, Fault>
        ensures does { Calls w (demonitor_event self.old.shard w monitor flush)
            (is_some (demonitor_event self.old.shard w monitor flush)) self.old.shard result self.new.shard }
        ensures ends { HasSameEnds self.old self.new }
        ensures sight { self.new.sight ≡ self.old.sight }
        ensures goes_on { GoesOn self.old self.new }
    {
        self.shard.demonitor(w, monitor, flush)
    }

    /// Asks whether another process is alive: Erlang's `is_process_alive/1`, section Processes and Erlang's signals. It
    /// returns the reference that the answer will have.
    ///
    /// The answer arrives as an item, after all that t sent p before; t may be p. Fails with `Gone`, `Worn` or
    /// `Memory`.
    pub fn ask_alive(&mut self, p: Pid, t: Pid) -> Result<Ref, Fault>
        requires { knows self.old.shard t ≡ true }
        ensures does { Calls p (Some (Event.Said p t (Signal.AliveAsk (new_ref self.old.shard))))
            (new_ref self.old.shard) self.old.shard result self.new.shard }
        ensures ends { HasSameEnds self.old self.new }
        ensures sight { self.new.sight ≡ self.old.sight }
        ensures goes_on { GoesOn self.old self.new }
    {
        self.shard.ask_alive(p, t)
    }

    /// Sets whether p traps exits, and returns whether it did before: Erlang's `process_flag(trap_exit, _)`, section
    /// Receiving Exit Signals.
    ///
    /// The flag counts when an exit signal arrives, not when it is sent. Fails with `Gone`, `Worn` or `Memory`.
    pub fn trap(&mut self, p: Pid, on: bool) -> Result<bool, Fault>
        ensures does { Calls p (Some (Event.Flag p on))
            (state_in self.old.shard p).traps self.old.shard result self.new.shard }
        ensures ends { HasSameEnds self.old self.new }
        ensures sight { self.new.sight ≡ self.old.sight }
        ensures goes_on { GoesOn self.old self.new }
    {
        self.shard.trap(p, on)
    }

    /// Takes the first matching item out of the mailbox of p, and leaves the others in order: Erlang's `receive` with
    /// `after 0`, chapter Expressions, section Receive.
    ///
    /// It returns `Ok(None)`, and writes no event, if no item matches. Fails with `Gone`, and if an item matches, with
    /// `Worn` or `Memory`.
    #[inline(always)]
    pub fn receive(&mut self, p: Pid, pick: Pick) -> Result<Option<Item>, Fault>
        ensures does { Calls p (take_event self.old.shard p pick)
            (first_match self.old.shard p pick) self.old.shard result self.new.shard }
        ensures ends { HasSameEnds self.old self.new }
        ensures sight { self.new.sight ≡ self.old.sight }
        ensures goes_on { GoesOn self.old self.new }
    {
        self.shard.receive(p, pick)
    }

    /// Makes p exit with this reason: Erlang's `exit/1`, section Process Termination.
    ///
    /// It sends an exit signal to each process that it holds a link with, then a DOWN to each watcher, then a demonitor
    /// to each target of an open monitor. The items that wait are lost ([`Desk::next_loss`]). The slot is free for its
    /// next version, or retired if p had the top one. Fails with `Gone`, `Worn` or `Memory`.
    pub fn exit(&mut self, p: Pid, reason: Reason) -> Result<(), Fault>
        ensures does { Calls p (Some (Event.Left p reason)) tt self.old.shard result self.new.shard }
        ensures ends { HasSameEnds self.old self.new }
        ensures sight { self.new.sight ≡ self.old.sight }
        ensures goes_on { GoesOn self.old self.new }
    {
        self.shard.exit(p, reason)?;
        tell_end(&self.shard, &self.directory, &mut self.seat, p);
        Ok(())
    }

    /// Sets whether what this desk loses from now on is kept until [`Desk::next_loss`] tells of it. It is not kept at
    /// first, nor does it cost anything then.
    ///
    /// If it is kept, a process that exits leaves its mailbox, and so does a message that comes to a process that is not
    /// alive. They take memory until they are told. A resumed desk goes on as it was set, with all that was not told.
    pub fn keep_losses(&mut self, on: bool)
        ensures keeps { self.new ≡ record self.old { shard = record self.old.shard { keeps = on } } }
        ensures goes_on { GoesOn self.old self.new }
    {
        self.shard.keep_losses(on);
    }

    /// The loss with this number among those kept and not told, the oldest first, or `None` if there are not so many. It
    /// is read, and stays.
    pub fn loss(&self, place: usize) -> Option<&Loss>
        ensures { option_copied result ≡ slice_get self.now.shard.lost place }
    {
        self.shard.loss(place)
    }

    /// Takes out the oldest loss that was kept and not told, or returns `None` if there is none. So each is told once,
    /// in the order in which they happened.
    pub fn next_loss(&mut self) -> Option<Loss>
        ensures first { result ≡ slice_get self.old.shard.lost 0 }
        ensures rest { self.new
            ≡ record self.old { shard = record self.old.shard { lost = drop 1 self.old.shard.lost } } }
        ensures goes_on { GoesOn self.old self.new }
    {
        self.shard.next_loss()
    }

    /// Looks whether t is seen to have exited, for a call of p, which fails then.
    #[inline(always)]
    fn look(&mut self, p: Pid, t: Pid) -> Result<(), Fault>
        requires alive { lives self.old.shard p ≡ true }
        requires known { knows self.old.shard t ≡ true }
        ensures looks { LooksFirst p t (IsOk result × (self.new.shard ≡ self.old.shard)) self.old result self.new }
        ensures ends { HasSameEnds self.old self.new }
        ensures goes_on { GoesOn self.old self.new }
    {
        self.shard.expect_known(t);
        match self.directory.probe(&mut self.seat, t) {
            Some(seen) => Err(self.shard.refuse(p, t, seen)),
            None => Ok(()),
        }
    }

    /// Lets the next turn look at the lane from desk `from` before the others. The first letter that it collects is then
    /// the oldest of that lane, if it shows one.
    ///
    /// Does nothing if the node has no such desk.
    pub fn look_from(&mut self, from: u8)
        ensures looks { self.new ≡ cond (nat_lt from self.old.shard.config.desks) (looking_first from self.old) self.old }
        ensures goes_on { GoesOn self.old self.new }
    {
        if from < self.shard.config().desks {
            self.ins.look_from(from);
        }
    }

    /// Posts letters, and then handles at most `budget` letters.
    ///
    /// First it posts. For each desk from 0 upwards it posts the letters that wait for it, oldest first, until none is
    /// left or the lane is full. Then it handles: first the letter in the hold, then the letters that it collects,
    /// looking at the lanes in turn. It stops before the budget is used up if no lane shows a letter, or for the reason
    /// in `stopped`. Then the letter at which it stopped stays in the hold, and the next turn resumes with it. Letters
    /// that are sent while it handles wait in the outbox for the next turn.
    pub fn turn(&mut self, budget: u32) -> Turned
        ensures turns { Turns budget self.old result self.new }
        ensures goes_on { GoesOn self.old self.new }
    {
        let waiting = self.count_by();
        if waiting > 0 {
            return self.turn_by(waiting, budget);
        }
        self.turn_over(budget)
    }

    /// The number of letters that go by the lane of the desk to itself in a turn: none, or all that wait for it.
    ///
    /// They go by if the desk is alone in its node, with nothing in its hold and nothing in its lane, and the lane has
    /// places for all of them. Then a turn would post them, and collect them one after the other with nothing between.
    /// So they are handled where they wait, and count as posted and as collected.
    #[inline(always)]
    fn count_by(&self) -> usize
        ensures { 0 < result → MayGoBy result self.now }
    {
        if self.shard.config().desks != 1 || self.shard.holds() {
            return 0;
        }
        let own = self.shard.number();
        let waiting = self.shard.letters_for(own).len();
        if waiting == 0 || !self.outs.has_places(own, waiting) {
            return 0;
        }
        let posted = self.outs.posted(own);
        if posted == u64::MAX || posted != self.ins.collected(own) {
            return 0;
        }
        waiting
    }

    /// A turn in which so many letters go by the lane of the desk to itself: all that wait for it.
    #[inline(always)]
    fn turn_by(&mut self, waiting: usize, budget: u32) -> Turned
        requires { MayGoBy waiting self.old }
        ensures turns { Turns budget self.old result self.new }
        ensures goes_on { GoesOn self.old self.new }
    {
        let count = waiting.min(budget as usize);
        for k in 0..count {
            if let Err(stop) = self.handle_own() {
                self.post_left(waiting - k - 1);
                return Turned {
                    posted: waiting as u64,
                    handled: k as u64,
                    stopped: Some(stop),
                };
            }
        }
        if count < waiting {
            self.post_left(waiting - count);
        }
        Turned {
            posted: waiting as u64,
            handled: count as u64,
            stopped: None,
        }
    }

    /// Handles the oldest letter of the desk to itself, which goes by their lane. If it is refused, it is in the hold.
    #[inline(always)]
    fn handle_own(&mut self) -> Result<(), Stop>
        requires clear { IsClear self.old }
        requires waits { 0 < length (waits_here self.old) }
        ensures { HandlesOwn self.old result self.new }
    {
        let own = self.shard.number();
        let letter = oldest(&self.shard, own);
        self.shard.pass_out(own, 1);
        self.ins.go_by(&mut self.outs, &[letter]);
        self.ins.look_from(0);
        match self.shard.handle_in_place(&letter) {
            Ok(ended) => {
                tell_ended(&self.shard, &self.directory, &mut self.seat, ended);
                Ok(())
            }
            Err(stop) => {
                self.shard.put_hold(letter);
                Err(stop)
            }
        }
    }

    /// Posts so many letters to the desk itself, the oldest first, for which its lane has places.
    #[cold]
    #[inline(never)]
    fn post_left(&mut self, count: usize)
        requires wait { count ≤ length (waits_here self.old) }
        requires places { HasPlaces self.old.outs self.old.shard.number count }
        requires desk { self.old.shard.number < self.old.shard.config.desks }
        ensures { PostsLeft count self.old self.new }
    {
        let own = self.shard.number();
        let posted = self
            .outs
            .post_run(own, &self.shard.letters_for(own)[..count]);
        self.shard.pass_out(own, posted);
    }

    /// A turn in which every letter goes over its lane.
    #[inline(always)]
    fn turn_over(&mut self, budget: u32) -> Turned
        ensures turns { Turns budget self.old result self.new }
        ensures goes_on { GoesOn self.old self.new }
    {
        let posted = self.post();
        let mut handled: u64 = 0;
        for _letter in 0..budget {
            match self.handle() {
                Ok(true) => handled += 1,
                Ok(false) => break,
                Err(stop) => {
                    return Turned {
                        posted,
                        handled,
                        stopped: Some(stop),
                    };
                }
            }
        }
        Turned {
            posted,
            handled,
            stopped: None,
        }
    }

    /// Posts to each desk from 0 upwards, and returns the number of letters.
    fn post(&mut self) -> u64
        ensures posts { Posts self.old self.new }
        ensures count { result ≡ min (total self.new.outs.posted - total self.old.outs.posted) (2 ^ 64 - 1) }
    {
        let mut posted: u64 = 0;
        for to in 0..self.shard.config().desks {
            posted = posted.saturating_add(self.post_to(to));
        }
        posted
    }

    /// Posts the letters that wait for desk `to` until none is left or the lane is full, and returns their number.
    fn post_to(&mut self, to: u8) -> u64
        requires { to < self.old.shard.config.desks }
        ensures to { PostsTo to self.old self.new }
        ensures some { PostsSome to result self.old self.new }
    {
        match self.shard.letters_for(to).len() {
            0 => 0,
            1 => self.post_one(to),
            _ => self.post_run(to),
        }
    }

    /// The same if one letter waits: it goes into its lane without the ring's call for a run.
    #[inline(always)]
    fn post_one(&mut self, to: u8) -> u64
        requires desk { to < self.old.shard.config.desks }
        requires one { length (waits_for self.old to) ≡ 1 }
        ensures to { PostsTo to self.old self.new }
        ensures some { PostsSome to result self.old self.new }
    {
        if self.outs.is_full(to) {
            return 0;
        }
        let letter = self.shard.letters_for(to)[0];
        self.outs.post_reserved(to, letter);
        self.shard.pass_out(to, 1);
        1
    }

    /// The same for all that wait.
    #[inline(never)]
    fn post_run(&mut self, to: u8) -> u64
        requires { to < self.old.shard.config.desks }
        ensures to { PostsTo to self.old self.new }
        ensures some { PostsSome to result self.old self.new }
    {
        let posted = self.outs.post_run(to, self.shard.letters_for(to));
        self.shard.pass_out(to, posted);
        posted as u64
    }

    /// Handles the letter in the hold, or else the next that is collected, and returns whether there was one.
    fn handle(&mut self) -> Result<bool, Stop>
        ensures { HandlesAtMostOne self.old result self.new }
    {
        if self.shard.holds() {
            return self.handle_held();
        }
        let Some(from) = self.ins.next_from() else {
            return Ok(false);
        };
        match handle_front(&mut self.shard, &self.ins, from) {
            Ok(ended) => {
                self.ins.pass(from);
                tell_ended(&self.shard, &self.directory, &mut self.seat, ended);
                Ok(true)
            }
            Err(stop) => {
                hold_front(&mut self.shard, &mut self.ins, from);
                Err(stop)
            }
        }
    }

    /// Handles the letter in the hold, and returns that there was one.
    #[cold]
    #[inline(never)]
    fn handle_held(&mut self) -> Result<bool, Stop>
        requires { is_some self.old.shard.hold ≡ true }
        ensures { HandlesAtMostOne self.old result self.new }
    {
        let Some(letter) = self.shard.held() else {
            unreachable!();
        };
        let ended = self.shard.handle(letter)?;
        let _ = self.shard.take_hold();
        tell_ended(&self.shard, &self.directory, &mut self.seat, ended);
        Ok(true)
    }
}

/// The oldest letter that waits to be posted to desk `to`.
#[inline(always)]
fn oldest(shard: &Shard, to: u8) -> Letter
    requires desk { to < shard.now.config.desks }
    requires waits { 0 < length (box shard.now to) }
    ensures { slice_get (box shard.now to) 0 ≡ Some result }
{
    shard.letters_for(to)[0]
}

/// Handles the oldest letter that is known to wait in the lane from desk `from`, and leaves it there. To move it out
/// first would cost as much as all else that a turn does with it.
#[inline(always)]
fn handle_front(shard: &mut Shard, ins: &Ins, from: u8) -> Result<Option<Pid>, Stop>
    requires shows { (from < length ins.now.place.rings) × (0 < length (slice_index_or ins.now.known from [])) }
    requires here { ins.now.place.number ≡ shard.old.number }
    requires near { from < shard.old.config.desks }
    ensures does { HandlesFront from ins.now shard.old result shard.new }
    ensures fit { IsFit shard.new }
{
    match ins.front(from) {
        Some(letter) => shard.handle_in_place(letter),
        None => handle_addressed(shard, ins, from),
    }
}

/// Handles the same letter as a copy, into which the two desks of its lane are written. It is not inlined, since a turn
/// would then clear the place of the copy for each letter.
#[cold]
#[inline(never)]
fn handle_addressed(shard: &mut Shard, ins: &Ins, from: u8) -> Result<Option<Pid>, Stop>
    requires shows { (from < length ins.now.place.rings) × (0 < length (slice_index_or ins.now.known from [])) }
    requires here { ins.now.place.number ≡ shard.old.number }
    requires near { from < shard.old.config.desks }
    ensures does { HandlesFront from ins.now shard.old result shard.new }
    ensures fit { IsFit shard.new }
{
    shard.handle(ins.front_addressed(from))
}

/// Takes the oldest letter that is known to wait in the lane from desk `from` into the hold. It is not inlined, since
/// a turn would then clear the place of the letter each time.
#[cold]
#[inline(never)]
fn hold_front(shard: &mut Shard, ins: &mut Ins, from: u8)
    requires shows { (from < length ins.old.place.rings) × (0 < length (slice_index_or ins.old.known from [])) }
    requires here { ins.old.place.number ≡ shard.old.number }
    requires near { from < shard.old.config.desks }
    requires empty { shard.old.hold ≡ None }
    ensures holds { HoldsFront from ins.old shard.old ins.new shard.new }
    ensures fit { IsFit shard.new }
{
    let letter = ins.take(from);
    shard.put_hold(letter);
}

/// Reports the process that exited by the newest event to the directory, if there is one.
#[inline(always)]
fn tell_ended(shard: &Shard, directory: &Directory, seat: &mut Seat, ended: Option<Pid>)
    requires { IfSome ended (CanTell directory.now seat.old shard.now.clock) }
    ensures { seat.new ≡ seat_told ended shard.now.clock seat.old }
{
    if let Some(p) = ended {
        tell_end(shard, directory, seat, p);
    }
}

/// Reports to the directory that p exited by the newest event.
fn tell_end(shard: &Shard, directory: &Directory, seat: &mut Seat, p: Pid)
    requires { CanTell directory.now seat.old shard.now.clock p }
    ensures { seat.new ≡ add_death (death_of p shard.now.clock) seat.old }
{
    directory.ended(seat, p, shard.clock());
}
