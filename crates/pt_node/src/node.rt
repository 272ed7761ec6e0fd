//! A node that a program calls: it owns its desks, and its calls name processes by their pids.

ghost use Rattle.std.specs.Prelude.{◌≡◌, ◌-◌, ◌^◌, ◌≤◌, true, Some, None, false, cond, is_some, length, map, max, min, IfOk};
ghost use Rattle.std.specs.Prelude.{IfErr, IfSome};
ghost use Rattle.std.specs.Borrow.{sem};
ghost use Rattle.std.specs.Option.{option_copied};
ghost use Rattle.pt_signal.specs.declared.signal.Signal.{Signal};
ghost use Rattle.pt_events.specs.declared.event.Event.{Event};
ghost use Rattle.pt_shard.specs.ShardState.{lives, state_in};
ghost use Rattle.pt_shard.specs.Known.{knows};
ghost use Rattle.pt_shard.specs.Reading.{read_of};
ghost use Rattle.pt_shard.specs.Calls.{Calls, Monitors, Bears, BearsChild, link_event, unlink_event, first_match};
ghost use Rattle.pt_shard.specs.Calls.{take_event, demonitor_event, held_by, new_ref};
ghost use Rattle.pt_gathered.specs.Lawful.{LanesKeep, KeepsHeadline, IsLegalNode, AnswersHold};
ghost use Rattle.pt_gathered.specs.Settling.{NothingLeft};
ghost use Rattle.pt_desk.specs.Reaching.{Reaches, has_link_to_make, has_monitor_to_make};
ghost use Rattle.pt_workers.specs.Desks.{AreDesks, AreDesksOf, desk_kept};
ghost use Rattle.pt_node.specs.Gathering.{Gathers, HasJournalsOf, ReadsAreTrue};
ghost use Rattle.pt_node.specs.Pasts.{GathersPast, GathersOutline};
ghost use Rattle.pt_workers.specs.NodeRunning.{RunsNode};
ghost use Rattle.pt_workers.specs.Running.{AllWork, InRounds, begins_by};
ghost use Rattle.pt_node.specs.Node.{CallsAt, CallsTo, Inside, OpensNode, ReadsAt, TurnsAll, TurnsAt, node_answered};
ghost use Rattle.pt_node.specs.Node.{both_turned};
ghost use Rattle.pt_node.specs.Lending.{IsDeskAt, IsNoTarget, LendsDesk};
ghost use Rattle.pt_node.specs.Load.{IsWithinLoad};
ghost use Rattle.pt_node.specs.declared.node_fault.NodeFault.TheVariants.{NoDesk};
ghost use Rattle.pt_node.specs.Resuming.{Resumes, ResumesForgetful};
ghost use Rattle.pt_workers.specs.Stillness.{AllDesksGoOn, AreStill, RunsRounds, StoppedAt, count_events};

use crate::gathering::{abandon, gather};
use crate::making::look;
use crate::node_fault::NodeFault;
use crate::node_running::{run_desks, run_desks_single};
use crate::opening::open;
use crate::resuming::{Resting, resume, resume_forgetting, resume_settled};
use pt_desk::{Desk, Turned};
use pt_gathered::{Gathered, Quiet, Settled};
use pt_process::Process;
use pt_shard::{Config, Fault, OpenError};
use pt_signal::{Body, Ids, Item, Pick, Pid, Reason, Ref};
use pt_workers::{Gate, Rested, RunFault, Task, until_still};
use std::alloc::Global;
use std::error::Error;
use std::fmt;
use std::marker::Model;
use std::thread::Threads;

/// The desks of one [`open`](Node::open), or of one [`resume`](Node::resume), each once and in order, with calls of
/// their processes by pid.
///
/// A call of a process is made on the desk of its pid, and does there what the desk's call of that name does. The other
/// desks stay as they are. No call has a precondition: what the node cannot do fails with a [`NodeFault`].
///
/// It may be dropped. Then its processes, its journals and the letters between its desks are given up, and no process
/// is notified.
pub struct Node {
    alloc: Global,
    desks: Vec<Desk>,
}

impl Model for Node {
    ghost use Rattle.std.specs.Prelude.{List};
    ghost use Rattle.pt_desk.specs.DeskState.{DeskState};
    ghost use Rattle.pt_workers.specs.Desks.{AreDesks};

    ghost Value = { List DeskState };

    ghost view = { λ n. n.desks.items };

    ghost invariant = { λ n. AreDesks n.desks.items };
}

impl Drop for Node {
    fn drop(self) {
        let Node { alloc: _, desks } = self;
        abandon(desks);
    }
}

/// The node of a call of [`Node::gather`] that failed, since there was no memory.
#[derive(Drop)]
pub struct NodeBack {
    /// The node, as it was.
    pub node: Node,
}

impl fmt::Debug for NodeBack {
    fn fmt<W: fmt::Write>(&self, f: &mut fmt::Formatter<W>) -> fmt::Result {
        write!(f, "NodeBack {{ .. }}")
    }
}

impl fmt::Display for NodeBack {
    fn fmt<W: fmt::Write>(&self, f: &mut fmt::Formatter<W>) -> fmt::Result {
        write!(f, "there was no memory to gather the node")
    }
}

impl Error for NodeBack {}

impl Node {
    /// Opens a node on which nothing has happened.
    ///
    /// Fails with `Bounds` exactly if a setting is out of its range, naming the first such setting. Else it fails with
    /// `Memory` if there is none.
    pub fn open(alloc: Global, config: Config) -> Result<Node, OpenError>
        ensures { OpensNode config result }
    {
        match open(alloc, config) {
            Ok(desks) => Ok(Node { alloc, desks }),
            Err(error) => Err(error),
        }
    }

    /// Continues from a quiet node, as [`resume`](crate::resume) does. In the directory that gathering kept, time and
    /// memory grow with what happened since the node was opened or resumed last, and with the number of desks.
    ///
    /// Fails only if there is no memory. The quiet node then comes back, without that directory: the next call makes a
    /// new one, and costs time and memory for the live processes and the slots too.
    pub fn resume(alloc: Global, quiet: Quiet) -> Result<Node, Resting>
        ensures resumes { IfOk result (λ desks. Resumes quiet.gathered desks) }
        ensures resting { IfErr result (λ back. back.quiet ≡ quiet) }
    {
        match resume(alloc, quiet) {
            Ok(desks) => Ok(Node { alloc, desks }),
            Err(back) => Err(back),
        }
    }

    /// Continues from a settled node without the list of its processes, as [`resume_settled`](crate::resume_settled)
    /// does. Its cost is that of [`Node::resume`].
    ///
    /// Fails only if there is no memory. The settled node then comes back, without the directory that gathering kept, as
    /// after a `Node::resume` that failed.
    pub fn resume_settled(alloc: Global, settled: Settled) -> Result<Node, Settled>
        ensures resumes { IfOk result (λ desks. Resumes settled.gathered desks) }
        ensures resting { IfErr result (λ back. back ≡ settled) }
    {
        match resume_settled(alloc, settled) {
            Ok(desks) => Ok(Node { alloc, desks }),
            Err(back) => Err(back),
        }
    }

    /// Continues from a settled node and forgets why its processes exited, as
    /// [`resume_forgetting`](crate::resume_forgetting) does. Its cost is that of [`Node::resume`], and a look at each slot
    /// that was ever used.
    ///
    /// Fails only if there is no memory. The settled node then comes back, without the directory that gathering kept, as
    /// after a `Node::resume` that failed, and has forgotten nothing.
    pub fn resume_forgetting(alloc: Global, settled: Settled) -> Result<Node, Settled>
        ensures resumes { IfOk result (λ desks. ResumesForgetful settled.gathered desks) }
        ensures resting { IfErr result (λ back. back ≡ settled) }
    {
        match resume_forgetting(alloc, settled) {
            Ok(desks) => Ok(Node { alloc, desks }),
            Err(back) => Err(back),
        }
    }

    /// The node of these desks, which are all desks of one [`open`](crate::open) or of one [`resume`](crate::resume),
    /// each once and in order.
    pub fn of_desks(alloc: Global, desks: Vec<Desk>) -> Node
        requires { AreDesks desks.items }
        ensures { result ≡ desks.items }
    {
        Node { alloc, desks }
    }

    /// The desks, in order, as [`run`](crate::run) and [`gather`](crate::gather) take them.
    pub fn into_desks(self) -> Vec<Desk>
        ensures desks { result.items ≡ self }
        ensures node { AreDesks result.items }
    {
        let Node { alloc: _, desks } = self;
        desks
    }

    /// The desks, in order.
    pub fn desks(&self) -> &[Desk]
        ensures desks { result.now ≡ self.now }
        ensures node { AreDesks self.now }
    {
        self.desks.as_slice()
    }

    /// The settings of the node, which has as many desks as they say.
    pub fn config(&self) -> Config
        ensures { AreDesksOf result self.now }
    {
        self.desks[0].config()
    }

    /// The number of desks of the node, at least one.
    pub fn count(&self) -> usize
        ensures { result ≡ length self.now }
    {
        self.desks.len()
    }

    /// The desk of that number, to be read: its journal, its clock, and the processes that live on it. `None` if the
    /// node has no such desk.
    pub fn desk(&self, number: u8) -> Option<&Desk>
        ensures desk { IfSome result (λ x. x.now.shard.number ≡ number) }
        ensures reads { ReadsAt number Some None self.now (option_copied result) }
    {
        let d = usize::from(number);
        if d >= self.desks.len() {
            return None;
        }
        let desk = &self.desks[d];
        // read for the proof alone: it says what holds of every desk
        let _ = desk.journal();
        Some(desk)
    }

    /// Whether p is alive. False if another process has its slot by now, and if the node does not have its desk.
    pub fn alive(&self, p: Pid) -> bool
        ensures { ReadsAt p.shard (λ x. lives x.shard p) false self.now result }
    {
        match self.desks.get(usize::from(p.shard)) {
            Some(desk) => desk.alive_here(p),
            None => false,
        }
    }

    /// The items that wait in the mailbox of p, oldest first, or `None` if p is not alive.
    pub fn waiting(&self, p: Pid) -> Option<&[Item]>
        ensures { ReadsAt p.shard (λ x. cond (lives x.shard p) (Some (state_in x.shard p).waiting) None) None self.now
            (option_copied result) }
    {
        self.desks.get(usize::from(p.shard))?.waiting(p)
    }

    /// The ids under which p is linked with q, or `None` if there is no link, or p is not alive.
    ///
    /// This is p's own half of the link. The half of q may differ while letters of the two are in flight.
    pub fn linked(&self, p: Pid, q: Pid) -> Option<Ids>
        ensures { ReadsAt p.shard (λ x. cond (lives x.shard p) (held_by x.shard p q) None) None self.now result }
    {
        self.desks.get(usize::from(p.shard))?.linked(p, q)
    }

    /// The process p, to be read: its links, open monitors and watchers by place, its mailbox and its flag. `None` if
    /// it is not alive. Erlang's `process_info/2`, module `erlang`.
    pub fn process(&self, p: Pid) -> Option<&Process>
        ensures { ReadsAt p.shard (λ x. cond (lives x.shard p) (Some (p, state_in x.shard p)) None) None self.now
            (read_of (option_copied result)) }
    {
        self.desks.get(usize::from(p.shard))?.process(p)
    }

    /// Brings the desks of the node together: [`gather`](crate::gather) says what then holds for the journals, the
    /// messages and the letters left over. If the node is still, as [`turn_until_still`](Node::turn_until_still) leaves
    /// it, no letter is left over.
    ///
    /// The gathered node keeps the directory of exited processes, in which [`Node::resume`] and its variants go on.
    ///
    /// Fails only if there is no memory: the node then comes back as it was, with its directory. Only what the two ends of
    /// a lane know of each other may be more, which no call shows.
    #[tactic(auto, using(pt_workers::proofs::StillDesks::kept_desks))]
    pub fn gather(self) -> Result<Gathered, NodeBack>
        ensures gathers { IfOk result (λ g. Gathers self g) }
        ensures journals { IfOk result (λ g. HasJournalsOf self g) }
        ensures lanes { IfOk result (λ g. LanesKeep g) }
        ensures headline { IfOk result (λ g. KeepsHeadline g) }
        ensures legal { IfOk result (λ g. IsLegalNode g) }
        ensures answers { IfOk result (λ g. AnswersHold g) }
        ensures reads { IfOk result (λ g. ReadsAreTrue self g) }
        ensures past { IfOk result (λ g. GathersPast self g) }
        ensures outline { IfOk result (λ g. GathersOutline self g) }
        ensures still { AreStill self → IfOk result (λ g. NothingLeft g) }
        ensures back { IfErr result (λ b. map desk_kept b.node ≡ map desk_kept self) }
    {
        let Node { alloc, desks } = self;
        match gather(alloc, desks) {
            Ok(gathered) => Ok(gathered),
            Err(back) => Err(NodeBack {
                node: Node {
                    alloc,
                    desks: back.into_desks(),
                },
            }),
        }
    }

    /// Spawns a process without a parent on that desk: Erlang's `spawn/1`, called from outside of the node (section
    /// Process Creation).
    ///
    /// Fails with `NoDesk`, or as the desk's call does: with `Worn`, `Full` or `Memory`.
    pub fn spawn(&mut self, desk: u8) -> Result<Pid, NodeFault>
        ensures does { CallsAt desk (Inside (Bears None None)) self.old result self.new }
        ensures home { IfOk result (λ p. p.shard ≡ desk) }
    {
        let at = desk_at(&mut self.desks, desk)?;
        // read for the proof alone: it says what holds of every desk
        let _ = at.journal();
        called(at.spawn())
    }

    /// Spawns a child of the parent on the parent's desk, linked with it if `linked` is true: Erlang's `spawn/1` and
    /// `spawn_link/1`, sections Process Creation and Links.
    ///
    /// Both halves of the link are made at once, without a letter. Fails with `NoDesk`, or as the desk's call does:
    /// with `Gone`, `Worn`, `Full` or `Memory`.
    pub fn spawn_child(&mut self, parent: Pid, linked: bool) -> Result<Pid, NodeFault>
        ensures does { CallsAt parent.shard (Inside (BearsChild parent linked)) self.old result self.new }
        ensures home { IfOk result (λ p. p.shard ≡ parent.shard) }
    {
        let at = desk_at(&mut self.desks, parent.shard)?;
        // read for the proof alone: it says what holds of every desk
        let _ = at.journal();
        called(at.spawn_child(parent, linked))
    }

    /// Sends a message: Erlang's `!`, chapter Processes, section Signals.
    ///
    /// It arrives after all that the sender sent this receiver before. If the receiver is not alive then, it is lost,
    /// and no process is notified. Fails with `NoDesk`, or with `Unknown` if the receiver is no process that the node
    /// can have had. Else it fails as the desk's call does: with `Gone`, `NoProc` if the desk sees that the receiver
    /// has exited, `Worn` or `Memory`.
    #[inline(always)]
    pub fn send(&mut self, from: Pid, to: Pid, body: Body) -> Result<(), NodeFault>
        ensures { CallsTo from.shard to
            (λ x r y.
            Reaches (lives x.shard from) from to
            (Calls from (Some (Event.Said from to (Signal.Message body))) tt x.shard r y.shard) x r y) self.old
            result self.new }
    {
        called(desk_knowing(&mut self.desks, from.shard, to)?.send(from, to, body))
    }

    /// Sends an exit signal that no link carries: Erlang's `exit/2`, section Receiving Exit Signals.
    ///
    /// `kill` makes its receiver exit with the reason `killed`, whether it traps exits or not. A receiver that traps
    /// exits gets any other reason as an item. Any other receiver exits with that reason, except that `normal` has this
    /// effect only if it is the sender itself. Fails with `NoDesk`, or with `Unknown` if the receiver is no process
    /// that the node can have had. Else it fails as the desk's call does: with `Gone`, `Worn` or `Memory`.
    pub fn exit_signal(&mut self, from: Pid, to: Pid, reason: Reason) -> Result<(), NodeFault>
        ensures { CallsTo from.shard to
            (Inside (λ s r t. Calls from (Some (Event.Said from to (Signal.Exit reason))) tt s r t)) self.old result
            self.new }
    {
        called(desk_knowing(&mut self.desks, from.shard, to)?.exit_signal(from, to, reason))
    }

    /// Links p with another process: Erlang's `link/1`, section Links.
    ///
    /// Nothing happens if p is the target, or holds a link with it. If the target is not alive when the link arrives,
    /// an exit signal with `noproc` goes back. Fails with `NoDesk`, or with `Unknown` if the target is no process that
    /// the node can have had. Else it fails as the desk's call does: with `Gone`, and if there is a link to make, with
    /// `NoProc` (the target is seen to have exited), `Worn` or `Memory`.
    #[tactic(auto, using(crate::proofs::Calling::called_desks))]
    pub fn link(&mut self, p: Pid, to: Pid) -> Result<(), NodeFault>
        ensures { CallsTo p.shard to
            (λ x r y.
            Reaches (has_link_to_make x.shard p to) p to
            (Calls p (link_event x.shard p to) tt x.shard r y.shard) x r y) self.old result self.new }
    {
        called(desk_knowing(&mut self.desks, p.shard, to)?.link(p, to))
    }

    /// Removes the link of p with another process: Erlang's `unlink/1`, section Links.
    ///
    /// Nothing happens if there is none. From here on an exit signal that the link carries has no effect on p: it may
    /// still arrive, and is dropped. Fails with `NoDesk`, or with `Unknown` if the other is no process that the node
    /// can have had. Else it fails as the desk's call does: with `Gone`, `Worn` or `Memory`.
    pub fn unlink(&mut self, p: Pid, to: Pid) -> Result<(), NodeFault>
        ensures { CallsTo p.shard to
            (Inside (λ s r t. Calls p (unlink_event s p to) tt s r t)) self.old result self.new }
    {
        called(desk_knowing(&mut self.desks, p.shard, to)?.unlink(p, to))
    }

    /// Monitors another process: Erlang's `monitor/2`, section Monitors. It returns the reference that the one DOWN
    /// will have.
    ///
    /// If the target is not alive when the monitor arrives, a DOWN with `noproc` goes back. Fails with `NoDesk`, or
    /// with `Unknown` if the target is no process that the node can have had. Else it fails as the desk's call does:
    /// with `Gone`, `Myself` if w is the target, `NoProc` if the desk sees that the target has exited, `Worn` or
    /// `Memory`.
    pub fn monitor(&mut self, w: Pid, t: Pid) -> Result<Ref, NodeFault>
        ensures { CallsTo w.shard t
            (λ x r y. Reaches (has_monitor_to_make x.shard w t) w t (Monitors w t x.shard r y.shard) x r y) self.old
            result self.new }
    {
        called(desk_knowing(&mut self.desks, w.shard, t)?.monitor(w, t))
    }

    /// Cancels a monitor of w: Erlang's `demonitor/2`, section Monitors. It returns whether it wrote an event.
    ///
    /// A monitor is open until its DOWN arrives, or w cancels it or exits. If it is open, its DOWN enters the mailbox
    /// no more. If it is not, its DOWN is taken out of the mailbox if `flush` is true and it waits there. Fails with
    /// `NoDesk`, or as the desk's call does: with `Gone`, and if there is an event to write, with `Worn` or `Memory`.
    pub fn demonitor(&mut self, w: Pid, monitor: Ref, flush: bool) -> Result<bool, NodeFault>
        ensures { CallsAt w.shard
            (Inside
            (λ s r t. Calls w (demonitor_event s w monitor flush) (is_some (demonitor_event s w monitor flush)) s r t))
            self.old result self.new }
    {
        called(desk_at(&mut self.desks, w.shard)?.demonitor(w, monitor, flush))
    }

    /// Asks whether another process is alive: Erlang's `is_process_alive/1`, section Processes and Erlang's signals. It
    /// returns the reference that the answer will have.
    ///
    /// The answer arrives as an item, after all that t sent p before; t may be p. Fails with `NoDesk`, or with
    /// `Unknown` if t is no process that the node can have had. Else it fails as the desk's call does: with `Gone`,
    /// `Worn` or `Memory`.
    pub fn ask_alive(&mut self, p: Pid, t: Pid) -> Result<Ref, NodeFault>
        ensures { CallsTo p.shard t
            (Inside (λ s r u. Calls p (Some (Event.Said p t (Signal.AliveAsk (new_ref s)))) (new_ref s) s r u)) self.old
            result self.new }
    {
        called(desk_knowing(&mut self.desks, p.shard, t)?.ask_alive(p, t))
    }

    /// Sets whether p traps exits, and returns whether it did before: Erlang's `process_flag(trap_exit, _)`, section
    /// Receiving Exit Signals.
    ///
    /// The flag counts when an exit signal arrives, not when it is sent. Fails with `NoDesk`, or as the desk's call
    /// does: with `Gone`, `Worn` or `Memory`.
    pub fn trap(&mut self, p: Pid, on: bool) -> Result<bool, NodeFault>
        ensures { CallsAt p.shard
            (Inside (λ s r t. Calls p (Some (Event.Flag p on)) (state_in s p).traps s r t)) self.old result self.new }
    {
        called(desk_at(&mut self.desks, p.shard)?.trap(p, on))
    }

    /// Takes the first matching item out of the mailbox of p, and leaves the others in order: Erlang's `receive` with
    /// `after 0`, chapter Expressions, section Receive.
    ///
    /// It returns `Ok(None)`, and writes no event, if no item matches. Fails with `NoDesk`, or as the desk's call does:
    /// with `Gone`, and if an item matches, with `Worn` or `Memory`.
    #[inline(always)]
    pub fn receive(&mut self, p: Pid, pick: Pick) -> Result<Option<Item>, NodeFault>
        ensures { CallsAt p.shard
            (Inside (λ s r t. Calls p (take_event s p pick) (first_match s p pick) s r t)) self.old result self.new }
    {
        called(desk_at(&mut self.desks, p.shard)?.receive(p, pick))
    }

    /// Makes p exit with this reason: Erlang's `exit/1`, section Process Termination.
    ///
    /// It sends an exit signal to each process that it holds a link with, then a DOWN to each watcher, then a demonitor
    /// to each target of an open monitor. The items that wait are dropped. Fails with `NoDesk`, or as the desk's call
    /// does: with `Gone`, `Worn` or `Memory`.
    pub fn exit(&mut self, p: Pid, reason: Reason) -> Result<(), NodeFault>
        ensures { CallsAt p.shard
            (Inside (λ s r t. Calls p (Some (Event.Left p reason)) tt s r t)) self.old result self.new }
    {
        called(desk_at(&mut self.desks, p.shard)?.exit(p, reason))
    }

    /// One turn of that desk: it posts letters, and then handles at most `budget` letters.
    ///
    /// Fails with `NoDesk` alone. [`Turned::stopped`] says why a turn stopped early.
    pub fn turn(&mut self, desk: u8, budget: u32) -> Result<Turned, NodeFault>
        ensures { TurnsAt desk budget self.old result self.new }
    {
        Ok(desk_at(&mut self.desks, desk)?.turn(budget))
    }

    /// Gives each desk one turn, from desk 0 upwards, and returns what they did together. That is how many letters were
    /// posted and handled, each staying at `u64::MAX` once it is reached, and why the first turn that stopped did.
    ///
    /// Each desk has its turn, whether a turn before it stopped or not.
    #[inline(always)]
    pub fn turn_all(&mut self, budget: u32) -> Turned
        ensures { TurnsAll budget (length self.old) self.old result self.new }
    {
        turn_each(&mut self.desks, budget)
    }

    /// Gives the desks rounds of turns, until no letter waits in an outbox, a lane or a hold, or a turn was stopped.
    ///
    /// It returns how many letters were handled, and which turn was stopped, if one was. If none was, the node is
    /// still. A turn handles at most `budget` letters; a budget of 0 counts as 1. If a turn was stopped, the round
    /// still continues to its last desk, so that no desk holds up another. It terminates, since each letter takes a
    /// stamp of its desk's clock, and it never fails. It costs time for the letters, and for a look at each lane in
    /// each round, and once more after a turn that was stopped. Each round but the last two handles a letter, or is
    /// followed by one that does.
    ///
    /// Whether stopped or not, it handles no more letters than the load of the history before. Each letter in flight
    /// counts two if it is a `Link`, a `Monitor` or a question whether a process is alive, and else one. Each link
    /// entry, kept monitor and open monitor of a live process counts one.
    ///
    /// All that a program has sent is handled, but not what it would send on receipt. A program that answers what it
    /// receives calls `receive`, and turns again.
    pub fn turn_until_still(&mut self, budget: u32) -> Rested
        ensures rounds { RunsRounds (max budget 1) self.old result self.new }
        ensures still { result.stopped ≡ None → AreStill self.new }
        ensures stopped { IfSome result.stopped (λ s. StoppedAt (max budget 1) s self.new) }
        ensures handled { result.handled ≡ min (count_events self.new - count_events self.old) (2 ^ 64 - 1) }
        ensures bound { IsWithinLoad self.old result.handled }
        ensures goes_on { AllDesksGoOn self.old self.new }
    {
        // read for the proof alone: it says what holds of every desk, here and behind the rounds
        look(self.desks.as_slice());
        let rested = until_still(&mut self.desks, budget.max(1));
        look(self.desks.as_slice());
        rested
    }
}

impl Node {
    /// Lets each desk's worker do up to `turns` turns on a thread of its own, each desk with the work at its place.
    /// [`run`](crate::run) says what a turn is and when a worker ends.
    ///
    /// The works are lent, and come back as their steps made them, in order. [`Task::standing`] returns for each
    /// whether it is done or has failed. Fails with `Works` exactly if there are not as many works as desks, else with
    /// `Memory` if there is none.
    pub fn run<R: Threads + Sync, G: Gate + Sync, W: Task + Send>(
        &mut self,
        rt: &R,
        works: &mut Vec<W>,
        turns: u64,
        budget: u32,
        gate: &G,
    ) -> Result<(), RunFault>
        ensures { RunsNode (AllWork (begins_by W.standing (G.lets gate.now)) (W.does, W.hears) turns budget)
            self.old works.old.items result self.new works.new.items }
    {
        run_desks(rt, self.alloc, &mut self.desks, works, turns, budget, gate)
    }

    /// Does the same turns on the calling thread, in rounds. Each round is one turn of every worker that has not ended,
    /// from desk 0 upwards.
    ///
    /// Fails with `Works` exactly if there are not as many works as desks, else with `Memory` if there is none.
    pub fn run_single<G: Gate, W: Task>(
        &mut self,
        works: &mut Vec<W>,
        turns: u64,
        budget: u32,
        gate: &G,
    ) -> Result<(), RunFault>
        ensures { RunsNode (λ old new.
            AllWork (begins_by W.standing (G.lets gate.now)) (W.does, W.hears) turns budget old new
            × InRounds (begins_by W.standing (G.lets gate.now)) (W.does, W.hears) turns budget old new)
            self.old works.old.items result self.new works.new.items }
    {
        run_desks_single(self.alloc, &mut self.desks, works, turns, budget, gate)
    }
}

/// The desk of that number, to be called. Fails with `NoDesk` if there is none.
#[inline(always)]
fn desk_at(desks: &mut Vec<Desk>, number: u8) -> Result<&mut Desk, NodeFault>
    ensures* lends { sem 𝓛 (LendsDesk desks.entry number result) }
    ensures desk { IfOk result (λ x. IsDeskAt number desks.old.items x.now) }
    ensures none { IfErr result (λ fault. (fault ≡ NoDesk) × (length desks.old.items ≤ number)) }
{
    let number = usize::from(number);
    if number >= desks.len() {
        return Err(NodeFault::NoDesk);
    }
    Ok(&mut desks[number])
}

/// The same desk, to be called with a target. Fails with `NoDesk`, then with `Unknown` if the desk does not know it.
#[inline(always)]
fn desk_knowing(desks: &mut Vec<Desk>, number: u8, target: Pid) -> Result<&mut Desk, NodeFault>
    ensures* lends { sem 𝓛 (LendsDesk desks.entry number result) }
    ensures desk { IfOk result
        (λ x. IsDeskAt number desks.old.items x.now × (knows x.now.shard target ≡ true)) }
    ensures none { IfErr result (λ fault. IsNoTarget number target desks.old.items fault) }
{
    let number = usize::from(number);
    if number >= desks.len() {
        return Err(NodeFault::NoDesk);
    }
    if !desks[number].knows(target) {
        return Err(NodeFault::Unknown);
    }
    Ok(&mut desks[number])
}

/// One turn of each desk, from desk 0 upwards.
fn turn_each(desks: &mut Vec<Desk>, budget: u32) -> Turned
    ensures turns { TurnsAll budget (length desks.old.items) desks.old.items result desks.new.items }
    ensures node { AreDesks desks.old.items → AreDesks desks.new.items }
{
    let mut round = Turned {
        posted: 0,
        handled: 0,
        stopped: None,
    };
    for d in 0..desks.len() {
        let turned = desks[d].turn(budget);
        round = both(round, turned);
    }
    round
}

/// What turns did together with the one after them.
fn both(before: Turned, next: Turned) -> Turned
    ensures { result ≡ both_turned before next }
{
    let stopped = match before.stopped {
        Some(stop) => Some(stop),
        None => next.stopped,
    };
    Turned {
        posted: before.posted.saturating_add(next.posted),
        handled: before.handled.saturating_add(next.handled),
        stopped,
    }
}

/// The answer of a desk, as the node returns it.
fn called<A>(answer: Result<A, Fault>) -> Result<A, NodeFault>
    ensures { result ≡ node_answered answer }
{
    match answer {
        Ok(value) => Ok(value),
        Err(fault) => Err(NodeFault::Refused(fault)),
    }
}
