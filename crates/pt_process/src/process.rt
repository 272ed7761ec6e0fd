//! One process.

ghost use Rattle.std.specs.Prelude.{◌≡◌, ◌+◌, ◌<◌, ◌≤◌, ◌∷◌, ◌++◌, [], false, length, is_some, slice_get, remove};
ghost use Rattle.std.specs.Prelude.{find, IsOk, IsSome, OnOk, OnErr, IfSome, IfNone};
ghost use Rattle.std.specs.List.{list_any};
ghost use Rattle.std.specs.Map.{lookup, remove_entry};
ghost use Rattle.pt_signal.specs.Values.{fits, same_pid, same_ref, without_first};
ghost use Rattle.pt_signal.specs.Process.{fresh, held, holds_any, same_watch, cut, handle, queued, obey, verdict, say};
ghost use Rattle.pt_signal.specs.Process.{estate};
ghost use Rattle.pt_process.specs.Outcome.{Accepts, IsAnew, has_two, ruled};
ghost use Rattle.pt_process.specs.Exits.{IsExit, exit_of};
ghost use Rattle.pt_process.specs.Places.{IsFirst, IsFirstPlace};
ghost use Rattle.pt_process.specs.Peers.{peers_held};
ghost use Rattle.pt_process.specs.ProcessView.{owing_of};

use crate::{Estate, ExitSignal, Mailbox, Outcome, Verdict};
use pt_entries::Entries;
use pt_signal::{Ids, Item, LinkId, Pick, Pid, Reason, Ref, Signal};
use std::alloc::{AllocError, Global};
use std::marker::Model;
use std::mem::size_of;

const _: () = prove!(size_of::<Process>() <= 256);

/// A live process: its mailbox, its links, its monitors, and the watches that others hold on it.
#[derive(Drop)]
pub struct Process {
    me: Pid,
    /// It has its place behind the pid, where there is room for it: so a process is shorter by a word.
    traps: bool,
    waiting: Mailbox,
    links: Entries<Pid, Ids>,
    watching: Entries<Ref, Pid>,
    kept: Entries<(Ref, Pid), ()>,
}

impl Model for Process {
    ghost use Rattle.std.specs.Map.{keys_of};
    ghost use Rattle.pt_process.specs.ProcessView.{ProcessView};

    ghost Value = { ProcessView };

    ghost view = { λ p. record {
      me = p.me;
      state = record {
        waiting = p.waiting;
        links = p.links.entries;
        watching = p.watching.entries;
        kept = keys_of p.kept.entries;
        traps = p.traps;
      };
      room = p.links.room;
    } };
}

impl Process {
    /// A process with an empty mailbox, without links, monitors and watchers, that does not trap exits. It allocates
    /// nothing.
    pub fn new(alloc: Global, me: Pid) -> Process
        ensures me { result.me ≡ me }
        ensures state { result.state ≡ fresh }
    {
        Process {
            me,
            waiting: Mailbox::new(alloc),
            links: Entries::new(alloc),
            watching: Entries::new(alloc),
            kept: Entries::new(alloc),
            traps: false,
        }
    }

    /// Its pid.
    pub fn me(&self) -> Pid
        ensures { result ≡ self.now.me }
    {
        self.me
    }

    /// The items that wait in its mailbox, oldest first.
    pub fn waiting(&self) -> &[Item]
        ensures { result.now ≡ self.now.state.waiting }
    {
        self.waiting.as_slice()
    }

    /// The ids under which it is linked with this process.
    #[inline(always)]
    pub fn linked(&self, peer: Pid) -> Option<Ids>
        ensures { result ≡ held self.now.state.links peer }
    {
        self.links.get(&peer)
    }

    /// Whether its monitor of this reference is open.
    pub fn watching(&self, monitor: Ref) -> bool
        ensures { result ≡ is_some (lookup (same_ref monitor) self.now.state.watching) }
    {
        self.target_of(monitor).is_some()
    }

    /// The target of its open monitor of this reference.
    pub fn target_of(&self, monitor: Ref) -> Option<Pid>
        ensures { result ≡ lookup (same_ref monitor) self.now.state.watching }
    {
        self.watching.get(&monitor)
    }

    /// Whether a watch of this reference is kept here.
    pub fn kept(&self, monitor: Ref) -> bool
        ensures { result ≡ list_any (λ k. same_ref monitor k.0) self.now.state.kept }
    {
        self.kept.has_first(monitor)
    }

    /// Whether it traps exits.
    pub fn traps(&self) -> bool
        ensures { result ≡ self.now.state.traps }
    {
        self.traps
    }

    /// The number of processes that it is linked with.
    pub fn links_len(&self) -> usize
        ensures { result ≡ length self.now.state.links }
    {
        self.links.len()
    }

    /// The process that it is linked with in this place, in order of entry, and the ids of the link; `None` from
    /// [`Process::links_len`] on.
    pub fn link_at(&self, i: usize) -> Option<(Pid, Ids)>
        ensures { result ≡ slice_get self.now.state.links i }
    {
        self.links.read(i)
    }

    /// The number of its open monitors.
    pub fn monitors_len(&self) -> usize
        ensures { result ≡ length self.now.state.watching }
    {
        self.watching.len()
    }

    /// The open monitor in this place, in order of entry, and its target; `None` from [`Process::monitors_len`] on.
    pub fn monitor_at(&self, i: usize) -> Option<(Ref, Pid)>
        ensures { result ≡ slice_get self.now.state.watching i }
    {
        self.watching.read(i)
    }

    /// The number of monitors that others have of it.
    pub fn watchers_len(&self) -> usize
        ensures { result ≡ length self.now.state.kept }
    {
        self.kept.len()
    }

    /// The monitor that another has of it in this place, in order of entry, and its owner; `None` from
    /// [`Process::watchers_len`] on.
    pub fn watcher_at(&self, i: usize) -> Option<(Ref, Pid)>
        ensures { result ≡ slice_get self.now.state.kept i }
    {
        match self.kept.read(i) {
            Some((watcher, ())) => Some(watcher),
            None => None,
        }
    }

    /// The number of signals that it would owe at its exit.
    pub fn owed_len(&self) -> usize
        ensures signals { (reason : Reason) → result ≡ length (estate self.now.me self.now.state reason) }
        ensures peers { result ≡ length (peers_held self.now.state) }
    {
        self.links.len() + self.kept.len() + self.watching.len()
    }

    /// The receiver of the signal with this number that it would owe at its exit. Nothing that can be read changes.
    pub fn owed_to(&mut self, i: usize) -> Pid
        requires { i < length (peers_held self.old.state) }
        ensures to { slice_get (peers_held self.old.state) i ≡ Some result }
        ensures me { self.new.me ≡ self.old.me }
        ensures state { self.new.state ≡ self.old.state }
    {
        let links = self.links.len();
        if i < links {
            let (peer, _) = self.links.nth(i);
            return peer;
        }
        let kept = self.kept.len();
        if i - links < kept {
            let ((_, watcher), _) = self.kept.nth(i - links);
            return watcher;
        }
        let (_, watched) = self.watching.nth(i - links - kept);
        watched
    }

    /// Takes a signal in: Erlang Reference Manual, chapter Processes, sections Links, Monitors and Receiving Exit
    /// Signals.
    ///
    /// Fails only if a list would grow and there is no memory, and nothing has changed then. If it returns `Ends`, the
    /// process is still as the signal left it, and `estate` returns what it owes. If it returns `Asked`, the sender
    /// asks whether the process is alive: the caller sends `Signal::AliveSay` of that reference and `true` back.
    #[inline(always)]
    pub fn accept(&mut self, from: Pid, signal: Signal) -> Result<Outcome, AllocError>
        ensures { Accepts self.old (handle self.old.me self.old.state from signal) result self.new }
    {
        // Only the ways that queue an item are inlined: a message is then written into the mailbox from where it
        // stands. Where the others are inlined too, it is first copied in pieces, and to load those again costs more
        // than all else.
        match signal {
            Signal::Message(body) => self.queue(Item::User(from, body)),
            Signal::Link(id) => self.enter(from, id),
            Signal::Unlink(ids) => Ok(self.cut(from, ids)),
            Signal::Exit(_) | Signal::LinkExit(..) => self.accept_exit(from, signal),
            Signal::Monitor(monitor) => self.keep(from, monitor),
            Signal::Demonitor(monitor) => Ok(self.forget(from, monitor)),
            Signal::Down(monitor, reason) => self.down(from, monitor, reason),
            Signal::AliveAsk(question) => Ok(Outcome::Asked(question)),
            Signal::AliveSay(question, alive) => self.queue(Item::Alive(question, from, alive)),
        }
    }

    /// The reason with which it would exit by this signal, if it would.
    pub fn would_end(&self, from: Pid, signal: &Signal) -> Option<Reason>
        ensures { result ≡ (handle self.now.me self.now.state from signal.now).ending }
    {
        let exit = self.exit_signal(from, signal)?;
        match self.verdict(exit) {
            Verdict::Ends(reason) => Some(reason),
            Verdict::Drops | Verdict::Queues(_) => None,
        }
    }

    /// The first matching item, with its place among those that wait: Erlang Reference Manual, chapter Expressions,
    /// section Receive.
    pub fn first(&self, pick: Pick) -> Option<(usize, Item)>
        ensures { IsFirst (fits pick) self.now.state.waiting result }
    {
        self.waiting.first(pick)
    }

    /// The place of the first matching item among those that wait; `take_at` takes it.
    #[inline(always)]
    pub fn place(&self, pick: Pick) -> Option<usize>
        ensures { IsFirstPlace (fits pick) self.now.state.waiting result }
    {
        if self.waiting.head_fits(pick) {
            return Some(0);
        }
        self.waiting.position(pick)
    }

    /// Takes the item at a place; the others stay, in order.
    #[inline(always)]
    pub fn take_at(&mut self, place: usize) -> Item
        requires { place < length self.old.state.waiting }
        ensures item { slice_get self.old.state.waiting place ≡ Some result }
        ensures rest { self.new
            ≡ record self.old { state = record self.old.state { waiting = remove self.old.state.waiting place } } }
    {
        self.waiting.take_at(place)
    }

    /// Takes the first matching item; the others stay, in order.
    pub fn take(&mut self, pick: Pick) -> Option<Item>
        ensures item { result ≡ find (fits pick) self.old.state.waiting }
        ensures rest { self.new
            ≡ record self.old {
              state = record self.old.state {
                waiting = without_first
                    (fits pick) self.old.state.waiting;
              };
            } }
    {
        match self.first(pick) {
            Some((place, _)) => Some(self.take_at(place)),
            None => None,
        }
    }

    /// Makes room, so that the next link needs no memory. Fails only if there is none.
    pub fn room(&mut self) -> Result<(), AllocError>
        ensures me { self.new.me ≡ self.old.me }
        ensures state { self.new.state ≡ self.old.state }
        ensures ok { OnOk result (0 < self.new.room) }
        ensures kept { self.old.room ≤ self.new.room }
    {
        self.links.reserve()
    }

    /// Makes its own half of a link: the id joins the entry of the peer, which has at most two, or makes one.
    ///
    /// Fails only if it holds no link with the peer, there is no room, and no memory for more.
    #[inline(always)]
    pub fn add_link(&mut self, peer: Pid, id: LinkId) -> Result<(), AllocError>
        ensures me { self.new.me ≡ self.old.me }
        ensures state { OnOk result (self.new.state ≡ say self.old.state peer (Signal.Link id)) }
        ensures err { OnErr result (self.new.state ≡ self.old.state) }
        ensures adds { OnErr result (held self.old.state.links peer ≡ None) }
        ensures succeeds { 0 < self.old.room → IsOk result }
    {
        match self.links.get(&peer) {
            Some(ids) => {
                self.links.set(peer, ids.and(id));
                Ok(())
            }
            None => self.links.push(peer, Ids::of(id)),
        }
    }

    /// Removes the whole entry of the peer, and returns its ids.
    pub fn cut_link(&mut self, peer: Pid) -> Option<Ids>
        ensures me { self.new.me ≡ self.old.me }
        ensures ids { result ≡ held self.old.state.links peer }
        ensures state { self.new.state
            ≡ record self.old.state { links = remove_entry (same_pid peer) self.old.state.links } }
        ensures said { IfSome result (λ ids. self.new.state ≡ say self.old.state peer (Signal.Unlink ids)) }
        ensures none { IfNone result (self.new.state ≡ self.old.state) }
        ensures room { self.old.room ≤ self.new.room }
    {
        self.links.remove(&peer)
    }

    /// Makes its own half of a monitor: the reference is open from now on. If it is open already, it stays as it is.
    ///
    /// Fails only if the reference is not open and there is no memory for it.
    pub fn add_monitor(&mut self, monitor: Ref, target: Pid) -> Result<(), AllocError>
        ensures me { self.new.me ≡ self.old.me }
        ensures state { lookup (same_ref monitor) self.old.state.watching ≡ None
            → OnOk result (self.new.state ≡ say self.old.state target (Signal.Monitor monitor)) }
        ensures open { IsSome (lookup (same_ref monitor) self.old.state.watching)
            → IsOk result × (self.new.state ≡ self.old.state) }
        ensures err { OnErr result (self.new.state ≡ self.old.state) }
    {
        if self.watching(monitor) {
            return Ok(());
        }
        self.watching.push(monitor, target)
    }

    /// Closes its open monitor of this reference, and returns its target.
    pub fn cut_monitor(&mut self, monitor: Ref) -> Option<Pid>
        ensures me { self.new.me ≡ self.old.me }
        ensures target { result ≡ lookup (same_ref monitor) self.old.state.watching }
        ensures state { self.new.state ≡ say self.old.state self.old.me (Signal.Demonitor monitor) }
        ensures none { IfNone result (self.new.state ≡ self.old.state) }
        ensures room { self.old.room ≤ self.new.room }
    {
        self.watching.remove(&monitor)
    }

    /// Notes that it sends a signal: a link is held, or held no more, a monitor is open, or open no more. No other
    /// signal that it sends changes it. A reference that is open already stays as it is.
    ///
    /// Fails only if [`add_link`](Process::add_link) or [`add_monitor`](Process::add_monitor) would.
    pub fn say(&mut self, to: Pid, signal: Signal) -> Result<(), AllocError>
        ensures me { self.new.me ≡ self.old.me }
        ensures state { IsAnew signal self.old.state → OnOk result (self.new.state ≡ say self.old.state to signal) }
        ensures err { OnErr result (self.new.state ≡ self.old.state) }
    {
        match signal {
            Signal::Link(id) => self.add_link(to, id)?,
            Signal::Unlink(ids) => self.cut_ids(to, ids),
            Signal::Monitor(monitor) => self.add_monitor(monitor, to)?,
            Signal::Demonitor(monitor) => {
                let _ = self.cut_monitor(monitor);
            }
            _ => {}
        }
        Ok(())
    }

    /// Sets whether it traps exits, and returns whether it did before.
    pub fn set_trap(&mut self, on: bool) -> bool
        ensures before { result ≡ self.old.state.traps }
        ensures after { self.new ≡ record self.old { state = record self.old.state { traps = on } } }
    {
        let before = self.traps;
        self.traps = on;
        before
    }

    /// What it leaves when it exits with this reason: what it owes, and the items that wait.
    pub fn estate(self, reason: Reason) -> Estate
        ensures { result ≡ owing_of self.me self.state reason }
    {
        let Process {
            me,
            waiting,
            links,
            watching,
            kept,
            traps: _,
        } = self;
        Estate {
            me,
            reason,
            links: links.into_rows(),
            kept: kept.into_rows(),
            watching: watching.into_rows(),
            waiting,
        }
    }

    #[inline(always)]
    fn queue(&mut self, item: Item) -> Result<Outcome, AllocError>
        ensures { Accepts self.old (queued item self.old.state) result self.new }
    {
        self.waiting.push(item)?;
        Ok(Outcome::Queued)
    }

    #[inline(never)]
    fn enter(&mut self, from: Pid, id: LinkId) -> Result<Outcome, AllocError>
        ensures { Accepts self.old (handle self.old.me self.old.state from (Signal.Link id)) result self.new }
    {
        if self.has_two(from) {
            return Ok(Outcome::Dropped);
        }
        self.add_link(from, id)?;
        Ok(Outcome::Changed)
    }

    #[inline(always)]
    fn has_two(&self, peer: Pid) -> bool
        ensures { result ≡ has_two (held self.now.state.links peer) }
    {
        match self.links.get(&peer) {
            Some(ids) => ids.two.is_some(),
            None => false,
        }
    }

    #[inline(never)]
    fn cut(&mut self, from: Pid, named: Ids) -> Outcome
        ensures { Accepts {E = ⊥} self.old (handle self.old.me self.old.state from (Signal.Unlink named))
            (Ok result) self.new }
    {
        if self.holds_any(from, named) {
            self.cut_ids(from, named);
            Outcome::Changed
        } else {
            Outcome::Dropped
        }
    }

    #[inline(always)]
    fn cut_ids(&mut self, from: Pid, named: Ids)
        ensures me { self.new.me ≡ self.old.me }
        ensures state { self.new.state ≡ record self.old.state { links = cut from named self.old.state.links } }
    {
        let Some(ids) = self.links.get(&from) else {
            return;
        };
        match ids.without(named) {
            Some(left) => self.links.set(from, left),
            None => {
                self.links.remove(&from);
            }
        }
    }

    #[inline(always)]
    fn holds_any(&self, peer: Pid, named: Ids) -> bool
        ensures { result ≡ holds_any (held self.now.state.links peer) named }
    {
        match self.links.get(&peer) {
            Some(ids) => ids.shares(named),
            None => false,
        }
    }

    /// The exit signal that a signal is, if it is one. Of a link that is not held it is none.
    #[inline(always)]
    fn exit_signal(&self, from: Pid, signal: &Signal) -> Option<ExitSignal>
        ensures { result ≡ exit_of self.now.state from signal.now }
    {
        let (reason, by_link) = match *signal {
            Signal::Exit(reason) => (reason, false),
            Signal::LinkExit(ids, reason) if self.holds_any(from, ids) => (reason, true),
            _ => return None,
        };
        Some(ExitSignal {
            from,
            reason,
            by_link,
        })
    }

    fn verdict(&self, exit: ExitSignal) -> Verdict
        ensures { ruled result
            ≡ verdict exit.by_link self.now.state.traps (same_pid exit.from self.now.me) exit.from exit.reason }
    {
        exit.verdict(self.traps, exit.from == self.me)
    }

    #[inline(never)]
    fn accept_exit(&mut self, from: Pid, signal: Signal) -> Result<Outcome, AllocError>
        requires { IsExit signal }
        ensures { Accepts self.old (handle self.old.me self.old.state from signal) result self.new }
    {
        let Some(exit) = self.exit_signal(from, &signal) else {
            return Ok(Outcome::Dropped);
        };
        let verdict = self.verdict(exit);
        if exit.by_link {
            self.obey_link(from, verdict)
        } else {
            self.obey(verdict)
        }
    }

    fn obey(&mut self, verdict: Verdict) -> Result<Outcome, AllocError>
        ensures { Accepts self.old (obey (ruled verdict) self.old.state) result self.new }
    {
        match verdict {
            Verdict::Drops => Ok(Outcome::Dropped),
            Verdict::Queues(item) => self.queue(item),
            Verdict::Ends(reason) => Ok(Outcome::Ends(reason)),
        }
    }

    /// Removes the entry of a linked process, for any verdict on its exit signal.
    fn obey_link(&mut self, from: Pid, verdict: Verdict) -> Result<Outcome, AllocError>
        requires { IsSome (held self.old.state.links from) }
        ensures { Accepts self.old
            (obey (ruled verdict) (record self.old.state { links = remove_entry (same_pid from) self.old.state.links }))
            result self.new }
    {
        match verdict {
            Verdict::Drops => {
                self.links.remove(&from);
                Ok(Outcome::Changed)
            }
            Verdict::Queues(item) => {
                self.waiting.push(item)?;
                self.links.remove(&from);
                Ok(Outcome::Queued)
            }
            Verdict::Ends(reason) => {
                self.links.remove(&from);
                Ok(Outcome::Ends(reason))
            }
        }
    }

    #[inline(never)]
    fn keep(&mut self, from: Pid, monitor: Ref) -> Result<Outcome, AllocError>
        ensures { Accepts self.old (handle self.old.me self.old.state from (Signal.Monitor monitor)) result self.new }
    {
        if self.keeps(monitor, from) {
            return Ok(Outcome::Dropped);
        }
        self.add_kept(monitor, from)?;
        Ok(Outcome::Changed)
    }

    #[inline(never)]
    fn forget(&mut self, from: Pid, monitor: Ref) -> Outcome
        ensures { Accepts {E = ⊥} self.old (handle self.old.me self.old.state from (Signal.Demonitor monitor))
            (Ok result) self.new }
    {
        if self.keeps(monitor, from) {
            self.cut_kept(monitor, from);
            Outcome::Changed
        } else {
            Outcome::Dropped
        }
    }

    fn keeps(&self, monitor: Ref, watcher: Pid) -> bool
        ensures { result ≡ list_any (same_watch monitor watcher) self.now.state.kept }
    {
        self.kept.get(&(monitor, watcher)).is_some()
    }

    fn add_kept(&mut self, monitor: Ref, watcher: Pid) -> Result<(), AllocError>
        requires { list_any (same_watch monitor watcher) self.old.state.kept ≡ false }
        ensures me { self.new.me ≡ self.old.me }
        ensures state { OnOk result
            (self.new.state ≡ record self.old.state { kept = self.old.state.kept ++ (monitor, watcher) ∷ [] }) }
        ensures err { OnErr result (self.new.state ≡ self.old.state) }
    {
        self.kept.push((monitor, watcher), ())?;
        Ok(())
    }

    fn cut_kept(&mut self, monitor: Ref, watcher: Pid)
        ensures me { self.new.me ≡ self.old.me }
        ensures state { self.new.state
            ≡ record self.old.state { kept = without_first (same_watch monitor watcher) self.old.state.kept } }
    {
        self.kept.remove(&(monitor, watcher));
    }

    #[inline(never)]
    fn down(&mut self, from: Pid, monitor: Ref, reason: Reason) -> Result<Outcome, AllocError>
        ensures { Accepts self.old
            (handle self.old.me self.old.state from (Signal.Down monitor reason)) result self.new }
    {
        if !self.watching(monitor) {
            return Ok(Outcome::Dropped);
        }
        self.waiting.push(Item::Down(monitor, from, reason))?;
        self.cut_monitor(monitor);
        Ok(Outcome::Queued)
    }
}
