//! A settled node without the list of its processes.

ghost use Rattle.pt_signal.specs.declared.config.TheConstants.{MAX_DESKS, MAX_STAMP};
ghost use Rattle.std.specs.Prelude.{◌≡◌, ◌<◌, ◌≤◌, ℕ, [], ◌++◌, length, slice_get, slice_index_or, reverse, is_some};
ghost use Rattle.std.specs.Prelude.{IfOk, IfErr, IfSome, OnOk};
ghost use Rattle.std.specs.Map.{lookup};
ghost use Rattle.std.specs.List.{list_any};
ghost use Rattle.pt_signal.specs.Values.{same_ref};
ghost use Rattle.pt_signal.specs.Process.{held};
ghost use Rattle.pt_events.specs.History.{IsLegal, Past, life, state, open_monitors};
ghost use Rattle.pt_events.specs.Journal.{IsMerge, clock, events};
ghost use Rattle.pt_laws.specs.Laws.{LegalWithLeftOver};
ghost use Rattle.pt_laws.specs.Load.{IsQuiet};
ghost use Rattle.pt_accounts.specs.DeskLives.{DeskTable};
ghost use Rattle.pt_accounts.specs.LivesState.{AreAllPids, InEveryMerge, account_in};
ghost use Rattle.pt_shard.specs.ShardState.{ShardState};
ghost use Rattle.std.specs.Option.{option_copied};
ghost use Rattle.pt_gathered.specs.Gathered.{IsGathered, begins, journals, lost_on, over};
ghost use Rattle.pt_gathered.specs.Keeping.{IsKeptFor};
ghost use Rattle.pt_gathered.specs.Tables.{IsTold};
ghost use Rattle.pt_gathered.specs.Quiet.{AreBornLater, AreInTurn, IsSettled, latest_stamp, ends_of};
ghost use Rattle.pt_gathered.specs.Late.{AreEndsSince, may_end, late_end, ends_in, ends_since};
ghost use Rattle.pt_events.specs.Since.{after_oldest};
ghost use Rattle.pt_gathered.specs.Settling.{NothingLeft};
ghost use Rattle.pt_gathered.specs.Lawful.{LanesKeep, KeepsHeadline, IsQuietNode, LinksStand, WatchesStand};
ghost use Rattle.pt_gathered.specs.Lawful.{HoldingsStand, AnswersHold, QuestionsAnswered, BeginsAgain};
ghost use Rattle.pt_gathered.specs.Pasts.{GoesOnFrom, IsQuietWhole, BeginsAgainAfter, IsQuietOutline};
ghost use Rattle.pt_gathered.specs.Pasts.{OutlinesAgainAfter};

use crate::at_rest::AtRest;
use crate::gathered::Gathered;
use crate::kept::Kept;
use crate::node_laws::laws_of_node;
use crate::quiet::Quiet;
use pt_accounts::{Account, DeskLives, Lives};
use pt_events::{Event, Journal, Stamped};
use pt_shard::{Config, Loss, Shard};
use pt_signal::{Ids, Pid, Ref, Signal};
use std::alloc::{AllocError, Global};
use std::marker::Model;

/// A node in which no letter is left over, as [`Gathered::settle_unlisted`] leaves it: a [`Quiet`] node without the
/// list of all its processes.
///
/// It has what a program takes between two epochs: the history, the number of letters handled, what became of each
/// process, and what resuming takes. [`into_quiet`](Settled::into_quiet) makes the quiet node of it. What it returns of a
/// process holds in every merge of the journals. Only `history`, `latest_ends`, `ends_since` and `into_quiet` take
/// memory.
#[derive(Drop)]
pub struct Settled {
    node: AtRest,
    handled: u64,
    lives: Lives,
    directory: Option<Kept>,
}

impl Model for Settled {
    ghost use Rattle.std.specs.Prelude.{IfSome};
    ghost use Rattle.pt_gathered.specs.Keeping.{IsKeptFor};
    ghost use Rattle.pt_gathered.specs.Quiet.{QuietState, IsSettled};

    ghost Value = { QuietState };

    ghost view = { λ s. record { gathered = s.node; handled = s.handled; lives = s.lives } };

    ghost invariant = { λ s. IsSettled s.node s.lives × IfSome s.directory (λ k. IsKeptFor s.node k) };
}

/// For each desk the processes whose exit is the latest of their slot, by slot, each with this stamp.
fn ends_of(alloc: Global, desks: &[DeskLives], stamp: u64) -> Result<Vec<(Pid, u64)>, AllocError>
    ensures { IfOk result (λ ends. ends.items ≡ ends_of stamp desks.now) }
{
    let mut ends = Vec::new(alloc);
    for which in 0..desks.len() {
        desks[which].latest_ends(stamp, &mut ends)?;
    }
    Ok(ends)
}

/// The process that the event may end: the one that gets an exit signal, or exits.
fn may_end(event: Event) -> Option<Pid>
    ensures { result ≡ may_end event }
{
    match event {
        Event::Came(_, to, Signal::Exit(_)) => Some(to),
        Event::Came(_, to, Signal::LinkExit(_, _)) => Some(to),
        Event::Left(pid, _) => Some(pid),
        _ => None,
    }
}

/// Adds this process with the stamp, if the table says that it has exited.
fn add_end(
    table: &DeskLives,
    pid: Option<Pid>,
    stamp: u64,
    ends: &mut Vec<(Pid, u64)>,
) -> Result<(), AllocError>
    ensures { OnOk result (ends.new.items ≡ ends.old.items ++ late_end table.now stamp pid) }
{
    let Some(pid) = pid else {
        return Ok(());
    };
    match table.account(pid) {
        Some(account) if account.ended.is_some() => {
            ends.push((pid, stamp))?;
            Ok(())
        }
        _ => Ok(()),
    }
}

/// Adds the processes that the events of the journal from this place on may have ended, and that have exited.
fn add_ends(
    table: &DeskLives,
    journal: &Journal,
    place: usize,
    stamp: u64,
    ends: &mut Vec<(Pid, u64)>,
) -> Result<(), AllocError>
    ensures { OnOk result
        (ends.new.items ≡ ends.old.items ++ ends_in table.now stamp (after_oldest place journal.now.past)) }
{
    let events = journal.events();
    for k in place.min(events.len())..events.len() {
        add_end(table, may_end(events[k].event), stamp, ends)?;
    }
    Ok(())
}

/// The place that the list has for this desk, or 0 if it has none.
fn place_of(places: &[usize], desk: usize) -> usize
    ensures { result ≡ slice_index_or places.now desk 0 }
{
    if desk < places.len() { places[desk] } else { 0 }
}

impl Settled {
    pub(crate) fn of(
        node: AtRest,
        handled: u64,
        tables: Vec<DeskLives>,
        directory: Option<Kept>,
    ) -> Settled
        requires settled { IsSettled node tables.items }
        requires kept { IfSome directory (λ k. IsKeptFor node k) }
        ensures { result ≡ record { gathered = node; handled = handled; lives = tables.items } }
    {
        Settled {
            node,
            handled,
            lives: Lives::of(tables),
            directory,
        }
    }

    /// The quiet node, with the list of all processes ever spawned. Fails only if there is no memory for the list: the
    /// settled node then comes back, as it was.
    pub fn into_quiet(self) -> Result<Quiet, Settled>
        ensures quiet { IfOk result (λ quiet. quiet ≡ self) }
        ensures back { IfErr result (λ back. back ≡ self) }
    {
        match self.list() {
            Ok(pids) => Ok(Quiet::of(self, pids)),
            Err(_) => Err(self),
        }
    }

    /// The pids of all processes ever spawned.
    fn list(&self) -> Result<Vec<Pid>, AllocError>
        ensures { IfOk result
            (λ pids. InEveryMerge (journals self.now.gathered)
            (λ past. AreAllPids (begins self.now.gathered) past pids.items)) }
    {
        self.lives.list(self.node.alloc())
    }

    pub(crate) fn node(&self) -> &AtRest
        ensures { result.now ≡ self.now.gathered }
    {
        &self.node
    }

    /// The gathered node, as settling left it.
    pub(crate) fn into_gathered(self) -> Gathered
        ensures { result ≡ self.gathered }
    {
        let Settled {
            node,
            lives,
            directory,
            ..
        } = self;
        Gathered::with(node, lives.into_desks(), directory)
    }

    /// Takes out what was kept of the node's directory, if it is still there, so that resuming makes no directory anew.
    /// The node stays as it was.
    pub fn take_kept(&mut self) -> Option<Kept>
        ensures same { self.new ≡ self.old }
        ensures kept { IfSome result (λ k. IsKeptFor self.old.gathered k) }
    {
        self.directory.take()
    }

    /// The number of letters handled, staying at `u64::MAX` once it is reached.
    pub fn handled(&self) -> u64
        ensures { result ≡ self.now.handled }
    {
        self.handled
    }

    /// The events of all desks in the order of stamp, then desk: a legal history with no letter in flight. Put after
    /// what the node continues from, it is such a history from the very beginning on. Fails only if there is no memory.
    pub fn history(&self) -> Result<Vec<Stamped>, AllocError>
        ensures merge { IfOk result (λ h. IsMerge (journals self.now.gathered) (reverse h.items)) }
        ensures legal { IfOk result
            (λ h. LegalWithLeftOver (begins self.now.gathered) (reverse h.items) (over self.now.gathered)) }
        ensures quiet { IfOk result (λ h. IsQuiet (begins self.now.gathered) (events (reverse h.items))) }
        ensures whole { IfOk result (λ h. (past : Past) → GoesOnFrom past self.now.gathered
            → IsLegal [] (events (reverse h.items) ++ past) × IsQuiet [] (events (reverse h.items) ++ past)) }
    {
        self.laws();
        self.node.history()
    }

    /// The number of desks of the node.
    pub fn desks(&self) -> u8
        ensures count { result ≡ length self.now.gathered.shards }
        ensures few { length self.now.gathered.shards ≤ MAX_DESKS }
        ensures gathered { IsGathered self.now.gathered }
    {
        self.node.desks()
    }

    /// The loss with this number among those that a desk kept and nobody was told of, the oldest first, with what was
    /// lost while the node was settled. `None` if there are not so many, or no such desk.
    pub fn loss(&self, desk: u8, place: usize) -> Option<&Loss>
        ensures { option_copied result ≡ slice_get (lost_on (slice_get self.now.gathered.shards desk)) place }
    {
        self.node.loss(desk, place)
    }

    /// The settings of the node.
    pub fn config(&self) -> Config
        ensures { result ≡ self.now.gathered.config }
    {
        self.node.config()
    }

    /// The greatest stamp of the history, or the number above which stamps began if nothing happened.
    pub fn clock(&self) -> u64
        ensures latest { result ≡ latest_stamp self.now.gathered }
        ensures journals { (d : ℕ) → clock self.now.gathered.config.start (journals self.now.gathered d) ≤ result }
        ensures shards { (d : ℕ) (x : ShardState) → d < length self.now.gathered.shards
            → (slice_index_or self.now.gathered.shards d x).clock ≤ result }
        ensures within { 0 < length self.now.gathered.shards → result ≤ MAX_STAMP }
    {
        // read for the proof alone: it says what holds of every gathered node
        let _desks = self.node.desks();
        self.node.clock()
    }

    /// The processes whose exit is the latest of their slot, by shard and slot, each with this stamp. Fails only if
    /// there is no memory.
    pub fn latest_ends(&self, stamp: u64) -> Result<Vec<(Pid, u64)>, AllocError>
        ensures { IfOk result (λ ends. ends.items ≡ ends_of stamp self.now.lives) }
    {
        ends_of(self.node.alloc(), self.lives.desks(), stamp)
    }

    /// The processes that exited since these places in the journals, each with this stamp. A desk's place is how many of
    /// its events there were before, or 0 if the list has no place for the desk.
    ///
    /// Each event from the place on by which a process exited or got an exit signal adds that process, if it has exited.
    /// So a process may come twice, and one that had exited before comes again if it got an exit signal since. They come
    /// by desk, and those of a desk in the order of its events.
    ///
    /// Time grows with the events from the places on, and memory with the processes returned. A slot costs nothing. Fails
    /// only if there is no memory.
    pub fn ends_since(&self, places: &[usize], stamp: u64) -> Result<Vec<(Pid, u64)>, AllocError>
        ensures ends { IfOk result (λ ends. ends.items ≡ ends_since self.now places.now stamp) }
        ensures since { IfOk result (λ ends. AreEndsSince self.now.gathered places.now stamp ends.items) }
    {
        // read for the proof alone: it says what holds of every gathered node
        let _desks = self.node.desks();
        let mut ends = Vec::new(self.node.alloc());
        for which in 0..self.node.shards().len() {
            let journal = self.node.shards()[which].journal();
            let place = place_of(places, which);
            add_ends(&self.lives.desks()[which], journal, place, stamp, &mut ends)?;
        }
        Ok(ends)
    }

    /// The desks, in order of number, and for each desk the table of what became of its processes.
    pub fn into_parts(self) -> (Config, Vec<Shard>, Vec<DeskLives>)
        ensures config { result.0 ≡ self.gathered.config }
        ensures shards { result.1.items ≡ self.gathered.shards }
        ensures lives { result.2.items ≡ self.lives }
        ensures count { length self.lives ≡ length self.gathered.shards }
        ensures told { (d : ℕ) (x : ShardState) (t : DeskTable) → d < length self.gathered.shards
            → IsTold (slice_index_or self.gathered.shards d x) (slice_index_or self.lives d t) }
    {
        // read for the proof alone: it says what holds of every gathered node
        let _desks = self.node.desks();
        let Settled { node, lives, .. } = self;
        let (config, shards) = node.into_parts();
        (config, shards, lives.into_desks())
    }

    /// What holds for each process spawned on a desk: it is of one of its slots, and those before it in that slot have
    /// exited. The latest stamp is not 0. Each table has what the desk's journal says. The function does nothing: its
    /// contract is the promise.
    pub fn versions(&self)
        ensures turns { AreInTurn self.now.gathered.shards }
        ensures later { AreBornLater self.now.gathered }
        ensures gathered { IsGathered self.now.gathered }
        ensures count { length self.now.lives ≡ length self.now.gathered.shards }
        ensures told { (d : ℕ) (x : ShardState) (t : DeskTable) → d < length self.now.gathered.shards
            → IsTold (slice_index_or self.now.gathered.shards d x) (slice_index_or self.now.lives d t) }
    {
        // read for the proof alone: it says what holds of every gathered node
        let _desks = self.node.desks();
        self.node.versions();
    }

    /// What the laws of histories say of a node with no letter in flight, for a caller that has only the settled node.
    /// The function does nothing: its contract is the promise.
    pub fn laws(&self)
        ensures nothing_left { NothingLeft self.now.gathered }
        ensures lanes { LanesKeep self.now.gathered }
        ensures headline { KeepsHeadline self.now.gathered }
        ensures quiet { IsQuietNode self.now.gathered }
        ensures links { LinksStand self.now.gathered }
        ensures watches { WatchesStand self.now.gathered }
        ensures held { HoldingsStand self.now.gathered }
        ensures answers { AnswersHold self.now.gathered }
        ensures questions { QuestionsAnswered self.now.gathered }
        ensures again { BeginsAgain self.now.gathered }
        ensures whole { IsQuietWhole self.now.gathered }
        ensures after { BeginsAgainAfter self.now.gathered }
        ensures outline { IsQuietOutline self.now.gathered }
        ensures outline_after { OutlinesAgainAfter self.now.gathered }
    {
        laws_of_node(&self.node);
    }

    /// Why the process exited, if it has, and how many items arrived in its mailbox, were taken, and wait or were left
    /// at its exit. `None` exactly if it was never spawned. In a node that was resumed the counts begin with what
    /// waited then. They are 0 for a process that had exited before.
    pub fn account(&self, pid: Pid) -> Option<Account>
        ensures { InEveryMerge (journals self.now.gathered)
            (λ past. result ≡ account_in (begins self.now.gathered) past pid) }
    {
        self.lives.account(pid)
    }

    /// The ids under which a process is linked with another one, or was just after its own exit. None if it had exited
    /// before the node was resumed.
    pub fn linked(&self, pid: Pid, peer: Pid) -> Option<Ids>
        ensures { InEveryMerge (journals self.now.gathered)
            (λ past. result ≡ held (state (begins self.now.gathered) past pid).links peer) }
    {
        self.lives.linked(pid, peer)
    }

    /// Whether a process is watched under this reference: Erlang's `monitored_by` of `process_info`, of one monitor. For
    /// an exited process, whether it was at its exit. False if it had exited before the node was resumed.
    pub fn kept(&self, target: Pid, monitor: Ref) -> bool
        ensures { InEveryMerge (journals self.now.gathered)
            (λ past.
            result ≡ list_any (λ k. same_ref monitor k.0) (state (begins self.now.gathered) past target).kept) }
    {
        self.lives.kept(target, monitor)
    }

    /// Whether a process's monitor of this reference is open: Erlang's `monitors` of `process_info`, of one monitor. False
    /// once the process has exited.
    pub fn watching(&self, watcher: Pid, monitor: Ref) -> bool
        ensures { InEveryMerge (journals self.now.gathered)
            (λ past.
            result
            ≡ is_some (lookup (same_ref monitor) (open_monitors (life (begins self.now.gathered) past watcher)))) }
    {
        self.lives.watching(watcher, monitor)
    }
}
