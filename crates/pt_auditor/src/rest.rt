//! A history at rest, from which another one goes on.

ghost use Rattle.std.specs.Prelude.{◌≡◌, ◌+◌, ◌-◌, ◌∷◌, ◌++◌, [], List, None, true, IfOk, OnOk, IsPermutation};
ghost use Rattle.std.specs.Map.{keys_of};
ghost use Rattle.pt_events.specs.declared.event.Stamped.{Stamped};
ghost use Rattle.pt_signal.specs.Process.{fresh};
ghost use Rattle.pt_events.specs.History.{ended, is_living, living, state_of};
ghost use Rattle.pt_judge.specs.Judging.{now_is};
ghost use Rattle.pt_auditor.specs.Hearings.{Heard, IsHeard};
ghost use Rattle.pt_auditor.specs.Rests.{AreResidents, IsAdded, IsDrained, IsListed, IsRestOf, IsRestless, IsTakenOut, LeavesRest};
ghost use Rattle.pt_auditor.specs.Rests.{ended_run, holds_so, lives_in, run_with};
ghost use Rattle.pt_auditor.specs.Rests.{stamp_of};

use crate::clocks::Clocks;
use crate::desks::Desks;
use crate::hearing::let_go;
use crate::seen::SeenExits;
use crate::{Foreign, Hearing};
use pt_events::{Event, Stamped};
use pt_judge::{Holding, State};
use pt_signal::{Ids, Item, Pid, Reason, Ref, Signal};
use std::alloc::{AllocError, Global};
use std::collections::VecDeque;

/// What became of a process of a history at rest, or of several that ended alike.
#[derive(Drop)]
pub enum Resident {
    /// It lives, and holds this.
    Lives(Pid, Holding),
    /// The processes of its slot, from this one up to the one with this version, have exited for this reason.
    Ended(Pid, u32, Reason),
}

/// What is known of a history at rest, so that another one can go on from it: what became of its processes, the clocks of
/// its desks, and which exits these have seen.
///
/// It knows no ids of links and no references. A node never makes one again.
pub struct Rest {
    /// The number of events, up to the greatest number of 64 bits.
    pub(crate) events: u64,
    /// One more than the greatest desk of an event.
    pub(crate) desks: u16,
    /// The last event.
    pub(crate) last: Option<Stamped>,
    /// Whether all clocks may have stood just below the stamp of the last event before the first event of that stamp.
    pub(crate) begun: bool,
    /// The stamp of each desk's newest event.
    pub(crate) clocks: Clocks,
    /// Which exits each desk has seen.
    pub(crate) seen: SeenExits,
    /// The processes, in the order of their pids.
    pub(crate) residents: VecDeque<Resident>,
}

// By hand, so that each drop of it is a call: a derived drop is proved field by field at each place that drops a value.
impl Drop for Rest {
    fn drop(self) {
        let Rest {
            events: _,
            desks: _,
            last: _,
            begun: _,
            clocks: _,
            seen: _,
            residents: _,
        } = self;
    }
}

/// Why nothing can go on from a history.
#[derive(Clone, Copy, Debug, PartialEq, Eq)]
pub enum Restless {
    /// The last line has no line feed.
    Line,
    /// Letters are on their way.
    Letters,
    /// No node prints the history. This is the first line that none prints.
    OfNoNode(Foreign),
    /// There was no memory.
    Memory,
}

/// The pids of all processes that were born.
fn born(alloc: Global, state: &State) -> Result<Vec<Pid>, AllocError>
    ensures { IfOk result (λ pids. pids.items ≡ keys_of state.now.lives) }
{
    let mut pids = Vec::new(alloc);
    for number in 0..usize::MAX {
        match state.born(number) {
            Some(pid) => pids.push(pid)?,
            None => return Ok(pids),
        }
    }
    Err(AllocError)
}

/// The same, in order.
fn sorted(alloc: Global, state: &State) -> Result<VecDeque<Pid>, AllocError>
    ensures { IfOk result (λ pids. IsPermutation (keys_of state.now.lives) pids.items) }
{
    let mut pids = born(alloc, state)?;
    pids.sort_unstable();
    Ok(VecDeque::from_vec(pids))
}

/// A copy of the items.
fn copied(alloc: Global, items: &[Item]) -> Result<Vec<Item>, AllocError>
    ensures { IfOk result (λ copy. copy.items ≡ items.now) }
{
    let mut copy = Vec::new(alloc);
    for place in 0..items.len() {
        copy.push(items[place])?;
    }
    Ok(copy)
}

/// What a process that ends now would leave to others: its links, the watches that it keeps, and its own monitors.
struct Estate {
    links: Vec<(Pid, Ids)>,
    kept: Vec<(Ref, Pid)>,
    watching: Vec<(Ref, Pid)>,
}

// By hand, so that each drop of it is a call: a derived drop is proved field by field at each place that drops a value.
impl Drop for Estate {
    fn drop(self) {
        let Estate {
            links: _,
            kept: _,
            watching: _,
        } = self;
    }
}

impl Estate {
    fn new(alloc: Global) -> Estate
        ensures links { result.links.items ≡ [] }
        ensures kept { result.kept.items ≡ [] }
        ensures watching { result.watching.items ≡ [] }
    {
        Estate {
            links: Vec::new(alloc),
            kept: Vec::new(alloc),
            watching: Vec::new(alloc),
        }
    }

    /// Adds what a signal says that goes to the process when the other ends.
    fn add(&mut self, to: Pid, signal: Signal) -> Result<(), AllocError>
        ensures { OnOk result (IsAdded to signal self.old self.new) }
    {
        match signal {
            Signal::LinkExit(ids, _) => self.links.push((to, ids))?,
            Signal::Down(monitor, _) => self.kept.push((monitor, to))?,
            Signal::Demonitor(monitor) => self.watching.push((monitor, to))?,
            _ => {}
        }
        Ok(())
    }

    /// What a process holds that leaves this, where these items wait.
    fn held(self, waiting: Vec<Item>, traps: bool) -> Holding
        ensures { holds_so result ≡ record {
          waiting = waiting.items;
          links = self.links.items;
          watching = self.watching.items;
          kept = self.kept.items;
          traps = traps;
        } }
    {
        let Estate {
            links,
            kept,
            watching,
        } = self;
        Holding {
            waiting,
            links,
            watching,
            kept,
            traps,
        }
    }
}

/// Collects all that is on its way, and takes it off.
fn drained(alloc: Global, state: State) -> Result<(State, Estate), AllocError>
    ensures { IfOk result (λ new. IsDrained state new.0 new.1) }
{
    let mut state = state;
    let mut estate = Estate::new(alloc);
    while let Some((from, to, signal)) = state.front() {
        let Ok(()) = estate.add(to, signal) else {
            let_go(state);
            return Err(AllocError);
        };
        state = state.without_oldest(from, to);
    }
    Ok((state, estate))
}

/// A copy of what waits in the mailbox of a process that lives.
fn waiting(alloc: Global, state: &State, pid: Pid) -> Result<Vec<Item>, AllocError>
    requires { is_living (now_is state.now pid) ≡ true }
    ensures { IfOk result (λ copy. copy.items ≡ (state_of (now_is state.now pid)).waiting) }
{
    match state.waiting(pid) {
        Some(items) => copied(alloc, items),
        None => Ok(Vec::new(alloc)),
    }
}

/// Takes a process that lives out of a state at rest, with what it holds. It ends in what is left.
fn take_out(alloc: Global, state: State, pid: Pid) -> Result<(State, Holding), AllocError>
    requires living { is_living (now_is state pid) ≡ true }
    requires still { state.flights ≡ [] }
    ensures { IfOk result (λ new. IsTakenOut pid state new.0 new.1) }
{
    let Ok(waiting) = waiting(alloc, &state, pid) else {
        let_go(state);
        return Err(AllocError);
    };
    let traps = state.traps(pid);
    let state = state.after(alloc, Event::Left(pid, Reason::Normal))?;
    let (state, estate) = drained(alloc, state)?;
    Ok((state, estate.held(waiting, traps)))
}

/// The run with the process behind it, if that is the next of the slot and ended alike.
fn run_with(run: &Resident, pid: Pid, reason: Reason) -> Option<Resident>
    ensures { result ≡ run_with run.now pid reason }
{
    let Resident::Ended(first, last, why) = run else {
        return None;
    };
    let is_next = first.shard == pid.shard
        && first.slot == pid.slot
        && first.version <= *last
        && *last < pid.version
        && pid.version - *last == 1;
    if is_next && *why == reason {
        Some(Resident::Ended(*first, pid.version, reason))
    } else {
        None
    }
}

/// Puts what became of a process, or of several, behind the others.
pub(crate) fn put(residents: &mut VecDeque<Resident>, resident: Resident) -> Result<(), AllocError>
    ensures { OnOk result (residents.new.items ≡ residents.old.items ++ resident ∷ []) }
{
    residents.push_back(resident)?;
    Ok(())
}

/// Adds a process that ended for this reason.
fn add_end(residents: &mut VecDeque<Resident>, pid: Pid, reason: Reason) -> Result<(), AllocError>
    ensures { OnOk result
        (lives_in residents.new.items ≡ lives_in residents.old.items ++ (pid, ended reason fresh) ∷ []) }
{
    let Some(last) = residents.pop_back() else {
        put(residents, Resident::Ended(pid, pid.version, reason))?;
        return Ok(());
    };
    match run_with(&last, pid, reason) {
        Some(run) => put(residents, run)?,
        None => {
            put(residents, last)?;
            put(residents, Resident::Ended(pid, pid.version, reason))?;
        }
    }
    Ok(())
}

/// Adds what became of the process. If it lives, it is taken out of the state.
fn list(
    alloc: Global,
    state: State,
    residents: &mut VecDeque<Resident>,
    pid: Pid,
) -> Result<State, AllocError>
    requires { state.flights ≡ [] }
    ensures { IfOk result (λ new. IsListed pid state residents.old.items new residents.new.items) }
{
    if let Some(reason) = state.ended(pid) {
        let Ok(()) = add_end(residents, pid, reason) else {
            let_go(state);
            return Err(AllocError);
        };
        return Ok(state);
    }
    if !state.alive(pid) {
        return Ok(state);
    }
    let (state, holding) = take_out(alloc, state, pid)?;
    let Ok(()) = put(residents, Resident::Lives(pid, holding)) else {
        let_go(state);
        return Err(AllocError);
    };
    Ok(state)
}

/// Adds what became of these processes, and takes those that live out of the state.
fn list_all(
    alloc: Global,
    state: State,
    pids: &mut VecDeque<Pid>,
    residents: &mut VecDeque<Resident>,
) -> Result<State, AllocError>
    requires still { state.flights ≡ [] }
    requires none { residents.old.items ≡ [] }
    requires all { IsPermutation (keys_of state.lives) pids.old.items }
    ensures { OnOk result (AreResidents state residents.new.items) }
{
    let mut state = state;
    while let Some(pid) = pids.pop_front() {
        state = list(alloc, state, residents, pid)?;
    }
    Ok(state)
}

/// What became of all processes of a state at rest, in the order of their pids.
fn residents_of(alloc: Global, state: State) -> Result<VecDeque<Resident>, AllocError>
    requires { state.flights ≡ [] }
    ensures { IfOk result (λ residents. AreResidents state residents.items) }
{
    let Ok(mut pids) = sorted(alloc, &state) else {
        let_go(state);
        return Err(AllocError);
    };
    let mut residents = VecDeque::new(alloc);
    let_go(list_all(alloc, state, &mut pids, &mut residents)?);
    Ok(residents)
}

/// Why nothing can go on from the history, beside memory.
fn hindrance(hearing: &Hearing) -> Option<Restless>
    ensures why { (heard : Heard) → IsHeard heard hearing.now → IsRestless heard result }
    ensures still { result ≡ None → hearing.now.state.flights ≡ [] }
    ensures of_node { result ≡ None → hearing.now.foreign ≡ None }
{
    if hearing.letters > 0 || hearing.state.in_flight() > 0 {
        return Some(Restless::Letters);
    }
    match hearing.foreign {
        Some(foreign) => Some(Restless::OfNoNode(foreign)),
        None => None,
    }
}

impl Hearing {
    /// What is known of the history, if it is at rest, so that the next one can go on from it. Fails with the first of
    /// these that holds:
    ///
    /// - [`Restless::Letters`]: letters are on their way, or letters left over were read.
    /// - [`Restless::OfNoNode`]: an event is of no node.
    /// - [`Restless::Memory`]: there is no memory.
    pub fn rest(self, alloc: Global) -> Result<Rest, Restless>
        ensures { (heard : Heard) → IsHeard heard self → LeavesRest heard result }
    {
        if let Some(why) = hindrance(&self) {
            return Err(why);
        }
        let last = self.last;
        let events = self.events;
        let desks = self.desks;
        let (state, node) = self.into_parts();
        match residents_of(alloc, state) {
            Ok(residents) => {
                let (clocks, seen, begun) = node.at_rest();
                Ok(Rest {
                    events,
                    desks,
                    last,
                    begun,
                    clocks,
                    seen,
                    residents,
                })
            }
            Err(_) => Err(Restless::Memory),
        }
    }

    /// A hearing that goes on from a rest, or the pid that it has twice. What it hears next comes after the history
    /// that was at rest.
    pub fn over(alloc: Global, rest: Rest) -> Result<Hearing, Unfit>
        ensures { (past : List Stamped) → IsRestOf past rest
            → IfOk result (λ hearing. IsHeard (record { events = past; left = []; since = rest.last }) hearing) }
    {
        rest.gone_on(alloc)
    }
}

impl Rest {
    /// A hearing that goes on from it.
    fn gone_on(self, alloc: Global) -> Result<Hearing, Unfit>
        ensures { (past : List Stamped) → IsRestOf past self
            → IfOk result (λ hearing. IsHeard (record { events = past; left = []; since = self.last }) hearing) }
    {
        let Rest {
            events,
            desks,
            last,
            begun,
            clocks,
            seen,
            residents,
        } = self;
        let state = rebuilt(alloc, residents)?;
        Ok(Hearing {
            state,
            last,
            events,
            desks,
            letters: 0,
            node: Desks::over(alloc, clocks, seen, newest_of(last), begun),
            foreign: None,
            since: last,
        })
    }
}

/// The stamp of the event, or 0.
fn newest_of(last: Option<Stamped>) -> u64
    ensures { result ≡ stamp_of last }
{
    match last {
        Some(last) => last.stamp,
        None => 0,
    }
}

/// Why no hearing goes on from a rest.
#[derive(Clone, Copy, Debug, PartialEq, Eq)]
pub enum Unfit {
    /// It has a process twice.
    Twice(Pid),
    /// There was no memory.
    Memory,
}

/// Drops what a process held. What its drop does is so proved once.
fn drop_holding(_holding: Holding) {}

/// The state with one process more, which lives.
fn with_living(state: State, pid: Pid, holding: Holding) -> Result<State, Unfit>
    ensures { IfOk result
        (λ new. new ≡ record state { lives = state.lives ++ (pid, living (holds_so holding)) ∷ [] }) }
{
    if state.alive(pid) || state.ended(pid).is_some() {
        let_go(state);
        drop_holding(holding);
        return Err(Unfit::Twice(pid));
    }
    match state.with_living(pid, holding) {
        Ok(state) => Ok(state),
        Err(_) => Err(Unfit::Memory),
    }
}

/// The state with one process more, which has ended.
fn with_ended(alloc: Global, state: State, pid: Pid, reason: Reason) -> Result<State, Unfit>
    ensures { IfOk result (λ new. new ≡ record state { lives = state.lives ++ (pid, ended reason fresh) ∷ [] }) }
{
    if state.alive(pid) || state.ended(pid).is_some() {
        let_go(state);
        return Err(Unfit::Twice(pid));
    }
    match state.with_ended(alloc, pid, reason) {
        Ok(state) => Ok(state),
        Err(_) => Err(Unfit::Memory),
    }
}

/// The state with the processes more that ended for this reason: this one, and those of its slot up to this version.
fn with_run(
    alloc: Global,
    state: State,
    pid: Pid,
    last: u32,
    reason: Reason,
) -> Result<State, Unfit>
    ensures { IfOk result
        (λ new. new ≡ record state { lives = state.lives ++ ended_run pid reason (last + 1 - pid.version) }) }
{
    let mut state = state;
    for version in pid.version as u64..last as u64 + 1 {
        let next = Pid {
            shard: pid.shard,
            slot: pid.slot,
            version: version as u32,
        };
        state = with_ended(alloc, state, next, reason)?;
    }
    Ok(state)
}

/// The state that has these processes.
fn rebuilt(alloc: Global, residents: VecDeque<Resident>) -> Result<State, Unfit>
    ensures { IfOk result
        (λ state. state ≡ record { links = []; refs = []; lives = lives_in residents.items; flights = [] }) }
{
    let mut residents = residents;
    let mut state = State::new(alloc);
    while let Some(resident) = residents.pop_front() {
        state = match resident {
            Resident::Lives(pid, holding) => with_living(state, pid, holding)?,
            Resident::Ended(pid, last, reason) => with_run(alloc, state, pid, last, reason)?,
        };
    }
    Ok(state)
}
