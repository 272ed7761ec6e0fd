//! The work of a script on one desk.

ghost use Rattle.std.specs.Prelude.{◌≡◌, ◌≢◌, ◌⊎◌, ℕ, Bool, false, ◌<◌, ◌≤◌, ◌+◌, ◌++◌, ◌∷◌, ◌||◌, [], List, None, Option, Some, Ok};
ghost use Rattle.std.specs.Prelude.{count_by, map, not, position, slice_index_or, slice_set, true, vec_capacity, vec_len};
ghost use Rattle.std.specs.List.{All, list_all, list_any};
ghost use Rattle.pt_signal.specs.Values.{fits, same_pid};
ghost use Rattle.pt_shard.specs.ShardState.{ShardState, lives};
ghost use Rattle.pt_desk.specs.DeskState.{GoesOn, HasSameEnds};
ghost use Rattle.pt_script.specs.Plans.{Plan};
ghost use Rattle.pt_script.specs.declared.values.Operation.{Operation};
ghost use Rattle.pt_script.specs.declared.values.Pattern.{Pattern};
ghost use Rattle.pt_runner.specs.declared.runner.Actor.{Actor};
ghost use Rattle.pt_runner.specs.Acting.{Plays, GoesBehind, ActsAt, acting, table, newborn_actor, next_of};
ghost use Rattle.pt_runner.specs.Acting.{advanced, fits_if_taken, in_time, living, pid_numbered, place_among, place_listed, plan_at, put_off, with_born, RunnerSpawns, RunnerSpawnsNew};
ghost use Rattle.pt_runner.specs.Stepping.{ProcessSteps, ProcessesStep, processes_here};
ghost use Rattle.pt_runner.specs.Waiting.{RunnerAttends, HasSameRest, IsAbreast, IsFresh, IsTrueOf, IsUnmarked, RunnerKnows, RunnerSteps, RunnerStepsOne};
ghost use Rattle.pt_runner.specs.Waiting.{AllRest, idle_runner, is_out_of_work, marked, none_fits, rests, sleeps, takes_none};

use crate::calls::{Progress, References, call, pick_of, pid_of, progress_of, taken_of};
use crate::reading::Branching;
use pt_script::{Operation, Pattern, Script};
use pt_workers::{Desk, Event, Fault, Item, Pick, Pid, Reason, Turned, Work};
use std::alloc::Global;

/// A process of the script that was spawned on the desk.
#[derive(Drop)]
pub(crate) struct Actor {
    pid: Pid,
    /// Its number in the script.
    process: u32,
    /// Whether trapping exits is its next operation, before those of its list.
    begins: bool,
    /// The number of operations of its list that are done.
    done: usize,
    /// How often its next operation failed for want of memory or at the clock's limit.
    refused: u64,
    references: References,
    /// If its last operation was a receive that found no item, how many events the journal had then.
    waits: Option<usize>,
}

impl Actor {
    /// A process that was spawned just now.
    pub(crate) fn new(alloc: Global, script: &Script, pid: Pid, process: u32) -> Actor
        ensures acting { acting result ≡ newborn_actor script.now.processes process pid }
        ensures waits { result.waits ≡ None }
    {
        let begins = match script.processes().get(process as usize) {
            Some(plan) => plan.traps(),
            None => false,
        };
        Actor {
            pid,
            process,
            begins,
            done: 0,
            refused: 0,
            references: Vec::new(alloc),
            waits: None,
        }
    }

    /// Whether it waits, and nothing has arrived for it since.
    fn sleeps(&self, came: &[usize]) -> bool
        ensures { result ≡ sleeps came.now self.now }
    {
        let Some(since) = self.waits else {
            return false;
        };
        match came.get(self.pid.slot as usize) {
            Some(last) => *last <= since,
            None => false,
        }
    }

    /// Whether it has not exited. If it sleeps it has not, so the desk is not asked.
    fn remains(&self, came: &[usize], desk: &Desk) -> bool
        ensures { result ≡ (sleeps came.now self.now || lives desk.now.shard self.now.pid) }
    {
        self.sleeps(came) || desk.alive_here(self.pid)
    }

    /// Whether it has exited, or waits and nothing has arrived for it since.
    fn rests(&self, came: &[usize], desk: &Desk) -> bool
        ensures { result ≡ (sleeps came.now self.now || not (lives desk.now.shard self.now.pid)) }
    {
        self.sleeps(came) || !desk.alive_here(self.pid)
    }

    /// Whether it has exited, or is at a receive for which no item in its mailbox fits.
    fn finds_nothing(&self, script: &Script, pids: &[Option<Pid>], desk: &Desk) -> bool
        ensures { result ≡ is_out_of_work script.now.processes pids.now desk.now.shard self.now }
    {
        match desk.waiting(self.pid) {
            Some(items) => self.takes_none(pids, items, self.next(script)),
            None => true,
        }
    }

    /// Whether an operation of it is a receive for which none of these items fits.
    fn takes_none(&self, pids: &[Option<Pid>], items: &[Item], operation: Operation) -> bool
        ensures { result ≡ takes_none pids.now items.now (acting self.now) operation }
    {
        match operation {
            Operation::Receive(pattern) => {
                none_fits(items, pick_of(pids, &self.references, pattern))
            }
            _ => false,
        }
    }

    /// Its list of operations.
    fn operations<'a>(&self, script: &'a Script) -> &'a [Operation]
        ensures { result.now ≡ (plan_at script.now.processes self.now.process).operations }
    {
        match script.processes().get(self.process as usize) {
            Some(plan) => plan.operations(),
            None => &[],
        }
    }

    /// Its next operation. After the last one this is its exit.
    fn next(&self, script: &Script) -> Operation
        ensures { result ≡ next_of script.now.processes (acting self.now) }
    {
        if self.begins {
            return Operation::Trap(true);
        }
        match self.operations(script).get(self.done) {
            Some(operation) => self.in_time(*operation),
            None => Operation::Exit(Reason::Normal),
        }
    }

    /// This operation, if it was not tried as often as it waits. Else it waits no longer.
    fn in_time(&self, operation: Operation) -> Operation
        ensures { result ≡ in_time self.now.refused operation }
    {
        match operation {
            Operation::ReceiveAfter { pattern, tries } if u64::from(tries) <= self.refused => {
                Operation::Check(pattern)
            }
            _ => operation,
        }
    }

    /// Moves on from its next operation, which is done and took that item or none.
    fn advance(&mut self, script: &Script, pids: &[Option<Pid>], taken: Option<Item>)
        ensures acting { acting self.new
            ≡ advanced script.now.processes (fits_if_taken pids.now self.old.references.items taken) (acting self.old) }
        ensures waits { self.new.waits ≡ self.old.waits }
    {
        self.refused = 0;
        if self.begins {
            self.begins = false;
            return;
        }
        let branching = Branching {
            pids,
            references: &self.references,
            taken,
        };
        let place = self.done.saturating_add(1);
        self.done = branching.next_place(self.operations(script), place);
    }

    /// Notes that its next operation failed once more, and is to be tried again.
    fn put_off(&mut self)
        ensures acting { acting self.new ≡ put_off (acting self.old) }
        ensures waits { self.new.waits ≡ self.old.waits }
    {
        self.refused = self.refused.saturating_add(1);
    }

    /// Does a receive: if no item matches, it waits.
    fn receive(&mut self, script: &Script, pids: &[Option<Pid>], pattern: Pattern, desk: &mut Desk)
        ensures plays { Plays script.now.processes pids.now (Operation.Receive pattern) (acting self.old) desk.old.shard
            (acting self.new) desk.new.shard }
        ensures waits { (plans : List Plan) → next_of plans (acting self.old) ≡ Operation.Receive pattern
            → IsTrueOf plans pids.now desk.new.shard self.new }
        ensures ends { HasSameEnds desk.old desk.new }
        ensures goes_on { GoesOn desk.old desk.new }
    {
        let Some(pick) = pick_of(pids, &self.references, pattern) else {
            self.conclude(script, pids, Progress::Done, desk);
            return;
        };
        match desk.receive(self.pid, pick) {
            Ok(None) => self.waits = Some(desk.journal().events().len()),
            answer => self.conclude(script, pids, taken_of(Progress::Waits, answer), desk),
        }
    }

    /// Does an operation that spawns nothing and is no receive.
    fn perform(
        &mut self,
        script: &Script,
        pids: &[Option<Pid>],
        operation: Operation,
        desk: &mut Desk,
    )
        requires spawns { (process : ℕ) (linked : Bool) → operation ≢ Operation.Spawn process linked }
        requires takes { (pattern : Pattern) → operation ≢ Operation.Receive pattern }
        ensures plays { Plays script.now.processes pids.now operation (acting self.old) desk.old.shard (acting self.new)
            desk.new.shard }
        ensures waits { self.new.waits ≡ None }
        ensures ends { HasSameEnds desk.old desk.new }
        ensures goes_on { GoesOn desk.old desk.new }
    {
        let progress = call(desk, pids, &mut self.references, self.pid, operation);
        self.conclude(script, pids, progress, desk);
    }

    /// Moves on from an operation, or exits since it failed.
    fn conclude(
        &mut self,
        script: &Script,
        pids: &[Option<Pid>],
        progress: Progress,
        desk: &mut Desk,
    )
        ensures behind { GoesBehind script.now.processes pids.now progress (acting self.old) desk.old.shard (acting self.new)
            desk.new.shard }
        ensures waits { self.new.waits ≡ None }
        ensures ends { HasSameEnds desk.old desk.new }
        ensures goes_on { GoesOn desk.old desk.new }
    {
        self.waits = None;
        match progress {
            Progress::Done => self.advance(script, pids, None),
            Progress::Took(item) => self.advance(script, pids, Some(item)),
            Progress::Waits => {}
            Progress::Stays => self.put_off(),
            Progress::Ends(reason) => self.end(reason, desk),
        }
    }

    /// Exits since its operation failed, or tries that again if its exit fails.
    fn end(&mut self, reason: Reason, desk: &mut Desk)
        ensures behind { (plans : List Plan) (pids : List (Option Pid))
            → GoesBehind plans pids (Progress.Ends reason) (acting self.old) desk.old.shard (acting self.new) desk.new.shard }
        ensures waits { self.new.waits ≡ self.old.waits }
        ensures ends { HasSameEnds desk.old desk.new }
        ensures goes_on { GoesOn desk.old desk.new }
    {
        match desk.exit(self.pid, reason) {
            Ok(()) => {}
            Err(_refused) => self.put_off(),
        }
    }
}

/// Whether none of these items fits.
fn none_fits(items: &[Item], pick: Option<Pick>) -> bool
    ensures { result ≡ none_fits items.now pick }
{
    match pick {
        Some(pick) => !any_fits(items, pick),
        None => false,
    }
}

fn any_fits(items: &[Item], pick: Pick) -> bool
    ensures { result ≡ list_any (fits pick) items.now }
{
    items.iter().any(|item| pick.fits(item))
}

/// The place of a process of the script in its list of operations.
#[derive(Clone, Copy, Debug, PartialEq, Eq)]
pub struct Place {
    /// Whether trapping exits is its next operation, before those of its list.
    pub begins: bool,
    /// The number of operations of its list that are done.
    pub done: usize,
    /// How often its next operation failed for want of memory or at the clock's limit, or how often it is a receive that
    /// waits for some tries and found nothing, and is tried again. It is 0 if it did not fail, or waits for an item without
    /// end. It stays at `u64::MAX`.
    pub refused: u64,
}

/// Notes the pid of the process with this number.
pub(crate) fn put_pid(pids: &mut Vec<Option<Pid>>, process: u32, pid: Pid)
    ensures { pids.new.items ≡ slice_set pids.old.items process (Some pid) }
{
    let place = process as usize;
    if place < pids.len() {
        pids[place] = Some(pid);
    }
}

/// What the processes of a script do on one desk.
#[derive(Drop)]
pub struct Runner<'a> {
    alloc: Global,
    script: &'a Script,
    /// The pids that operations here may name, by the numbers of their processes.
    pids: Vec<Option<Pid>>,
    /// The processes of the script that were spawned on the desk, in that order. An exited one is taken out when the
    /// next step begins.
    actors: Vec<Actor>,
    /// The number of events of the desk's journal that were read.
    read: usize,
    /// For each slot of the desk, the place after the last event read by which a process of that slot got a signal, or
    /// exited.
    came: Vec<usize>,
}

impl<'a> Runner<'a> {
    pub(crate) fn new(
        alloc: Global,
        script: &'a Script,
        pids: Vec<Option<Pid>>,
        actors: Vec<Actor>,
        came: Vec<usize>,
    ) -> Runner<'a>
        ensures script { result.script.now ≡ script.now }
        ensures unread { result.read ≡ 0 }
        ensures actors { result.actors.items ≡ actors.items }
        ensures table { table result ≡ record {
          plans = script.now.processes;
          pids = pids.items;
          actors = map acting actors.items;
        } }
    {
        Runner {
            alloc,
            script,
            pids,
            actors,
            read: 0,
            came,
        }
    }

    /// The pids of the script's processes, by number: of those that the script begins with, and of those that were
    /// spawned on this desk. An exited process keeps its pid.
    pub fn pids(&self) -> &[Option<Pid>]
        ensures { result.now ≡ (table self.now).pids }
    {
        self.pids.as_slice()
    }

    /// The place of the process in its list, or `None` if it was not spawned on this desk, or had exited as the last
    /// step began.
    pub fn place(&self, p: Pid) -> Option<Place>
        ensures { result ≡ place_listed (table self.now) p }
    {
        for actor in &self.actors {
            if actor.pid == p {
                return Some(Place {
                    begins: actor.begins,
                    done: actor.done,
                    refused: actor.refused,
                });
            }
        }
        None
    }

    /// The index of the process among those that are listed.
    fn index_of(&self, p: Pid) -> Option<usize>
        ensures { result ≡ position (λ (a : Actor). same_pid a.pid p) self.now.actors.items }
    {
        self.actors.iter().position(|actor| actor.pid == p)
    }

    /// The number of its processes that are alive.
    #[tactic(auto, using(crate::proofs::Finding::counted_here))]
    pub fn alive(&self, desk: &Desk) -> usize
        ensures { result ≡ count_by (lives desk.now.shard) (processes_here self.now) }
    {
        self.actors
            .iter()
            .filter(|actor| desk.alive_here(actor.pid))
            .count()
    }

    /// Whether all that happened on its desk was read, and each of its processes has exited, or waits for an item and
    /// got nothing since. Then a step of a runner that knows its desk does nothing.
    pub fn is_idle(&self, desk: &Desk) -> bool
        ensures idle { result ≡ idle_runner self.now desk.now.shard }
        ensures rests { result ≡ true → RunnerKnows self.now desk.now.shard → AllRest self.now desk.now.shard }
    {
        self.read == desk.journal().events().len() && self.all_rest(desk)
    }

    /// Whether each of its processes has exited, or is at a receive for which no item waits. It looks into the mailboxes,
    /// and needs nothing to be read or tried before, unlike [`Runner::is_idle`].
    pub fn finds_nothing(&self, desk: &Desk) -> bool
        ensures waits { result ≡ list_all (is_out_of_work self.now.script.now.processes self.now.pids.items desk.now.shard)
            self.now.actors.items }
        ensures rests { result ≡ true → AllRest self.now desk.now.shard }
    {
        self.all_find_nothing(desk)
    }

    fn all_find_nothing(&self, desk: &Desk) -> bool
        ensures { result ≡ list_all (is_out_of_work self.now.script.now.processes self.now.pids.items desk.now.shard)
            self.now.actors.items }
    {
        let script = self.script;
        let pids = self.pids.as_slice();
        self.actors
            .iter()
            .all(|actor| actor.finds_nothing(script, pids, desk))
    }

    fn all_rest(&self, desk: &Desk) -> bool
        ensures { result ≡ list_all (rests self.now.came.items desk.now.shard) self.now.actors.items }
    {
        let came = self.came.as_slice();
        self.actors.iter().all(|actor| actor.rests(came, desk))
    }

    /// Continues over the desk of the same number in a node that was resumed. It forgets what it read of a journal, and
    /// lets every waiting process try its receive again. For no journal that is left has what they got while the node
    /// was settled.
    ///
    /// The place of each process in its list stays, and so do the pids. It costs time for each of its processes and
    /// each slot of the desk. It never fails.
    pub fn begin_again(&mut self)
        ensures table { table self.new ≡ table self.old }
        ensures fresh { IsFresh self.new }
        ensures attends { (d : ShardState) → RunnerAttends self.new d }
        ensures knows { (d : ShardState) → RunnerKnows self.new d }
    {
        self.wake_all();
        self.came.as_mut_slice().fill(0);
        self.read = 0;
    }

    /// Lets every waiting process try its receive again.
    fn wake_all(&mut self)
        ensures table { table self.new ≡ table self.old }
        ensures unmarked { All IsUnmarked self.new.actors.items }
        ensures len { vec_len self.new.actors ≡ vec_len self.old.actors }
        ensures room { vec_capacity self.new.actors ≡ vec_capacity self.old.actors }
        ensures rest { HasSameRest self.old self.new }
    {
        for index in 0..self.actors.len() {
            self.actors[index].waits = None;
        }
    }

    /// Forgets what it read if the desk has a shorter journal, as after its node was resumed.
    fn begin(&mut self, desk: &Desk)
        ensures table { table self.new ≡ table self.old }
        ensures knows { RunnerAttends self.old desk.now.shard → RunnerKnows self.new desk.now.shard }
    {
        if desk.journal().events().len() < self.read {
            self.begin_again();
        }
    }

    /// Reads what is new in the desk's journal.
    fn look(&mut self, desk: &Desk)
        ensures knows { RunnerKnows self.old desk.now.shard → IsAbreast self.new desk.now.shard }
        ensures table { table self.new ≡ table self.old }
        ensures len { vec_len self.new.actors ≡ vec_len self.old.actors }
    {
        let events = desk.journal().events();
        while self.read < events.len() {
            let place = self.read + 1;
            note(&mut self.came, events[self.read].event, place);
            self.read = place;
        }
    }

    /// Takes out the exited processes.
    fn bury(&mut self, desk: &Desk)
        ensures table { IsAbreast self.old desk.now.shard → table self.new ≡ living desk.now.shard (table self.old) }
        ensures abreast { IsAbreast self.old desk.now.shard → IsAbreast self.new desk.now.shard }
    {
        let came = self.came.as_slice();
        self.actors.retain(|actor| actor.remains(came, desk));
    }

    /// Begins a step: reads what is new in the desk's journal, and takes out the exited processes.
    fn attend(&mut self, desk: &Desk)
        ensures table { RunnerAttends self.old desk.now.shard → table self.new ≡ living desk.now.shard (table self.old) }
        ensures abreast { RunnerAttends self.old desk.now.shard → IsAbreast self.new desk.now.shard }
    {
        self.begin(desk);
        self.look(desk);
        self.bury(desk);
    }

    /// Lets one process do its next operation, and no other. Nothing happens if the process has exited, if it is none of
    /// the script's that was spawned on this desk, or if it waits for an item that has not arrived.
    ///
    /// It is for a caller that chooses the order of operations. [`Work::step`] does the next operation of each process.
    pub fn step_one(&mut self, p: Pid, desk: &mut Desk)
        ensures does { RunnerStepsOne p self.old desk.old self.new desk.new }
        ensures steps { RunnerAttends self.old desk.old.shard
            → ProcessSteps p (processes_here self.old) desk.old.shard (processes_here self.new) desk.new.shard }
        ensures ends { HasSameEnds desk.old desk.new }
        ensures goes_on { GoesOn desk.old desk.new }
    {
        self.attend(desk);
        if let Some(place) = self.index_of(p) {
            self.act(place, desk);
        }
    }

    /// Does the next operation of the process at this index, unless it is a receive and nothing has arrived for it.
    fn act(&mut self, index: usize, desk: &mut Desk)
        requires { index < vec_len self.old.actors }
        ensures acts { IsAbreast self.old desk.old.shard
            → ActsAt index (table self.old) desk.old.shard (table self.new) desk.new.shard }
        ensures abreast { IsAbreast self.old desk.old.shard → IsAbreast self.new desk.new.shard }
        ensures len { vec_len self.old.actors ≤ vec_len self.new.actors }
        ensures ends { HasSameEnds desk.old desk.new }
        ensures goes_on { GoesOn desk.old desk.new }
    {
        if self.actors[index].sleeps(self.came.as_slice()) {
            return;
        }
        self.do_next(index, desk);
        self.look(desk);
    }

    /// Does the next operation of the process at this index.
    fn do_next(&mut self, index: usize, desk: &mut Desk)
        requires { index < vec_len self.old.actors }
        ensures acts { ActsAt index (table self.old) desk.old.shard (table self.new) desk.new.shard }
        ensures knows { RunnerKnows self.old desk.old.shard → RunnerKnows self.new desk.new.shard }
        ensures len { vec_len self.old.actors ≤ vec_len self.new.actors }
        ensures ends { HasSameEnds desk.old desk.new }
        ensures goes_on { GoesOn desk.old desk.new }
    {
        let operation = self.actors[index].next(self.script);
        match operation {
            Operation::Spawn { process, linked } => self.spawn(index, process, linked, desk),
            Operation::Receive(pattern) => {
                self.actors[index].receive(self.script, self.pids.as_slice(), pattern, desk);
            }
            _ => {
                self.actors[index].perform(self.script, self.pids.as_slice(), operation, desk);
            }
        }
    }

    /// Spawns a process, unless it was spawned before. Its first operation comes in the next step.
    fn spawn(&mut self, index: usize, process: u32, linked: bool, desk: &mut Desk)
        requires { index < vec_len self.old.actors }
        ensures spawns { RunnerSpawns process linked index (table self.old) desk.old.shard (table self.new) desk.new.shard }
        ensures knows { RunnerKnows self.old desk.old.shard → RunnerKnows self.new desk.new.shard }
        ensures len { vec_len self.old.actors ≤ vec_len self.new.actors }
        ensures ends { HasSameEnds desk.old desk.new }
        ensures goes_on { GoesOn desk.old desk.new }
    {
        match pid_of(self.pids.as_slice(), process) {
            Some(_born) => {
                self.actors[index].conclude(
                    self.script,
                    self.pids.as_slice(),
                    Progress::Done,
                    desk,
                );
            }
            None => self.spawn_new(index, process, linked, desk),
        }
    }

    /// Spawns a process that was not spawned before.
    fn spawn_new(&mut self, index: usize, process: u32, linked: bool, desk: &mut Desk)
        requires within { index < vec_len self.old.actors }
        requires free { pid_numbered self.old.pids.items process ≡ None }
        ensures spawns { RunnerSpawnsNew process linked index (table self.old) desk.old.shard (table self.new)
            desk.new.shard }
        ensures knows { RunnerKnows self.old desk.old.shard → RunnerKnows self.new desk.new.shard }
        ensures len { vec_len self.old.actors ≤ vec_len self.new.actors }
        ensures ends { HasSameEnds desk.old desk.new }
        ensures goes_on { GoesOn desk.old desk.new }
    {
        if self.actors.reserve(1).is_err() {
            self.actors[index].conclude(self.script, self.pids.as_slice(), Progress::Stays, desk);
            return;
        }
        let pid = self.actors[index].pid;
        let answer = desk.spawn_child(pid, linked);
        self.enter(process, answer);
        self.actors[index].conclude(self.script, self.pids.as_slice(), progress_of(answer), desk);
    }

    /// Lists the process that was spawned, if one was. Its number has no pid yet.
    fn enter(&mut self, process: u32, answer: Result<Pid, Fault>)
        requires free { pid_numbered self.old.pids.items process ≡ None }
        requires room { vec_len self.old.actors < vec_capacity self.old.actors }
        ensures table { table self.new ≡ with_born process answer (table self.old) }
        ensures knows { (d : ShardState) → RunnerKnows self.old d → RunnerKnows self.new d }
        ensures len { vec_len self.old.actors ≤ vec_len self.new.actors }
    {
        match answer {
            Ok(child) => self.list(process, child),
            Err(_refused) => {}
        }
    }

    /// Lists a process, and its pid.
    fn list(&mut self, process: u32, child: Pid)
        requires { vec_len self.old.actors < vec_capacity self.old.actors }
        ensures table { table self.new ≡ with_born process (Ok child) (table self.old) }
        ensures len { vec_len self.new.actors ≡ vec_len self.old.actors + 1 }
        ensures actors { (a : Actor) × (a.waits ≡ None)
            × (self.new.actors.items ≡ self.old.actors.items ++ a ∷ []) }
        ensures rest { HasSameRest self.old self.new }
    {
        let actor = Actor::new(self.alloc, self.script, child, process);
        self.actors.push_reserved(actor);
        put_pid(&mut self.pids, process, child);
    }
}

/// Notes the place after an event at the slot of the process that got a signal by it, or exited by it.
fn note(came: &mut Vec<usize>, event: Event, place: usize)
    ensures { came.new.items ≡ marked event place came.old.items }
{
    match event {
        Event::Came(_, to, _) => mark(came, to, place),
        Event::Left(pid, _) => mark(came, pid, place),
        _ => {}
    }
}

fn mark(came: &mut Vec<usize>, pid: Pid, place: usize)
    ensures { came.new.items ≡ slice_set came.old.items pid.slot place }
{
    let slot = pid.slot as usize;
    if slot < came.len() {
        came[slot] = place;
    }
}

impl Work for Runner<'_> {
    ghost use Rattle.pt_runner.specs.Waiting.{RunnerSteps};

    ghost does = { λ r old s new. RunnerSteps r old s new };

    fn step(&mut self, desk: &mut Desk)
        ensures does { RunnerSteps self.old desk.old self.new desk.new }
        ensures steps { RunnerAttends self.old desk.old.shard
            → ProcessesStep (processes_here self.old) desk.old.shard (processes_here self.new) desk.new.shard }
        ensures idle { RunnerAttends self.old desk.old.shard
            → All (λ p. lives desk.old.shard p ≡ false) (processes_here self.old)
            → desk.new.shard ≡ desk.old.shard }
        ensures ends { HasSameEnds desk.old desk.new }
        ensures goes_on { GoesOn desk.old desk.new }
    {
        self.attend(desk);
        for index in 0..self.actors.len() {
            self.act(index, desk);
        }
    }

    fn turned(&mut self, _desk: &Desk, _turned: Turned) {}
}

/// The place of the process in its list, as the runner of its desk has it: see [`Runner::place`]. The runners are those
/// of all desks, in order.
pub fn place_among(runners: &[Runner<'_>], p: Pid) -> Option<Place>
    ensures { result ≡ place_among runners.now p }
{
    match runners.get(p.shard as usize) {
        Some(runner) => runner.place(p),
        None => None,
    }
}
