//! A supervisor.

ghost use Rattle.std.specs.Prelude.{◌≡◌, ⊤, ℕ, IfOk, Result, true};
ghost use Rattle.pt_behaviour.specs.Behaving.{takes};
ghost use Rattle.pt_behaviour.specs.Births.{Bore, born, kept_roles};
ghost use Rattle.pt_desk.specs.DeskState.{GoesOn};
ghost use Rattle.pt_shard.specs.ShardState.{phase_of};
ghost use Rattle.pt_supervisor.specs.Ending.{next_tried};
ghost use Rattle.std.specs.Option.{ForSome};
ghost use Rattle.pt_signal.specs.declared.pid.Pid.{Pid};
ghost use Rattle.pt_shard.specs.declared.fault.Fault.{Fault};
ghost use Rattle.pt_behaviour.specs.declared.behaviour.Next.{Next};

use crate::asked::{due_at, is_noproc, waits};
use pt_behaviour::{Births, CallFault, Next, exit_signal, monitor, spawn_child, trap};
use pt_children::{
    Asked, Child, ChildCounts, ChildFault, ChildList, ChildSeen, ChildState, GaveUp, Limit,
    Shutdown, Stage, Strategy, Trial, all_seen, counted, gone_in, is_process, place_of_id, present,
    stage_of, unless_by,
};
use pt_workers::{Desk, Fault, Item, Pick, Pid, Reason, Ref};
use std::alloc::{AllocError, Global};
use std::mem;

/// What the children of a supervisor do, as the program says.
pub trait Start<B> {
    /// What `start` may return. A program defines it if a supervisor's contracts are to say what its children begin
    /// with. It relates the value before, the supervisor, the place of the child, the answer, and the value afterwards.
    ghost starts: { Self → Pid → ℕ → Result (B × Next) Fault → Self → Type 0 } = { λ _ _ _ _ _. ⊤ };

    /// Returns the behaviour of the child at a place as it is started, and what it does first.
    ///
    /// A fault says that the start has failed. `Fault::Memory` and `Fault::Worn` stand for an accident: then the
    /// supervisor calls it again, as often as it takes. What follows otherwise is in [`Trial`].
    fn start(&mut self, supervisor: Pid, place: usize) -> Result<(B, Next), Fault>
        ensures { starts self.old supervisor place result self.new };
}

/// A supervisor: it traps exits, starts its children in order, linked with it, and does what its strategy says when one
/// exits.
#[derive(Drop)]
pub struct Supervisor<S> {
    start: S,
    strategy: Strategy,
    children: ChildList,
    limit: Limit,
    /// The process with which it exits.
    parent: Option<Pid>,
    /// From this place on children are ended, from the last to the first, before any is started.
    ending: usize,
    /// The reason with which it is to exit, once all its children have.
    stopping: Option<Reason>,
    /// The child that it ends, and what it has done to end it.
    asked: Option<Asked>,
    /// The number of children that it has started.
    started: u64,
    /// Why it gave up, if it has.
    gave_up: Option<GaveUp>,
    ghost all: { ForSome stopping (λ r. ending ≡ 0) },
}

impl<S> Supervisor<S> {
    ghost use Rattle.std.specs.Prelude.{◌<◌, IfSome, Some, cond, length, map, position, slice_get, slice_set};
    ghost use Rattle.pt_signal.specs.Values.{is_pid};
    ghost use Rattle.pt_children.specs.Homes.{place_coming};
    ghost use Rattle.pt_behaviour.specs.Births.{time_told};
    ghost use Rattle.pt_children.specs.Calling.{AddsChild, DeletesChild, RestartsChild, TerminatesChild, with_wanted, without_child};
    ghost use Rattle.pt_children.specs.Children.{AreStarted, NoneUnwanted, PermanentAreWanted};
    ghost use Rattle.pt_children.specs.declared.asked.Stage.TheVariants.{Gone};
    ghost use Rattle.pt_children.specs.Ending.{child_end_heard, stage_of};
    ghost use Rattle.pt_supervisor.specs.Ending.{is_noproc};
    ghost use Rattle.pt_children.specs.Hearing.{at_stage, begun, first_heeded, gave_up_at, gone_heard, heard, lost};
    ghost use Rattle.pt_children.specs.Hearing.{monitor_closed, to_try, tried_again};
    ghost use Rattle.pt_supervisor.specs.Hearing.{program_of, standing};
    ghost use Rattle.pt_children.specs.Limits.{moment};
    ghost use Rattle.pt_children.specs.Hearing.{started_again, stopped};
    ghost use Rattle.pt_children.specs.Seen.{child_seen, children_counted};
    ghost use Rattle.pt_supervisor.specs.Supervising.{Advances, EndsChild, SupervisorAttends, SupervisorHandles, TellsToEnd};
    ghost use Rattle.pt_supervisor.specs.Supervising.{CountsBirths, SetsAt, SpawnsChildAt, StartsAll, StartsOne, Supervises, TriesAt};
    ghost use Rattle.pt_supervisor.specs.Supervising.{WatchesChild};
    ghost use Rattle.pt_children.specs.Trying.{is_startable};
    ghost use Rattle.pt_supervisor.specs.Supervising.{nursery, supervisor_scene};
    ghost use Rattle.pt_supervisor.specs.Keeping.{BearsFrom, HoldsWhere, Tends};
    ghost use Rattle.pt_supervisor.specs.Changed.{RemembersWhere, next_due};

    /// A supervisor of these children, each with the rule by which it is started again. It has no parent: see
    /// [`Supervisor::under`].
    pub fn new(start: S, strategy: Strategy, children: Vec<Child>, limit: Limit) -> Supervisor<S>
        ensures standing { standing result ≡ begun strategy children.items limit }
        ensures start { program_of result ≡ start }
    {
        let ending = children.len();
        Supervisor {
            start,
            strategy,
            children: ChildList::new(children),
            limit,
            parent: None,
            ending,
            stopping: None,
            asked: None,
            started: 0,
            gave_up: None,
        }
    }

    /// The same supervisor as a child of another process, its parent. If it gets an exit signal from its parent, it
    /// ends its children from the last to the first, and then exits with the same reason.
    ///
    /// If another supervisor starts it, the parent is the `supervisor` of [`Start::start`].
    pub fn under(self, parent: Pid) -> Supervisor<S>
        ensures standing { standing result ≡ record (standing self) { parent = Some parent } }
        ensures start { program_of result ≡ program_of self }
    {
        let Supervisor {
            start,
            strategy,
            children,
            limit,
            parent: _,
            ending,
            stopping,
            asked,
            started,
            gave_up,
        } = self;
        Supervisor {
            start,
            strategy,
            children,
            limit,
            parent: Some(parent),
            ending,
            stopping,
            asked,
            started,
            gave_up,
        }
    }

    /// Its children, in their places.
    pub fn children(&self) -> &[Child]
        ensures { result.now ≡ (standing self.now).children }
    {
        self.children.as_slice()
    }

    /// The place of the child with this pid, if there is one.
    pub fn place_of(&mut self, pid: Pid) -> Option<usize>
        ensures place { result ≡ position (λ c. is_pid c.pid pid) (standing self.old).children }
        ensures within { IfSome result (λ i. i < length (standing self.old).children) }
        ensures standing { standing self.new ≡ standing self.old }
        ensures start { program_of self.new ≡ program_of self.old }
    {
        self.children.place_of(pid)
    }

    /// The place of the child that is being started on another desk, if there is one.
    pub(crate) fn coming(&self) -> Option<usize>
        ensures place { result ≡ place_coming (standing self.now).children }
        ensures within { IfSome result (λ i. i < length (standing self.now).children) }
    {
        self.children.place_coming()
    }

    /// Its children, in their places, each with its id and what has become of its process. Fails if there is no memory.
    pub fn which_children(&self, alloc: Global) -> Result<Vec<ChildSeen>, AllocError>
        ensures { IfOk result (λ v. v.items ≡ map child_seen (standing self.now).children) }
    {
        all_seen(alloc, self.children.as_slice())
    }

    /// How many children it has, how many of them are alive, and how many are to be started.
    pub fn count_children(&self) -> ChildCounts
        ensures { result ≡ children_counted (standing self.now).children }
    {
        counted(self.children.as_slice())
    }

    /// The child that it ends now, and what it has done to end it.
    pub fn asked(&self) -> Option<Asked>
        ensures { result ≡ (standing self.now).asked }
    {
        self.asked
    }

    /// The process of whose exit it hears by this item. Without an item it hears of the child that it found to have
    /// exited.
    pub fn hears(&self, item: Option<Item>) -> Option<Pid>
        ensures { result ≡ child_end_heard item (standing self.now).asked }
    {
        match item {
            Some(Item::Exit(from, _)) => Some(from),
            Some(Item::Down(_, from, _)) => Some(from),
            Some(_) => None,
            None => gone_in(self.asked),
        }
    }

    /// The number of children that it has started, counting each time those that it started again; at most `u64::MAX`.
    pub fn started(&self) -> u64
        ensures { result ≡ (standing self.now).started }
    {
        self.started
    }

    /// Why it gave up, if it has: which child was not started, or not again, how often it had started children again, and in
    /// what span. It then ends its children and exits with `shutdown`. `Crew::left` of `pt_crew` has its value then.
    pub fn gave_up(&self) -> Option<GaveUp>
        ensures { result ≡ (standing self.now).gave_up }
    {
        self.gave_up
    }

    /// Puts another `Start` in the place of its own, and returns that. All else stays.
    pub fn replace_start(&mut self, start: S) -> S
        ensures was { result ≡ program_of self.old }
        ensures start { program_of self.new ≡ start }
        ensures standing { standing self.new ≡ standing self.old }
    {
        mem::replace(&mut self.start, start)
    }

    /// Asks the supervisor to end all its children, from the last to the first, and then to exit with this reason. It
    /// does so from the next item that it handles, or when it next proceeds.
    pub fn stop(&mut self, reason: Reason)
        ensures standing { standing self.new ≡ stopped reason (standing self.old) }
        ensures start { program_of self.new ≡ program_of self.old }
    {
        self.ending = 0;
        self.stopping = Some(reason);
    }

    /// Asks the supervisor to end the child with this id, alive or not, as its specification says. It is not started again,
    /// unless [`Supervisor::restart_child`] asks for it, or a strategy names it, as in Erlang.
    ///
    /// The supervisor does so when it handles the next item, or proceeds. So a behaviour calls this in its `handle`, and
    /// then passes the item on. Erlang's `terminate_child` returns once the child has exited; here it has once the
    /// supervisor waits for any item again. A temporary child keeps its place, too.
    #[tactic(auto, using(crate::proofs::Changing::holds_same, crate::proofs::Changing::remembers_same))]
    pub fn terminate_child(&mut self, id: u64) -> Result<(), ChildFault>
        ensures does { TerminatesChild id (standing self.old) result (standing self.new) }
        ensures holds { HoldsWhere (standing self.old) (standing self.new) }
        ensures remembers { RemembersWhere (standing self.old) (standing self.new) }
        ensures start { program_of self.new ≡ program_of self.old }
    {
        let Some(place) = place_of_id(self.children.as_slice(), id) else {
            return Err(ChildFault::NotFound);
        };
        self.want(place, false);
        Ok(())
    }

    /// Asks the supervisor to start the child with this id, which must be neither alive nor about to be started. It does
    /// so when it handles the next item, or proceeds, as with [`Supervisor::terminate_child`].
    #[tactic(auto, using(crate::proofs::Changing::holds_same, crate::proofs::Changing::remembers_same))]
    pub fn restart_child(&mut self, id: u64) -> Result<(), ChildFault>
        ensures does { RestartsChild id (standing self.old) result (standing self.new) }
        ensures holds { HoldsWhere (standing self.old) (standing self.new) }
        ensures remembers { RemembersWhere (standing self.old) (standing self.new) }
        ensures start { program_of self.new ≡ program_of self.old }
    {
        let Some(place) = place_of_id(self.children.as_slice(), id) else {
            return Err(ChildFault::NotFound);
        };
        match self.children.child(place).state() {
            ChildState::Running(_) => Err(ChildFault::Running),
            ChildState::Restarting => Err(ChildFault::Restarting),
            ChildState::Undefined => {
                self.want(place, true);
                Ok(())
            }
        }
    }

    /// Takes in a child behind the others, with this id, restart and shutdown. Returns its place, with which `Start` is
    /// called for it.
    ///
    /// The supervisor starts it when it handles the next item, or proceeds, as with [`Supervisor::terminate_child`]. If the
    /// start fails, the child keeps its place and is not wanted any more.
    #[tactic(auto, using(crate::proofs::Changing::holds_same, crate::proofs::Changing::remembers_same))]
    pub fn start_child(&mut self, child: Child) -> Result<usize, ChildFault>
        ensures does { AddsChild child (standing self.old) result (standing self.new) }
        ensures holds { HoldsWhere (standing self.old) (standing self.new) }
        ensures remembers { RemembersWhere (standing self.old) (standing self.new) }
        ensures start { program_of self.new ≡ program_of self.old }
    {
        if let Some(place) = place_of_id(self.children.as_slice(), child.id) {
            return Err(present(self.children.child(place).state()));
        }
        let place = self.children.len();
        let child = Child {
            pid: None,
            wanted: true,
            trial: Trial::Asked,
            ..child
        };
        match self.children.push(child) {
            Ok(()) => Ok(place),
            Err(_) => Err(ChildFault::Memory),
        }
    }

    /// Forgets the child with this id, which must be neither alive nor about to be started. Returns the place that it had.
    ///
    /// The children behind it move up, so `Start` is called for each of them with the place before from now on.
    #[tactic(auto, using(crate::proofs::Changing::holds_same, crate::proofs::Changing::remembers_same))]
    pub fn delete_child(&mut self, id: u64) -> Result<usize, ChildFault>
        ensures does { DeletesChild id (standing self.old) result (standing self.new) }
        ensures holds { HoldsWhere (standing self.old) (standing self.new) }
        ensures remembers { RemembersWhere (standing self.old) (standing self.new) }
        ensures start { program_of self.new ≡ program_of self.old }
    {
        let Some(place) = place_of_id(self.children.as_slice(), id) else {
            return Err(ChildFault::NotFound);
        };
        match self.children.child(place).state() {
            ChildState::Running(_) => Err(ChildFault::Running),
            ChildState::Restarting => Err(ChildFault::Restarting),
            ChildState::Undefined => {
                self.forget(place);
                Ok(place)
            }
        }
    }

    /// Forgets the child at a place.
    fn forget(&mut self, place: usize)
        requires { place < length (standing self.old).children }
        ensures standing { standing self.new ≡ without_child place (standing self.old) }
        ensures start { program_of self.new ≡ program_of self.old }
    {
        self.children.remove(place);
        if place < self.ending {
            self.ending -= 1;
        }
    }

    /// Notes whether the child at a place is wanted, as a call asked for.
    fn want(&mut self, place: usize, wanted: bool)
        requires { place < length (standing self.old).children }
        ensures standing { standing self.new ≡ with_wanted wanted place (standing self.old) }
        ensures start { program_of self.new ≡ program_of self.old }
    {
        let child = self.children.child(place);
        let child = Child {
            wanted,
            trial: Trial::Asked,
            ..child
        };
        self.children.set(place, child);
    }

    /// Handles an item, or begins, and returns what the supervisor does next.
    ///
    /// If a call fails for want of memory or stamps, it proceeds, and tries again when it runs next. If a child was not
    /// started, it first takes an item, if one is there. An item that tells neither of the exit of its parent nor of a
    /// child changes nothing.
    #[tactic(auto, using(pt_workers::proofs::GoingOn::stays, pt_desk::proofs::Turning::goes_on_then))]
    pub fn handle<B: Drop>(
        &mut self,
        desk: &mut Desk,
        births: &mut Births<B>,
        me: Pid,
        item: Option<Item>,
    ) -> Next
    where
        S: Start<B>,
        ensures does { SupervisorHandles S.starts me (time_told births.old) item
            (supervisor_scene self.old desk.old births.old)
            result
            (supervisor_scene self.new desk.new births.new) }
        ensures supervises { Supervises result (standing self.new) }
        ensures tends { Tends me item (standing self.old) desk.old.shard result (standing self.new) desk.new.shard }
        ensures bears { BearsFrom S.starts me (born births.old) (born births.new) }
        ensures counts { CountsBirths me (standing self.old).started desk.old.shard (standing self.new).started
            desk.new.shard }
        ensures permanent { PermanentAreWanted (standing self.old).children
            → PermanentAreWanted (standing self.new).children }
        ensures takes { takes desk.new.shard.journal ≡ takes desk.old.shard.journal }
        ensures kept { kept_roles births.new ≡ kept_roles births.old }
        ensures goes_on { GoesOn desk.old desk.new }
    {
        let now = births.now();
        if !self.attend(desk, now, me, item) {
            return Next::Proceed;
        }
        self.go_forward(desk, births, now, me)
    }

    /// Takes in an exit, or begins to trap exits. Returns whether no call failed.
    #[tactic(auto, using(pt_workers::proofs::GoingOn::stays))]
    fn attend(&mut self, desk: &mut Desk, now: u64, me: Pid, item: Option<Item>) -> bool
        ensures does { SupervisorAttends me now item (standing self.old) desk.old result (standing self.new) desk.new }
        ensures permanent { PermanentAreWanted (standing self.old).children
            → PermanentAreWanted (standing self.new).children }
        ensures start { program_of self.new ≡ program_of self.old }
        ensures takes { takes desk.new.shard.journal ≡ takes desk.old.shard.journal }
        ensures goes_on { GoesOn desk.old desk.new }
    {
        match item {
            Some(Item::Exit(from, reason)) => {
                self.hear(desk, now, from, reason);
                true
            }
            Some(Item::Down(monitor, from, reason)) => {
                self.hear_down(desk, now, monitor, from, reason);
                true
            }
            Some(_) => true,
            None => self.begin(desk, now, me),
        }
    }

    /// Traps exits, and hears of the child that it found to have exited. Then a child is tried again whose start failed.
    /// Returns whether no call failed.
    #[tactic(auto, using(pt_workers::proofs::GoingOn::stays))]
    fn begin(&mut self, desk: &mut Desk, now: u64, me: Pid) -> bool
        ensures does { SupervisorAttends me now None (standing self.old) desk.old result (standing self.new) desk.new }
        ensures permanent { PermanentAreWanted (standing self.old).children
            → PermanentAreWanted (standing self.new).children }
        ensures start { program_of self.new ≡ program_of self.old }
        ensures takes { takes desk.new.shard.journal ≡ takes desk.old.shard.journal }
        ensures goes_on { GoesOn desk.old desk.new }
    {
        if trap(desk, me, true).is_err() {
            return false;
        }
        let moment = self.limit.moment(desk.clock(), now);
        self.find(desk, now);
        self.try_again(moment);
        true
    }

    /// The place of the child that it may try to start again: no other is to exit before.
    fn to_try(&self) -> Option<usize>
        ensures place { result ≡ to_try (standing self.now) }
        ensures within { IfSome result (λ i. (i < length (standing self.now).children) × (0 < self.now.ending)) }
    {
        if self.children.last_alive(self.ending).is_some() {
            return None;
        }
        match self.children.first_failed() {
            Some((place, _at)) if place < self.ending => Some(place),
            _ => None,
        }
    }

    /// Has the child be tried again whose start failed first, if there is one. That counts as a restart.
    fn try_again(&mut self, now: u64)
        ensures standing { standing self.new ≡ tried_again now (standing self.old) }
        ensures start { program_of self.new ≡ program_of self.old }
    {
        if let Some(place) = self.to_try() {
            let child = self.children.child(place);
            let again = Child {
                trial: Trial::Again,
                ..child
            };
            self.children.set(place, again);
            self.restart(now, place, child.id, Reason::Noproc);
        }
    }

    /// Notes that the child which it found to have exited has exited, if there is one.
    fn find(&mut self, desk: &Desk, now: u64)
        ensures standing { standing self.new
            ≡ gone_heard (moment (standing self.old).timed desk.now.shard.clock now) (standing self.old) }
        ensures start { program_of self.new ≡ program_of self.old }
    {
        if let Some(pid) = gone_in(self.asked) {
            self.set_asked(None);
            self.hear(desk, now, pid, Reason::Noproc);
        }
    }

    /// Notes that a process which it monitored has exited. It does not monitor it any more.
    fn hear_down(&mut self, desk: &Desk, now: u64, monitor: Ref, from: Pid, reason: Reason)
        ensures standing { standing self.new ≡ heard (moment (standing self.old).timed desk.now.shard.clock now) from reason
            (monitor_closed monitor (standing self.old)) }
        ensures start { program_of self.new ≡ program_of self.old }
    {
        self.set_asked(unless_by(self.asked, monitor));
        self.hear(desk, now, from, reason);
    }

    /// Puts a child into its place.
    pub(crate) fn set_child(&mut self, place: usize, child: Child)
        requires { place < length (standing self.old).children }
        ensures standing { standing self.new ≡ record (standing self.old) {
          children = slice_set (standing self.old).children place child;
        } }
        ensures start { program_of self.new ≡ program_of self.old }
    {
        self.children.set(place, child);
    }

    /// Notes which child it ends, and how far it has come.
    pub(crate) fn set_asked(&mut self, asked: Option<Asked>)
        ensures standing { standing self.new ≡ record (standing self.old) { asked = asked } }
        ensures start { program_of self.new ≡ program_of self.old }
    {
        self.asked = asked;
    }

    /// Notes that a process has exited, and what is to be done about it.
    fn hear(&mut self, desk: &Desk, now: u64, from: Pid, reason: Reason)
        ensures standing { standing self.new
            ≡ heard (moment (standing self.old).timed desk.now.shard.clock now) from reason (standing self.old) }
        ensures start { program_of self.new ≡ program_of self.old }
    {
        if is_process(self.parent, from) {
            self.stop(reason);
            return;
        }
        if let Some(place) = self.place_of(from) {
            let moment = self.limit.moment(desk.clock(), now);
            self.lose(moment, place, reason);
        }
    }

    /// Notes that the child at a place has exited.
    fn lose(&mut self, now: u64, place: usize, reason: Reason)
        requires { place < length (standing self.old).children }
        ensures standing { standing self.new
            ≡ lost now reason place (slice_get (standing self.old).children place) (standing self.old) }
        ensures start { program_of self.new ≡ program_of self.old }
    {
        let bidden = place >= self.ending;
        let child = self.children.child(place);
        let again = child.lives_again(bidden, reason);
        let gone = Child {
            pid: None,
            wanted: again,
            ..child
        };
        self.children.set(place, gone);
        if !bidden && again {
            self.restart(now, place, child.id, reason);
        }
    }

    /// Notes that the child at a place, which has this id and exited with this reason, is to be started again. If that is
    /// allowed, those that the strategy names end first, and are then started again, also one that was done. Else all end,
    /// and the supervisor.
    fn restart(&mut self, now: u64, place: usize, id: u64, reason: Reason)
        requires { 0 < self.old.ending }
        ensures standing { standing self.new ≡ started_again true now place id reason (standing self.old) }
        ensures start { program_of self.new ≡ program_of self.old }
    {
        if self.limit.allows(now) {
            let first = self.strategy.ends_from(place, self.children.len());
            self.children.revive(first);
            self.ending = first;
        } else {
            self.give_up(place, id, reason);
        }
    }

    /// Notes why it gives up. All its children end, and then it exits with `shutdown`.
    fn give_up(&mut self, place: usize, id: u64, reason: Reason)
        ensures standing { standing self.new ≡ gave_up_at place id reason (standing self.old) }
        ensures start { program_of self.new ≡ program_of self.old }
    {
        self.gave_up = Some(self.limit.over(id, place, reason));
        self.stop(Reason::Shutdown);
    }

    /// Gives up if the first start of a child has failed.
    fn heed_first(&mut self)
        ensures standing { standing self.new ≡ first_heeded (standing self.old) }
        ensures start { program_of self.new ≡ program_of self.old }
    {
        if let Some(place) = self.children.place_over() {
            let child = self.children.child(place);
            self.give_up(place, child.id, Reason::Noproc);
        }
    }

    /// Ends the last of the children that are to end. If none is left, it exits, or starts the missing children. None is
    /// being started on another desk.
    #[tactic(auto, using(pt_workers::proofs::GoingOn::stays))]
    pub(crate) fn advance<B: Drop>(
        &mut self,
        desk: &mut Desk,
        births: &mut Births<B>,
        now: u64,
        me: Pid,
    ) -> Next
    where
        S: Start<B>,
        ensures does { Advances S.starts me now
            (supervisor_scene self.old desk.old births.old)
            result
            (supervisor_scene self.new desk.new births.new) }
        ensures supervises { Supervises result (standing self.new) }
        ensures permanent { PermanentAreWanted (standing self.old).children
            → PermanentAreWanted (standing self.new).children }
        ensures takes { takes desk.new.shard.journal ≡ takes desk.old.shard.journal }
        ensures kept { kept_roles births.new ≡ kept_roles births.old }
        ensures goes_on { GoesOn desk.old desk.new }
    {
        if let Some((pid, shutdown)) = self.children.last_alive(self.ending) {
            return self.end(desk, now, me, pid, shutdown);
        }
        if let Some(reason) = self.stopping {
            return Next::Stop(reason);
        }
        self.ending = self.children.len();
        self.asked = None;
        if self.start_missing(desk, births, me) {
            return Next::Wait(Pick::Any);
        }
        self.heed_first();
        next_tried(desk, me)
    }

    /// Ends a child: it monitors it, and tells it to exit. If it told it to exit within a time before, it kills it once
    /// the time has come.
    #[tactic(auto, using(pt_workers::proofs::GoingOn::stays))]
    fn end(&mut self, desk: &mut Desk, now: u64, me: Pid, pid: Pid, shutdown: Shutdown) -> Next
        ensures does { EndsChild me now pid shutdown (stage_of (standing self.old).asked pid) (standing self.old)
            desk.old result (standing self.new) desk.new }
        ensures rest { standing self.new ≡ record (standing self.old) { asked = (standing self.new).asked } }
        ensures start { program_of self.new ≡ program_of self.old }
        ensures takes { takes desk.new.shard.journal ≡ takes desk.old.shard.journal }
        ensures goes_on { GoesOn desk.old desk.new }
    {
        match stage_of(self.asked, pid) {
            None | Some(Stage::Gone) => self.watch(desk, now, me, pid, shutdown),
            Some(Stage::Watched(monitor)) | Some(Stage::Waiting(monitor)) => {
                self.tell(desk, me, pid, shutdown.bids(), shutdown.told(monitor, now))
            }
            Some(Stage::Until(monitor, at)) if now < at => {
                Next::WaitUntil(Pick::DownOf(monitor), at)
            }
            Some(Stage::Until(monitor, _)) | Some(Stage::Killed(monitor)) => {
                self.tell(desk, me, pid, Reason::Kill, Stage::Killed(monitor))
            }
        }
    }

    /// Monitors a child, and tells it to exit. If it has exited before, that is noted, and the supervisor proceeds. It
    /// also proceeds if a call fails.
    #[tactic(auto, using(pt_workers::proofs::GoingOn::stays, pt_desk::proofs::Turning::goes_on_then))]
    fn watch(&mut self, desk: &mut Desk, now: u64, me: Pid, pid: Pid, shutdown: Shutdown) -> Next
        ensures does { WatchesChild me now pid shutdown (standing self.old) desk.old result (standing self.new) desk.new }
        ensures rest { standing self.new ≡ record (standing self.old) { asked = (standing self.new).asked } }
        ensures start { program_of self.new ≡ program_of self.old }
        ensures takes { takes desk.new.shard.journal ≡ takes desk.old.shard.journal }
        ensures goes_on { GoesOn desk.old desk.new }
    {
        match monitor(desk, me, pid) {
            Ok(made) => {
                self.set_asked(Some(Asked {
                    pid,
                    stage: Stage::Watched(made),
                }));
                self.tell(desk, me, pid, shutdown.bids(), shutdown.told(made, now))
            }
            Err(fault) => {
                self.find_gone(pid, fault);
                Next::Proceed
            }
        }
    }

    /// Notes that a child has exited before, if a call was refused for that.
    fn find_gone(&mut self, pid: Pid, fault: CallFault)
        ensures standing { standing self.new ≡ cond (is_noproc fault) (at_stage pid Gone (standing self.old))
            (standing self.old) }
        ensures start { program_of self.new ≡ program_of self.old }
    {
        if is_noproc(fault) {
            self.set_asked(Some(Asked {
                pid,
                stage: Stage::Gone,
            }));
        }
    }

    /// Sends a child that it monitors an exit signal. It has come to that stage then, and waits for the `DOWN`. Proceeds
    /// if the call fails.
    #[tactic(auto, using(pt_workers::proofs::GoingOn::stays))]
    fn tell(&mut self, desk: &mut Desk, me: Pid, pid: Pid, reason: Reason, stage: Stage) -> Next
        ensures does { TellsToEnd me pid reason stage (standing self.old) desk.old result (standing self.new) desk.new }
        ensures rest { standing self.new ≡ record (standing self.old) { asked = (standing self.new).asked } }
        ensures start { program_of self.new ≡ program_of self.old }
        ensures takes { takes desk.new.shard.journal ≡ takes desk.old.shard.journal }
        ensures goes_on { GoesOn desk.old desk.new }
    {
        if exit_signal(desk, me, pid, reason).is_err() {
            return Next::Proceed;
        }
        self.set_asked(Some(Asked { pid, stage }));
        waits(stage)
    }

    /// Starts the children that are due, in order, up to one for which those behind it have to wait. Returns whether no
    /// child is missing afterwards.
    fn start_missing<B: Drop>(&mut self, desk: &mut Desk, births: &mut Births<B>, me: Pid) -> bool
    where
        S: Start<B>,
        ensures does { StartsAll S.starts me self.old.strategy (length (standing self.old).children)
            (nursery (supervisor_scene self.old desk.old births.old))
            result
            (nursery (supervisor_scene self.new desk.new births.new)) }
        ensures rest { standing self.new ≡ record (standing self.old) {
          children = (standing self.new).children;
          started = (standing self.new).started;
        } }
        ensures count { length (standing self.new).children ≡ length (standing self.old).children }
        ensures permanent { PermanentAreWanted (standing self.old).children
            → PermanentAreWanted (standing self.new).children }
        ensures started { result ≡ true
            → AreStarted (standing self.new).children (length (standing self.new).children) }
        ensures unwanted { NoneUnwanted (standing self.old).children → NoneUnwanted (standing self.new).children }
        ensures takes { takes desk.new.shard.journal ≡ takes desk.old.shard.journal }
        ensures kept { kept_roles births.new ≡ kept_roles births.old }
        ensures goes_on { GoesOn desk.old desk.new }
    {
        let _count = self.children.len();
        let mut from = 0;
        while let Some(place) = self.children.next_missing(from) {
            if !self.start_at(desk, births, me, place) {
                return false;
            }
            from = place + 1;
        }
        self.children.all_started()
    }

    /// Starts the child at a place, if it is due. Returns whether those behind it are started.
    #[tactic(auto, using(crate::proofs::Starting::sets_none))]
    fn start_at<B: Drop>(
        &mut self,
        desk: &mut Desk,
        births: &mut Births<B>,
        me: Pid,
        place: usize,
    ) -> bool
    where
        S: Start<B>,
        requires { place < length (standing self.old).children }
        ensures does { StartsOne S.starts me self.old.strategy place
            (nursery (supervisor_scene self.old desk.old births.old))
            result
            (nursery (supervisor_scene self.new desk.new births.new)) }
        ensures rest { standing self.new ≡ record (standing self.old) {
          children = (standing self.new).children;
          started = (standing self.new).started;
        } }
        ensures at { SetsAt place (standing self.old).children (standing self.new).children }
        ensures takes { takes desk.new.shard.journal ≡ takes desk.old.shard.journal }
        ensures kept { kept_roles births.new ≡ kept_roles births.old }
        ensures goes_on { GoesOn desk.old desk.new }
    {
        let child = self.children.child(place);
        if !child.is_startable() {
            return child.goes_past(self.strategy);
        }
        self.try_at(desk, births, me, place, child);
        let tried = self.children.child(place);
        tried.goes_past(self.strategy)
    }

    /// Starts the child at a place, or notes that it was not started. The program is asked for one of another desk.
    fn try_at<B: Drop>(
        &mut self,
        desk: &mut Desk,
        births: &mut Births<B>,
        me: Pid,
        place: usize,
        child: Child,
    )
    where
        S: Start<B>,
        requires within { place < length (standing self.old).children }
        requires at { slice_get (standing self.old).children place ≡ Some child }
        requires due { is_startable child ≡ true }
        ensures does { TriesAt S.starts me place child
            (nursery (supervisor_scene self.old desk.old births.old))
            (nursery (supervisor_scene self.new desk.new births.new)) }
        ensures rest { standing self.new ≡ record (standing self.old) {
          children = (standing self.new).children;
          started = (standing self.new).started;
        } }
        ensures at { SetsAt place (standing self.old).children (standing self.new).children }
        ensures takes { takes desk.new.shard.journal ≡ takes desk.old.shard.journal }
        ensures kept { kept_roles births.new ≡ kept_roles births.old }
        ensures goes_on { GoesOn desk.old desk.new }
    {
        if !child.home.is_here() {
            self.children.set(place, child.asked_for());
            return;
        }
        self.spawn_at(desk, births, me, place, child);
    }

    /// Spawns the child at a place, or notes that it was not started.
    fn spawn_at<B: Drop>(
        &mut self,
        desk: &mut Desk,
        births: &mut Births<B>,
        me: Pid,
        place: usize,
        child: Child,
    )
    where
        S: Start<B>,
        requires within { place < length (standing self.old).children }
        requires at { slice_get (standing self.old).children place ≡ Some child }
        requires due { is_startable child ≡ true }
        ensures does { SpawnsChildAt S.starts me place child
            (nursery (supervisor_scene self.old desk.old births.old))
            (nursery (supervisor_scene self.new desk.new births.new)) }
        ensures rest { standing self.new ≡ record (standing self.old) {
          children = (standing self.new).children;
          started = (standing self.new).started;
        } }
        ensures at { SetsAt place (standing self.old).children (standing self.new).children }
        ensures takes { takes desk.new.shard.journal ≡ takes desk.old.shard.journal }
        ensures kept { kept_roles births.new ≡ kept_roles births.old }
        ensures goes_on { GoesOn desk.old desk.new }
    {
        let (behaviour, first) = match self.start.start(me, place) {
            Ok(begins) => begins,
            Err(fault) => {
                self.children
                    .set(place, child.unstarted(desk.clock(), fault));
                return;
            }
        };
        match spawn_linked(desk, births, me, behaviour, first) {
            Ok(pid) => {
                self.children.set(place, child.started(pid));
                self.started = self.started.saturating_add(1);
            }
            Err(fault) => self
                .children
                .set(place, child.unstarted(desk.clock(), fault)),
        }
    }

    /// What the supervisor does next as it stands: it waits for the exit of the child that it ends, if that is still the
    /// last that is to end. Else it proceeds.
    ///
    /// A behaviour returns this if it changed its supervisor by a call about a child and passes no item on. So a child is
    /// not told twice to exit.
    pub fn due(&self) -> Next
        ensures due { result ≡ next_due (standing self.now) }
        ensures supervises { Supervises result (standing self.now) }
    {
        match self.children.last_alive(self.ending) {
            Some((pid, shutdown)) => due_at(stage_of(self.asked, pid), shutdown),
            None => Next::Proceed,
        }
    }
}

/// Spawns a child that is linked with its supervisor. It is of the supervisor's desk.
fn spawn_linked<B: Drop>(
    desk: &mut Desk,
    births: &mut Births<B>,
    me: Pid,
    behaviour: B,
    first: Next,
) -> Result<Pid, Fault>
    ensures does { Bore me true behaviour first desk.old.shard (born births.old) result desk.new.shard (born births.new) }
    ensures near { IfOk result (λ p. p.shard ≡ me.shard) }
    ensures takes { takes desk.new.shard.journal ≡ takes desk.old.shard.journal }
    ensures kept { kept_roles births.new ≡ kept_roles births.old }
    ensures goes_on { GoesOn desk.old desk.new }
{
    let born = spawn_child(desk, births, me, true, behaviour, first);
    // read for the proof alone: by a lawful journal a child is of the desk of its parent
    let _lawful = desk.journal();
    born
}

/// What a supervisor does next whose children are not all started: it takes the first item that is there, or goes on
/// without one.
fn next_tried(desk: &Desk, me: Pid) -> Next
    ensures { result ≡ next_tried (phase_of desk.now.shard me) }
{
    match desk.waiting(me) {
        Some(items) if !items.is_empty() => Next::WaitUntil(Pick::Any, 0),
        _ => Next::Proceed,
    }
}
