//! The crew of one desk.

ghost use Rattle.std.specs.Prelude.{◌≡◌, ◌≤◌, ◌++◌, ◌∷◌, OnOk, OnErr, IsOk, [], None, Some, false, true, length};
ghost use Rattle.std.specs.Prelude.{◌<◌, IfErr, IfOk, IfSome, MatchBool, option_to_list, vec_capacity, vec_len};
ghost use Rattle.std.specs.Option.{option_copied, option_map};
ghost use Rattle.std.specs.Map.{keys_of};
ghost use Rattle.std.specs.VecDeque.{deque_capacity, deque_len};
ghost use Rattle.pt_events.specs.History.{is_unborn};
ghost use Rattle.pt_shard.specs.ShardState.{ShardState, lives, phase_of};
ghost use Rattle.pt_desk.specs.DeskState.{GoesOn};
ghost use Rattle.pt_crew.specs.Visiting.{AreSame, AreWith, Visits, goes_behind};
ghost use Rattle.pt_crew.specs.Crews.{AreBorn, Attends, Enters, HasRoom, HasTimers, IsNextTime, IsSame, KeepsRest};
ghost use Rattle.pt_crew.specs.Crews.{KnowsDesk, CrewWorks, left};
ghost use Rattle.pt_crew.specs.Crews.{crew_size, members, queue, read_events, roles, rounds_asked, scene, time_of, waiting, was_refused};
ghost use Rattle.pt_crew.specs.Outside.{BeginsToRun, next_in_front, tells_or};
ghost use Rattle.pt_crew.specs.Stepping.{BeginsStep, EndsStep, EntersChild, IsAnswered, QueueIsLonger, Serves, first_of, is_running};
ghost use Rattle.pt_crew.specs.Parts.{Admits, AdmitsFirst, AllMarked, CanEnter, Wakes, WakesAt, PutsMember, Stops, WakesBy, is_marked};
ghost use Rattle.pt_crew.specs.Waking.{IsAwake, is_queued, timer_of};
ghost use Rattle.pt_timers.specs.Calls.{NoneDue};
ghost use Rattle.pt_crew.specs.Running.{is_idle};

use crate::front::{rests, runs, serve, sleep, tend};
use crate::hints::Hints;
use crate::outside::Outside;
use indexmap::IndexMap;
use pt_behaviour::{Behaviour, Births, Next, Role};
use pt_timers::{Timer, Timers};
use pt_workers::{Desk, Event, Fault, Pid, Turned, Work};
use std::alloc::{AllocError, Global};
use std::collections::VecDeque;
use std::mem;

/// A process of the crew. It is public since the definitions of a crew name it; no call returns one.
#[derive(Drop)]
pub struct Member<B> {
    pub(crate) behaviour: B,
    pub(crate) next: Next,
    /// Whether it is in the queue.
    queued: bool,
    /// Whether the outside was told something of it and its mailbox was empty then. It is false once the process is
    /// visited again. So an answer that it waits needs no visit.
    pub(crate) clear: bool,
    /// Its pending timer. It has one if it waits until a time and is not in the queue.
    pub(crate) timer: Option<Timer>,
}

/// What a process of the queue did when it ran. It is public since the definitions of a visit name it.
#[derive(Clone, Copy, Debug, PartialEq, Eq)]
pub enum Tended {
    /// No item matches, or it is not of the crew: it leaves the queue.
    Idle,
    /// It got an item, or `None`, and may have more to do: it joins the queue's end.
    Again,
    /// It got an item, or `None`, and waits now without an end, with an empty mailbox: it leaves the queue.
    Done,
    /// A call failed, or its timer could not start, since there was no memory or no stamp, and nothing has changed: it
    /// joins the queue's end.
    Refused,
    /// It has exited, and leaves the crew.
    Gone,
}

impl Tended {
    /// Whether the process goes behind the queue.
    #[inline(always)]
    fn goes_behind(self) -> bool
        ensures { result ≡ goes_behind self }
    {
        match self {
            Tended::Again | Tended::Refused => true,
            Tended::Idle | Tended::Done | Tended::Gone => false,
        }
    }
}

/// The processes of one desk that have a behaviour, and those of them that may have something to do.
///
/// It is the desk's [`Work`]. A step reads what is new in the desk's journal, and puts each process that got a signal
/// at the queue's end. Then it runs the processes of the queue in order:
///
/// - a process that is to stop exits;
/// - a process that is to proceed gets `None`;
/// - if a process waits, its first matching item is taken and passed to its behaviour;
/// - if it waits until a time that has come, and no item matches, it gets `None`.
///
/// So a step costs time for what is new, what is queued and what is due. Idle processes cost nothing. A process that
/// waits until a time has a timer, which costs the logarithm of the number of timers as it starts and as it goes.
#[derive(Drop)]
pub struct Crew<B> {
    members: IndexMap<Pid, Member<B>>,
    hints: Hints,
    queue: VecDeque<Pid>,
    /// The processes that were spawned and have not entered yet.
    births: Births<B>,
    /// The processes that left in the last step.
    left: Vec<Role<B>>,
    /// The number of events of the journal that were read.
    read: usize,
    /// The number of rounds over the queue that a step makes.
    rounds: u32,
    /// Whether a call failed in the last step, since there was no memory or no stamp.
    refused: bool,
    /// The time of the steps that follow.
    time: u64,
    /// The timers of the processes that wait until a time and are not in the queue.
    timers: Timers<Pid>,
}

impl<B: Behaviour + Drop> Crew<B> {
    /// An empty crew, which has read nothing of the journal of its desk yet.
    ///
    /// In each step each process gets at most `rounds` items, and one if `rounds` is 0.
    pub fn new(alloc: Global, rounds: u32) -> Crew<B>
        ensures attends { (d : ShardState) → Attends result d }
        ensures nobody { (p : Pid) → roles result p ≡ None }
        ensures queue { queue result ≡ [] }
        ensures born { waiting result ≡ [] }
        ensures left { left result ≡ [] }
        ensures rounds { rounds_asked result ≡ rounds }
        ensures refused { was_refused result ≡ false }
        ensures time { time_of result ≡ 0 }
    {
        Crew {
            members: IndexMap::new(alloc),
            hints: Hints::new(alloc),
            queue: VecDeque::new(alloc),
            births: Births::new(alloc),
            left: Vec::new(alloc),
            read: 0,
            rounds,
            refused: false,
            time: 0,
            timers: Timers::new(alloc),
        }
    }

    /// The number of processes of the crew.
    pub fn len(&self) -> usize
        ensures { result ≡ crew_size self.now }
    {
        self.members.len()
    }

    /// The number of processes that may have something to do.
    pub fn queued(&self) -> usize
        ensures { result ≡ length (queue self.now) }
    {
        self.queue.len()
    }

    /// The behaviour of a process, or `None` if it is not of the crew.
    pub fn behaviour(&self, p: Pid) -> Option<&B>
        ensures { option_copied result ≡ option_map (λ r. r.0) (roles self.now p) }
    {
        match self.members.get(&p) {
            Some(member) => Some(&member.behaviour),
            None => None,
        }
    }

    /// What a process does next, or `None` if it is not of the crew.
    pub fn next(&self, p: Pid) -> Option<Next>
        ensures { result ≡ option_map (λ r. r.1) (roles self.now p) }
    {
        match self.members.get(&p) {
            Some(member) => Some(member.next),
            None => None,
        }
    }

    /// Whether the queue is empty, and all that happened on its desk was read. Then no process of a crew that attends
    /// the desk has anything to do.
    pub fn is_idle(&self, desk: &Desk) -> bool
        ensures idle { result ≡ is_idle self.now desk.now.shard }
        ensures awake { result ≡ true → Attends self.now desk.now.shard
            → (queue self.now ≡ []) × IsAwake (members self.now) (queue self.now) desk.now.shard }
    {
        self.queue.is_empty() && self.read == desk.journal().events().len()
    }

    /// Says what time it is in the steps that follow, in the program's own unit. It is 0 before the first call.
    ///
    /// It may be below the time before: then fewer processes have waited long enough, and nobody gets `None` twice.
    pub fn set_time(&mut self, now: u64)
        ensures time { time_of self.new ≡ now }
        ensures attends { (d : ShardState) → Attends self.old d → Attends self.new d }
        ensures roles { AreSame (roles self.old) (roles self.new) }
        ensures queue { queue self.new ≡ queue self.old }
        ensures rest { (rounds_asked self.new ≡ rounds_asked self.old) × (was_refused self.new ≡ was_refused self.old)
            × (waiting self.new ≡ waiting self.old) × (left self.new ≡ left self.old) }
    {
        self.time = now;
    }

    /// The earliest time until which a process waits that is not in the queue, or `None` if there is no such process.
    ///
    /// If the crew is idle it has nothing to do before this time, unless a signal comes.
    pub fn next_time(&self) -> Option<u64>
        ensures { (d : ShardState) → Attends self.now d → IsNextTime self.now result }
    {
        self.timers.next()
    }

    /// The number of processes that were spawned and have not entered yet: none, unless the last step found no memory.
    pub fn waiting(&self) -> usize
        ensures { result ≡ length (waiting self.now) }
    {
        self.births.len()
    }

    /// The processes that left in the last step, the first in front.
    ///
    /// Each is listed with what it was to do. That is `Stop` with its reason if it exited by itself, and `Wait` or
    /// `Proceed` if another process or a call of its own made it exit.
    pub fn left(&self) -> &[Role<B>]
        ensures { result.now ≡ left self.now }
    {
        self.left.as_slice()
    }

    /// Takes one of the processes that left in the last step, the last of them first.
    ///
    /// Those not taken are dropped as the next step begins.
    pub fn take_left(&mut self) -> Option<Role<B>>
        ensures left { left self.old ≡ left self.new ++ option_to_list result }
        ensures none { result ≡ None → left self.old ≡ [] }
        ensures attends { (d : ShardState) → Attends self.old d → Attends self.new d }
        ensures roles { AreSame (roles self.old) (roles self.new) }
        ensures queue { queue self.new ≡ queue self.old }
        ensures rest { (rounds_asked self.new ≡ rounds_asked self.old) × (was_refused self.new ≡ was_refused self.old)
            × (waiting self.new ≡ waiting self.old) }
        ensures time { time_of self.new ≡ time_of self.old }
    {
        self.left.pop()
    }

    /// The process in front of the queue, or `None` if the queue is empty: [`Crew::run_first`] runs it.
    pub fn first(&self) -> Option<Pid>
        ensures { result ≡ first_of (queue self.now) }
    {
        match self.queue.front() {
            Some(p) => Some(*p),
            None => None,
        }
    }

    /// Whether a call of the last step failed, since there was no memory or no stamp. The process that it was for is as
    /// it was, and is in the queue.
    pub fn refused(&self) -> bool
        ensures { result ≡ was_refused self.now }
    {
        self.refused
    }

    /// Does a step, and then a turn of the desk, as a run does. It returns what the turn did.
    #[tactic(auto, using(pt_desk::proofs::Turning::goes_on_then))]
    pub fn work(&mut self, desk: &mut Desk, budget: u32) -> Turned
        ensures does { CrewWorks B.answers budget self.old desk.old result self.new desk.new }
        ensures attends { Attends self.old desk.old.shard → Attends self.new desk.new.shard }
        ensures goes_on { GoesOn desk.old desk.new }
    {
        self.step(desk);
        desk.turn(budget)
    }

    /// Spawns a process on the desk, which enters the crew and does this first. It waits for an item that matches a
    /// pick, or proceeds if its behaviour has something to do at its start.
    ///
    /// It fails as [`Desk::spawn`] does, and if there is no memory in the crew; then nothing has changed.
    pub fn enter(&mut self, desk: &mut Desk, behaviour: B, first: Next) -> Result<Pid, Fault>
        ensures does { Enters behaviour first self.old desk.old.shard result self.new desk.new.shard }
        ensures knows { KnowsDesk self.old desk.old.shard → KnowsDesk self.new desk.new.shard }
        ensures room { HasRoom self.old → HasRoom self.new }
        ensures timers { KnowsDesk self.old desk.old.shard → HasTimers self.old → HasTimers self.new }
        ensures goes_on { GoesOn desk.old desk.new }
    {
        self.members.reserve(1)?;
        let Some(room) = self.members.len().checked_add(1) else {
            return Err(Fault::Memory);
        };
        self.hints.grow(room)?;
        self.queue.reserve(room)?;
        let pid = desk.spawn()?;
        let _lawful = desk.journal();
        let member = Member {
            behaviour,
            next: first,
            queued: true,
            clear: false,
            timer: None,
        };
        match self.members.insert(pid, member) {
            Ok(_) => {
                self.queue.push_back_reserved(pid);
                Ok(pid)
            }
            Err(_) => Err(Fault::Memory),
        }
    }

    /// Spawns a child of the parent on the desk, linked with it if `linked` is true. The child enters the crew and does
    /// this first, as with [`Crew::enter`].
    ///
    /// It fails as [`Desk::spawn_child`] does, and if there is no memory in the crew; then nothing has changed.
    pub fn enter_child(
        &mut self,
        desk: &mut Desk,
        parent: Pid,
        linked: bool,
        behaviour: B,
        next: Next,
    ) -> Result<Pid, Fault>
        ensures does { EntersChild parent linked behaviour next self.old desk.old.shard result self.new
            desk.new.shard }
        ensures knows { KnowsDesk self.old desk.old.shard → KnowsDesk self.new desk.new.shard }
        ensures room { HasRoom self.old → HasRoom self.new }
        ensures timers { HasTimers self.old → HasTimers self.new }
        ensures goes_on { GoesOn desk.old desk.new }
    {
        self.make_room()?;
        let pid = desk.spawn_child(parent, linked)?;
        let _lawful = desk.journal();
        self.take_in(Role {
            pid,
            behaviour,
            next,
        });
        Ok(pid)
    }

    /// Says what a running process ([`Next::Running`]) does next. It joins the queue's end then, unless it is there.
    /// It stays out of the queue if it waits without an end and has had an empty mailbox since
    /// [`Crew::serve_first`] told of it.
    ///
    /// It returns `false`, and nothing has changed, if the process is not running or not of the crew. It fails for want
    /// of memory only if the crew attends no desk, and then nothing has changed.
    pub fn answer(&mut self, p: Pid, next: Next) -> Result<bool, AllocError>
        ensures is { IfOk result (λ yes. yes ≡ is_running (roles self.old p)) }
        ensures answered { IfOk result
            (λ yes. MatchBool yes (IsAnswered p next self.old self.new) (IsSame self.old self.new)) }
        ensures refused { OnErr result (IsSame self.old self.new) }
        ensures attends { (d : ShardState) → Attends self.old d → IsOk result × Attends self.new d }
    {
        let Some(place) = self.hints.place_of(&self.members, &p) else {
            return Ok(false);
        };
        let (_, member) = self.members.pair_mut(place);
        if !runs(member.next) {
            return Ok(false);
        }
        if rests(next, member.clear) {
            member.next = next;
            return Ok(true);
        }
        self.wake(p)?;
        self.set_next(p, next);
        Ok(true)
    }

    /// Puts another behaviour in the place of that of a process, and returns the one that it had. What the process does
    /// next stays. If it is not of the crew, the behaviour that was passed comes back, and nothing has changed.
    pub fn replace(&mut self, p: Pid, behaviour: B) -> Result<B, B>
        ensures replaced { IfOk result (λ was. (n : Next) × (roles self.old p ≡ Some (was, n))
            × AreWith p (Some (behaviour, n)) (roles self.old) (roles self.new)) }
        ensures back { IfErr result (λ back. (back ≡ behaviour) × (roles self.old p ≡ None) × IsSame self.old self.new) }
        ensures queue { queue self.new ≡ queue self.old }
        ensures read { read_events self.new ≡ read_events self.old }
        ensures rest { KeepsRest self.old self.new }
        ensures attends { (d : ShardState) → Attends self.old d → Attends self.new d }
    {
        let Some(place) = self.hints.place_of(&self.members, &p) else {
            return Err(behaviour);
        };
        let (_, member) = self.members.pair_mut(place);
        Ok(mem::replace(&mut member.behaviour, behaviour))
    }

    /// Sets what a process of the crew does next.
    pub(crate) fn set_next(&mut self, p: Pid, next: Next)
        ensures none { roles self.old p ≡ None → IsSame self.old self.new }
        ensures set { (b : B) (n : Next) → roles self.old p ≡ Some (b, n)
            → AreWith p (Some (b, next)) (roles self.old) (roles self.new) }
        ensures queue { queue self.new ≡ queue self.old }
        ensures read { read_events self.new ≡ read_events self.old }
        ensures rest { KeepsRest self.old self.new }
        ensures knows { (d : ShardState) → AllMarked p self.old → KnowsDesk self.old d → KnowsDesk self.new d }
        ensures timers { AllMarked p self.old → HasTimers self.old → HasTimers self.new }
        ensures room { HasRoom self.old → HasRoom self.new }
    {
        let Some(place) = self.hints.place_of(&self.members, &p) else {
            return;
        };
        let (_, member) = self.members.pair_mut(place);
        member.next = next;
    }

    /// Continues over the desk of the same number in a node that was resumed. It reads the journal of that desk from
    /// its beginning, and visits each of its processes in the next step. For no journal that is left has what they got
    /// while the node was settled.
    ///
    /// It costs time for each process. It fails for want of memory only if the crew attends no desk, and then no
    /// process is forgotten.
    pub fn begin_again(&mut self) -> Result<(), AllocError>
        ensures attends { OnOk result ((d e : ShardState) → Attends self.old d → AreBorn (roles self.old) e
            → Attends self.new e) }
        ensures all { OnOk result ((p : Pid) (m : Member B) → members self.new p ≡ Some m → is_queued m ≡ true) }
        ensures ok { HasRoom self.old → IsOk result }
        ensures roles { AreSame (roles self.old) (roles self.new) }
        ensures longer { QueueIsLonger (queue self.old) (queue self.new) }
        ensures rest { KeepsRest self.old self.new }
    {
        for place in 0..self.members.len() {
            self.wake_at(place)?;
        }
        self.read = 0;
        Ok(())
    }

    /// Puts the process at that place into the queue, if there is one and it is not there yet.
    fn wake_at(&mut self, place: usize) -> Result<(), AllocError>
        ensures wakes { OnOk result (WakesAt place self.old self.new) }
        ensures refused { OnErr result (IsSame self.old self.new) }
        ensures room { HasRoom self.old → IsOk result × HasRoom self.new }
    {
        let Some((p, _member)) = self.members.as_slice().get_index(place) else {
            return Ok(());
        };
        let p = *p;
        self.wake(p)
    }

    /// Puts p into the queue, if it is of the crew and not there yet. Its timer goes: if it still waits after it ran, it
    /// gets one anew.
    #[inline(always)]
    pub(crate) fn wake(&mut self, p: Pid) -> Result<(), AllocError>
        ensures wakes { OnOk result (Wakes p self.old self.new) }
        ensures keys { keys_of self.new.members.entries ≡ keys_of self.old.members.entries }
        ensures refused { OnErr result (IsSame self.old self.new) }
        ensures room { HasRoom self.old → IsOk result × HasRoom self.new }
    {
        let Some(place) = self.hints.place_of(&self.members, &p) else {
            return Ok(());
        };
        let (_, member) = self.members.pair_mut(place);
        if member.queued {
            return Ok(());
        }
        self.queue.reserve(1)?;
        member.queued = true;
        stop_timer(&mut self.timers, member.timer);
        member.timer = None;
        self.queue.push_back_reserved(p);
        Ok(())
    }

    /// Wakes the process that got a signal by the event, or exited by it. An exited one leaves the crew when it is
    /// visited.
    #[inline(always)]
    fn note(&mut self, event: &Event) -> Result<(), AllocError>
        ensures wakes { OnOk result (WakesBy event.now self.old self.new) }
        ensures refused { OnErr result (IsSame self.old self.new) }
        ensures room { HasRoom self.old → IsOk result × HasRoom self.new }
    {
        match event {
            Event::Came(_, to, _) => self.wake(*to),
            Event::Left(p, _) => self.wake(*p),
            _ => Ok(()),
        }
    }

    /// Reads the events that are new in the journal, as far as there is memory for it.
    fn look(&mut self, desk: &Desk)
        ensures knows { KnowsDesk self.old desk.now.shard → KnowsDesk self.new desk.now.shard }
        ensures kept { AreSame (roles self.old) (roles self.new) }
        ensures longer { QueueIsLonger (queue self.old) (queue self.new) }
        ensures rest { KeepsRest self.old self.new }
        ensures timers { HasTimers self.old → HasTimers self.new }
        ensures room { HasRoom self.old → (length desk.now.shard.journal ≤ read_events self.new) × HasRoom self.new }
    {
        let events = desk.journal().events();
        while self.read < events.len() {
            if self.note(&events[self.read].event).is_err() {
                return;
            }
            self.read += 1;
        }
    }

    /// Wakes each process that waits until a time which has come, as far as there is memory for it.
    fn ring(&mut self)
        ensures knows { (d : ShardState) → KnowsDesk self.old d → KnowsDesk self.new d }
        ensures kept { AreSame (roles self.old) (roles self.new) }
        ensures longer { QueueIsLonger (queue self.old) (queue self.new) }
        ensures read { read_events self.new ≡ read_events self.old }
        ensures rest { KeepsRest self.old self.new }
        ensures timers { HasTimers self.old → HasTimers self.new }
        ensures room { HasRoom self.old → HasRoom self.new }
        ensures rung { HasRoom self.old → HasTimers self.old → NoneDue (time_of self.new) self.new.timers }
    {
        for _due in 0..self.timers.len() {
            let Some((_, p)) = self.timers.peek_due(self.time) else {
                return;
            };
            let p = *p;
            if self.wake(p).is_err() {
                return;
            }
        }
    }

    /// Makes room for one process that enters, or leaves at once.
    fn make_room(&mut self) -> Result<(), AllocError>
        ensures same { IsSame self.old self.new }
        ensures ok { OnOk result (CanEnter self.new) }
        ensures succeeds { CanEnter self.old → IsOk result }
        ensures room { HasRoom self.old → HasRoom self.new }
    {
        self.members.reserve(1)?;
        let Some(room) = self.members.len().checked_add(1) else {
            return Err(AllocError);
        };
        self.hints.grow(room)?;
        self.queue.reserve(room)?;
        self.left.reserve(1)
    }

    /// Lets the first of the spawned processes enter.
    fn admit_one(&mut self, desk: &Desk)
        ensures admits { AdmitsFirst (lives desk.now.shard) self.old self.new }
        ensures knows { KnowsDesk self.old desk.now.shard → KnowsDesk self.new desk.now.shard }
        ensures timers { HasTimers self.old → HasTimers self.new }
        ensures room { HasRoom self.old → HasRoom self.new }
    {
        if self.make_room().is_err() {
            self.refused = true;
            return;
        }
        let Some(newborn) = self.births.take_first() else {
            return;
        };
        if !desk.alive_here(newborn.pid) {
            self.left.push_reserved(newborn);
            return;
        }
        self.take_in(newborn);
    }

    /// Begins a step. It forgets who left in the last one and what was refused, reads what is new in the desk's journal,
    /// and wakes each process whose time has come.
    ///
    /// [`Work::step`] does this first. A program whose handlers are outside makes the step itself: this call, then
    /// [`Crew::run_first`] as often as it likes, and then [`Crew::end_step`].
    pub fn begin_step(&mut self, desk: &Desk)
        ensures begins { BeginsStep self.old desk.now.shard self.new }
        ensures knows { KnowsDesk self.old desk.now.shard → KnowsDesk self.new desk.now.shard }
        ensures timers { HasTimers self.old → HasTimers self.new }
        ensures room { HasRoom self.old → HasRoom self.new }
    {
        self.left.clear();
        self.refused = false;
        self.look(desk);
        self.ring();
    }

    /// Ends a step. The processes that behaviours spawned enter the crew, as far as there is memory, and what is new in
    /// the desk's journal is read.
    pub fn end_step(&mut self, desk: &Desk)
        ensures ends { EndsStep self.old desk.now.shard self.new }
        ensures knows { KnowsDesk self.old desk.now.shard → KnowsDesk self.new desk.now.shard }
        ensures timers { HasTimers self.old → HasTimers self.new }
        ensures room { HasRoom self.old → HasRoom self.new }
    {
        self.admit(desk);
        self.look(desk);
    }

    /// A spawned process enters.
    fn take_in(&mut self, newborn: Role<B>)
        requires { CanEnter self.old }
        ensures does { AreWith newborn.pid (Some (newborn.behaviour, newborn.next)) (roles self.old)
            (roles self.new) }
        ensures queue { members self.old newborn.pid ≡ None → queue self.new ≡ queue self.old ++ newborn.pid ∷ [] }
        ensures longer { QueueIsLonger (queue self.old) (queue self.new) }
        ensures rest { KeepsRest self.old self.new }
        ensures knows { (d : ShardState) → is_unborn (phase_of d newborn.pid) ≡ false → KnowsDesk self.old d
            → KnowsDesk self.new d }
        ensures timers { HasTimers self.old → HasTimers self.new }
        ensures room { HasRoom self.old → HasRoom self.new }
    {
        let Role {
            pid,
            behaviour,
            next,
        } = newborn;
        let member = Member {
            behaviour,
            next,
            queued: true,
            clear: false,
            timer: None,
        };
        let stands = self.stands(pid);
        let Ok(before) = self.members.insert(pid, member) else {
            return;
        };
        stop_timer(&mut self.timers, last_timer(before));
        if !stands {
            self.queue.push_back_reserved(pid);
        }
    }

    /// Whether p is of the crew and in the queue.
    fn stands(&self, p: Pid) -> bool
        ensures { result ≡ is_marked (members self.now p) }
    {
        match self.members.get(&p) {
            Some(member) => member.queued,
            None => false,
        }
    }

    /// Lets the spawned processes enter, as far as there is memory.
    fn admit(&mut self, desk: &Desk)
        ensures admits { Admits (lives desk.now.shard) self.old self.new }
        ensures knows { KnowsDesk self.old desk.now.shard → KnowsDesk self.new desk.now.shard }
        ensures timers { HasTimers self.old → HasTimers self.new }
        ensures room { HasRoom self.old → HasRoom self.new }
    {
        for _place in 0..self.births.len() {
            self.admit_one(desk);
        }
    }

    /// Runs the first process of the queue, as a round of a step does. It does nothing if the queue is empty.
    ///
    /// A process that is running ([`Next::Running`]) gets nothing. If it has exited it leaves the crew.
    pub fn run_first(&mut self, desk: &mut Desk)
        ensures serves { Serves B.answers (queue self.old) self.old desk.old.shard self.new desk.new.shard }
        ensures knows { KnowsDesk self.old desk.old.shard → KnowsDesk self.new desk.new.shard }
        ensures room { HasRoom self.old → HasRoom self.new }
        ensures timers { KnowsDesk self.old desk.old.shard → HasTimers self.old → HasTimers self.new }
        ensures same { rounds_asked self.new ≡ rounds_asked self.old }
        ensures time { time_of self.new ≡ time_of self.old }
        ensures goes_on { GoesOn desk.old desk.new }
    {
        let Some(p) = self.queue.pop_front() else {
            return;
        };
        let Some(place) = self.hints.place_of(&self.members, &p) else {
            return;
        };
        if self.left.reserve(1).is_err() {
            self.refused = true;
            self.queue.push_back_reserved(p);
            return;
        }
        let (_, member) = self.members.pair_mut(place);
        let came = tend(member, &mut self.births, desk, self.time, p);
        let tended = sleep(member, &mut self.timers, &p, came);
        member.queued = tended.goes_behind();
        member.clear = false;
        self.put(p, tended);
    }

    /// Puts p, which was come to, behind the queue, or out of the crew, or leaves it as it is.
    #[inline(always)]
    fn put(&mut self, p: Pid, tended: Tended)
        requires queue { deque_len self.old.queue < deque_capacity self.old.queue }
        requires left { vec_len self.old.left < vec_capacity self.old.left }
        ensures { PutsMember p tended self.old self.new }
    {
        match tended {
            Tended::Idle | Tended::Done => {}
            Tended::Again => self.queue.push_back_reserved(p),
            Tended::Refused => {
                self.refused = true;
                self.queue.push_back_reserved(p);
            }
            Tended::Gone => {
                if let Some(member) = self.members.swap_remove(&p) {
                    let Member {
                        behaviour,
                        next,
                        ..
                    } = member;
                    self.left.push_reserved(Role {
                        pid: p,
                        behaviour,
                        next,
                    });
                }
            }
        }
    }

    /// Runs each process that is in the queue now.
    fn round(&mut self, desk: &mut Desk)
        ensures visits { Visits B.answers (queue self.old) (scene [] self.old desk.old.shard)
            (scene (queue self.new) self.new desk.new.shard) }
        ensures knows { KnowsDesk self.old desk.old.shard → KnowsDesk self.new desk.new.shard }
        ensures room { HasRoom self.old → HasRoom self.new }
        ensures timers { KnowsDesk self.old desk.old.shard → HasTimers self.old → HasTimers self.new }
        ensures same { rounds_asked self.new ≡ rounds_asked self.old }
        ensures time { time_of self.new ≡ time_of self.old }
        ensures goes_on { GoesOn desk.old desk.new }
    {
        for _place in 0..self.queue.len() {
            self.run_first(desk);
        }
    }
}

impl<B: Outside + Drop> Crew<B> {
    /// Runs the first process of the queue as [`Crew::run_first`] does, and returns what the outside is told of it. That
    /// process is running ([`Next::Running`]) then. It returns `None` if the queue is empty, or the process gets nothing,
    /// or handles it itself.
    ///
    /// A process of which something was told, and whose mailbox is empty then, joins the queue only if something comes to
    /// it or its answer is none that waits ([`Next::Wait`]).
    pub fn serve_first(&mut self, desk: &mut Desk) -> Option<B::Told>
        ensures serves { Serves (tells_or B.answers B.tells (next_in_front (queue self.old) (roles self.old)) result)
            (queue self.old) self.old desk.old.shard self.new desk.new.shard }
        ensures told { IfSome result (λ _. BeginsToRun (queue self.old) (roles self.old) (roles self.new)) }
        ensures knows { KnowsDesk self.old desk.old.shard → KnowsDesk self.new desk.new.shard }
        ensures room { HasRoom self.old → HasRoom self.new }
        ensures timers { KnowsDesk self.old desk.old.shard → HasTimers self.old → HasTimers self.new }
        ensures same { rounds_asked self.new ≡ rounds_asked self.old }
        ensures time { time_of self.new ≡ time_of self.old }
        ensures goes_on { GoesOn desk.old desk.new }
    {
        let Some(p) = self.queue.pop_front() else {
            return None;
        };
        let Some(place) = self.hints.place_of(&self.members, &p) else {
            return None;
        };
        if self.left.reserve(1).is_err() {
            self.refused = true;
            self.queue.push_back_reserved(p);
            return None;
        }
        let (_, member) = self.members.pair_mut(place);
        let (came, told) = serve(member, &mut self.births, desk, self.time, p);
        let tended = sleep(member, &mut self.timers, &p, came);
        member.queued = tended.goes_behind();
        self.put(p, tended);
        told
    }
}

/// The timer that a process had, if it was of the crew.
fn last_timer<B: Drop>(before: Option<Member<B>>) -> Option<Timer>
    ensures { result ≡ timer_of before }
{
    match before {
        Some(member) => member.timer,
        None => None,
    }
}

/// Cancels a timer, if there is one.
#[inline(always)]
fn stop_timer(timers: &mut Timers<Pid>, timer: Option<Timer>)
    ensures { Stops timer timers.old timers.new }
{
    if let Some(timer) = timer {
        timers.cancel(timer);
    }
}

impl<B: Behaviour + Drop> Work for Crew<B> {
    ghost use Rattle.pt_crew.specs.Crews.{CrewDoes};

    ghost does = { λ old d new e. CrewDoes B.answers old d.shard new e.shard };

    fn step(&mut self, desk: &mut Desk) {
        self.begin_step(desk);
        self.round(desk);
        for _round in 1..self.rounds {
            self.round(desk);
        }
        self.end_step(desk);
    }

    fn turned(&mut self, _desk: &Desk, _turned: Turned) {}
}
