//! The processes of one desk whose handlers are outside, with their supervisors.

ghost use Rattle.std.specs.Prelude.{◌≡◌, ◌<◌, ◌≤◌, ◌+◌, true, IfOk, IsOk, MatchBool, None, OnErr, OnOk, Some, [], length, reverse};
ghost use Rattle.std.specs.Option.{option_copied, option_map};
ghost use Rattle.pt_signal.specs.declared.pid.Pid.{Pid};
ghost use Rattle.pt_events.specs.History.{Past};
ghost use Rattle.pt_events.specs.declared.event.Event.TheVariants.{Left};
ghost use Rattle.pt_shard.specs.ShardState.{ShardState};
ghost use Rattle.pt_shard.specs.Extends.{Extends};
ghost use Rattle.pt_desk.specs.DeskState.{GoesOn};
ghost use Rattle.pt_crew.specs.Visiting.{AreSame};
ghost use Rattle.pt_crew.specs.Crews.{AreBorn, Attends, Enters, HasRoom, IsNextTime, IsSame, KeepsRest, IsIdle};
ghost use Rattle.pt_crew.specs.Crews.{crew_size, left, queue, roles, time_of, waiting, was_refused};
ghost use Rattle.pt_crew.specs.Running.{is_idle};
ghost use Rattle.pt_crew.specs.Stepping.{BeginsStep, EndsStep, EntersChild, IsAnswered, QueueIsLonger, is_running};
ghost use Rattle.pt_supervisor.specs.Keeping.{SupervisorBegins};
ghost use Rattle.pt_scheduler.specs.Members.{boss_part};
ghost use Rattle.pt_scheduler.specs.Owning.{desk_after, desk_of};
ghost use Rattle.pt_scheduler.specs.Scheduling.{AreAllQueued, BecomesBoss, Fills, IsNoBoss, NoneNoted, NotesLoss};
ghost use Rattle.pt_scheduler.specs.Scheduling.{NotesLost, Pulls, SchedulerAttends, SchedulerGoesOn, SchedulerUpholds};
ghost use Rattle.pt_scheduler.specs.Scheduling.{SpawnsBoss, children_seen, crew_of, member_views, new_member};
ghost use Rattle.pt_scheduler.specs.Taken.{DropsLeft, IsAllNoted, NotesExit, PullsInto, SetsBoss, SetsMember, KeepsExit, KeepsExits};
ghost use Rattle.pt_scheduler.specs.Taken.{SetsNotes, StaysElse, TakesMember};

use crate::boss::Boss;
use crate::member::{Job, Member, Notes, What, job_of_exit};
use crate::plan::supervisor;
use pt_behaviour::Next;
use pt_children::{Child, ChildSpec, SupervisorSpec};
use pt_crew::Crew;
use pt_events::Stamped;
use pt_workers::{Desk, Event, Fault, Loss, Pid, Reason};
use std::alloc::{AllocError, Global};

/// The processes of one desk whose handlers are outside, and their supervisors, which are processes of the same desk.
///
/// Its contracts speak of the crew that it is ([`crew_of`]), and of what is known of each process: its tag, who started
/// it, whether it has been told anything, what it does next, and the supervisor that it is.
#[derive(Drop)]
pub struct Scheduler {
    pub(crate) crew: Crew<Member>,
    /// The number of events of the journal whose exits were noted.
    read: usize,
    /// The number of its desk, once a call was made with it.
    desk: Option<u8>,
}

impl Scheduler {
    /// No processes yet. It has read nothing of the journal of its desk, and may be that of any desk.
    pub fn new(alloc: Global) -> Scheduler
        ensures attends { (d : ShardState) → SchedulerAttends result d }
        ensures nobody { (p : Pid) → roles (crew_of result) p ≡ None }
        ensures queue { queue (crew_of result) ≡ [] }
        ensures born { waiting (crew_of result) ≡ [] }
        ensures time { time_of (crew_of result) ≡ 0 }
        ensures desk { desk_of result ≡ None }
        ensures upholds { (past : Past) (d : ShardState) → SchedulerUpholds past result d }
    {
        Scheduler {
            crew: Crew::new(alloc, 1),
            read: 0,
            desk: None,
        }
    }

    /// The number of the desk of these processes, or `None` if no desk is set yet. The first spawn sets it, and so does
    /// the first step.
    pub fn desk(&self) -> Option<u8>
        ensures { result ≡ desk_of self.now }
    {
        self.desk
    }

    /// The number of its processes.
    pub fn len(&self) -> usize
        ensures { result ≡ crew_size (crew_of self.now) }
    {
        self.crew.len()
    }

    /// The number of processes that may have something to do.
    pub fn queued(&self) -> usize
        ensures { result ≡ length (queue (crew_of self.now)) }
    {
        self.crew.queued()
    }

    /// The tag of a process, or `None` if it is none of these.
    pub fn tag(&self, p: Pid) -> Option<u64>
        ensures { result ≡ option_map (λ v. v.tag) (member_views self.now p) }
    {
        match self.crew.behaviour(p) {
            Some(member) => Some(member.tag()),
            None => None,
        }
    }

    /// What a process does next, or `None` if it is none of these. It is `Running` if it was told something and has not
    /// been answered.
    pub fn next(&self, p: Pid) -> Option<Next>
        ensures { result ≡ option_map (λ v. v.next) (member_views self.now p) }
    {
        self.crew.next(p)
    }

    /// The children of a supervisor in their places, or `None` if the process is no supervisor of these.
    pub fn children(&self, p: Pid) -> Option<&[Child]>
        ensures { option_copied result ≡ children_seen (member_views self.now p) }
    {
        match self.crew.behaviour(p) {
            Some(member) => member.children(),
            None => None,
        }
    }

    /// Whether the queue is empty, and all that happened on its desk was read. Then no process has anything to do, and each
    /// exit was told.
    pub fn is_idle(&self, desk: &Desk) -> bool
        ensures idle { result ≡ is_idle (crew_of self.now) desk.now.shard }
        ensures quiet { result ≡ true → SchedulerAttends self.now desk.now.shard
            → IsIdle (crew_of self.now) desk.now.shard }
        ensures told { result ≡ true → SchedulerAttends self.now desk.now.shard → NoneNoted self.now }
    {
        let _lawful = desk.journal();
        self.crew.is_idle(desk)
    }

    /// The earliest time until which a process waits that is not in the queue, or `None` if there is no such process.
    pub fn next_time(&self) -> Option<u64>
        ensures { (d : ShardState) → SchedulerAttends self.now d → IsNextTime (crew_of self.now) result }
    {
        self.crew.next_time()
    }

    /// Whether a process has been refused memory or a stamp since the step began. It is in the queue still.
    pub fn refused(&self) -> bool
        ensures { result ≡ was_refused (crew_of self.now) }
    {
        self.crew.refused()
    }

    /// Says what time it is in the calls that follow, in the program's own unit. It is 0 before the first call.
    pub fn set_time(&mut self, now: u64)
        ensures time { time_of (crew_of self.new) ≡ now }
        ensures attends { (d : ShardState) → SchedulerAttends self.old d → SchedulerAttends self.new d }
        ensures upholds { (past : Past) (d : ShardState) → SchedulerUpholds past self.old d
            → SchedulerUpholds past self.new d }
        ensures roles { AreSame (roles (crew_of self.old)) (roles (crew_of self.new)) }
        ensures queue { queue (crew_of self.new) ≡ queue (crew_of self.old) }
        ensures waiting { waiting (crew_of self.new) ≡ waiting (crew_of self.old) }
        ensures refused { was_refused (crew_of self.new) ≡ was_refused (crew_of self.old) }
        ensures desk { desk_of self.new ≡ desk_of self.old }
    {
        self.crew.set_time(now);
    }

    /// Spawns a process on the desk with this tag, which does this first. If that is `Proceed`, its first job is
    /// [`What::Start`].
    ///
    /// It fails as [`Desk::spawn`] does, and with `Memory` if there is none here; then nothing has changed.
    pub fn spawn(&mut self, desk: &mut Desk, tag: u64, first: Next) -> Result<Pid, Fault>
        ensures does { Enters (new_member tag None) first (crew_of self.old) desk.old.shard result (crew_of self.new)
            desk.new.shard }
        ensures attends { SchedulerAttends self.old desk.old.shard → SchedulerAttends self.new desk.new.shard }
        ensures upholds { (past : Past) → SchedulerUpholds past self.old desk.old.shard
            → SchedulerUpholds past self.new desk.new.shard }
        ensures desk { desk_of self.new ≡ desk_after result desk.old.shard.number (desk_of self.old) }
        ensures goes_on { GoesOn desk.old desk.new }
    {
        self.enter(desk, Member::new(tag, None), first)
    }

    /// Spawns a process on the desk as this member, which has told of no exit. The process does this first.
    ///
    /// It fails as [`Desk::spawn`] does, and with `Memory` if there is none here; then nothing has changed.
    fn enter(&mut self, desk: &mut Desk, member: Member, first: Next) -> Result<Pid, Fault>
        requires { member.notes.ended ≡ None }
        ensures does { Enters member first (crew_of self.old) desk.old.shard result (crew_of self.new) desk.new.shard }
        ensures attends { SchedulerAttends self.old desk.old.shard → SchedulerAttends self.new desk.new.shard }
        ensures upholds { (past : Past) → SupervisorBegins (boss_part member) first
            → SchedulerUpholds past self.old desk.old.shard → SchedulerUpholds past self.new desk.new.shard }
        ensures desk { desk_of self.new ≡ desk_after result desk.old.shard.number (desk_of self.old) }
        ensures goes_on { GoesOn desk.old desk.new }
    {
        let own = desk.number();
        let pid = self.crew.enter(desk, member, first)?;
        let _lawful = desk.journal();
        self.desk = Some(own);
        Ok(pid)
    }

    /// Spawns a child of the parent with this tag on the desk, linked with it if `linked` is true. The child does this
    /// first.
    ///
    /// It fails as [`Desk::spawn_child`] does, and with `Memory` if there is none here; then nothing has changed.
    pub fn spawn_child(
        &mut self,
        desk: &mut Desk,
        parent: Pid,
        linked: bool,
        tag: u64,
        first: Next,
    ) -> Result<Pid, Fault>
        ensures does { EntersChild parent linked (new_member tag None) first (crew_of self.old) desk.old.shard result
            (crew_of self.new) desk.new.shard }
        ensures attends { SchedulerAttends self.old desk.old.shard → SchedulerAttends self.new desk.new.shard }
        ensures upholds { (past : Past) → IsNoBoss self.old parent → SchedulerUpholds past self.old desk.old.shard
            → SchedulerUpholds past self.new desk.new.shard }
        ensures desk { desk_of self.new ≡ desk_after result desk.old.shard.number (desk_of self.old) }
        ensures goes_on { GoesOn desk.old desk.new }
    {
        let own = desk.number();
        let pid = self
            .crew
            .enter_child(desk, parent, linked, Member::new(tag, None), first)?;
        let _lawful = desk.journal();
        self.desk = Some(own);
        Ok(pid)
    }

    /// Spawns a supervisor on the desk with this tag, which starts its children when it runs.
    ///
    /// It fails as [`Desk::spawn`] does, and with `Memory` if there is none here; then nothing has changed.
    pub fn spawn_supervisor(
        &mut self,
        alloc: Global,
        desk: &mut Desk,
        tag: u64,
        spec: SupervisorSpec,
        children: &[ChildSpec],
    ) -> Result<Pid, Fault>
        ensures does { SpawnsBoss tag spec children.now (crew_of self.old) desk.old.shard result (crew_of self.new)
            desk.new.shard }
        ensures attends { SchedulerAttends self.old desk.old.shard → SchedulerAttends self.new desk.new.shard }
        ensures upholds { (past : Past) → SchedulerUpholds past self.old desk.old.shard
            → SchedulerUpholds past self.new desk.new.shard }
        ensures desk { desk_of self.new ≡ desk_after result desk.old.shard.number (desk_of self.old) }
        ensures goes_on { GoesOn desk.old desk.new }
    {
        let boss = supervisor(alloc, spec, children)?;
        self.enter(desk, Member::new(tag, Some(boss)), Next::Proceed)
    }

    /// Says that a running process is a supervisor from now on, which starts its children when it runs.
    ///
    /// It returns `false`, and nothing has changed, if the process is not running or is none of these. It fails for
    /// want of memory, and then nothing has changed.
    pub fn supervise(
        &mut self,
        alloc: Global,
        p: Pid,
        spec: SupervisorSpec,
        children: &[ChildSpec],
    ) -> Result<bool, AllocError>
        ensures is { IfOk result (λ yes. yes ≡ is_running (roles (crew_of self.old) p)) }
        ensures becomes { IfOk result (λ yes. MatchBool yes (BecomesBoss p spec children.now self.old self.new)
            (IsSame (crew_of self.old) (crew_of self.new))) }
        ensures refused { OnErr result (IsSame (crew_of self.old) (crew_of self.new)) }
        ensures attends { (d : ShardState) → SchedulerAttends self.old d → SchedulerAttends self.new d }
        ensures upholds { (past : Past) (d : ShardState) → SchedulerUpholds past self.old d
            → SchedulerUpholds past self.new d }
        ensures desk { desk_of self.new ≡ desk_of self.old }
    {
        let boss = supervisor(alloc, spec, children)?;
        if !self.answer(p, Next::Proceed)? {
            return Ok(false);
        }
        self.set_boss(p, boss);
        Ok(true)
    }

    /// Says what a running process does next. It joins the queue's end, unless it waits without an end and its mailbox
    /// has been empty since it was told.
    ///
    /// It returns `false`, and nothing has changed, if the process is not running or is none of these. It fails for
    /// want of memory only if this attends no desk.
    pub fn answer(&mut self, p: Pid, next: Next) -> Result<bool, AllocError>
        ensures is { IfOk result (λ yes. yes ≡ is_running (roles (crew_of self.old) p)) }
        ensures answered { IfOk result (λ yes. MatchBool yes (IsAnswered p next (crew_of self.old) (crew_of self.new))
            (IsSame (crew_of self.old) (crew_of self.new))) }
        ensures refused { OnErr result (IsSame (crew_of self.old) (crew_of self.new)) }
        ensures ok { (d : ShardState) → SchedulerAttends self.old d → IsOk result }
        ensures attends { (d : ShardState) → SchedulerAttends self.old d → SchedulerAttends self.new d }
        ensures upholds { (past : Past) (d : ShardState) → SchedulerUpholds past self.old d
            → SchedulerUpholds past self.new d }
        ensures desk { desk_of self.new ≡ desk_of self.old }
    {
        self.crew.answer(p, next)
    }

    /// Begins a step: it reads what is new in the desk's journal, and wakes each process whose time has come. What the
    /// desk did since the last call, such as a turn, is read now.
    pub fn begin_step(&mut self, desk: &Desk)
        ensures begins { BeginsStep (crew_of self.old) desk.now.shard (crew_of self.new) }
        ensures attends { (d : ShardState) → Extends d desk.now.shard → SchedulerAttends self.old d
            → SchedulerAttends self.new desk.now.shard }
        ensures upholds { (past : Past) (d : ShardState) → SchedulerUpholds past self.old d
            → SchedulerUpholds past self.new d }
        ensures desk { desk_of self.new ≡ Some desk.now.shard.number }
    {
        self.crew.begin_step(desk);
        self.desk = Some(desk.number());
    }

    /// Ends a step: the children that supervisors started enter, and it reads what is new in the desk's journal, so that
    /// each process that has something to do is in the queue.
    ///
    /// A child that has exited already is told neither of its start nor of its exit.
    pub fn end_step(&mut self, desk: &Desk)
        ensures ends { EndsStep (crew_of self.old) desk.now.shard (crew_of self.new) }
        ensures attends { SchedulerAttends self.old desk.now.shard → SchedulerAttends self.new desk.now.shard }
        ensures upholds { (past : Past) → SchedulerUpholds past self.old desk.now.shard
            → SchedulerUpholds past self.new desk.now.shard }
        ensures desk { desk_of self.new ≡ desk_of self.old }
    {
        self.crew.end_step(desk);
        let _lawful = desk.journal();
    }

    /// Continues over the desk of the same number in a node that was resumed. It reads the journal of that desk from
    /// its beginning, and each of its processes is in the queue then, supervisors too. For no journal that is left has what
    /// they got while the node was settled.
    ///
    /// It fails for want of memory only if this attends no desk, and then no process is forgotten.
    pub fn begin_again(&mut self) -> Result<(), AllocError>
        ensures attends { OnOk result ((d e : ShardState) → SchedulerAttends self.old d → NoneNoted self.old
            → AreBorn (roles (crew_of self.old)) e → SchedulerAttends self.new e) }
        ensures all { OnOk result (AreAllQueued (crew_of self.new)) }
        ensures ok { (d : ShardState) → SchedulerAttends self.old d → IsOk result }
        ensures roles { AreSame (roles (crew_of self.old)) (roles (crew_of self.new)) }
        ensures longer { QueueIsLonger (queue (crew_of self.old)) (queue (crew_of self.new)) }
        ensures rest { KeepsRest (crew_of self.old) (crew_of self.new) }
        ensures desk { desk_of self.new ≡ desk_of self.old }
    {
        self.begin_over()
    }

    /// Continues over the desk of the same number in a node that was resumed, as
    /// [`begin_again`](Scheduler::begin_again) does, whether each exit was told or not. The reason of an exit in this history is told once the exit is.
    ///
    /// The history is that of the settled node before it was resumed, the oldest event first. It costs time for each event
    /// of it, and for each process.
    pub fn go_on(&mut self, history: &[Stamped])
        ensures { SchedulerGoesOn (reverse history.now) self.old self.new }
    {
        self.keep_exits(history);
        let _ = self.begin_over();
    }

    /// Puts each process into the queue, and reads the journal from its beginning.
    fn begin_over(&mut self) -> Result<(), AllocError>
        ensures crew { OnOk result ((d e : ShardState) → Attends (crew_of self.old) d
            → AreBorn (roles (crew_of self.old)) e → Attends (crew_of self.new) e) }
        ensures read { OnOk result (self.new.read ≡ 0) }
        ensures all { OnOk result (AreAllQueued (crew_of self.new)) }
        ensures ok { HasRoom (crew_of self.old) → IsOk result }
        ensures roles { AreSame (roles (crew_of self.old)) (roles (crew_of self.new)) }
        ensures longer { QueueIsLonger (queue (crew_of self.old)) (queue (crew_of self.new)) }
        ensures rest { KeepsRest (crew_of self.old) (crew_of self.new) }
        ensures desk { desk_of self.new ≡ desk_of self.old }
    {
        self.crew.begin_again()?;
        self.read = 0;
        Ok(())
    }

    /// Runs the process in front of the queue, and returns what it is told. A process that has exited is told of once.
    ///
    /// It returns `None` if the queue is empty, or the process gets nothing: it is a supervisor, which handles what it
    /// gets itself, no item matches, or there was no memory or no stamp. In the latter case it is in the queue still, and
    /// `refused` is true.
    pub fn pull(&mut self, desk: &mut Desk) -> Option<Job>
        ensures does { SchedulerAttends self.old desk.old.shard
            → Pulls self.old desk.old.shard result self.new desk.new.shard }
        ensures attends { SchedulerAttends self.old desk.old.shard → SchedulerAttends self.new desk.new.shard }
        ensures upholds { (past : Past) → SchedulerAttends self.old desk.old.shard
            → SchedulerUpholds past self.old desk.old.shard → SchedulerUpholds past self.new desk.new.shard }
        ensures time { time_of (crew_of self.new) ≡ time_of (crew_of self.old) }
        ensures desk { desk_of self.new ≡ desk_of self.old }
        ensures goes_on { GoesOn desk.old desk.new }
    {
        let p = self.crew.first()?;
        self.drop_left();
        self.note(desk);
        let alive = desk.alive_here(p);
        if let Some(job) = self.crew.serve_first(desk) {
            return Some(job);
        }
        match self.crew.take_left() {
            Some(left) => Some(job_of_exit(left, alive)),
            None => None,
        }
    }

    /// Runs the processes that are in the queue now, in order, until the slice is full. It writes what they are told to
    /// the front of the slice, and returns how many jobs these are. What is behind them in the slice stays.
    ///
    /// A process is in a slice once at most.
    pub fn fill(&mut self, desk: &mut Desk, jobs: &mut [Job]) -> usize
        ensures does { SchedulerAttends self.old desk.old.shard
            → Fills jobs.old self.old desk.old.shard result jobs.new self.new desk.new.shard }
        ensures attends { SchedulerAttends self.old desk.old.shard → SchedulerAttends self.new desk.new.shard }
        ensures upholds { (past : Past) → SchedulerAttends self.old desk.old.shard
            → SchedulerUpholds past self.old desk.old.shard → SchedulerUpholds past self.new desk.new.shard }
        ensures time { time_of (crew_of self.new) ≡ time_of (crew_of self.old) }
        ensures desk { desk_of self.new ≡ desk_of self.old }
        ensures goes_on { GoesOn desk.old desk.new }
    {
        let mut filled = 0;
        for _place in 0..self.crew.queued() {
            if filled >= jobs.len() {
                return filled;
            }
            filled = self.pull_into(desk, jobs, filled);
        }
        filled
    }

    /// Pulls, and writes the job to that place of the slice, if there is one. It returns the place of the next.
    fn pull_into(&mut self, desk: &mut Desk, jobs: &mut [Job], place: usize) -> usize
        requires { place < length jobs.old }
        ensures does { SchedulerAttends self.old desk.old.shard
            → PullsInto place jobs.old self.old desk.old.shard result jobs.new self.new desk.new.shard }
        ensures attends { SchedulerAttends self.old desk.old.shard → SchedulerAttends self.new desk.new.shard }
        ensures upholds { (past : Past) → SchedulerAttends self.old desk.old.shard
            → SchedulerUpholds past self.old desk.old.shard → SchedulerUpholds past self.new desk.new.shard }
        ensures time { time_of (crew_of self.new) ≡ time_of (crew_of self.old) }
        ensures desk { desk_of self.new ≡ desk_of self.old }
        ensures len { length jobs.new ≡ length jobs.old }
        ensures within { result ≤ place + 1 }
        ensures goes_on { GoesOn desk.old desk.new }
    {
        match self.pull(desk) {
            Some(job) => {
                jobs[place] = job;
                place + 1
            }
            None => place,
        }
    }

    /// Notes what a loss of the desk tells: the reason of the exit of its process. That is told then, if an exit signal
    /// ended the process, or if it exited while its node was settled. A message that came too late tells of no exit.
    ///
    /// A program that wants to know each reason keeps the losses of its desk ([`Desk::keep_losses`]), and notes each
    /// before it is pulled.
    pub fn note_loss(&mut self, loss: &Loss)
        ensures notes { NotesLoss loss.now self.old self.new }
        ensures attends { (d : ShardState) → SchedulerAttends self.old d → SchedulerAttends self.new d }
        ensures upholds { (past : Past) (d : ShardState) → SchedulerUpholds past self.old d
            → SchedulerUpholds past self.new d }
        ensures time { time_of (crew_of self.new) ≡ time_of (crew_of self.old) }
        ensures desk { desk_of self.new ≡ desk_of self.old }
    {
        if let Loss::Exited(p, reason, _) = loss {
            self.set_lost(*p, *reason);
        }
    }

    /// Notes that a loss told of the exit of p, if it is one of these processes.
    fn set_lost(&mut self, p: Pid, reason: Reason)
        ensures notes { NotesLost p reason self.old self.new }
        ensures attends { (d : ShardState) → SchedulerAttends self.old d → SchedulerAttends self.new d }
        ensures desk { desk_of self.new ≡ desk_of self.old }
    {
        let Some(member) = self.crew.behaviour(p) else {
            return;
        };
        let known = member.notes();
        let notes = Notes {
            lost: Some(reason),
            ..known
        };
        self.set_notes(p, notes);
    }

    /// Notes the exits that are new in the desk's journal.
    fn note(&mut self, desk: &Desk)
        ensures noted { SchedulerAttends self.old desk.now.shard → IsAllNoted self.old desk.now.shard self.new }
        ensures time { time_of (crew_of self.new) ≡ time_of (crew_of self.old) }
        ensures desk { desk_of self.new ≡ desk_of self.old }
    {
        let events = desk.journal().events();
        while self.read < events.len() {
            self.note_exit(&events[self.read].event);
            self.read += 1;
        }
    }

    /// Notes the exit, if one of the processes exited by the event.
    fn note_exit(&mut self, event: &Event)
        ensures { NotesExit event.now self.old self.new }
    {
        match event {
            Event::Left(p, reason) => self.set_end(*p, *reason),
            _ => {}
        }
    }

    /// Notes that p exited with this reason, if it is one of these processes.
    fn set_end(&mut self, p: Pid, reason: Reason)
        ensures { NotesExit (Left p reason) self.old self.new }
    {
        let Some(member) = self.crew.behaviour(p) else {
            return;
        };
        let known = member.notes();
        let notes = Notes {
            ended: Some(reason),
            ..known
        };
        self.set_notes(p, notes);
    }

    /// Keeps the reason of each exit in a history.
    fn keep_exits(&mut self, history: &[Stamped])
        ensures { KeepsExits (reverse history.now) self.old self.new }
    {
        for place in 0..history.len() {
            self.keep_exit(&history[place].event);
        }
    }

    /// Keeps the reason, if one of the processes exited by the event.
    fn keep_exit(&mut self, event: &Event)
        ensures { KeepsExit event.now self.old self.new }
    {
        match event {
            Event::Left(p, reason) => self.set_kept(*p, *reason),
            _ => {}
        }
    }

    /// Keeps that p exited with this reason, if it is one of these processes.
    fn set_kept(&mut self, p: Pid, reason: Reason)
        ensures { KeepsExit (Left p reason) self.old self.new }
    {
        let Some(member) = self.crew.behaviour(p) else {
            return;
        };
        let known = member.notes();
        let notes = Notes {
            ended: None,
            lost: Some(reason),
            ..known
        };
        self.set_notes(p, notes);
    }

    /// Sets what is known of a process for what it is told.
    fn set_notes(&mut self, p: Pid, notes: Notes)
        ensures sets { SetsNotes p notes self.old self.new }
        ensures rest { StaysElse self.old self.new }
    {
        if let Some(was) = self.take_out(p) {
            self.put_back(p, was.with_notes(notes));
        }
    }

    /// Sets which supervisor a process is.
    fn set_boss(&mut self, p: Pid, boss: Boss)
        ensures sets { SetsBoss p boss self.old self.new }
        ensures rest { StaysElse self.old self.new }
    {
        if let Some(was) = self.take_out(p) {
            self.put_back(p, was.with_boss(boss));
        }
    }

    /// Takes a process out of its place.
    pub(crate) fn take_out(&mut self, p: Pid) -> Option<Member>
        ensures takes { TakesMember p self.old result self.new }
        ensures rest { StaysElse self.old self.new }
    {
        match self.crew.replace(p, Member::new(0, None)) {
            Ok(was) => Some(was),
            Err(_) => None,
        }
    }

    /// Puts a process into its place.
    pub(crate) fn put_back(&mut self, p: Pid, member: Member)
        ensures sets { SetsMember p member self.old self.new }
        ensures rest { StaysElse self.old self.new }
    {
        let _ = self.crew.replace(p, member);
    }

    /// Forgets those who left before they could enter.
    fn drop_left(&mut self)
        ensures { DropsLeft self.old self.new }
    {
        for _place in 0..self.crew.left().len() {
            let _ = self.crew.take_left();
        }
    }
}
