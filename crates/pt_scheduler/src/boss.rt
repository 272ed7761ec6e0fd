//! The supervisor that a process is, on the heap.

ghost use Rattle.std.specs.Prelude.{◌≡◌, IfOk, position};
ghost use Rattle.pt_behaviour.specs.Births.{bore, born, kept_roles, time_told};
ghost use Rattle.pt_behaviour.specs.Behaving.{takes};
ghost use Rattle.pt_desk.specs.DeskState.{GoesOn};
ghost use Rattle.pt_signal.specs.Values.{is_pid};
ghost use Rattle.pt_children.specs.Ending.{child_end_heard};
ghost use Rattle.pt_supervisor.specs.Hearing.{program_of, standing};
ghost use Rattle.pt_supervisor.specs.Changed.{RemembersWhere, next_due};
ghost use Rattle.pt_supervisor.specs.Keeping.{BearsFrom, HoldsWhere, Tends};
ghost use Rattle.pt_children.specs.Seen.{children_counted};
ghost use Rattle.pt_supervisor.specs.Supervising.{Supervises};
ghost use Rattle.pt_scheduler.specs.Asking.{BossAnswersNotStarted, BossAnswersStarted, BossAsksProgram};
ghost use Rattle.pt_scheduler.specs.Asking.{BossDeletes, BossRestarts, BossStarts, BossTerminates};
ghost use Rattle.pt_scheduler.specs.Members.{BossHandles};
ghost use Rattle.pt_scheduler.specs.Planning.{again_at, posts_heard, posts_of, starts_post};

use crate::member::Member;
use crate::plan::{Plan, delete_child, mark, start_child};
use pt_behaviour::{Births, Next};
use pt_children::{Child, ChildCounts, ChildFault, ChildSpec, GaveUp};
use pt_supervisor::Supervisor;
use pt_workers::{Desk, Fault, Item, Pid};
use std::alloc::{AllocError, Global};
use std::boxed::Box;
use std::marker::Model;

/// The supervisor that a process is. It is on the heap, so that a process that is none stays small. It is public since
/// the definitions name it.
#[derive(Drop)]
pub struct Boss {
    supervisor: Box<Supervisor<Plan>, Global>,
}

impl Model for Boss {
    ghost use Rattle.pt_supervisor.specs.declared.supervisor.Supervisor.{Supervisor};
    ghost use Rattle.pt_scheduler.specs.declared.plan.Plan.{Plan};

    ghost Value = { Supervisor Plan };

    ghost view = { λ b. b.supervisor.value };
}

impl Boss {
    /// Puts a supervisor on the heap.
    pub(crate) fn new(alloc: Global, supervisor: Supervisor<Plan>) -> Result<Boss, AllocError>
        ensures { IfOk result (λ b. b ≡ supervisor) }
    {
        match Box::new(alloc, supervisor) {
            Ok(supervisor) => Ok(Boss { supervisor }),
            Err(_) => Err(AllocError),
        }
    }

    /// Its children.
    pub(crate) fn children(&self) -> &[Child]
        ensures { result.now ≡ (standing self.now).children }
    {
        self.supervisor.children()
    }

    /// How many children it has.
    pub(crate) fn count_children(&self) -> ChildCounts
        ensures { result ≡ children_counted (standing self.now).children }
    {
        self.supervisor.count_children()
    }

    /// Why it gave up, if it has.
    pub(crate) fn gave_up(&self) -> Option<GaveUp>
        ensures { result ≡ (standing self.now).gave_up }
    {
        self.supervisor.gave_up()
    }

    /// What it does next as it stands.
    pub(crate) fn due(&self) -> Next
        ensures due { result ≡ next_due (standing self.now) }
        ensures supervises { Supervises result (standing self.now) }
    {
        self.supervisor.due()
    }

    /// Takes in a child behind the others, with a place of its plan.
    pub(crate) fn start_child(&mut self, spec: ChildSpec) -> Result<usize, ChildFault>
        ensures starts { BossStarts spec self.old result self.new }
        ensures holds { HoldsWhere (standing self.old) (standing self.new) }
        ensures remembers { RemembersWhere (standing self.old) (standing self.new) }
    {
        start_child(&mut self.supervisor, spec)
    }

    /// Notes that a child is to end.
    pub(crate) fn terminate_child(&mut self, id: u64) -> Result<(), ChildFault>
        ensures terminates { BossTerminates id self.old result self.new }
        ensures holds { HoldsWhere (standing self.old) (standing self.new) }
        ensures remembers { RemembersWhere (standing self.old) (standing self.new) }
    {
        self.supervisor.terminate_child(id)
    }

    /// Notes that a child is to be started again.
    pub(crate) fn restart_child(&mut self, id: u64) -> Result<(), ChildFault>
        ensures restarts { BossRestarts id self.old result self.new }
        ensures holds { HoldsWhere (standing self.old) (standing self.new) }
        ensures remembers { RemembersWhere (standing self.old) (standing self.new) }
    {
        self.supervisor.restart_child(id)
    }

    /// Tells of the child that the program is to start on another desk.
    pub(crate) fn to_start(&mut self) -> Result<u64, ChildFault>
        ensures asks { BossAsksProgram self.old result self.new }
        ensures holds { HoldsWhere (standing self.old) (standing self.new) }
        ensures remembers { RemembersWhere (standing self.old) (standing self.new) }
    {
        self.supervisor.to_start()
    }

    /// Notes that the program has started a child on another desk.
    pub(crate) fn child_started(&mut self, id: u64, pid: Pid) -> Result<(), ChildFault>
        ensures answers { BossAnswersStarted id pid self.old result self.new }
        ensures holds { HoldsWhere (standing self.old) (standing self.new) }
        ensures remembers { RemembersWhere (standing self.old) (standing self.new) }
    {
        self.supervisor.child_started(id, pid)
    }

    /// Notes that the program has not started a child on another desk.
    pub(crate) fn child_not_started(&mut self, id: u64, fault: Fault) -> Result<(), ChildFault>
        ensures answers { BossAnswersNotStarted id fault self.old result self.new }
        ensures holds { HoldsWhere (standing self.old) (standing self.new) }
        ensures remembers { RemembersWhere (standing self.old) (standing self.new) }
    {
        self.supervisor.child_not_started(id, fault)
    }

    /// Forgets a child, and its place in the plan.
    pub(crate) fn delete_child(&mut self, id: u64) -> Result<usize, ChildFault>
        ensures deletes { BossDeletes id self.old result self.new }
        ensures holds { HoldsWhere (standing self.old) (standing self.new) }
        ensures remembers { RemembersWhere (standing self.old) (standing self.new) }
    {
        delete_child(&mut self.supervisor, id)
    }

    /// Handles an item, or none. It notes before which child has exited.
    pub(crate) fn handle(
        &mut self,
        desk: &mut Desk,
        births: &mut Births<Member>,
        me: Pid,
        item: Option<Item>,
    ) -> Next
        ensures handles { BossHandles (time_told births.old) self.old desk.old.shard me item result self.new desk.new.shard
            (bore (born births.old) (born births.new)) }
        ensures tends { Tends me item (standing self.old) desk.old.shard result (standing self.new) desk.new.shard }
        ensures bears { BearsFrom starts_post me (born births.old) (born births.new) }
        ensures takes { takes desk.new.shard.journal ≡ takes desk.old.shard.journal }
        ensures kept { kept_roles births.new ≡ kept_roles births.old }
        ensures goes_on { GoesOn desk.old desk.new }
    {
        run(&mut self.supervisor, desk, births, me, item)
    }
}

/// Handles an item, or none, once it has noted which child has exited.
// (not inlined: few items are those of supervisors, and a step that has this in it takes longer for each message)
#[inline(never)]
fn run(
    boss: &mut Supervisor<Plan>,
    desk: &mut Desk,
    births: &mut Births<Member>,
    me: Pid,
    item: Option<Item>,
) -> Next
    ensures handles { BossHandles (time_told births.old) boss.old desk.old.shard me item result boss.new desk.new.shard
        (bore (born births.old) (born births.new)) }
    ensures tends { Tends me item (standing boss.old) desk.old.shard result (standing boss.new) desk.new.shard }
    ensures bears { BearsFrom starts_post me (born births.old) (born births.new) }
    ensures takes { takes desk.new.shard.journal ≡ takes desk.old.shard.journal }
    ensures kept { kept_roles births.new ≡ kept_roles births.old }
    ensures goes_on { GoesOn desk.old desk.new }
{
    heed(boss, item);
    boss.handle(desk, births, me, item)
}

/// Notes that a child of a supervisor has exited, if the process is one.
fn heed_exit(boss: &mut Supervisor<Plan>, from: Pid)
    ensures standing { standing boss.new ≡ standing boss.old }
    ensures posts { posts_of (program_of boss.new)
        ≡ again_at (position (λ c. is_pid c.pid from) (standing boss.old).children) (posts_of (program_of boss.old)) }
{
    if let Some(place) = boss.place_of(from) {
        mark(boss, place);
    }
}

/// Notes which child of a supervisor has exited, if it hears so of one by this item, or without an item.
fn heed(boss: &mut Supervisor<Plan>, item: Option<Item>)
    ensures standing { standing boss.new ≡ standing boss.old }
    ensures posts { posts_of (program_of boss.new)
        ≡ posts_heard (child_end_heard item (standing boss.old).asked) (standing boss.old).children
        (posts_of (program_of boss.old)) }
{
    match boss.hears(item) {
        Some(from) => heed_exit(boss, from),
        None => {}
    }
}
