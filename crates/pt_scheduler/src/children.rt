//! What a program asks of a supervisor about its children, at run time.

ghost use Rattle.std.specs.Prelude.{◌≡◌};
ghost use Rattle.pt_events.specs.History.{Past};
ghost use Rattle.pt_shard.specs.ShardState.{ShardState};
ghost use Rattle.pt_scheduler.specs.Owning.{desk_of};
ghost use Rattle.pt_scheduler.specs.Scheduling.{SchedulerAttends, SchedulerUpholds, member_views};
ghost use Rattle.pt_scheduler.specs.Asking.{AsksBoss, BossDeletes, BossRestarts, BossStarts, BossTerminates};
ghost use Rattle.pt_scheduler.specs.Asking.{BossAnswersNotStarted, BossAnswersStarted, BossAsksProgram, cause_seen, counts_seen};
ghost use Rattle.pt_scheduler.specs.Out.{PutsBoss, TakesBoss};

use crate::boss::Boss;
use crate::member::Member;
use crate::scheduler::Scheduler;
use pt_children::{ChildCounts, ChildFault, ChildSpec, GaveUp};
use pt_workers::{Fault, Pid};

impl Scheduler {
    /// How many children a supervisor has, how many of them are alive, and how many are to be started. It is `None` if the
    /// process is no supervisor of these.
    pub fn count_children(&self, p: Pid) -> Option<ChildCounts>
        ensures { result ≡ counts_seen (member_views self.now p) }
    {
        match self.crew.behaviour(p)?.boss() {
            Some(boss) => Some(boss.count_children()),
            None => None,
        }
    }

    /// Why a supervisor gave up: which child was not started again, how often it had started children again, and in what
    /// span. It is `None` if it has not, or if the process is no supervisor of these.
    ///
    /// A supervisor that gave up ends its children, and then exits. Once its exit is told it is none of these.
    pub fn gave_up(&self, p: Pid) -> Option<GaveUp>
        ensures { result ≡ cause_seen (member_views self.now p) }
    {
        self.crew.behaviour(p)?.boss()?.gave_up()
    }

    /// Asks a supervisor for one more child, behind the others. Its tag is also its id. Returns its place.
    ///
    /// The supervisor is in the queue then, and starts the child when it runs. If it ends another child just now, it starts
    /// this one once that has exited. It returns `None` if the process is no supervisor of these. If the supervisor
    /// refuses, it is as it was.
    pub fn start_child(&mut self, p: Pid, child: ChildSpec) -> Option<Result<usize, ChildFault>>
        ensures asks { AsksBoss p (λ r old new. BossStarts child old r new) result self.old self.new }
        ensures attends { (d : ShardState) → SchedulerAttends self.old d → SchedulerAttends self.new d }
        ensures upholds { (past : Past) (d : ShardState) → SchedulerUpholds past self.old d
            → SchedulerUpholds past self.new d }
        ensures desk { desk_of self.new ≡ desk_of self.old }
    {
        let (mut boss, member) = self.take_boss(p)?;
        let result = boss.start_child(child);
        self.put_boss(p, boss, member, result.is_ok());
        Some(result)
    }

    /// Asks a supervisor to end the child with this id, alive or not, as its specification says. The child keeps its place,
    /// and is not started again unless [`Scheduler::restart_child`] asks for it, or a strategy names it.
    ///
    /// The supervisor is in the queue then, and ends the child when it runs. It returns `None` if the process is no
    /// supervisor of these. If the supervisor refuses, it is as it was.
    pub fn terminate_child(&mut self, p: Pid, id: u64) -> Option<Result<(), ChildFault>>
        ensures asks { AsksBoss p (λ r old new. BossTerminates id old r new) result self.old self.new }
        ensures attends { (d : ShardState) → SchedulerAttends self.old d → SchedulerAttends self.new d }
        ensures upholds { (past : Past) (d : ShardState) → SchedulerUpholds past self.old d
            → SchedulerUpholds past self.new d }
        ensures desk { desk_of self.new ≡ desk_of self.old }
    {
        let (mut boss, member) = self.take_boss(p)?;
        let result = boss.terminate_child(id);
        self.put_boss(p, boss, member, result.is_ok());
        Some(result)
    }

    /// Asks a supervisor to start the child with this id, which must be neither alive nor about to be started.
    ///
    /// The supervisor is in the queue then, and starts the child when it runs, as with [`Scheduler::start_child`]. It returns
    /// `None` if the process is no supervisor of these. If the supervisor refuses, it is as it was.
    pub fn restart_child(&mut self, p: Pid, id: u64) -> Option<Result<(), ChildFault>>
        ensures asks { AsksBoss p (λ r old new. BossRestarts id old r new) result self.old self.new }
        ensures attends { (d : ShardState) → SchedulerAttends self.old d → SchedulerAttends self.new d }
        ensures upholds { (past : Past) (d : ShardState) → SchedulerUpholds past self.old d
            → SchedulerUpholds past self.new d }
        ensures desk { desk_of self.new ≡ desk_of self.old }
    {
        let (mut boss, member) = self.take_boss(p)?;
        let result = boss.restart_child(id);
        self.put_boss(p, boss, member, result.is_ok());
        Some(result)
    }

    /// Has a supervisor forget the child with this id, which must be neither alive nor about to be started. Returns the place
    /// that it had: the children behind it move up.
    ///
    /// It returns `None` if the process is no supervisor of these. If the supervisor refuses, it is as it was.
    pub fn delete_child(&mut self, p: Pid, id: u64) -> Option<Result<usize, ChildFault>>
        ensures asks { AsksBoss p (λ r old new. BossDeletes id old r new) result self.old self.new }
        ensures attends { (d : ShardState) → SchedulerAttends self.old d → SchedulerAttends self.new d }
        ensures upholds { (past : Past) (d : ShardState) → SchedulerUpholds past self.old d
            → SchedulerUpholds past self.new d }
        ensures desk { desk_of self.new ≡ desk_of self.old }
    {
        let (mut boss, member) = self.take_boss(p)?;
        let result = boss.delete_child(id);
        self.put_boss(p, boss, member, result.is_ok());
        Some(result)
    }

    /// Returns the tag of the child that a supervisor wants started on another desk. The supervisor comes to such a child in
    /// its turn, and then waits until [`Scheduler::child_started`] or [`Scheduler::child_not_started`] answers.
    ///
    /// The program is told of it once, so it asks the supervisors that have such children after each step. The result is
    /// `NotAwaited` if there is no such child, or the program was told of it, and then nothing has changed. It is `None` if
    /// the process is no supervisor of these.
    pub fn child_to_start(&mut self, p: Pid) -> Option<Result<u64, ChildFault>>
        ensures asks { AsksBoss p (λ r old new. BossAsksProgram old r new) result self.old self.new }
        ensures attends { (d : ShardState) → SchedulerAttends self.old d → SchedulerAttends self.new d }
        ensures upholds { (past : Past) (d : ShardState) → SchedulerUpholds past self.old d
            → SchedulerUpholds past self.new d }
        ensures desk { desk_of self.new ≡ desk_of self.old }
    {
        let (mut boss, member) = self.take_boss(p)?;
        let result = boss.to_start();
        self.put_boss(p, boss, member, result.is_ok());
        Some(result)
    }

    /// Tells a supervisor that the program has started the child with this id on another desk, as this process.
    ///
    /// The supervisor is in the queue then, and links with the process when it runs
    /// ([`Supervisor::child_started`](pt_supervisor::Supervisor::child_started)). It returns `None` if p is no supervisor of
    /// these. If the supervisor does not wait for this child, the result is `NotAwaited`, and it is as it was.
    pub fn child_started(&mut self, p: Pid, id: u64, pid: Pid) -> Option<Result<(), ChildFault>>
        ensures asks { AsksBoss p (λ r old new. BossAnswersStarted id pid old r new) result self.old self.new }
        ensures attends { (d : ShardState) → SchedulerAttends self.old d → SchedulerAttends self.new d }
        ensures upholds { (past : Past) (d : ShardState) → SchedulerUpholds past self.old d
            → SchedulerUpholds past self.new d }
        ensures desk { desk_of self.new ≡ desk_of self.old }
    {
        let (mut boss, member) = self.take_boss(p)?;
        let result = boss.child_started(id, pid);
        self.put_boss(p, boss, member, result.is_ok());
        Some(result)
    }

    /// Tells a supervisor that the program has not started the child with this id on another desk, for this reason.
    ///
    /// The supervisor is in the queue then, and does what it does after a start that failed. It returns `None` if p is no
    /// supervisor of these. If the supervisor does not wait for this child, the result is `NotAwaited`, and it is as it was.
    pub fn child_not_started(
        &mut self,
        p: Pid,
        id: u64,
        fault: Fault,
    ) -> Option<Result<(), ChildFault>>
        ensures asks { AsksBoss p (λ r old new. BossAnswersNotStarted id fault old r new) result self.old self.new }
        ensures attends { (d : ShardState) → SchedulerAttends self.old d → SchedulerAttends self.new d }
        ensures upholds { (past : Past) (d : ShardState) → SchedulerUpholds past self.old d
            → SchedulerUpholds past self.new d }
        ensures desk { desk_of self.new ≡ desk_of self.old }
    {
        let (mut boss, member) = self.take_boss(p)?;
        let result = boss.child_not_started(id, fault);
        self.put_boss(p, boss, member, result.is_ok());
        Some(result)
    }

    /// Takes a supervisor out of its process, and the process out of its place.
    fn take_boss(&mut self, p: Pid) -> Option<(Boss, Member)>
        ensures { TakesBoss p self.old result self.new }
    {
        let _ = self.children(p)?;
        self.take_out(p)?.apart()
    }

    /// Puts a supervisor back into its process, and that into its place. If it has taken in what it was asked, it does what is
    /// due next.
    fn put_boss(&mut self, p: Pid, boss: Boss, member: Member, is_taken: bool)
        ensures { PutsBoss p boss member is_taken self.old self.new }
    {
        let next = boss.due();
        self.put_back(p, member.with_boss(boss));
        if is_taken {
            let _ = self.crew.redirect(p, next);
        }
    }
}
