//! Processes whose handlers are outside of Rattle, with their supervisors: a crew that hands its items out.
//!
//! A program in another language has the handlers of its processes itself. A [`Scheduler`] schedules them: it says which
//! process is to run, with the item that it gets, and the program runs the handler and says by [`Scheduler::answer`] what
//! the process does next. A process has a tag, a number by which the program finds its state.
//!
//! A process may also be a supervisor, of those that `pt_supervisor` has. A supervisor handles what it gets itself: it
//! starts its children, and starts them again when they exit. It is made of plain data ([`SupervisorSpec`],
//! [`ChildSpec`]). A child begins by being told [`What::Start`], with its tag, its supervisor, and whether it is started
//! again. Then the program makes its state, and answers for it. It may answer that the child is a supervisor itself
//! ([`Scheduler::supervise`]).
//!
//! A step is [`Scheduler::begin_step`], [`Scheduler::fill`] (or [`Scheduler::pull`] as often as the program likes) and
//! [`Scheduler::end_step`]. The handlers may run in between, or later: a process that has not been answered is running,
//! and gets nothing.
//!
//! Tests: `checks/tried/test_calls/scheduler.rt.txt`, `checks/tried/test_calls/scheduler_children.rt.txt` and
//! `checks/tried/test_calls/scheduler_elsewhere.rt.txt`.
//!
//! # What is proved
//!
//! - **Each item once.** Each item that is taken out of a mailbox is told by the call that takes it, or a supervisor
//!   handles it, and nothing else is told. So the jobs have the items in the order in which they were taken. (`HandsOut`,
//!   `RunsBoss`)
//! - **Nothing else is done.** On the desk a job takes the first item that the pick of its process fits, or makes the exit
//!   that was answered, or does nothing. A supervisor does there what its handler does. (`HandsOut`, `TellsExit`,
//!   `RunsBoss`, `StaysPut`)
//! - **Nothing is kept back.** The call that takes an item returns it, and no process has a place to hold one.
//!   (`HandsOut`)
//! - **No lost wake-up.** After each call a process that has something to do is in the queue, or what it got is not read
//!   yet. After `begin_step` and `end_step` it is in the queue. (`attends`, `awake`)
//! - **Supervisors as they are.** A supervisor of a scheduler handles each item as `Supervisor::handle` does. So its
//!   strategy, its limit and the order in which its children exit are those of `pt_supervisor`. (`RunsBoss`,
//!   `BossHandles`)
//! - **Children at run time.** A program asks a supervisor of a scheduler what `Supervisor` may be asked, each call exact and
//!   with its refusals. The supervisor is in the queue then. (`start_child`, `terminate_child`, `restart_child`,
//!   `delete_child`)
//! - **Children on other desks.** A supervisor tells the program once of each child that it is to start on another desk, and
//!   takes in what the program answers. (`child_to_start`, `child_started`, `child_not_started`)
//! - **Starts are told.** A child begins with the tag of its place. It is told first that it starts, by which supervisor,
//!   and whether a child in the same place has exited before. (`starts_post`, `posts_heard`, `what_of`)
//! - **Exits.** A process that has exited leaves once, supervisors too. A job tells its tag, the reason, and what it was to
//!   do. The reason is that of its own exit in the journal. If a signal ended it, it is the one that a loss of its desk
//!   told, or `Noproc` if none was noted. (`TellsExit`, `NotesLoss`)
//! - **Answers.** What was answered is what the process does next. An answer for a process that is not running changes
//!   nothing. (`answer`, `BecomesBoss`)
//! - **Batches.** `fill` runs the processes that were in the queue as it began, in order, until the slice is full. No
//!   process is in a batch twice. (`Fills`)
//! - **One desk.** A process that is spawned makes the scheduler that of its desk, and so does a step that begins. No
//!   other call changes whose it is. (`desk_of`)
//! - **Refusals.** A process for which there was no memory or no stamp is in the queue still. (`StaysPut`)
//! - **Resuming.** Over the desk of a resumed node each process is in the queue, supervisors too, and does next what it
//!   was to do. The scheduler is that of that desk if each exit was told, as it was where it is idle. (`begin_again`,
//!   `is_idle`)
//! - **Going on.** With the history of the node before it need not have been told: its reason is kept.
//!   (`SchedulerGoesOn`)
//! - **What the supervisors uphold stays.** What both theorems on children need of a crew, each call of a scheduler
//!   keeps. (`SchedulerUpholds`)
#![tactic(auto)]

mod boss;
mod children;
mod member;
mod plan;
mod scheduler;

pub use boss::Boss;
pub use member::{Job, Member, Notes, What};
pub use plan::{Origin, Plan, Post};
pub use pt_children::{ChildSpec, SupervisorSpec};
pub use scheduler::Scheduler;
