//! The work of a script: what its processes do on the desks of a node.
//!
//! ```
//! let script = Script::read(alloc, text)?;
//! let mut desks = open(alloc, script.config())?;
//! let runners = Runner::start(alloc, &script, &mut desks)?;    // spawns the processes of the script's list
//! ..                                                           // each desk with its runner, to `run` or `run_single`
//! ```
//!
//! # Steps
//!
//! A [`Runner`] is the [`Work`](pt_workers::Work) of one desk. In a step each live process of the script on that desk does
//! at most one operation, in the order in which they were spawned. A process that is spawned in a step starts in the
//! next. If no item matches a `receive`, it is the process's operation in the next step too. So is an operation that
//! fails for want of memory or at the clock's limit. A `receive` without `after` that found nothing is skipped until a
//! signal has arrived at its process, which makes no difference except in time: the runner reads the arrivals in the
//! desk's journal. If an operation fails with `Full` or `Myself`, its process exits in the same step, with the reason
//! `other:` and the failure's number. `"trap":true` is an operation of its own before the others. When the operations
//! of a process are used up, its last one is to exit with `normal`.
//!
//! A `receive` with `after` waits no longer than so many tries, one in each step. If they all found nothing, it is tried
//! once more, and then its process goes on, whether it took an item or not. A try that failed for want of memory or at
//! the clock's limit counts, too.
//!
//! [`Runner::step_one`] lets one process do its next operation. So a caller can choose any order of operations.
//!
//! # Branches
//!
//! `if`, `else` and `end` are no operations, and take no step. Behind an operation that is done, its process goes on at
//! the next one that is to be done. An `if` there tests the item that the operation took, and fits nothing if it took
//! none. If it fits, what follows it is done up to its `else` or `end`. Else what follows its `else` is.
//!
//! # Names
//!
//! An operation names processes by their numbers in the script, and monitors by their tags. The runner keeps the pid of
//! each process that the operations of its desk may name, and the reference of each tag of a process. A tag is without a
//! reference if its monitor or its ask was passed over. Else a number is without a pid, a tag without a reference, or a
//! pid unknown to the desk, only on the desks of another node. An operation that names such a one is skipped. So is the
//! spawn of a process that was spawned before. [`Runner::place`] returns the place of a process in its list.
//!
//! A runner works with the desk that it was made for. After [`Runner::begin_again`], which forgets what it read of the
//! journal, it works with the desk of that number in a resumed node. It begins again by itself if the journal is
//! shorter than what it read. A runner that has read no event cannot see that its desk was resumed.
//!
//! # Cost
//!
//! A step costs time for the operations that it does, for new events of the journal, and for a look at a flag for each
//! waiting process of the script. What is passed over costs time for each mark and each operation of it. After beginning
//! again, each waiting process tries its receive once more. A runner has eight bytes for each slot of its desk; beginning
//! again clears them.
//!
//! # What is put off
//!
//! An operation that fails for want of memory or at the clock's limit is tried again in each step. [`Place::refused`]
//! says how often the next operation of a process failed so, or found nothing if it is a `receive` with `after`.
//! [`are_idle`] says whether no process has anything to do. One at such a `receive` has, since it goes on by itself.
//!
//! Tests: `checks/examples` and `checks/tried/pt_scripts/runners.rt.txt`.
//!
//! # What is proved
//!
//! - **Starting.** `start` spawns the processes of the script, each on its desk and in order, and nothing else happens.
//!   So does `start_on`, on a node with other settings. (`Starting`)
//! - **Failed starts.** It fails with `Full` or `Worn` exactly if the next spawn does, and else only for memory.
//! - **Steps.** In each step each live process does its next operation, in the order in which they were spawned, and
//!   only that. (`RunnerDoes`)
//! - **One at a time.** `step_one` lets one process do its next operation, by the same definition, and nothing else
//!   happens. (`RunnerStepsOne`)
//! - **Operations.** Each kind of operation is defined in one line. (`Performs`)
//! - **Branches.** Behind an operation a process goes on at the first one that is to be done. What is passed over is
//!   defined mark by mark, and by the item that was taken. (`advanced`, `past_mark`)
//! - **Receives that end.** A `receive` with `after` is tried so often as it says, and once more. (`in_time`)
//! - **Attending.** All this holds if the runner attends its desk: it is new, or has taken each turn of it, or begins
//!   again. (`RunnerAttends`)
//! - **Places.** `place` returns the place of a process in its list, and how often its next operation failed for want
//!   of memory or at the clock's limit, or was a `receive` with `after` that found nothing. (`GoesBehind`)
//! - **Idle runners.** If a runner is idle, each of its processes has exited, or waits for an item that has not
//!   arrived. So it is if `finds_nothing` says so, which looks into the mailboxes. (`AllRest`)
#![tactic(auto)]

mod calls;
mod idle;
mod reading;
mod runner;
mod start;

pub use idle::are_idle;
pub use runner::{Place, Runner, place_among};
