//! Processes that run code: the crew of a desk.
//!
//! What a process does with an item of its mailbox is a [`Behaviour`](pt_behaviour::Behaviour). A [`Crew`] has the
//! processes of one desk with their behaviours, and is the desk's [`Work`](pt_workers::Work), so `pt_workers::run` and
//! `run_single` run it.
//!
//! # Handlers outside
//! A behaviour that answers [`Next::Running`](pt_behaviour::Next::Running) waits until the program says by
//! [`Crew::answer`] what it does next. With [`Crew::begin_step`], [`Crew::run_first`] and [`Crew::end_step`] the program
//! takes the step itself.
//! [`Crew::serve_first`] tells the program what a process gets, if its behaviour says so ([`Outside`]).
//!
//! Tests: `checks/tried/test_calls/crews.rt.txt`, `checks/tried/test_calls/timed_crews.rt.txt`,
//! `crates/test_calls/src/on_a_desk.rt` and `crates/test_calls/src/upheld.rt`.
//!
//! # What is proved
//!
//! - **No lost wake-up.** After each step, each live process with an item that it waits for is in the queue. So is each
//!   exited one that has not left. (`CrewDoes`, `awake`)
//! - **Attending.** A new crew attends its desk, and does so still after each step: each process to which something came
//!   is in the queue, or what it got is not read yet. (`Attends`, `attends`)
//! - **Each item once.** Each item taken was passed to the behaviour of its process, once and in order, and nothing
//!   else was. (`hands`)
//! - **Behaviours decide.** A process does next what its behaviour answered: proceed, wait for a pick, or exit.
//!   (`steps`)
//! - **Rounds.** A step makes as many rounds as asked for. In each it runs each queued process once, in order. Each
//!   process that has something to do as the step begins is in the first round. (`first`)
//! - **Item or time.** A process that waits until a time gets the first item that fits, or `None` once its time has come,
//!   and never both. Each process whose time has come as a step begins is in the first round. (`steps`, `due`)
//! - **One time.** Each behaviour that runs in a step answers at the time of the step, which `Births::now` returns.
//!   (`SeesTo`, `Answers`)
//! - **Timers.** A process has a timer exactly while it waits until a time and is not in the queue, so none is left over.
//!   `next_time` returns the earliest of their times. (`Attends`)
//! - **Leaving.** A process leaves a crew only by its exit, and is returned as it was. (`left`, `take_left`)
//! - **Refusals.** If a call fails for want of memory or stamps, item and process stay. `refused` is true exactly then,
//!   or if a spawned process could not enter. (`told`)
//! - **Invariants.** What a behaviour upholds by its answers, its crew keeps for all its processes, and through runs.
//!   (`crew_upholds`, `runs_uphold`)
//! - **Steps from outside.** A step is `begin_step`, `run_first` or `serve_first`, and `end_step`, each with a contract
//!   of its own. (`BeginsStep`, `Serves`, `EndsStep`)
//! - **Told outside.** What `serve_first` tells is what the process in front of the queue gets, and that process is running
//!   then. If it tells nothing, the process handled what it got itself, or got nothing. (`tells_or`, `BeginsToRun`)
//! - **Running.** A process that is running gets nothing until it is answered, and does next what was answered. If it
//!   exits meanwhile, it leaves. (`IsAnswered`)
//! - **Redirecting.** The program may say at any time what a process does next in place of what it was to do. It is in the
//!   queue then. (`IsRedirected`)
//! - **Idle.** `is_idle` and `are_idle` say whether no process has anything to do.
#![tactic(auto)]

mod crew;
mod front;
mod hints;
mod outside;
mod redirect;
mod running;
mod upholds;

pub use crew::Crew;
pub use outside::Outside;
pub use running::{are_idle, runs_uphold};
pub use upholds::crew_upholds;
