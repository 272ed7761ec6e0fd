//! Supervisors of a crew: processes that start their children, and start them again when they exit.
//!
//! A [`Supervisor`] is a part of a behaviour: a program's enum of behaviours has a variant that holds one, and passes
//! every item to [`Supervisor::handle`]. The program says by [`Start`] what the children do. A child may hold a
//! supervisor, too. What a supervisor knows of its children, and decides by, is `pt_children`.
//!
//! A child may be on another desk ([`Child::elsewhere`]). Then the program starts it: [`Supervisor::to_start`] tells which.
//!
//! Tests: `checks/tried/test_calls/supervisors.rt.txt`, `checks/tried/test_calls/timed_supervisors.rt.txt`,
//! `checks/tried/test_calls/children.rt.txt`, `checks/tried/test_calls/failing_starts.rt.txt`,
//! `checks/tried/test_calls/elsewhere.rt.txt` and `crates/test_calls/src/supervisors.rt`. `checks/otp` compares it with
//! OTP's supervisor.
//!
//! # What is proved
//!
//! - **Shutdown.** A supervisor monitors a child before it tells it to exit, and then waits for the `DOWN`. A child that
//!   has a time to exit is killed only if its supervisor runs at that time or later and has not got that. (`EndsChild`)
//! - **Handling.** The contract of `handle` says all that it does on the desk, also if a call fails.
//!   (`SupervisorHandles`)
//! - **Children on other desks.** While a child is started on another desk, a supervisor starts and ends no other. It links
//!   with the process that the program has started, and takes no other one in. (`GoesForward`, `JoinsChild`)
//! - **Children of its own desk.** A supervisor that spawns all its children waits for no child on another desk, after any
//!   item and any call. (`children_stay_here`, `HereAwaitsNobody`)
//! - **Children are counted.** A supervisor counts each child that it spawns. (`CountsBirths`)
//! - **Permanent children.** A supervisor always wants its permanent children alive, as long as no call ends one or asks for
//!   the next start of one. (`permanent_children_live`)
//! - **Starts that fail.** A supervisor takes items between the tries of a child whose start failed, and each try counts as a
//!   restart, as in OTP. (`tried_again`, `next_tried`)
//! - **Giving up.** A supervisor that gave up says which child exited or was not started, with which reason, and how many
//!   restarts it had made in what span. (`gave_up`)
//! - **What it tells.** What it tells of its children, and how many it counts, is exact. (`which_children`,
//!   `count_children`)
//! - **Children at run time.** Each call about a child says what it changes and when it is refused. A refused call changes
//!   nothing. (`TerminatesChild`, `RestartsChild`, `AddsChild`, `DeletesChild`, `AnswersStarted`, `AnswersNotStarted`)
//! - **Theorems at run time.** Each of these calls keeps what both theorems on children need. (`changed_supervisors_tend`)
//! - **What follows.** What a supervisor does next that was changed from outside is exact, and tells no child twice to exit.
//!   (`due`)
#![tactic(auto)]

mod asked;
mod elsewhere;
mod laws;
mod supervised;
mod supervisor;

pub use laws::{changed_supervisors_tend, children_stay_here, permanent_children_live};
pub use pt_children::{
    Asked, Child, ChildCounts, ChildFault, ChildSeen, ChildState, GaveUp, Home, Limit, Restart,
    Shutdown, Stage, Strategy, Trial,
};
pub use supervised::Supervised;
pub use supervisor::{Start, Supervisor};
