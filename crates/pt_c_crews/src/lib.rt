//! Crews for C without their exports: the handle, and the calls of a crew alone, with its desk or with a node.
//!
//! A crew is a `Scheduler` of `pt_scheduler`: the processes of one desk whose handlers are outside, with their supervisors.
//! `pt_c` exports these calls. Whatever needs no crew is in the crates below, which are proved beside the scheduler.
//!
//! Tests: `bindings/run.sh`.
//!
//! # What is proved
//!
//! - **Structs.** What a supervisor is made of crosses to its struct and back, and so does what is told of a process. A field
//!   that has no meaning for a code is zero. (`spec_in`, `children_in`, `job_out`)
//! - **Bad codes.** A supervisor, a child, or what a process does next, with a code that means nothing is refused before all
//!   else, and nothing has changed. (`IfCrosses`)
//! - **One desk.** A call over a desk with another number than that of the crew's own is refused, and nothing has changed.
//!   The first spawn or step makes a crew that of its desk, and all other calls leave it so. (`IfOwn`, `are_own`,
//!   `KeepsCrew`)
//! - **Steps.** A step hands out what `Scheduler` hands out, each job as its struct. A start is told with the tag of its
//!   place, its supervisor, and whether a child in that place had exited. No wake-up is lost. (`CrewSteps`, `HandsOutRow`)
//! - **Answers.** An answer is that of `Scheduler`. Of a row of answers each is taken up to the first that is refused. A
//!   running process may be answered that it is a supervisor. (`TakesAnswers`, `CrewSupervises`)
//! - **Children at run time.** What a supervisor is asked about its children is that of `Scheduler`, and each refusal has its
//!   code. (`CrewAsks`)
//! - **Handles.** Opening, the time and a row of answers leave in the handle what `Scheduler` promises. If a call fails, the
//!   handle is as it was. (`OpensCrew`, `SetsCrewTime`, `AnswersInOrder`)
//! - **Through handles.** A call with a crew's desk, or with a history, is that of the crew on what both handles have. It
//!   returns that call's code and writes its answer. An empty handle is a code, and a call that fails changes nothing.
//!   (`StepsIfOwn`, `SpawnsBossInCrew`, `GoesOnIn`, `CallsThrough`)
//! - **Going on.** Each crew of a row goes on with the history, as `Scheduler` does. (`AllCrewsGoOn`)
//! - **A node goes on.** A node and its crews go through the stages of a pause in one call. Whichever is refused, its code says
//!   so, and the node is in the handle where that stage leaves it. (`NodeGoesOn`)
//! - **Children live.** Each call keeps what both theorems on the children of a crew need. (`StillUpholds`, `KeepsCrew`)
//! - **About.** Each code of the library is told by the function that the calls take it from. (`all_codes`,
//!   `all_supervisor_codes`)
#![tactic(auto)]

pub mod about_crews;
mod batches;
pub mod calls;
pub mod children;
pub mod crew_handle;
pub mod crews;
pub mod crossing;
pub mod going_on;
pub mod held;
pub mod rows;
