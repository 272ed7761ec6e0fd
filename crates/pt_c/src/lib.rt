//! The process table for C: a static library, whose header is `bindings/c/pundewo.h`.
//!
//! C keeps opaque handles of one pointer: for a desk, a gathered node, a settled one, a history, a crew, timers, names,
//! groups, and the two ends of a way in. An export is one call of a library below, which takes the value out of the handle,
//! makes the call of Rattle that has its name, and puts the value back. By its contract, its code and what it writes are
//! that call's answer, and if it fails, all is as it was. An empty handle is a code, too.
//!
//! Values with an enum or an option in Rattle cross as plain structs with a code (`pt_c_values::types`). `about` reports
//! codes, sizes and fields, to be compared with a header. The calls are in one library for each object: `pt_c_desks`,
//! `pt_c_crews`, and `pt_c_tools` for nodes, timers, names, groups and ways in.
//!
//! Tests: `bindings/run.sh`.
//!
//! # What is proved
//!
//! - **Exports.** Each function returns the code of the call that it makes on its handle's value, and writes that
//!   call's answer. (`CallsThrough`, `ReadsThrough`)
//! - **Failures.** If a function fails, each handle and each struct passed in is as it was, also if there is no memory.
//! - **Handles.** An empty handle, a full one that must be empty, and a wrong number or order of desks are codes.
//! - **Bad codes.** So is a pick, a reason, or what a process does next, whose own code means nothing.
//! - **Other desks.** So is a crew over a desk of another number, also in a row of crews that go on. (`IfOwn`, `NodeGoesOn`)
//! - **Crews.** Each call is that of `Scheduler`. A step hands out jobs in order, no process twice, and no wake-up is lost.
//!   A start tells its supervisor, and whether it is one again. Of a row of answers each is taken, up to the first that is
//!   refused. (`CrewSteps`, `SpawnsBossInCrew`, `AnswersInOrder`)
//! - **Timers, names and groups.** Each call is that of `Timers`, of `Names` with bytes for a name, and of `Groups` with a
//!   number for a group. (`StartsTimer`, `RegistersName`, `JoinsByCode`)
//! - **Calls.** Asking, hearing and replying are those of `pt_names`, and a call ends once. The messages of calls are told
//!   from others. (`AsksServer`, `HearsItem`, `TellsIfCall`)
//! - **Letters and doors.** The next turn posts to no other desks than those told. What is taken out of a way in is what was
//!   handed in, in order, each message once. (`PostsWhereLettersWait`, `TakesCode`, `meet` of `pt_c_tools`)
//! - **Nodes.** Opening, gathering, settling and resuming leave in the handles what `open`, `gather`, `settle` and
//!   `resume` promise, or `settle_unlisted` and `resume_settled`.
//! - **Lists on request.** A call that needs the list of pids says of a settled node without it that there is none. One call
//!   makes it. (`TellsPid`, `ListsItsPids`)
//! - **Going on.** A node and its crews go through the stages of a pause in one call. Whichever is refused, its code says
//!   so, and the node is in the handle where that stage leaves it. (`NodeGoesOn`)
//! - **Threads.** Each handle may go to another thread.
#![tactic(auto)]

mod about;
mod about_supervisors;
mod asking;
mod calls;
mod crews;
mod going_on;
mod groups;
mod letters;
mod losses;
mod names;
mod node;
mod reads;
mod resuming;
mod timers;
mod ways_in;
