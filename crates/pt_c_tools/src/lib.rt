//! What the library for C has besides its desks and crews, without the exports: nodes, timers, names, groups, ways in, and calls
//! that are answered. Each is a handle, or a plain struct.
//!
//! Nodes are opened, gathered, settled, resumed and read through handles: a call makes that of `pt_node` on what the handles
//! have, and returns a code. No crew is known here: the call that goes on with a node and its crews is in `pt_c_crews`.
//!
//! The body of a timer is a number of the program's own. A way in takes messages from threads that have no desk. It has two
//! ends: such a thread holds its [`Door`](door::Door), and the thread of a desk the [`WayIn`](door::WayIn). Each is in a
//! handle of its own.
//!
//! The calls that are answered are those of `pt_names` ([`Pending`](pt_names::Pending), [`reply`](pt_names::reply)),
//! with a call and a request as plain structs that the program keeps. [`about`] is what the library says of itself. `pt_c`
//! exports all of them.
//!
//! Tests: `bindings/run.sh`.
//!
//! # What is proved
//!
//! - **Nodes.** Opening, gathering, settling and resuming leave in the handles what `open`, `gather`, `settle` and
//!   `resume` promise, or `settle_unlisted` and `resume_settled`. (`OpensAs`, `GathersAs`, `SettlesAs`, `ResumesAs`)
//! - **Lists on request.** A settled node has the list of its pids if it was settled with one, or once a call made it. What
//!   needs the list says of a node without one that there is none, and nothing else does. (`ListsItsPids`, `TellsPid`)
//! - **Reading.** A gathered or settled node and a history are read as they are, and nothing changes. (`ReadsThrough`)
//! - **Timers.** Each call answers what `Timers` answers, as a code and a struct, and a call that fails changes nothing.
//!   (`OpensTimers`, `StartsTimer`, `FiresTimer`)
//! - **Names.** Each call answers what `Names` answers. If the bytes are no name, the code says so, and nothing has changed.
//!   (`IfIsName`, `RegistersName`)
//! - **Groups.** Each call answers what `Groups` answers, as a code and plain values, and a call that fails changes nothing.
//!   (`JoinsByCode`, `LeavesByCode`, `ForgetsMember`)
//! - **The way in.** The messages taken out, followed by those that wait, are the messages handed in at the door: in
//!   order, each once. (`PostsAtDoor`, `TakesPost`, `meet`)
//! - **A full way in.** `post` fails only if the door knows of no free place, or is told that its way in was given up. Nothing
//!   has changed then. (`PostsCode`)
//! - **Places.** A way in of no places is refused, and nothing has changed. (`OpensWayIn`)
//! - **Asking.** `ask` does what `Pending::ask_until` does, and writes the call that it would return. If a request was
//!   not sent and its monitor could not be cancelled, it writes the call, ended and with `left_open`. (`AsksServer`)
//! - **Hearing.** An item means to a call what it means to a `Pending`, and the call ends as that does, with its monitor
//!   cancelled or `left_open`. (`HearsItem`, `ExpiresCode`)
//! - **Once.** A call ends once: by its answer, by the exit of its server or by its deadline. (`CallsEndOnce`)
//! - **Replying.** A request is what `request_of` returns for the item, and a reply is that of `reply`. (`ReadsRequest`,
//!   `RepliesCode`)
//! - **Messages of calls.** Each request and each answer is told from the program's own messages, and no other message
//!   means anything to a server or to a call. (`TellsIfCall`, `CallsAreTold`)
//! - **Items.** What `item_out` makes of an item is read as that item, and no other code is. (`ItemsCross`)
//! - **Refusals.** An item with a code that means nothing is refused, and nothing has changed.
//! - **What a process does next.** It crosses to its struct and back. A field that has no meaning for its code is zero. (`Nexts`)
//! - **Through handles.** A call returns the code of the call that it makes on its handle's value, and writes that call's
//!   answer. An empty handle is a code. (`CallsThrough`, `ReadsThrough`)
//! - **Failures.** If a call fails, each handle and each struct is as it was, also if there is no memory. If settling stops, the
//!   node has what was handled before. (`SettlesAs`)
//! - **Handles.** What is put into a handle is what is taken out of it. Each may go to another thread.
//! - **About.** Each code that needs no crew is told by the function that the calls take it from. Each size is that of the
//!   struct, and the fields of a sample have the numbers 1, 2, 3 and so on. (`with_answers`, `all_sizes`, `asking_about`)
#![tactic(auto)]

pub mod about;
pub mod about_asking;
pub mod about_supervisors;
pub mod asking;
pub mod crossing_children;
pub mod crossing_nexts;
pub mod door;
pub mod door_handle;
pub mod doors;
pub mod first_stages;
pub mod gathered_handle;
pub mod grouping;
pub mod groups;
pub mod groups_handle;
pub mod hearing;
pub mod held;
pub mod items;
pub mod names;
pub mod names_handle;
pub mod naming;
pub mod node;
pub mod reads;
pub mod replying;
pub mod requests;
pub mod resuming;
pub mod settling;
pub mod telling;
pub mod through;
pub mod timers;
pub mod timers_handle;
pub mod types;
pub mod way_in_handle;
