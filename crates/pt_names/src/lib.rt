//! What behaviours of a crew keep of other processes: names and groups, as Erlang's `register` and `pg` keep them, calls that are
//! answered, and messages that are sent later.
//!
//! # Names and groups
//! [`Names`] knows no process. It keeps what it is given, and forgets a process when [`Names::forget`] is called for its
//! exit. Each name is of one process, and each process has one name at most.
//!
//! A [`Registry`] is names with a monitor of each process that has one. A behaviour keeps it in its state, and shows it
//! each item that arrives. So a name whose process has exited is free again once its `DOWN` has come. A child that a
//! supervisor starts asks for its name by a call, whose number stands for a name of a list
//! ([`Registry::register_sender`]): `{via, ..}` of `gen_server:start_link`.
//!
//! [`Groups`] are such a table of groups, each a number: [`Group`]. A process may be in many groups, and several times in
//! one. It is in a group until it has left as often as it joined, or until [`Groups::forget`] is called for its exit.
//!
//! A [`GroupRegistry`] is groups with a monitor of each process that is in one, for a behaviour, as a [`Registry`] is of
//! names. It sends a message to each member of a group.
//!
//! # Calls that are answered
//! Erlang's `gen_server:call`, as a monitor, a request, and the answer or the `DOWN`. A behaviour that asks keeps a
//! [`Pending`] in its state and shows it each item that arrives, and the time if the call has a deadline. A behaviour
//! that is asked recognises a request by [`request_of`], and answers by [`reply`], at once or later.
//!
//! A message holds a kind, a number and maybe a pid. A request and its answer both speak of the client, by its pid: the
//! request of its own sender, the answer of its receiver. Both carry the number of the monitor's reference, which no
//! other monitor of the client's desk has, so an answer belongs to one call alone. The kind says what is asked, and
//! what is answered.
//!
//! # Messages that are sent later
//! Erlang's `send_after`. A behaviour keeps [`Alarms`] in its state, and sends by [`Alarms::ring`] what is due.
//!
//! Tests: `checks/tried/test_calls/asking.rt.txt`, `checks/tried/test_calls/alarms.rt.txt`,
//! `checks/tried/test_calls/names.rt.txt`, `checks/tried/test_calls/registry.rt.txt`,
//! `checks/tried/test_calls/groups.rt.txt`, `checks/tried/test_calls/group_registry.rt.txt`,
//! `crates/test_calls/src/layers/names.rt` and `crates/test_calls/src/on_a_desk.rt`.
//!
//! # What is proved
//!
//! - **Texts.** `Name::new` returns a name exactly if the text is 1 to 32 ASCII letters, digits and `_`, beginning with
//!   a letter. Different texts give different names. (`names_tell_texts_apart`)
//! - **One process a name.** A name that a process has is not given to another: `register` fails with `Taken`. The
//!   first to register keeps it.
//! - **One name a process.** `register` fails with `HasName` if the process has a name already.
//! - **Forgotten.** After `Names::forget` the process has no name, and every other process has the name that it had.
//! - **Failures.** If a call fails, no name has changed. A monitor that was made before there was no memory is cancelled
//!   again, or the failure has it. (`Registers`, `KeepsName`)
//! - **Monitored.** `Registry::register` succeeds only if it has made a monitor of the process, and keeps its reference
//!   with the name. (`RegistersWatched`)
//! - **Kept.** The process that registered first keeps the name and its monitor, until the name is unregistered or the
//!   `DOWN` of that monitor is heard. (`names_keep_their_monitors`)
//! - **Free again.** Once the `DOWN` of a name's monitor is heard, no name has that monitor. The `DOWN` of any other
//!   monitor frees no name. (`HearsNames`, `IsFreed`)
//! - **Unregistered.** `Registry::unregister` cancels the monitor of the name, or fails, and the name stays.
//!   (`GivesUpName`)
//! - **In a group.** A process is in a group as often as it joined less its leaves. Each call changes one process alone: all
//!   others are in their groups as before. (`JoinsGroup`, `LeavesGroup`, `GroupsChange`)
//! - **Members.** The members of a group are the processes that are in it, each once. The groups of a process are those that
//!   it is in, each once.
//! - **One monitor a process.** A process has a monitor exactly if it is in a group. It is the one that it first joined
//!   with, and `leave` returns it with its last place. (`AreKept`, `Leaving`)
//! - **Left by an exit.** After `Groups::forget` the process is in no group. The call visits the groups of that process and
//!   no other. (`LeavesAll`)
//! - **Groups that fail.** If `join` fails, nothing has changed. A process that is in the group needs no memory to join it
//!   again. (`JoinsGroup`)
//! - **Monitored in groups.** `GroupRegistry::join` makes the one monitor of a process as it joins its first group.
//!   `leave` cancels it with the last place, or fails, and the process stays. If a call fails, no group has changed.
//!   (`JoinsWatched`, `LeavesWatched`)
//! - **Out by a `DOWN`.** The `DOWN` of its monitor takes a process out of all its groups. No other item takes one out.
//!   (`HearsGroups`)
//! - **Sent to all.** `send_all` sends the message once to each member of the group, and skips those that are seen to have
//!   exited. It stops at any other failure, and returns it with the number of members before. (`SendsAll`)
//! - **A call ends once.** It ends by its answer, by the `DOWN` of its server or by its deadline, whichever it is shown
//!   first, and never by two of them. (`calls_end_once`)
//! - **Asking.** `Pending::ask` makes a monitor and sends a request under its number, or fails, and then nothing was
//!   asked. Its monitor is cancelled then, or the failure has it. (`Asks`)
//! - **Deadlines.** `Pending::expire` returns whether an open call ends by its deadline now, which is exactly if the
//!   deadline is not above the time. (`is_expired`)
//! - **Hearing.** `Pending::hear` returns whether an item is the answer, the exit of the server, late, or none of
//!   these.
//! - **Monitors of calls.** As a call ends its monitor is cancelled, or `left_open` returns it. (`IsGivenUp`)
//! - **Alarms.** `Alarms::ring` sends each message that is due, in the order of time and starting, and none twice or
//!   early. One that is refused memory or a stamp stays to be sent. (`Rings`)
#![tactic(auto)]

mod alarms;
mod ask_fault;
mod group;
mod group_registry;
mod groups;
mod laws;
mod name;
mod names;
mod not_joined;
mod pending;
mod places;
mod registry;
mod request;
mod unregistered;
mod watched;

pub use alarms::{Alarm, Alarms};
pub use ask_fault::AskFault;
pub use group::{Group, JoinError, Left};
pub use group_registry::{GroupError, GroupRegistry, Sent};
pub use groups::Groups;
pub use laws::names_keep_their_monitors;
pub use name::{MAX_LETTERS, Name, names_tell_texts_apart};
pub use names::{Holder, Names, RegisterError};
pub use pending::{Heard, Pending, calls_end_once};
pub use registry::{Registry, RegistryError};
pub use request::{Request, reply, request_of};
