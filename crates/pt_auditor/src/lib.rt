//! Auditing histories: reading them back, and finding the first fault.
//!
//! A [`Hearing`] reads the events of a history one after the other, then the letters left over. It returns the first
//! that may not come at its place, with what it contradicts. Its verdict is that of [`replay`](pt_judge::replay). It
//! keeps only the state of the history, and none of its events.
//!
//! An [`Audit`] reads the same from bytes, as a program prints a history: a line for each event, then a line for each
//! letter left over. It takes the bytes in pieces of any size, keeps one line of them, and returns the first line at
//! fault by its number.
//!
//! A [`Begun`] returns what an event changed, as a list of [`Did`]: for a reader who shows what each process is at any
//! event, without a judge.
//!
//! A [`Rest`] is what is known of a history at rest, so that the history of a node's next epoch can be judged over it. Its
//! text can be kept in a file until then.
//!
//! Tests: `checks/audit` and `checks/tried/test_calls/auditor.rt.txt`.
//!
//! # What is proved
//!
//! - **Lines.** A history read in pieces of any size is accepted only if its lines are the texts of events and then of
//!   letters left over. (`Audit::read`, `end`)
//! - **Events.** An event is accepted if it comes after the one before it and the judge allows it. Otherwise the first
//!   objection that holds is returned. (`Hearing::hear`)
//! - **Letters left over.** A letter is accepted if it is the oldest in flight between its two processes that was not
//!   read before. (`Hearing::tell`)
//! - **The verdict.** At the end each letter in flight was read, or the oldest that was not is returned.
//!   (`Hearing::end`)
//! - **Of a node.** A verdict names the first line that is not as a node prints it, and why. Without such a line it names
//!   none. (`Hearing::foreign`, `end`; what is compared is `IsOrigin`)
//! - **Events of a node.** A node prints an event on the desk of its process, with a new id that is its desk and stamp,
//!   with a slot's versions in turn, and with the stamp that the desk gives next.
//! - **Receivers of a node.** A signal goes to a slot and a version that a node may have. No message, link or monitor goes
//!   to a process of the same desk that has exited.
//! - **Refused calls of a node.** No message, link or monitor goes to a process to which a call of the same desk was refused
//!   before, or to one before it in its slot. (`GoesToNoneSeen`)
//! - **Letters of a node.** Letters from one desk to another come, and are left over, in the order of their sending.
//!   Each letter left over has the stamp of its sending. They are left over by the sender's desk, then the receiver's.
//! - **Epoch by epoch.** An audit over the rest of a history has the verdict of both together, or an event is at fault
//!   that no node prints. (`Audit::rest`, `over`, `Hearing::rest`, `over`)
//! - **A rest.** It has the clocks of the desks, the exits that these have seen, each process that lives with all that it
//!   holds, and why each other one exited. There is none only if letters are on their way, no node prints the history, or
//!   memory is wanting. (`Rest`)
//! - **Its text.** The text of a rest is read back as that rest, and no other text is read as one. What is read is known of
//!   each history of which the rest was known. (`Rest::text`, `parse`)
//! - **A damaged text.** It is refused at its first line that may not stand there, or that is none, and at a column.
//!   (`IsDamaged`)
//! - **What an event changed.** The changes of an event, applied to the judge's state before it, give the state after
//!   it. So the changes of all events up to a place, from nothing, give the state there. (`Begun::new`, `changes`,
//!   `changes_tell_state`)
//! - **Torn lines.** `Audit::torn` returns the number of the line that has no line feed yet, if there is one.
//! - **Faults.** A fault names the first line at fault.
//! - **Short lines.** Each event and each letter left over prints fewer bytes than a line may have.
//!   (`lines_are_short`)
//! - **Processes.** `standing` returns the exit of the n-th process spawned, and how many items wait.
//! - **Selection.** `Selection` says which events and processes were asked for.
//! - **Texts.** A verdict, the line of a process and each fault print exactly as their text definitions give.
#![tactic(auto)]

mod against;
mod audit;
mod begun;
mod change;
mod clocks;
mod desks;
mod fault;
mod foreign;
mod hearing;
mod lanes;
mod laws;
mod line;
mod objection;
mod rest;
mod saved;
mod seen;
mod selection;
mod standing;
mod text;

pub use audit::Audit;
pub use begun::Begun;
pub use change::{Change, Did};
pub use fault::{Fault, MOST_LINE, Why};
pub use foreign::{Foreign, NoNode};
pub use hearing::{Hearing, Verdict};
pub use laws::{changes_tell_state, lines_are_short};
pub use objection::{Contradiction, Objection};
pub use rest::{Resident, Rest, Restless, Unfit};
pub use saved::{Damage, Flaw};
pub use selection::Selection;
pub use standing::Standing;
