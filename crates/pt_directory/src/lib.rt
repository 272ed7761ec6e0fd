//! The directory of ended pids: which processes have ended, in words that every desk may read at any time.
//!
//! A node has one [`Directory`], with two words for each slot of each desk: the greatest version that has ended there,
//! and the stamp of the slot's latest death. A desk steps with its own [`Seat`], which says of one desk that it is its
//! home. [`Directory::open`] makes the directory and the seats, in order of desk.
//!
//! ```text
//! let (directory, mut seats) = Directory::open(alloc, 2, 8)?;
//! directory.ended(&mut seats[1], pid, 7);              // desk 1 tells that its process pid ended at stamp 7
//! let stamp = directory.probe(&mut seats[0], pid);     // Some(7), once desk 0 sees it; None before
//! ```
//!
//! # Who may touch what
//!
//! A seat is used by one thread at a time, through `&mut`. It may be moved or lent to any thread, and different seats
//! may step at the same time, each with the shared directory. Only the home of a desk tells of that desk's deaths. No
//! call waits for another thread, and only `open`, `reopen` and `go_on` take memory.
//!
//! # What holds
//!
//! A stamp is no false alarm. Of every read with a stamp, once the seat of its desk has joined, [`Directory::audit`]
//! shows that the version which was read has died, and that neither its death nor that of an earlier version has a
//! greater stamp. A seat never forgets: what it once saw dead is dead in every later probe, and so is each process of
//! its own desk that has ended. When it sees the end of a process of another desk is not promised.
//!
//! # Cost
//!
//! A probe is one load, or two where the process has ended; a death is two stores. The two words of a slot stand
//! beside each other, in 16 bytes a slot, and `open` takes twice that while it makes them. Seats that were joined are
//! made anew by [`Directory::go_on`] in the same words, at a load for each desk and for each pid that it is given.
//!
//! Tests: `checks/tried/test_calls/directory.rt.txt` and `checks/rows/refused.txt`.
//!
//! # What is proved
//!
//! - **Steps.** A desk writes only the words of its own slots, and only by the steps of the rule. (`Rule`)
//! - **A desk sees its own exits.** `probe` returns a stamp for each process of the seat's own desk that has exited.
//! - **What was seen stays seen.** `probe` returns a stamp for each process that this seat saw as exited before.
//! - **Every answer is a read.** `probe` answers only after a read of the slot's word.
//! - **Answers are true.** Once the seats are joined, `audit` shows that each process read as exited had exited, no
//!   later than the stamp that was read.
//! - **Resuming.** `reopen` makes a directory that has the latest exit of each slot.
//! - **Keeping.** `go_on` makes the seats anew in the same directory. Each has told what was told of its desk before, and
//!   of the given exits those that were not told yet. (`late_seat`)
//!
//! # For proofs above
//!
//! A contract sees a directory as `DirectoryState` and a seat as `SeatState` of `specs/Seats.antt`: whose home the seat
//! is, its reads and the deaths it told, oldest first. Each call adds what it did at the end of one list. A crate above
//! keeps that the deaths are those of a desk's journal, and for each of its own claims that somebody has ended a read
//! with a smaller stamp; joining the seats and an audit then turn each of these reads into a death of some journal. The
//! mark of a seat is for that crate alone: it parts the deaths before a journal from those of the journal.
//! The rule that all steps keep is `specs/Rule.antt`.
#![tactic(auto)]

mod directory;
mod rule;
mod seat;
mod view;

pub use directory::Directory;
pub use seat::Seat;
pub use view::{Death, Read, Shape, View};
