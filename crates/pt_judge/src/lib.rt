//! Journals as one history, and a judge that tells whether a history is one that processes can have.
//!
//! [`merge`] takes journals of different desks, and gives the one list that rises by (stamp, desk) and holds each journal
//! whole. It takes two pieces of memory, and for each event the logarithm of the number of journals.
//!
//! [`replay`] runs through a history from its first event. It answers the [`State`] after the last one exactly
//! where each event may come after those before it, and else the place of the first that may not, with the lowest
//! [`Cause`] that fits. [`replay_from`] goes on from a state, so a long history is judged piece by piece. Where the
//! state is that of the processes which one history left behind ([`State::with_living`], [`State::with_ended`]), the
//! history that goes on from there is judged over it alone. The judge is written from the definitions, and shares with
//! a desk no more than the values of `pt_signal` with their methods. Use it to judge what another program wrote, or in
//! tests. In a `State` the links, watches and flag of a process that ended are those that it had at its end; it has no
//! open monitor and nothing waits.
//!
//! An event is shown to the processes that it is of alone, each found by its pid; ids of links and references that were
//! made stand in sets; letters on their way stand by number, and the numbers of each two processes in a queue. So what
//! an event costs grows with the logarithm of the letters on their way, and with the lists of the one process that it
//! is of.
//!
//! Tests: `checks/tried/test_calls/auditor.rt.txt` and `checks/audit`; of the merge `checks/tried/test_calls/history.rt.txt`
//! and `checks/rows`.
//!
//! # What is proved
//!
//! - **One list.** `merge` returns the one list that rises by (stamp, desk) and has each journal whole, in its order.
//! - **Legal.** `replay` succeeds exactly if the history is legal.
//! - **The first fault.** Otherwise it returns the place of the first event that may not come, and the lowest cause
//!   that fits.
//! - **In pieces.** `replay_from` judges in the same way what comes after any legal past, from the state that it led
//!   to.
//! - **The state.** `State` tells of each process what the definitions give.
//! - **Texts.** Each cause prints exactly as its text definition gives. (`Cause`)
#![tactic(auto, unfolding(crate::specs::Text::cause_text))]

mod cause;
mod judging;
mod merging;

pub use cause::Cause;
pub use judging::{Flights, Holding, State, replay, replay_from};
pub use merging::merge;
