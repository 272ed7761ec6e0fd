//! What supervisors uphold on their node, and over its pauses.
//!
//! [`quiet_children_live`], [`gathered_children_live`] and [`stopped_children_ended`] speak of the children of
//! supervisors on a whole node.
//!
//! A node pauses if it is gathered, settled and resumed, and its crews begin again: by separate calls, or at the end of
//! an epoch ([`pt_epochs`]). Its journals then begin anew, but the supervisors and their children live on. So what
//! happened before counts. [`paused_children_live`] and [`epochs_children_live`] say what stays true over any number of
//! pauses, and [`halted_children_live`] over halts. Then the promises on whole nodes hold of the node as it is.
//!
//! Tests: `checks/tried/test_calls/paused.rt.txt`.
//!
//! # What is proved
//!
//! - **Children are restarted.** Once the node is quiet and the crew idle, each child that a live supervisor wants is
//!   alive, or unlinked itself; unless the supervisor still ends one that traps exits, or waits for one on another
//!   desk. (`quiet_children_live`, `gathered_children_live`)
//! - **Children of its own desk.** If each supervisor spawns all its children, none waits for one on another desk: each child
//!   that it wants is alive, or unlinked itself, unless it still ends one that traps exits. Steps, runs and pauses keep
//!   that. (`children_here_live`, `CrewHere`)
//! - **No orphans.** No child of a supervisor that stopped by itself is alive, unless that child sent it an exit
//!   signal. (`stopped_children_ended`)
//! - **Pauses.** What supervisors uphold, they uphold behind a pause. So each child that a supervisor wants alive is
//!   linked with it, or the supervisor gets its exit; or it unlinked itself, at any time. (`PausesHold`)
//! - **Left supervisors.** A supervisor that stopped still forgets no child behind a pause. (`PausesKeepLeft`)
//! - **Epochs.** So it is over a run of epochs, on one thread or on many, and all that its sink took is what happened
//!   before. (`EpochsHold`, `RunsHold`)
//! - **Idle epochs.** If an epoch ends since nothing is left to do, each child that a live supervisor wants alive is
//!   alive at its end, or unlinked itself, unless the supervisor is ending one that lives on. (`IdleEpochsLive`)
//! - **Epochs of such children.** So it is over epochs, runs of epochs and halts. (`epochs_children_here_live`, `IdleHereLive`,
//!   `RunsStayHere`, `EpochsStayHere`)
//! - **Halts.** If a run of epochs halts, the supervisors uphold it on the node as it is then, and also where it goes on.
//!   (`HaltedRunHolds`, `GoingOnHolds`, `HaltingAgainHolds`)
//! - **Gathered nodes.** It holds of a node that is gathered, and as it is settled. On such a node each child that is to
//!   live does, once all is still, with the same exceptions. If a supervisor stopped by itself, none that it started
//!   lives. (`AllHoldIn`, `HeldChildrenLive`, `HeldChildrenEnded`)
#![tactic(auto)]

mod epochs;
mod gathering;
mod halts;
mod here;
mod pauses;
mod supervised;

pub use epochs::epochs_children_live;
pub use gathering::gathered_children_live;
pub use halts::halted_children_live;
pub use here::{children_here_live, epochs_children_here_live};
pub use pauses::paused_children_live;
pub use supervised::{quiet_children_live, still_node_laws, stopped_children_ended};
