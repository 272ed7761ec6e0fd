//! The node of a session.

use pt_gathered::{Gathered, Quiet};
use pt_node::Node;

/// The node of a session, if it has one.
#[derive(Drop)]
pub enum Phase {
    /// No node was opened.
    Closed,
    Running(Node),
    Gathered(Gathered),
    Settled(Quiet),
}
