//! Why epochs stop before they are to, and the node as it is then.

use pt_gathered::{Settled, Unsettled};
use pt_node::{Node, NodeBack, RunFault, Stopped};
use std::fmt;

/// Why epochs stopped, and the node as it is then. Nothing is lost: see [`Halted::go_on`].
#[derive(Drop)]
pub enum Halted {
    /// The crews did not run.
    Running(Node, RunFault),
    /// A turn was stopped, for want of memory or stamps. Its letter stays in the hold of its desk.
    Turning(Node, Stopped),
    /// There was no memory to gather the node.
    Gathering(NodeBack),
    /// A letter was not delivered.
    Settling(Unsettled),
    /// There was no memory for the history.
    Reading(Settled),
    /// The sink did not take the history.
    Taking(Settled),
    /// There was no memory to resume the node, whose history the sink took.
    Resuming(Settled),
    /// There was no memory for a crew to begin again, on the node that was resumed. A crew that attends its desk has it.
    Beginning(Node),
}

impl fmt::Display for Halted {
    fn fmt<W: fmt::Write>(&self, f: &mut fmt::Formatter<W>) -> fmt::Result {
        match self {
            Halted::Running(_, fault) => write!(f, "{fault}"),
            Halted::Turning(_, stopped) => {
                let (desk, cause) = (stopped.desk, stopped.cause);
                write!(f, "a turn of desk {desk} was stopped: {cause}")
            }
            Halted::Gathering(back) => write!(f, "{back}"),
            Halted::Settling(unsettled) => write!(f, "{unsettled}"),
            Halted::Reading(_) => write!(f, "there was no memory for the history"),
            Halted::Taking(_) => write!(f, "the sink did not take the history"),
            Halted::Resuming(_) => write!(f, "there was no memory to go on from the settled node"),
            Halted::Beginning(_) => write!(f, "there was no memory for a crew to begin again"),
        }
    }
}
