//! The places that handles have: a value on the heap, which can be taken out and leaves its place.

use crate::quiet_node::QuietNode;
use pt_desk::Desk;
use pt_events::Stamped;
use pt_signal::LeftOver;
use std::marker::Model;

/// The place of a desk.
pub struct HeldDesk {
    pub desk: Option<Desk>,
}

impl Model for HeldDesk {
    ghost use Rattle.std.specs.Prelude.{Option};
    ghost use Rattle.pt_desk.specs.DeskState.{DeskState};

    ghost Value = { Option DeskState };

    ghost view = { λ h. h.desk };
}

impl Drop for HeldDesk {
    fn drop(self) {
        let HeldDesk { desk } = self;
        if let Some(desk) = desk {
            give_up(desk);
        }
    }
}

/// Gives up a desk, with its processes, its journal and the letters in it.
fn give_up(desk: Desk) {
    let (_shard, outs, ins, _directory, _seat, _before) = desk.apart();
    outs.close();
    ins.close();
}

/// The place of a settled node.
#[derive(Drop)]
pub struct HeldQuiet {
    pub quiet: Option<QuietNode>,
}

impl Model for HeldQuiet {
    ghost use Rattle.std.specs.Prelude.{Option};
    ghost use Rattle.pt_c_desks.specs.declared.quiet_node.QuietNode.{QuietNode};

    ghost Value = { Option QuietNode };

    ghost view = { λ h. h.quiet };
}

/// A history: the events of all desks, and the letters left over.
#[derive(Drop)]
pub struct History {
    pub events: Vec<Stamped>,
    pub left: Vec<LeftOver>,
}

impl Model for History {
    ghost use Rattle.pt_c_desks.specs.Answers.{HistoryState};

    ghost Value = { HistoryState };

    ghost view = { λ h. record { events = h.events.items; left = h.left.items } };
}

/// The place of a history.
#[derive(Drop)]
pub struct HeldHistory {
    pub history: Option<History>,
}

impl Model for HeldHistory {
    ghost use Rattle.std.specs.Prelude.{Option};
    ghost use Rattle.pt_c_desks.specs.Answers.{HistoryState};

    ghost Value = { Option HistoryState };

    ghost view = { λ h. h.history };
}
