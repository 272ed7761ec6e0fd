//! The places that the handles of timers, of names, of groups, of the ends of a way in and of a gathered node have on the heap.

use crate::door::{Door, WayIn};
use pt_names::{Groups, Names};
use pt_node::Gathered;
use pt_timers::Timers;
use std::marker::Model;

/// The place of timers.
#[derive(Drop)]
pub struct HeldTimers {
    pub timers: Option<Timers<u64>>,
}

impl Model for HeldTimers {
    ghost use Rattle.std.specs.Prelude.{Option, ℕ};
    ghost use Rattle.pt_timers.specs.State.{TimersState};

    ghost Value = { Option (TimersState ℕ) };

    ghost view = { λ h. h.timers };
}

/// The place of names.
#[derive(Drop)]
pub struct HeldNames {
    pub names: Option<Names>,
}

impl Model for HeldNames {
    ghost use Rattle.std.specs.Prelude.{Option};
    ghost use Rattle.pt_names.specs.State.{NamesState};

    ghost Value = { Option NamesState };

    ghost view = { λ h. h.names };
}

/// The place of groups.
#[derive(Drop)]
pub struct HeldGroups {
    pub groups: Option<Groups>,
}

impl Model for HeldGroups {
    ghost use Rattle.std.specs.Prelude.{Option};
    ghost use Rattle.pt_names.specs.Groups.{GroupsState};

    ghost Value = { Option GroupsState };

    ghost view = { λ h. h.groups };
}

/// The place of a door.
#[derive(Drop)]
pub struct HeldDoor {
    pub door: Option<Door>,
}

impl Model for HeldDoor {
    ghost use Rattle.std.specs.Prelude.{Option};
    ghost use Rattle.pt_c_tools.specs.declared.door.Door.{Door};

    ghost Value = { Option Door };

    ghost view = { λ h. h.door };
}

/// The place of a way in.
#[derive(Drop)]
pub struct HeldWayIn {
    pub way_in: Option<WayIn>,
}

impl Model for HeldWayIn {
    ghost use Rattle.std.specs.Prelude.{Option};
    ghost use Rattle.pt_c_tools.specs.declared.door.WayIn.{WayIn};

    ghost Value = { Option WayIn };

    ghost view = { λ h. h.way_in };
}

/// The place of a gathered node.
#[derive(Drop)]
pub struct HeldGathered {
    pub gathered: Option<Gathered>,
}

impl Model for HeldGathered {
    ghost use Rattle.std.specs.Prelude.{Option};
    ghost use Rattle.pt_gathered.specs.Gathered.{GatheredState};

    ghost Value = { Option GatheredState };

    ghost view = { λ h. h.gathered };
}
