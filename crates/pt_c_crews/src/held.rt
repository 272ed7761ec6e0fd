//! The place that a handle has: a crew on the heap, which can be taken out and leaves its place.

use pt_scheduler::Scheduler;
use std::marker::Model;

/// The place of a crew.
#[derive(Drop)]
pub struct HeldCrew {
    pub crew: Option<Scheduler>,
}

impl Model for HeldCrew {
    ghost use Rattle.std.specs.Prelude.{Option};
    ghost use Rattle.std.specs.Coded.{coded_option};
    ghost use Rattle.pt_scheduler.specs.contracts.scheduler.Scheduler as scheduler;
    ghost use Rattle.pt_scheduler.specs.declared.scheduler.Scheduler.{Scheduler};

    ghost Value = { Option Scheduler };

    ghost coded = { coded_option scheduler.the_row.coded };

    ghost view = { λ h. h.crew };
}
