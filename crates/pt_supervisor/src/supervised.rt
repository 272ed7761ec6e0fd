//! Behaviours of which some values are supervisors.

ghost use Rattle.std.specs.Prelude.{Option};
ghost use Rattle.pt_children.specs.Hearing.{Standing};
ghost use Rattle.pt_supervisor.specs.Keeping.{SuperviseAs};

use pt_behaviour::Behaviour;

/// A behaviour with values that are supervisors, as a program's enum that has a variant with a
/// [`Supervisor`](crate::Supervisor) in it.
///
/// `supervisor` says which values are, and with which state. `supervises` proves these of what the behaviour may
/// answer:
///
/// - a supervisor handles each item as [`Supervisor::handle`](crate::Supervisor::handle) does;
/// - every other process acts for itself alone;
/// - a supervisor that is spawned proceeds first, has no child, and has started none.
pub trait Supervised: Behaviour {
    ghost supervisor: { Self → Option Standing };

    ghost supervises: { SuperviseAs Self.answers supervisor };
}
