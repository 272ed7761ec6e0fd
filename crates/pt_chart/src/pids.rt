//! Processes in a list, of which each is found at once.

ghost use Rattle.std.specs.Prelude.{◌≡◌, IfOk, position};
ghost use Rattle.pt_signal.specs.Values.{same_pid};
ghost use Rattle.pt_chart.specs.Mentioning.{places_of};

use crate::mentions::{Mentions, places_of};
use pt_signal::Pid;
use std::alloc::{AllocError, Global};
use std::marker::Model;

/// Processes, in order. A look for one of them costs the same for any number of them.
#[derive(Drop)]
pub(crate) struct Pids {
    list: Vec<Pid>,
    places: Mentions,
}

impl Model for Pids {
    ghost use Rattle.std.specs.Prelude.{List};
    ghost use Rattle.pt_signal.specs.declared.pid.Pid.{Pid};
    ghost use Rattle.pt_chart.specs.Mentioning.{ArePlaces};

    ghost Value = { List Pid };

    ghost view = { λ p. p.list.items };

    ghost invariant = { λ p. ArePlaces p.list.items p.places };
}

impl Pids {
    pub(crate) fn of(alloc: Global, list: Vec<Pid>) -> Result<Pids, AllocError>
        ensures { IfOk result (λ pids. pids ≡ list.items) }
    {
        let places = places_of(alloc, list.as_slice())?;
        Ok(Pids { list, places })
    }

    pub(crate) fn as_slice(&self) -> &[Pid]
        ensures { result.now ≡ self.now }
    {
        self.list.as_slice()
    }

    /// The first place of a process, if it has one.
    pub(crate) fn first(&self, pid: Pid) -> Option<usize>
        ensures { result ≡ position (same_pid pid) self.now }
    {
        self.all(pid).first().copied()
    }

    /// All places of a process, in order.
    pub(crate) fn all(&self, pid: Pid) -> &[usize]
        ensures { result.now ≡ places_of pid self.now }
    {
        self.places.of(pid)
    }
}
