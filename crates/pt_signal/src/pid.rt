//! Names of processes.

use std::cmp::Ordering;
use std::fmt;

/// The name of a process: its desk, the slot that it has there, and the slot's version.
///
/// A slot that is used again has a higher version, so the pid of an ended process never names another.
///
/// Pids are ordered by shard, then slot, then version.
#[derive(Clone, Copy, Debug, Hash)]
pub struct Pid {
    /// The number of the desk on which the process lives and ends.
    pub shard: u8,
    /// The slot of that desk.
    pub slot: u32,
    /// How often the slot was given out, this time included.
    pub version: u32,
}

impl PartialEq for Pid {
    ghost use Rattle.std.proofs.Common.{rules};
    ghost use Rattle.std.specs.Cmp.Rules.{comparing};
    ghost use Rattle.pt_signal.specs.Values.{same_pid};

    ghost eq = { same_pid };

    ghost laws = { Prim.search (comparing, rules) };

    fn eq(&self, other: &Pid) -> bool {
        self.shard == other.shard && self.slot == other.slot && self.version == other.version
    }
}

impl Eq for Pid {
    ghost use Rattle.std.proofs.Common.{rules};
    ghost use Rattle.std.specs.Cmp.Rules.{comparing};

    ghost laws = { Prim.search (comparing, rules) };
}

impl Ord for Pid {
    ghost use Rattle.std.proofs.Common.{rules};
    ghost use Rattle.std.specs.Cmp.Rules.{comparing};
    ghost use Rattle.pt_signal.specs.Values.{pid_order};

    ghost cmp = { pid_order };

    ghost total = { Prim.search (comparing, rules) };

    ghost matches_partial_cmp = { Prim.search (comparing, rules) };

    ghost matches_eq = { Prim.search (comparing, rules) };

    fn cmp(&self, other: &Pid) -> Ordering {
        self.shard
            .cmp(&other.shard)
            .then(self.slot.cmp(&other.slot))
            .then(self.version.cmp(&other.version))
    }
}

impl PartialOrd for Pid {
    ghost use Rattle.std.proofs.Common.{rules};
    ghost use Rattle.std.specs.Cmp.{partial_order_from_own_ties};
    ghost use Rattle.std.specs.Cmp.Rules.{comparing};
    ghost use Rattle.std.specs.Ordering.{as_partial_cmp};
    ghost use Rattle.pt_signal.specs.Values.{pid_order};

    ghost partial_cmp = { as_partial_cmp pid_order };

    ghost laws = { partial_order_from_own_ties (Prim.search (comparing, rules)) (Prim.search (comparing, rules)) };

    fn partial_cmp(&self, other: &Pid) -> Option<Ordering> {
        Some(self.cmp(other))
    }
}

impl fmt::Display for Pid {
    ghost use Rattle.std.specs.Prelude.{Some};
    ghost use Rattle.pt_signal.specs.Text.{pid_text};

    ghost output = { λ p. Some (pid_text p) };

    fn fmt<W: fmt::Write>(&self, f: &mut fmt::Formatter<W>) -> fmt::Result {
        let Pid {
            shard,
            slot,
            version,
        } = *self;
        write!(f, "<{shard}.{slot}.{version}>")
    }
}
