//! Laws: which pids the desks of a node know, what the start that a history leaves says of each process, and what is
//! lost.

ghost use Rattle.std.specs.Prelude.{◌≡◌};
ghost use Rattle.pt_signal.specs.declared.pid.Pid.{Pid};
ghost use Rattle.pt_events.specs.History.{Start, Past, at_start, life};
ghost use Rattle.pt_events.specs.Leaving.{outcome, start_after};
ghost use Rattle.pt_shard.specs.Known.{IsKnownToOthers};
ghost use Rattle.pt_shard.specs.Losses.{AreLosses};
ghost use Rattle.pt_shard.specs.ShardState.{AddsLosses};

/// What one desk of a node knows, each other desk knows, except for that other desk's own pids: of these it knows those
/// that it issued. So a pid that `spawn` returned may be the target of a call on every desk of the node, without a
/// test. On its own desk this holds by the clauses of `spawn`, on each other desk by this law.
///
/// It does nothing: the law is its contract.
pub fn known_to_others()
    ensures { IsKnownToOthers }
{}

/// In the start that a history leaves, each pid is as after that history. Of an exited process only the reason is left.
/// This holds over every start, whether it has each process once or not.
///
/// It does nothing: the law is its contract.
pub fn leaves_each()
    ensures { (start : Start) (past : Past) (p : Pid)
        → at_start (start_after start past) p ≡ outcome (life start past p) }
{}

/// What an exit loses is what its process held just after it, with the reason of the exit. A message that comes to a
/// process that is not alive is lost, and nothing else is. With the headline, each item that came to a process is taken,
/// waits, or is lost by its exit.
///
/// It does nothing: the law is its contract.
pub fn what_is_lost()
    ensures { AreLosses }
{}

/// While a desk keeps its losses, those told and those kept are what its journal lost, each once and in order.
///
/// It does nothing: the law is its contract.
pub fn losses_are_kept()
    ensures { AddsLosses }
{}
