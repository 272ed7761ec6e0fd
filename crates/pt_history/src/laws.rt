//! The laws of histories: each is the contract of a function that does nothing.

ghost use Rattle.pt_history.specs.Words.{TrapIsLastFlag, PeersSince, OpenSince, IsOpenSince};
ghost use Rattle.pt_history.specs.Passing.{CallsPass, JournalsPass};
ghost use Rattle.pt_history.specs.Audited.{NodeCallsPass, NodesPass};
ghost use Rattle.pt_history.specs.Calling.{DesksKeep};
ghost use Rattle.pt_history.specs.Examples.{TenLines, Cascade, EarlyLink};

pub use pt_laws::laws::{
    acts_may_come, alive_until_its_end, answers_are_true, headline_holds, journals_have_one_merge,
    journals_tell_their_pids, links_are_held_since, lives_once, load_by_desk_falls, merge_is_legal,
    messages_keep_their_order, one_down, quiet_monitors, reasons_may_be_forgotten,
    receipts_lower_the_load, resumed_is_legal, sent_came_or_flies, stamps_make_new_ids,
    taken_or_waiting, watches_are_kept_since,
};

/// A process's trap flag is the last one that it set. If it set none, it is off, or as at the start.
pub fn trap_is_the_last_flag()
    ensures { TrapIsLastFlag }
{}

/// The processes that a process is linked with are in the order of the events at which it got a link id with them.
pub fn peers_are_linked_since()
    ensures { PeersSince }
{}

/// The open monitors of a live process, in order of making, are those that it made and for which it has since sent no
/// `Demonitor` and got no `DOWN`.
pub fn monitors_are_open_since()
    ensures list { OpenSince }
    ensures each { IsOpenSince }
{}

/// These histories, worked by hand, are legal and quiet and end as they should:
///
/// - ten lines of two processes that send each other a message;
/// - an exit that goes down a chain of links as far as a process that traps it;
/// - a link made before the birth of its target, by which the two ends come to differ.
pub fn worked_histories()
    ensures ten_lines { TenLines }
    ensures cascade { Cascade }
    ensures early_link { EarlyLink }
{}

/// The history of a node on which nobody was before passes: no event and no letter left over is objected to, and at the
/// end nothing is untold.
///
/// If the audit names a line that no node prints, this is an event, and the reason is `Slot`, `NoVersion`, `Ended`, `Seen`
/// or `OtherStamp` (`journals`). It names none if all that each desk wrote is what its calls and receipts promise, by the
/// journal of that desk alone (`calls`).
pub fn journals_pass()
    ensures journals { JournalsPass }
    ensures calls { CallsPass }
{}

/// The history of a node passes the audit, whether letters are left over or not. Nobody was on the node before.
///
/// - The audit objects to no line. It names none that no node prints, but for an event with one of five reasons
///   ([`journals_pass`]).
/// - It names none at all if all that each desk wrote is as the audit has it of the calls (`IsCalledDesk`).
pub fn node_histories_pass()
    ensures journals { NodesPass }
    ensures calls { NodeCallsPass }
{
    journals_pass();
}

/// Each call of a desk, and each receipt, keeps what the audit has of the calls: what the desk wrote is under the stamps
/// that it gives, to slots and versions of a node, and to no process of which it has seen that it has exited. So a desk on
/// which nobody was before has it from its opening on.
pub fn desk_calls_pass()
    ensures { DesksKeep }
{}
