//! An event with what it changed, as JSON.

use crate::json::{EventMembers, ItemMembers, LinksMember, SignalMembers};
use pt_auditor::{Change, Did};
use pt_events::Stamped;
use pt_signal::{Pid, Ref};
use std::fmt;

/// An event as [`JsonEvent`](crate::JsonEvent) has it, with the changes that it made as its last member:
/// `{"stamp":4,..,"then":[{"of":"<0.1.1>","did":"end","reason":"other:7"}]}`.
#[derive(Clone, Copy)]
pub struct JsonStep<'a> {
    pub stamped: Stamped,
    /// What [`Begun`](pt_auditor::Begun) returned for the event.
    pub then: &'a [Did],
}

/// What a change did.
#[derive(Clone, Copy)]
struct ChangeMembers(Change);

/// What a change of links or monitors did, or a signal that was sent. Of no other change.
#[derive(Clone, Copy)]
struct PeerMembers(Change);

/// A change as a JSON object.
#[derive(Clone, Copy)]
struct JsonDid(Did);

/// Changes, with commas between them.
#[derive(Clone, Copy)]
struct Dids<'a>(&'a [Did]);

/// Changes, with a comma before each.
#[derive(Clone, Copy)]
struct MoreDids<'a>(&'a [Did]);

impl fmt::Display for ChangeMembers {
    ghost use Rattle.std.specs.Prelude.{Some};
    ghost use Rattle.pt_render.specs.Steps.{change_members};

    ghost output = { λ x. Some (change_members x.0) };

    fn fmt<W: fmt::Write>(&self, f: &mut fmt::Formatter<W>) -> fmt::Result {
        match self.0 {
            Change::Born => f.write_str("\"did\":\"born\""),
            Change::End(reason) => write!(f, "\"did\":\"end\",\"reason\":\"{reason}\""),
            Change::Trap(true) => f.write_str("\"did\":\"trap\""),
            Change::Trap(false) => f.write_str("\"did\":\"untrap\""),
            Change::Queue(item) => {
                let item = ItemMembers(item);
                write!(f, "\"did\":\"queue\",{item}")
            }
            Change::Take(place) => write!(f, "\"did\":\"take\",\"place\":{place}"),
            change => {
                let peer = PeerMembers(change);
                write!(f, "{peer}")
            }
        }
    }
}

impl fmt::Display for PeerMembers {
    ghost use Rattle.std.specs.Prelude.{Some};
    ghost use Rattle.pt_render.specs.Steps.{peer_members};

    ghost output = { λ x. Some (peer_members x.0) };

    fn fmt<W: fmt::Write>(&self, f: &mut fmt::Formatter<W>) -> fmt::Result {
        match self.0 {
            Change::Link(peer, ids) => {
                let links = LinksMember(ids);
                write!(f, "\"did\":\"link\",\"peer\":\"{peer}\",{links}")
            }
            Change::Unlink(peer) => write!(f, "\"did\":\"unlink\",\"peer\":\"{peer}\""),
            Change::Watch(monitor, peer) => {
                let watch = WatchMembers(monitor, peer);
                write!(f, "\"did\":\"watch\",{watch}")
            }
            Change::Unwatch(monitor, peer) => {
                let watch = WatchMembers(monitor, peer);
                write!(f, "\"did\":\"unwatch\",{watch}")
            }
            Change::Watched(monitor, peer) => {
                let watch = WatchMembers(monitor, peer);
                write!(f, "\"did\":\"watched\",{watch}")
            }
            Change::Unwatched(monitor, peer) => {
                let watch = WatchMembers(monitor, peer);
                write!(f, "\"did\":\"unwatched\",{watch}")
            }
            Change::Send(to, signal) => {
                let signal = SignalMembers(signal);
                write!(f, "\"did\":\"send\",\"to\":\"{to}\",{signal}")
            }
            _ => Ok(()),
        }
    }
}

/// The reference of a monitor, and the process at its other end.
#[derive(Clone, Copy)]
struct WatchMembers(Ref, Pid);

impl fmt::Display for WatchMembers {
    ghost use Rattle.std.specs.Prelude.{Some};
    ghost use Rattle.pt_render.specs.Steps.{watch_members};

    ghost output = { λ x. Some (watch_members x.0 x.1) };

    fn fmt<W: fmt::Write>(&self, f: &mut fmt::Formatter<W>) -> fmt::Result {
        let WatchMembers(monitor, peer) = *self;
        write!(f, "\"ref\":\"{monitor}\",\"peer\":\"{peer}\"")
    }
}

impl fmt::Display for JsonDid {
    ghost use Rattle.std.specs.Prelude.{Some};
    ghost use Rattle.pt_render.specs.Steps.{did_json};

    ghost output = { λ x. Some (did_json x.0) };

    fn fmt<W: fmt::Write>(&self, f: &mut fmt::Formatter<W>) -> fmt::Result {
        let Did { of, change } = self.0;
        let change = ChangeMembers(change);
        write!(f, "{{\"of\":\"{of}\",{change}}}")
    }
}

impl fmt::Display for MoreDids<'_> {
    ghost use Rattle.std.specs.Prelude.{Some};
    ghost use Rattle.pt_render.specs.Steps.{more_dids};

    ghost output = { λ x. Some (more_dids x.0.now) };

    fn fmt<W: fmt::Write>(&self, f: &mut fmt::Formatter<W>) -> fmt::Result {
        for did in self.0 {
            write!(f, ",{}", JsonDid(*did))?;
        }
        Ok(())
    }
}

impl fmt::Display for Dids<'_> {
    ghost use Rattle.std.specs.Prelude.{Some};
    ghost use Rattle.pt_render.specs.Steps.{dids_json};

    ghost output = { λ x. Some (dids_json x.0.now) };

    fn fmt<W: fmt::Write>(&self, f: &mut fmt::Formatter<W>) -> fmt::Result {
        match self.0 {
            [first, rest @ ..] => {
                let first = JsonDid(*first);
                let rest = MoreDids(rest);
                write!(f, "{first}{rest}")
            }
            [] => Ok(()),
        }
    }
}

impl fmt::Display for JsonStep<'_> {
    ghost use Rattle.std.specs.Prelude.{Some};
    ghost use Rattle.pt_render.specs.Steps.{step_json};

    ghost output = { λ x. Some (step_json x.stamped x.then.now) };

    fn fmt<W: fmt::Write>(&self, f: &mut fmt::Formatter<W>) -> fmt::Result {
        let JsonStep { stamped, then } = *self;
        let Stamped { stamp, desk, event } = stamped;
        let event = EventMembers(event);
        let then = Dids(then);
        write!(
            f,
            "{{\"stamp\":{stamp},\"desk\":{desk},{event},\"then\":[{then}]}}"
        )
    }
}
