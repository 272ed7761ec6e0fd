//! What one process holds.

ghost use Rattle.std.specs.Prelude.{◌≡◌, IfOk, OnOk};
ghost use Rattle.pt_signal.specs.declared.signal.Signal.TheVariants.{LinkExit, Down};
ghost use Rattle.pt_signal.specs.Process.{fresh, enter, say};
ghost use Rattle.pt_events.specs.History.{living, live_or_end, change};
ghost use Rattle.pt_judge.specs.Judging.{is_kill, is_normal, IsHandled, IsObeyed};

use crate::judging::links::{close, cut, enter, forget, ids_with, keep, leave, take, target_of};
use pt_events::Event;
use pt_signal::{Ids, Item, LinkId, Pid, Reason, Ref, Signal};
use std::alloc::{AllocError, Global};
use std::marker::Model;

#[derive(Drop)]
pub(crate) struct Holdings {
    waiting: Vec<Item>,
    links: Vec<(Pid, Ids)>,
    watching: Vec<(Ref, Pid)>,
    kept: Vec<(Ref, Pid)>,
    traps: bool,
}

impl Model for Holdings {
    ghost use Rattle.pt_signal.specs.Process.{ProcessState};

    ghost Value = { ProcessState };

    ghost view = { λ h. record {
      waiting = h.waiting.items;
      links = h.links.items;
      watching = h.watching.items;
      kept = h.kept.items;
      traps = h.traps;
    } };
}

fn is_kill(reason: Reason) -> bool
    ensures { result ≡ is_kill reason }
{
    match reason {
        Reason::Kill => true,
        _ => false,
    }
}

fn is_normal(reason: Reason) -> bool
    ensures { result ≡ is_normal reason }
{
    match reason {
        Reason::Normal => true,
        _ => false,
    }
}

impl Holdings {
    pub(crate) fn new(alloc: Global) -> Holdings
        ensures { result ≡ fresh }
    {
        Holdings {
            waiting: Vec::new(alloc),
            links: Vec::new(alloc),
            watching: Vec::new(alloc),
            kept: Vec::new(alloc),
            traps: false,
        }
    }

    /// What a process holds, list by list.
    pub(crate) fn of(
        waiting: Vec<Item>,
        links: Vec<(Pid, Ids)>,
        watching: Vec<(Ref, Pid)>,
        kept: Vec<(Ref, Pid)>,
        traps: bool,
    ) -> Holdings
        ensures { result ≡ record {
          waiting = waiting.items;
          links = links.items;
          watching = watching.items;
          kept = kept.items;
          traps = traps;
        } }
    {
        Holdings {
            waiting,
            links,
            watching,
            kept,
            traps,
        }
    }

    /// Links it with the peer under the id.
    pub(crate) fn link(&mut self, peer: Pid, id: LinkId) -> Result<(), AllocError>
        ensures { OnOk result (self.new ≡ record self.old { links = enter peer id self.old.links }) }
    {
        enter(&mut self.links, peer, id)
    }

    pub(crate) fn waiting(&self) -> &[Item]
        ensures { result.now ≡ self.now.waiting }
    {
        self.waiting.as_slice()
    }

    pub(crate) fn links(&self) -> &[(Pid, Ids)]
        ensures { result.now ≡ self.now.links }
    {
        self.links.as_slice()
    }

    pub(crate) fn watching(&self) -> &[(Ref, Pid)]
        ensures { result.now ≡ self.now.watching }
    {
        self.watching.as_slice()
    }

    pub(crate) fn kept(&self) -> &[(Ref, Pid)]
        ensures { result.now ≡ self.now.kept }
    {
        self.kept.as_slice()
    }

    pub(crate) fn traps(&self) -> bool
        ensures { result ≡ self.now.traps }
    {
        self.traps
    }

    /// An exit signal comes, by a link or not; gives the reason of the end, where it ends the process.
    fn exit(
        &mut self,
        by_link: bool,
        me: Pid,
        from: Pid,
        reason: Reason,
    ) -> Result<Option<Reason>, AllocError>
        ensures { IfOk result (IsObeyed by_link me self.old from reason self.new) }
    {
        if is_kill(reason) && !by_link {
            return Ok(Some(Reason::Killed));
        }
        if self.traps {
            self.waiting.push(Item::Exit(from, reason))?;
            return Ok(None);
        }
        if is_normal(reason) && from != me {
            return Ok(None);
        }
        Ok(Some(reason))
    }

    fn link_exit(
        &mut self,
        me: Pid,
        from: Pid,
        ids: Ids,
        reason: Reason,
    ) -> Result<Option<Reason>, AllocError>
        ensures { IfOk result (IsHandled me self.old from (LinkExit ids reason) self.new) }
    {
        match ids_with(self.links.as_slice(), from) {
            Some(held) if held.shares(ids) => {
                leave(&mut self.links, from);
                self.exit(true, me, from, reason)
            }
            _ => Ok(None),
        }
    }

    fn down(
        &mut self,
        me: Pid,
        from: Pid,
        monitor: Ref,
        reason: Reason,
    ) -> Result<Option<Reason>, AllocError>
        ensures { IfOk result (IsHandled me self.old from (Down monitor reason) self.new) }
    {
        if target_of(self.watching.as_slice(), monitor).is_some() {
            close(&mut self.watching, monitor);
            self.waiting.push(Item::Down(monitor, from, reason))?;
        }
        Ok(None)
    }

    /// A signal comes while the process lives; gives the reason of the end, where it ends the process.
    fn handle(&mut self, me: Pid, from: Pid, signal: Signal) -> Result<Option<Reason>, AllocError>
        ensures { IfOk result (IsHandled me self.old from signal self.new) }
    {
        match signal {
            Signal::Message(body) => self.waiting.push(Item::User(from, body))?,
            Signal::Link(id) => enter(&mut self.links, from, id)?,
            Signal::Unlink(ids) => cut(&mut self.links, from, ids),
            Signal::Exit(reason) => return self.exit(false, me, from, reason),
            Signal::LinkExit(ids, reason) => return self.link_exit(me, from, ids, reason),
            Signal::Monitor(monitor) => keep(&mut self.kept, monitor, from)?,
            Signal::Demonitor(monitor) => forget(&mut self.kept, monitor, from),
            Signal::Down(monitor, reason) => return self.down(me, from, monitor, reason),
            Signal::AliveAsk(_) => {}
            Signal::AliveSay(question, alive) => {
                self.waiting.push(Item::Alive(question, from, alive))?;
            }
        }
        Ok(None)
    }

    fn say(&mut self, to: Pid, signal: Signal) -> Result<(), AllocError>
        ensures { OnOk result (self.new ≡ say self.old to signal) }
    {
        match signal {
            Signal::Link(id) => enter(&mut self.links, to, id)?,
            Signal::Unlink(ids) => cut(&mut self.links, to, ids),
            Signal::Monitor(monitor) => self.watching.push((monitor, to))?,
            Signal::Demonitor(monitor) => close(&mut self.watching, monitor),
            _ => {}
        }
        Ok(())
    }

    /// One of the process's own events happens while it lives; gives the reason of the end, where it ends.
    pub(crate) fn change(&mut self, me: Pid, event: Event) -> Result<Option<Reason>, AllocError>
        ensures { IfOk result (λ ending. live_or_end ending self.new ≡ change me event (living self.old)) }
    {
        match event {
            Event::Born(child, _, Some(link)) if me != child => enter(
                &mut self.links,
                child,
                link,
            )?,
            Event::Born(_, _, _) => {}
            Event::Said(_, to, signal) => self.say(to, signal)?,
            Event::Came(from, _, signal) => return self.handle(me, from, signal),
            Event::Took(_, pick, _) => take(&mut self.waiting, pick),
            Event::Flag(_, on) => self.traps = on,
            Event::Left(_, reason) => return Ok(Some(reason)),
            Event::Refused(_, _) => {}
        }
        Ok(None)
    }
}
