//! One process, from its birth on.

ghost use Rattle.std.specs.Prelude.{◌≡◌, ◌+◌, ◌<◌, ◌^◌, is_some, IfOk, OnOk, OnErr};
ghost use Rattle.std.specs.Map.{lookup};
ghost use Rattle.std.specs.List.{list_any};
ghost use Rattle.pt_signal.specs.Values.{same_ref};
ghost use Rattle.pt_signal.specs.Process.{held};
ghost use Rattle.pt_events.specs.History.{unborn, living, newborn, live_or_end, state_of, open_monitors};
ghost use Rattle.pt_events.specs.History.{change, reason_of};
ghost use Rattle.pt_accounts.specs.LifeState.{account_of};
ghost use Rattle.pt_accounts.specs.Steps.{life_after, MaySee, MayDo};

use crate::Account;
use crate::held::Held;
use pt_events::Event;
use pt_process::{Outcome, Process};
use pt_signal::{Ids, LinkId, Pid, Reason, Ref, Signal};
use std::alloc::{AllocError, Global};
use std::boxed::Box;
use std::marker::Model;
use std::mem::size_of;

const _: () = prove!(size_of::<Life>() <= 48);

/// One process, as the events of its desk up to one of them leave it.
#[derive(Drop)]
pub(crate) struct Life {
    ended: Option<Reason>,
    taken: u64,
    held: Held,
}

impl Model for Life {
    ghost use Rattle.pt_events.specs.History.{live_or_end};
    ghost use Rattle.pt_accounts.specs.LifeState.{LifeState};
    ghost use Rattle.pt_accounts.specs.Holding.{pid_held, state_held, Stands};

    ghost Value = { LifeState };

    ghost view = { λ l. record { pid = pid_held l.held; phase = live_or_end l.ended (state_held l.held); taken = l.taken } };

    ghost invariant = { λ l. Stands l.ended l.held };
}

/// Plays one of its own events on a live process, and returns the reason with which it exits by that, if it does.
#[inline(always)]
fn meet(process: &mut Process, event: Event) -> Result<Option<Reason>, AllocError>
    requires { MayDo process.old.me process.old.state event }
    ensures me { process.new.me ≡ process.old.me }
    ensures refused { OnErr result (process.new.state ≡ process.old.state) }
    ensures state { IfOk result
        (λ ending. live_or_end ending process.new.state ≡ change process.old.me event (living process.old.state)) }
{
    match event {
        Event::Born(child, _, Some(link)) => process.add_link(child, link)?,
        Event::Born(_, _, None) => {}
        Event::Said(_, to, signal) => process.say(to, signal)?,
        Event::Came(from, _, signal) => {
            if let Outcome::Ends(reason) = process.accept(from, signal)? {
                return Ok(Some(reason));
            }
        }
        Event::Took(_, pick, _) => {
            let _ = process.take(pick);
        }
        Event::Flag(_, on) => {
            let _ = process.set_trap(on);
        }
        Event::Left(_, reason) => return Ok(Some(reason)),
        Event::Refused(_, _) => {}
    }
    Ok(None)
}

impl Life {
    pub(crate) fn born(
        alloc: Global,
        pid: Pid,
        parent: Option<Pid>,
        link: Option<LinkId>,
    ) -> Result<Life, AllocError>
        ensures { IfOk result (λ life. life ≡ record { pid = pid; phase = newborn parent link unborn; taken = 0 }) }
    {
        let mut process = Process::new(alloc, pid);
        if let (Some(parent), Some(link)) = (parent, link) {
            process.add_link(parent, link)?;
        }
        let Ok(process) = Box::new(alloc, process) else {
            return Err(AllocError);
        };
        Ok(Life {
            ended: None,
            taken: 0,
            held: Held::Process(process),
        })
    }

    /// Plays one of its own events. If it fails, the process is as before.
    #[inline(always)]
    pub(crate) fn see(&mut self, event: Event) -> Result<(), AllocError>
        requires { MaySee event self.old }
        ensures pid { self.new.pid ≡ self.old.pid }
        ensures shown { OnOk result (self.new ≡ life_after event self.old) }
        ensures refused { OnErr result (self.new ≡ self.old) }
    {
        if self.ended.is_some() {
            return Ok(());
        }
        let Held::Process(process) = &mut self.held else {
            return Ok(());
        };
        let ended = meet(process, event)?;
        if ended.is_some() {
            self.held.shrink();
        }
        self.ended = ended;
        if let Event::Took(_, _, _) = event {
            self.taken += 1;
        }
        Ok(())
    }

    pub(crate) fn pid(&self) -> Pid
        ensures { result ≡ self.now.pid }
    {
        self.held.pid()
    }

    /// Why it exited, if it has.
    pub(crate) fn ended(&self) -> Option<Reason>
        ensures { result ≡ reason_of self.now.phase }
    {
        self.ended
    }

    /// Counts anew what it takes.
    pub(crate) fn count_anew(&mut self)
        ensures { self.new ≡ record self.old { taken = 0 } }
    {
        self.taken = 0;
    }

    pub(crate) fn account(&self) -> Account
        requires { (account_of self.now).arrived < 2 ^ 64 }
        ensures { result ≡ account_of self.now }
    {
        let waiting = self.held.waiting() as u64;
        Account {
            ended: self.ended,
            arrived: self.taken + waiting,
            taken: self.taken,
            waiting,
        }
    }

    pub(crate) fn linked(&self, peer: Pid) -> Option<Ids>
        ensures { result ≡ held (state_of self.now.phase).links peer }
    {
        self.held.linked(peer)
    }

    pub(crate) fn kept(&self, monitor: Ref) -> bool
        ensures { result ≡ list_any (λ k. same_ref monitor k.0) (state_of self.now.phase).kept }
    {
        self.held.kept(monitor)
    }

    pub(crate) fn watching(&self, monitor: Ref) -> bool
        ensures { result ≡ is_some (lookup (same_ref monitor) (open_monitors self.now.phase)) }
    {
        match self.ended {
            Some(_) => false,
            None => self.held.watching(monitor),
        }
    }
}
