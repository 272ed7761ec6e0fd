//! A process that is followed through a history: what it sends, and when it exits.

ghost use Rattle.std.specs.Prelude.{◌≡◌, ◌++◌, cond, map, Some, None, IfOk, IfSome, OnOk};
ghost use Rattle.pt_signal.specs.Values.{same_pid, fits, without_first};
ghost use Rattle.pt_signal.specs.Process.{handle, say};
ghost use Rattle.pt_events.specs.declared.event.Event.TheVariants.{Born, Said, Came, Flag, Left};
ghost use Rattle.pt_events.specs.History.{unborn, linked};
ghost use Rattle.pt_process.specs.Outcome.{IsAnew};
ghost use Rattle.pt_chart.specs.Chart.{sent_at};
ghost use Rattle.pt_chart.specs.Following.{followed, seen_followed, sends_followed, ends_followed, OpensAnew, gets_followed, got_sent, got_end, left_sent};
ghost use Rattle.pt_chart.specs.Following.{left_end, begins_followed, changes};
ghost use Rattle.pt_chart.specs.Replying.{Replies};

use crate::layout::Sending;
use pt_events::Event;
use pt_process::{Estate, Outcome, Process};
use pt_signal::{LinkId, Pick, Pid, Reason, Signal};
use std::alloc::{AllocError, Global};
use std::marker::Model;

/// A process that is followed through a history.
#[derive(Drop)]
pub(crate) struct Follower {
    me: Pid,
    born: bool,
    /// Its state, while it is alive.
    process: Option<Process>,
}

impl Model for Follower {
    ghost use Rattle.std.specs.Prelude.{◌≡◌, IfSome};
    ghost use Rattle.std.specs.Option.{option_map};
    ghost use Rattle.pt_chart.specs.Following.{Followed};

    ghost Value = { Followed };

    ghost view = { λ f. record { me = f.me; born = f.born; state = option_map (λ p. p.state) f.process } };

    ghost invariant = { λ f. IfSome f.process (λ p. p.me ≡ f.me) };
}

impl Follower {
    /// A process that is not spawned yet.
    pub(crate) fn new(me: Pid) -> Follower
        ensures { result ≡ followed me unborn }
    {
        Follower {
            me,
            born: false,
            process: None,
        }
    }

    /// Plays the event at a place of the history. What the process sends by it joins what it has sent. It returns the
    /// reason with which the process exits, if it does.
    pub(crate) fn see(
        &mut self,
        alloc: Global,
        at: usize,
        event: Event,
        sent: &mut Vec<Sending>,
    ) -> Result<Option<Reason>, AllocError>
        ensures state { OpensAnew event self.old → OnOk result (self.new ≡ seen_followed event self.old) }
        ensures sent { OnOk result (sent.new.items ≡ sent.old.items ++ map (sent_at at) (sends_followed event self.old)) }
        ensures ending { IfOk result (λ reason. reason ≡ ends_followed event self.old) }
    {
        match event {
            Event::Born(pid, parent, link) => {
                self.see_birth(alloc, pid, parent, link)?;
                Ok(None)
            }
            Event::Said(from, to, signal) => {
                self.see_sending(at, from, to, signal, sent)?;
                Ok(None)
            }
            Event::Came(from, to, signal) => self.see_receipt(at, from, to, signal, sent),
            Event::Took(pid, pick, _) => {
                self.see_taking(pid, pick);
                Ok(None)
            }
            Event::Flag(pid, on) => {
                self.see_flag(pid, on);
                Ok(None)
            }
            Event::Left(pid, reason) => self.see_end(at, pid, reason, sent),
            Event::Refused(_, _) => Ok(None),
        }
    }

    fn see_birth(
        &mut self,
        alloc: Global,
        pid: Pid,
        parent: Option<Pid>,
        link: Option<LinkId>,
    ) -> Result<(), AllocError>
        ensures { OnOk result (self.new ≡ seen_followed (Born pid parent link) self.old) }
    {
        if pid == self.me {
            return self.begin(alloc, parent, link);
        }
        if parent == Some(self.me) {
            return self.join(pid, link);
        }
        Ok(())
    }

    fn see_sending(
        &mut self,
        at: usize,
        from: Pid,
        to: Pid,
        signal: Signal,
        sent: &mut Vec<Sending>,
    ) -> Result<(), AllocError>
        ensures state { OpensAnew (Said from to signal) self.old
            → OnOk result (self.new ≡ seen_followed (Said from to signal) self.old) }
        ensures sent { OnOk result
            (sent.new.items ≡ sent.old.items ++ map (sent_at at) (sends_followed (Said from to signal) self.old)) }
    {
        if from != self.me {
            return Ok(());
        }
        self.say(to, signal)?;
        sent.push(Sending {
            event: at,
            to,
            signal,
        })?;
        Ok(())
    }

    fn see_receipt(
        &mut self,
        at: usize,
        from: Pid,
        to: Pid,
        signal: Signal,
        sent: &mut Vec<Sending>,
    ) -> Result<Option<Reason>, AllocError>
        ensures state { OnOk result (self.new ≡ seen_followed (Came from to signal) self.old) }
        ensures sent { OnOk result
            (sent.new.items ≡ sent.old.items ++ map (sent_at at) (sends_followed (Came from to signal) self.old)) }
        ensures ending { IfOk result (λ reason. reason ≡ ends_followed (Came from to signal) self.old) }
    {
        if to != self.me {
            return Ok(None);
        }
        self.hear(at, from, signal, sent)
    }

    fn see_taking(&mut self, pid: Pid, pick: Pick)
        ensures { self.new
            ≡ cond (same_pid self.old.me pid)
            (changes (λ s. record s { waiting = without_first (fits pick) s.waiting }) self.old) self.old }
    {
        if pid == self.me {
            self.take(pick);
        }
    }

    fn see_flag(&mut self, pid: Pid, on: bool)
        ensures { self.new ≡ seen_followed (Flag pid on) self.old }
    {
        if pid == self.me {
            self.trap(on);
        }
    }

    fn see_end(
        &mut self,
        at: usize,
        pid: Pid,
        reason: Reason,
        sent: &mut Vec<Sending>,
    ) -> Result<Option<Reason>, AllocError>
        ensures state { OnOk result (self.new ≡ seen_followed (Left pid reason) self.old) }
        ensures sent { OnOk result
            (sent.new.items ≡ sent.old.items ++ map (sent_at at) (sends_followed (Left pid reason) self.old)) }
        ensures ending { IfOk result (λ ending. ending ≡ ends_followed (Left pid reason) self.old) }
    {
        if pid != self.me {
            return Ok(None);
        }
        self.leave(at, reason, sent)
    }

    fn begin(
        &mut self,
        alloc: Global,
        parent: Option<Pid>,
        link: Option<LinkId>,
    ) -> Result<(), AllocError>
        ensures { OnOk result (self.new ≡ begins_followed parent link self.old) }
    {
        if self.born {
            return Ok(());
        }
        self.born = true;
        self.process = Some(Process::new(alloc, self.me));
        match parent {
            Some(parent) => self.join(parent, link),
            None => Ok(()),
        }
    }

    /// Enters the link with its parent or its child.
    fn join(&mut self, other: Pid, link: Option<LinkId>) -> Result<(), AllocError>
        ensures { OnOk result (self.new ≡ changes (linked (Some other) link) self.old) }
    {
        let Some(process) = &mut self.process else {
            return Ok(());
        };
        match link {
            Some(link) => process.add_link(other, link),
            None => Ok(()),
        }
    }

    fn say(&mut self, to: Pid, signal: Signal) -> Result<(), AllocError>
        ensures { IfSome self.old.state (IsAnew signal)
            → OnOk result (self.new ≡ changes (λ s. say s to signal) self.old) }
    {
        match &mut self.process {
            Some(process) => process.say(to, signal),
            None => Ok(()),
        }
    }

    fn take(&mut self, pick: Pick)
        ensures { self.new ≡ changes (λ s. record s { waiting = without_first (fits pick) s.waiting }) self.old }
    {
        if let Some(process) = &mut self.process {
            let _ = process.take(pick);
        }
    }

    fn trap(&mut self, on: bool)
        ensures { self.new ≡ changes (λ s. record s { traps = on }) self.old }
    {
        if let Some(process) = &mut self.process {
            let _ = process.set_trap(on);
        }
    }

    /// Delivers a signal to it.
    fn hear(
        &mut self,
        at: usize,
        from: Pid,
        signal: Signal,
        sent: &mut Vec<Sending>,
    ) -> Result<Option<Reason>, AllocError>
        ensures state { OnOk result
            (self.new ≡ record self.old { state = gets_followed self.old.me from signal self.old.state }) }
        ensures sent { OnOk result
            (sent.new.items ≡ sent.old.items ++ map (sent_at at) (got_sent self.old.me from signal self.old.state)) }
        ensures ending { IfOk result (λ reason. reason ≡ got_end self.old.me from signal self.old.state) }
    {
        let Some(process) = &mut self.process else {
            if let Some(answer) = signal.answer_of_dead() {
                sent.push(Sending {
                    event: at,
                    to: from,
                    signal: answer,
                })?;
            }
            return Ok(None);
        };
        match take_in(process, from, signal)? {
            Reply::End(reason) => self.leave(at, reason, sent),
            Reply::Answer(signal) => {
                sent.push(Sending {
                    event: at,
                    to: from,
                    signal,
                })?;
                Ok(None)
            }
            Reply::Silence => Ok(None),
        }
    }

    /// Makes it exit, if it is alive, and sends what it owes.
    fn leave(
        &mut self,
        at: usize,
        reason: Reason,
        sent: &mut Vec<Sending>,
    ) -> Result<Option<Reason>, AllocError>
        ensures state { OnOk result (self.new ≡ record self.old { state = None }) }
        ensures sent { OnOk result
            (sent.new.items ≡ sent.old.items ++ map (sent_at at) (left_sent self.old.me reason self.old.state)) }
        ensures ending { IfOk result (λ ending. ending ≡ left_end reason self.old.state) }
    {
        let Some(process) = self.process.take() else {
            return Ok(None);
        };
        pay(at, &process.estate(reason), sent)?;
        Ok(Some(reason))
    }
}

/// What a live process does when a signal arrives.
#[derive(Clone, Copy)]
enum Reply {
    /// It does nothing that others see.
    Silence,
    /// It sends this back.
    Answer(Signal),
    /// It exits.
    End(Reason),
}

/// Delivers a signal to a live process.
fn take_in(process: &mut Process, from: Pid, signal: Signal) -> Result<Reply, AllocError>
    ensures me { process.new.me ≡ process.old.me }
    ensures state { OnOk result (process.new.state ≡ (handle process.old.me process.old.state from signal).state) }
    ensures reply { IfOk result
        (λ reply. Replies process.old.me from (handle process.old.me process.old.state from signal) reply) }
{
    match process.accept(from, signal)? {
        Outcome::Ends(reason) => Ok(Reply::End(reason)),
        Outcome::Asked(question) => Ok(Reply::Answer(Signal::AliveSay(question, true))),
        Outcome::Queued | Outcome::Changed | Outcome::Dropped => Ok(Reply::Silence),
    }
}

/// Sends what is owed.
fn pay(at: usize, estate: &Estate, sent: &mut Vec<Sending>) -> Result<(), AllocError>
    ensures { OnOk result (sent.new.items ≡ sent.old.items ++ map (sent_at at) estate.now.owed) }
{
    for i in 0..estate.len() {
        let (to, signal) = estate.owed(i);
        sent.push(Sending {
            event: at,
            to,
            signal,
        })?;
    }
    Ok(())
}
