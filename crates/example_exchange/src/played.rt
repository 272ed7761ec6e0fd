//! A day of the exchange, and what is printed of it.

ghost use Rattle.pt_names.specs.Ending.{EndsFirst};
ghost use Rattle.pt_names.specs.Past.{KeepMonitors};

use crate::actor::Actor;
use crate::caller::{Manner, Plan};
use crate::clerk::Note;
use crate::enquiries::names;
use crate::exchange::Exchange;
use crate::report::{Report, is_of_line};
use crate::words::LINES;
use anyhow::{Result, bail};
use pt_events::{Event, Stamped};
use pt_judge::replay;
use pt_names::{calls_end_once, names_keep_their_monitors};
use pt_node::{Config, FreeGate, Node, Standing, Task};
use pt_supervisor::Child;
use std::alloc::{AllocError, Global};
use std::fmt::{self, Display, Formatter, Write};

/// The most turns of the desk.
const MOST_TURNS: u64 = 10_000;

/// The callers of the day, in the order of their calls.
fn plans(alloc: Global) -> Result<Vec<Plan>, AllocError> {
    Ok(vec![in alloc;
        plan(10, 2, 60, 0, Manner::Polite),
        plan(12, 0, 60, 20, Manner::Polite),
        plan(20, 0, 60, 20, Manner::Polite),
        plan(50, 1, 6, 20, Manner::Polite),
        plan(70, 1, 60, 10, Manner::Loud),
        plan(100, 1, 60, 10, Manner::Polite),
        plan(130, 2, 20, 10, Manner::Forgetful),
        plan(170, 3, 20, 10, Manner::Polite),
    ]?)
}

/// What a caller is going to do.
fn plan(at: u64, line: u32, patience: u64, talks: u64, manner: Manner) -> Plan {
    Plan {
        at,
        line,
        patience,
        talks,
        manner,
    }
}

/// The exchange after its day, and what the judge says of the history of its node.
#[derive(Drop)]
pub struct Played {
    exchange: Exchange,
    /// The number of events of the history.
    events: usize,
    /// Whether the judge says that the history is legal.
    is_legal: bool,
}

/// Plays a day of the exchange.
///
/// It applies two laws, which hold of all calls and all names. A call ends once: by its answer, by the `DOWN` of the process
/// that was asked, or by its deadline. A name has the process that was registered last, until the `DOWN` of its monitor
/// is heard.
pub fn play(alloc: Global) -> Result<Played>
    ensures calls { EndsFirst }
    ensures names { KeepMonitors }
{
    calls_end_once();
    names_keep_their_monitors();
    let Some(names) = names() else {
        bail!("the names of the lines are no names");
    };
    play_day(alloc, Exchange::new(alloc, names, plans(alloc)?))
}

/// What the judge says of a history, with the number of its events.
#[derive(Clone, Copy)]
struct Judged {
    events: usize,
    is_legal: bool,
}

/// Plays the day of this exchange.
fn play_day(alloc: Global, exchange: Exchange) -> Result<Played> {
    let mut works = vec![in alloc; exchange]?;
    let judged = run(alloc, &mut works)?;
    Ok(Played {
        exchange: done(works)?,
        events: judged.events,
        is_legal: judged.is_legal,
    })
}

/// The exchange that was run, which has to be done.
fn done(works: Vec<Exchange>) -> Result<Exchange> {
    let mut works = works;
    let Some(exchange) = works.pop() else {
        bail!("the exchange is gone");
    };
    match exchange.standing() {
        Standing::Done => Ok(exchange),
        _ => bail!("the exchange is not done"),
    }
}

/// Runs the exchange until nothing is left to do, and has the history of its node judged.
fn run(alloc: Global, works: &mut Vec<Exchange>) -> Result<Judged> {
    let mut node = Node::open(alloc, Config::DEFAULT.with_desks(1).with_slots(16))?;
    match node.run_single(works, MOST_TURNS, 1_024, &FreeGate) {
        Ok(_) => judge_node(alloc, node),
        Err(_) => bail!("the exchange does not run"),
    }
}

/// What the judge says of the history of a node.
fn judge_node(alloc: Global, node: Node) -> Result<Judged> {
    let history = node.gather()?.history()?;
    Ok(judge(alloc, history.as_slice())?)
}

/// What the judge says of a history.
fn judge(alloc: Global, history: &[Stamped]) -> Result<Judged, AllocError> {
    let events = events_of(alloc, history)?;
    Ok(Judged {
        events: events.len(),
        is_legal: replay(alloc, events.as_slice()).is_ok(),
    })
}

/// The events of a history, without their stamps.
fn events_of(alloc: Global, history: &[Stamped]) -> Result<Vec<Event>, AllocError> {
    let mut events = Vec::new(alloc);
    for stamped in history {
        events.push(stamped.event)?;
    }
    Ok(events)
}

impl Played {
    /// The lines, as their supervisor has them.
    fn lines(&self) -> &[Child] {
        let Some(supervisor) = self.exchange.supervisor() else {
            return &[];
        };
        match self.exchange.crew().behaviour(supervisor) {
            Some(Actor::Supervisor(supervisor)) => supervisor.children(),
            _ => &[],
        }
    }

    /// The name of the line of which a note speaks, by its place or by the number of its caller.
    fn line_of(&self, note: &Note) -> &'static str {
        let number = note.told.num;
        let place = if is_of_line(note) {
            u32::try_from(number).ok()
        } else {
            self.exchange.called_by(number)
        };
        match place {
            Some(place) => name_at(place as usize),
            None => "no line",
        }
    }

    /// The number of lines that have entered.
    fn living(&self) -> u32 {
        let mut living: u32 = 0;
        for child in self.lines() {
            living = living.saturating_add(u32::from(self.has_entered(child)));
        }
        living
    }

    fn has_entered(&self, child: &Child) -> bool {
        match child.pid {
            Some(pid) => self.exchange.crew().behaviour(pid).is_some(),
            None => false,
        }
    }

    /// Whether a line has an alarm.
    fn has_alarm(&self, child: &Child) -> bool {
        let Some(pid) = child.pid else {
            return false;
        };
        match self.exchange.crew().behaviour(pid) {
            Some(Actor::Line(line)) => line.next_alarm().is_some(),
            _ => false,
        }
    }

    /// Whether an alarm of a line is to ring.
    fn has_alarms(&self) -> bool {
        for child in self.lines() {
            if self.has_alarm(child) {
                return true;
            }
        }
        false
    }

    /// Whether a process waits until a time, or an alarm is to ring.
    fn has_timers(&self) -> bool {
        self.exchange.crew().next_time().is_some() || self.has_alarms()
    }

    /// What is left in the end.
    fn write_end<W: Write>(&self, f: &mut Formatter<W>) -> fmt::Result {
        let timers = if self.has_timers() {
            "a timer is"
        } else {
            "no timer is"
        };
        let legal = if self.is_legal { "" } else { "not " };
        write!(
            f,
            "at the end: {timers} pending, and {} of {} lines live\nhistory: {} events, which the judge finds {legal}legal",
            self.living(),
            self.lines().len(),
            self.events
        )
    }
}

/// The name of the line at a place.
fn name_at(place: usize) -> &'static str {
    match LINES.get(place) {
        Some(name) => *name,
        None => "no line",
    }
}

impl Display for Played {
    fn fmt<W: Write>(&self, f: &mut Formatter<W>) -> fmt::Result {
        for note in self.exchange.notes() {
            let report = Report::new(*note, self.line_of(note));
            writeln!(f, "{report}")?;
        }
        self.write_end(f)
    }
}
