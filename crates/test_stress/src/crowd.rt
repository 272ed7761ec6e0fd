//! The workers: each makes a call of one of its desk's processes in each step, drawn at random.

ghost use Rattle.std.specs.Prelude.{◌≡◌, true};
ghost use Rattle.pt_shard.specs.Known.{knows};
ghost use Rattle.pt_desk.specs.DeskState.{GoesOn};

use crate::board::{Board, DESKS, SLOTS};
use crate::dice::Dice;
use pt_node::{Body, Desk, Pick, Pid, Reason, Ref, Turned, Work};

/// How many processes are born on a desk before they call each other.
const FIRST: u64 = 8;

/// How many calls a worker ends with that are messages.
const LAST: u64 = 8;

/// A worker: its desk's processes call each other and those of the other desks, one call a step.
#[derive(Drop)]
pub(crate) struct Crowd<'a> {
    board: &'a Board,
    dice: Dice,
    /// How many calls it is to make.
    calls: u64,
    /// How many it has made.
    pub(crate) made: u64,
    /// How many messages were sent.
    pub(crate) sent: u64,
    /// How many processes were born.
    pub(crate) born: u64,
    /// A monitor that may be given up, with the process that made it.
    monitor: Option<(Pid, Ref)>,
}

impl<'a> Crowd<'a> {
    pub(crate) fn new(board: &'a Board, seed: u64, calls: u64) -> Crowd<'a> {
        Crowd {
            board,
            dice: Dice::new(seed),
            calls,
            made: 0,
            sent: 0,
            born: 0,
            monitor: None,
        }
    }

    /// The process that was born last in a slot of a desk, drawn at random.
    fn draw(&mut self, shard: u8) -> Pid {
        let slot = u32::try_from(self.dice.below(u64::from(SLOTS))).unwrap_or(0);
        self.board.read(shard, slot)
    }

    /// A process of any desk, drawn at random.
    fn draw_any(&mut self) -> Pid {
        let shard = u8::try_from(self.dice.below(u64::from(DESKS))).unwrap_or(0);
        self.draw(shard)
    }

    fn draw_reason(&mut self) -> Reason {
        match self.dice.below(4) {
            0 => Reason::Normal,
            1 => Reason::Kill,
            2 => Reason::Shutdown,
            _ => Reason::Other(7),
        }
    }

    /// A process was born, if one was.
    fn note(&mut self, born: Option<Pid>) {
        if let Some(p) = born {
            self.board.write(p);
            self.born = self.born.saturating_add(1);
        }
    }

    /// A process is born that no other one bears.
    fn bear(&mut self, desk: &mut Desk)
        ensures { GoesOn desk.old desk.new }
    {
        let born = desk.spawn().ok();
        self.note(born);
    }

    /// A message, numbered in the order in which they are sent.
    fn tell(&mut self, desk: &mut Desk, me: Pid, to: Pid)
        requires { knows desk.old.shard to ≡ true }
        ensures { GoesOn desk.old desk.new }
    {
        let body = Body {
            kind: 1,
            num: i64::try_from(self.sent).unwrap_or(0),
            who: Some(me),
        };
        if let Ok(()) = desk.send(me, to, body) {
            self.sent = self.sent.saturating_add(1);
        }
    }

    /// A call of one process that names another one.
    #[tactic(auto, using(pt_workers::proofs::GoingOn::stays))]
    fn call_on(&mut self, desk: &mut Desk, me: Pid, to: Pid, drawn: u64)
        requires { knows desk.old.shard to ≡ true }
        ensures { GoesOn desk.old desk.new }
    {
        match drawn {
            0..=39 => self.tell(desk, me, to),
            40..=49 => {
                let _ = desk.link(me, to);
            }
            50..=55 => {
                let _ = desk.unlink(me, to);
            }
            56..=63 => {
                self.monitor = desk.monitor(me, to).ok().map(|made| (me, made));
            }
            64..=67 => {
                let _ = desk.ask_alive(me, to);
            }
            _ => {
                let reason = self.draw_reason();
                let _ = desk.exit_signal(me, to, reason);
            }
        }
    }

    /// A call of one process that names no other one.
    #[tactic(auto, using(pt_workers::proofs::GoingOn::stays))]
    fn call_alone(&mut self, desk: &mut Desk, me: Pid, drawn: u64)
        ensures { GoesOn desk.old desk.new }
    {
        match drawn {
            72..=85 => {
                let _ = desk.receive(me, Pick::Any);
            }
            86..=89 => {
                let (watcher, monitor) = self.monitor.unwrap_or((me, Ref { desk: 0, number: 0 }));
                let _ = desk.demonitor(watcher, monitor, drawn == 86);
            }
            90..=93 => {
                let born = desk.spawn_child(me, drawn < 92).ok();
                self.note(born);
            }
            94..=96 => {
                let _ = desk.trap(me, drawn < 96);
            }
            _ => {
                let reason = self.draw_reason();
                let _ = desk.exit(me, reason);
            }
        }
    }

    /// A call of one process.
    #[tactic(auto, using(pt_workers::proofs::GoingOn::stays))]
    fn call(&mut self, desk: &mut Desk, me: Pid)
        ensures { GoesOn desk.old desk.new }
    {
        let is_last = self.made.saturating_add(LAST) >= self.calls;
        let drawn = if is_last { 0 } else { self.dice.below(100) };
        let to = self.draw_any();
        if drawn < 72 && desk.knows(to) {
            self.call_on(desk, me, to, drawn);
        } else {
            self.call_alone(desk, me, drawn);
        }
    }
}

impl<'a> Work for Crowd<'a> {
    ghost use Rattle.std.specs.Prelude.{⊤};

    ghost does = { λ _ _ _ _. ⊤ };

    #[tactic(auto, using(pt_workers::proofs::GoingOn::stays))]
    fn step(&mut self, desk: &mut Desk) {
        let me = self.draw(desk.number());
        if self.made < FIRST || !desk.alive_here(me) {
            self.bear(desk);
        } else {
            self.call(desk, me);
        }
        self.made = self.made.saturating_add(1);
    }

    fn turned(&mut self, _desk: &Desk, _turned: Turned) {}
}
