//! A room on the first desk, and on each of the others a guest that joins it, says some words, and crashes.
//!
//! A guest says its next word when it hears one. How many others hear a word differs from run to run: they may have
//! joined later, or have crashed before.

ghost use Rattle.std.specs.Prelude.{◌≡◌, ◌<◌};
ghost use Rattle.pt_desk.specs.DeskState.{GoesOn};
ghost use Rattle.pt_behaviour.specs.Behaving.{takes};

use crate::stage;
use crate::stage::{Curtain, Stage, first_of};
use anyhow::Result;
use pt_behaviour::{Behaviour, Births, Next, monitor, send};
use pt_node::{Body, Desk, Item, Pick, Pid, Reason};
use std::alloc::Global;
use std::fmt;
use std::fmt::{Display, Formatter, Write};
use std::sync::Wait;
use std::thread::Threads;

/// The kind of the message with which a guest joins.
const JOIN: u32 = 1;

/// The kind of a word, sent to the room and by the room to its guests.
const SAY: u32 = 2;

/// The number of words that each guest says, after its greeting.
const WORDS: u32 = 5;

/// A room: its guests, the number of words that it has heard and passed on, and the number of guests that have crashed.
#[derive(Drop)]
struct Hall<'a> {
    guests: [Option<Pid>; 3],
    heard: u32,
    crashed: u32,
    curtain: &'a Curtain,
}

/// The processes of the chat.
#[derive(Drop)]
enum Talker<'a> {
    /// The room.
    Room(Hall<'a>),
    /// A guest, and the number of words that it still has to say.
    Guest { words: u32 },
}

fn message(kind: u32, num: i64) -> Body {
    Body {
        kind,
        num,
        who: None,
    }
}

/// The place of a guest of that desk in the list.
fn seat(guest: Pid) -> usize
    ensures { result < 3 }
{
    (guest.shard as usize + 2) % 3
}

/// Passes a word on to a guest, if there is one.
#[tactic(auto, using(pt_workers::proofs::GoingOn::stays))]
fn pass(desk: &mut Desk, me: Pid, guest: Option<Pid>, word: i64)
    ensures takes { takes desk.new.shard.journal ≡ takes desk.old.shard.journal }
    ensures goes_on { GoesOn desk.old desk.new }
{
    if let Some(guest) = guest {
        let _ = send(desk, me, guest, message(SAY, word));
    }
}

/// Passes a word on to all guests.
#[tactic(auto, using(pt_workers::proofs::GoingOn::stays, pt_desk::proofs::Turning::goes_on_then))]
fn pass_to_all(desk: &mut Desk, me: Pid, guests: [Option<Pid>; 3], word: i64)
    ensures takes { takes desk.new.shard.journal ≡ takes desk.old.shard.journal }
    ensures goes_on { GoesOn desk.old desk.new }
{
    pass(desk, me, guests[0], word);
    pass(desk, me, guests[1], word);
    pass(desk, me, guests[2], word);
}

/// Says the next word, and returns what the guest does next: it crashes when no word is left.
#[tactic(auto, using(pt_workers::proofs::GoingOn::stays))]
fn speak(desk: &mut Desk, me: Pid, words: &mut u32) -> Next
    ensures takes { takes desk.new.shard.journal ≡ takes desk.old.shard.journal }
    ensures goes_on { GoesOn desk.old desk.new }
{
    if *words == 0 {
        return Next::Stop(Reason::Other(7));
    }
    let _ = send(desk, me, first_of(0), message(SAY, *words as i64));
    *words -= 1;
    Next::Wait(Pick::Any)
}

/// Handles an item of the room: it monitors a guest that joins, passes a word on to all, and removes a guest that is
/// down. After the last guest it closes.
#[tactic(auto, using(pt_workers::proofs::GoingOn::stays))]
fn receive(desk: &mut Desk, me: Pid, hall: &mut Hall<'_>, item: Option<Item>)
    ensures takes { takes desk.new.shard.journal ≡ takes desk.old.shard.journal }
    ensures goes_on { GoesOn desk.old desk.new }
{
    match item {
        Some(Item::User(guest, body)) if body.kind == JOIN => {
            hall.guests[seat(guest)] = Some(guest);
            let _ = monitor(desk, me, guest);
        }
        Some(Item::User(_, body)) => {
            hall.heard = hall.heard.saturating_add(1);
            pass_to_all(desk, me, hall.guests, body.num);
        }
        Some(Item::Down(_, guest, _)) => {
            hall.guests[seat(guest)] = None;
            hall.crashed = hall.crashed.saturating_add(1);
            if hall.crashed == 3 {
                hall.curtain.part_is_played();
            }
        }
        _ => {}
    }
}

/// Sends a message to the room.
#[tactic(auto, using(pt_workers::proofs::GoingOn::stays))]
fn tell_room(desk: &mut Desk, me: Pid, kind: u32)
    ensures takes { takes desk.new.shard.journal ≡ takes desk.old.shard.journal }
    ensures goes_on { GoesOn desk.old desk.new }
{
    let _ = send(desk, me, first_of(0), message(kind, 0));
}

/// Lets a guest join, and say its first word.
#[tactic(auto, using(pt_desk::proofs::Turning::goes_on_then))]
fn join(desk: &mut Desk, me: Pid)
    ensures takes { takes desk.new.shard.journal ≡ takes desk.old.shard.journal }
    ensures goes_on { GoesOn desk.old desk.new }
{
    tell_room(desk, me, JOIN);
    tell_room(desk, me, SAY);
}

impl<'a> Behaviour for Talker<'a> {
    ghost use Rattle.std.specs.Prelude.{⊤};

    ghost answers = { λ _ _ _ _ _ _ _ _ _. ⊤ };

    #[tactic(auto, using(pt_workers::proofs::GoingOn::stays))]
    fn handle(
        &mut self,
        desk: &mut Desk,
        _births: &mut Births<Talker<'a>>,
        me: Pid,
        item: Option<Item>,
    ) -> Next {
        match self {
            Talker::Room(hall) => {
                receive(desk, me, hall, item);
                Next::Wait(Pick::Any)
            }
            Talker::Guest { words } => {
                if item.is_some() {
                    return speak(desk, me, words);
                }
                join(desk, me);
                Next::Wait(Pick::Any)
            }
        }
    }
}

/// The result of the scene.
#[derive(Clone, Copy, Debug)]
pub struct Chat {
    heard: u32,
    crashed: u32,
    left: usize,
}

impl Display for Chat {
    fn fmt<W: Write>(&self, f: &mut Formatter<W>) -> fmt::Result {
        write!(
            f,
            "chat: the room heard {} words, {} guests crashed, {} are left",
            self.heard, self.crashed, self.left
        )
    }
}

impl Chat {
    /// The result of the scene that these desks played.
    fn of(works: &[Stage<Talker<'_>>]) -> Chat {
        let mut chat = Chat {
            heard: 0,
            crashed: 0,
            left: 0,
        };
        for stage in works.iter() {
            if let Some(Talker::Room(hall)) = stage.crew().behaviour(first_of(0)) {
                chat.heard = hall.heard;
                chat.crashed = hall.crashed;
            } else {
                chat.left = chat.left.saturating_add(stage.crew().len());
            }
        }
        chat
    }
}

fn room<'a>(alloc: Global, curtain: &'a Curtain) -> Stage<Talker<'a>> {
    let hall = Hall {
        guests: [None; 3],
        heard: 0,
        crashed: 0,
        curtain,
    };
    Stage::new(alloc, 8, Talker::Room(hall))
}

fn guest<'a>(alloc: Global) -> Stage<Talker<'a>> {
    Stage::new(alloc, 8, Talker::Guest { words: WORDS })
}

/// Plays the scene. It ends when the room has heard of the crash of the last guest.
pub fn play<R: Threads + Wait + Sync>(rt: &R, alloc: Global) -> Result<Chat> {
    let curtain = Curtain::new(alloc, 1)?;
    let stages = [
        room(alloc, &curtain),
        guest(alloc),
        guest(alloc),
        guest(alloc),
    ];
    let works = stage::play(rt, alloc, 4, stages, &curtain)?;
    Ok(Chat::of(works.as_slice()))
}
