//! Payloads: data that does not fit into a message is kept beside the table, and the message's `num` names it.
//!
//! Take it for texts, buffers or anything owned. A message is a kind, a number and perhaps a pid, so the sender puts
//! the payload into a slab and sends its key. The receiver takes it out by the number of the message. If the receiver
//! has exited, or exits before it takes the message, the payload stays here: `drop_lost` drops such payloads.

ghost use Rattle.std.specs.Prelude.{◌≡◌, true, [], OnOk, OnErr};
ghost use Rattle.pt_shard.specs.Known.{knows};
ghost use Rattle.pt_workers.specs.Desks.{IsStill};
ghost use Rattle.example_uses.specs.Payloads.{LetsGo, SaysNumber, Stores, TakesTextOut, TakesText, is_lost, named_sender, next_text};
ghost use Rattle.example_uses.specs.Payloads.{text_of};

use crate::steps::tell;
use pt_node::{Desk, Fault, Item, Pick, Pid};
use slab::Slab;
use std::alloc::Global;

/// The kind of the messages that name a text.
pub const TEXT: u32 = 3;

/// A text in flight, and its receiver.
#[derive(Drop)]
pub struct Sent {
    pub to: Pid,
    pub text: String,
}

/// The texts that were sent and not received, each under the number that its message has.
#[derive(Drop)]
pub struct Texts {
    pub kept: Slab<Sent>,
}

impl Texts {
    /// No texts.
    pub fn new(alloc: Global) -> Texts
        ensures { result.kept.slots ≡ [] }
    {
        Texts {
            kept: Slab::new(alloc),
        }
    }

    /// Sends a message that names this text, and returns its number. If it fails, no more is kept than before.
    pub fn send(
        &mut self,
        desk: &mut Desk,
        from: Pid,
        to: Pid,
        text: String,
    ) -> Result<usize, Fault>
        requires { knows desk.old.shard to ≡ true }
        ensures does { SaysNumber from to desk.old.shard result desk.new.shard }
        ensures kept { Stores (record { to = to; text = text }) result self.old.kept self.new.kept }
        ensures still { IsStill desk.old desk.new }
    {
        self.kept.reserve(1)?;
        let Ok(num) = i64::try_from(self.kept.vacant_key()) else {
            return Err(Fault::Memory);
        };
        tell(desk, from, to, TEXT, num)?;
        Ok(self.kept.insert_reserved(Sent { to, text }))
    }

    /// Takes the oldest message with a text out of the mailbox of p, and returns its sender and the text.
    pub fn receive(&mut self, desk: &mut Desk, p: Pid) -> Result<Option<(Pid, String)>, Fault>
        ensures does { TakesText self.old.kept p desk.old.shard result desk.new.shard }
        ensures taken { OnOk result (TakesTextOut (named_sender (next_text desk.old.shard p)) self.old.kept self.new.kept) }
        ensures refused { OnErr result (self.new.kept ≡ self.old.kept) }
        ensures still { IsStill desk.old desk.new }
    {
        let item = desk.receive(p, Pick::Kind(TEXT))?;
        Ok(self.take(item))
    }

    /// Takes out the text that an item names, and returns its sender and the text.
    fn take(&mut self, item: Option<Item>) -> Option<(Pid, String)>
        ensures text { result ≡ text_of self.old.kept (named_sender item) }
        ensures taken { TakesTextOut (named_sender item) self.old.kept self.new.kept }
    {
        let Some(Item::User(from, body)) = item else {
            return None;
        };
        let Ok(key) = usize::try_from(body.num) else {
            return None;
        };
        let Some(sent) = self.kept.try_remove(key) else {
            return None;
        };
        let Sent { to: _, text } = sent;
        Some((from, text))
    }

    /// Drops the texts that no process can receive any more: those whose receiver was spawned on this desk and has
    /// exited.
    pub fn drop_lost(&mut self, desk: &Desk)
        ensures { LetsGo (is_lost desk.now.shard) self.old.kept self.new.kept }
    {
        self.kept.retain(|_key, sent| !is_lost(desk, sent.to));
    }
}

/// Whether p was spawned on this desk and has exited.
fn is_lost(desk: &Desk, p: Pid) -> bool
    ensures { result ≡ is_lost desk.now.shard p }
{
    p.shard == desk.number() && desk.knows(p) && !desk.alive_here(p)
}
