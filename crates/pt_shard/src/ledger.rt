//! The clock, the journal and the letters of a desk.

ghost use Rattle.std.specs.Prelude.{◌≡◌, ℕ, ◌+◌, ◌-◌, ◌<◌, ◌≤◌, ◌^◌, [], ◌∷◌, max, min, nat_le, length, map, drop};
ghost use Rattle.std.specs.Prelude.{replicate, slice_get, slice_index_or, slice_set, sum_by, count_by, None, IfOk};
ghost use Rattle.std.specs.Prelude.{OnOk, Some, false, is_some};
ghost use Rattle.pt_signal.specs.declared.signal.Signal.{Signal};
ghost use Rattle.pt_signal.specs.Process.{sent};
ghost use Rattle.pt_events.specs.declared.event.Event.{Event};
ghost use Rattle.pt_events.specs.Journal.{letter};
ghost use Rattle.pt_events.specs.Journal.{letter as stamp_letter};
ghost use Rattle.std.specs.Option.{option_copied, option_to_list};
ghost use Rattle.pt_shard.specs.ShardState.{came_event};
ghost use Rattle.pt_signal.specs.declared.config.TheConstants.{MAX_DESKS};
ghost use Rattle.pt_signal.specs.Boxes.{one_more};
ghost use Rattle.pt_shard.specs.LedgerState.{wrote, restarted_book, forgetful_book, Prepares, HasNoNeed};
ghost use Rattle.pt_shard.specs.LedgerState.{HasRoomAt, HasRoomFor};
ghost use Rattle.pt_shard.specs.LedgerState.{HasLossRoom, HasRoomToAll, HasRoomToEnd, is_of_desk, losing};
ghost use Rattle.pt_shard.specs.declared.loss.Loss.TheVariants.{Exited};
ghost use Rattle.pt_process.specs.Peers.{peers_held};
ghost use Rattle.pt_shard.specs.LettersState.{LettersState};
ghost use Rattle.pt_shard.specs.Outbox.{count_held};
ghost use Rattle.pt_shard.specs.Sound.{Every};

use crate::letters::Letters;
use crate::loss::Loss;
use crate::losses::Losses;
use crate::origin::Origin;
use crate::stop::Stop;
use pt_events::{Event, Journal, MAX_STAMP, Stamped};
use pt_process::{Estate, Process};
use pt_signal::{Letter, LinkId, Pid, Reason, Ref, Signal};
use std::alloc::{AllocError, Global};
use std::marker::Model;

/// The clock of a desk, its journal, and the letters that wait in it.
///
/// An event is prepared first, which may fail. What is written then finds room.
#[derive(Drop)]
pub(crate) struct Ledger {
    clock: u64,
    // What was before the journal, for clauses alone.
    origin: Origin,
    journal: Journal,
    outbox: Vec<Letters>,
    hold: Option<Letter>,
    losses: Losses,
}

impl Model for Ledger {
    ghost use Rattle.std.specs.Prelude.{map};
    ghost use Rattle.pt_shard.specs.LettersState.{LettersState};
    ghost use Rattle.pt_shard.specs.LedgerState.{LedgerState, IsUpTo};

    ghost Value = { LedgerState };

    ghost view = { λ l. record {
      book = record {
        start = l.origin.start;
        desk = l.journal.desk;
        clock = l.clock;
        journal = l.journal.past;
        outbox = map (λ (b : LettersState). b.letters) l.outbox.items;
        hold = l.hold;
        keeps = l.losses.keeps;
        lost = l.losses.kept;
      };
      room = l.journal.room;
      rooms = map (λ (b : LettersState). b.room) l.outbox.items;
      lost_room = l.losses.room;
    } };

    ghost invariant = { λ l. IsUpTo l.clock l.journal.past };
}

fn no_letters(alloc: Global, desks: u8) -> Result<Vec<Letters>, AllocError>
    ensures { IfOk result (λ v. map (λ (b : LettersState). b.letters) v.items ≡ replicate desks []) }
{
    let mut outbox = Vec::with_capacity(alloc, usize::from(desks))?;
    for _e in 0..desks {
        outbox.push(Letters::new(alloc))?;
    }
    Ok(outbox)
}

/// Makes room for what a process would owe at its exit, in the boxes of those that would get it.
fn reserve_owed(outbox: &mut Vec<Letters>, process: &mut Process) -> Result<(), AllocError>
    requires few { length outbox.old.items ≤ MAX_DESKS }
    requires near { Every (λ q. q.shard < length outbox.old.items) (peers_held process.old.state) }
    ensures letters { map (λ (b : LettersState). b.letters) outbox.new.items
        ≡ map (λ (b : LettersState). b.letters) outbox.old.items }
    ensures me { process.new.me ≡ process.old.me }
    ensures state { process.new.state ≡ process.old.state }
    ensures room { OnOk result
        ((e : ℕ) → e < length outbox.new.items
        → count_by (is_of_desk e) (peers_held process.old.state)
        ≤ slice_index_or (map (λ (b : LettersState). b.room) outbox.new.items) e 0) }
{
    // How many letters so far, for each desk.
    let mut counts = [0_usize; 64];
    for i in 0..process.owed_len() {
        let desk = usize::from(process.owed_to(i).shard);
        let count = counts[desk] + 1;
        counts[desk] = count;
        outbox[desk].reserve(count)?;
    }
    Ok(())
}

impl Ledger {
    pub(crate) fn new(alloc: Global, desk: u8, desks: u8, start: u64) -> Result<Ledger, AllocError>
        ensures { IfOk result (λ l. l.book ≡ record {
          start = [];
          desk = desk;
          clock = start;
          journal = [];
          outbox = replicate desks [];
          hold = None;
          keeps = false;
          lost = [];
        }) }
    {
        Ok(Ledger {
            clock: start,
            origin: Origin::new(),
            journal: Journal::new(alloc, desk),
            outbox: no_letters(alloc, desks)?,
            hold: None,
            losses: Losses::new(alloc),
        })
    }

    /// Begins an empty journal over the start that the one so far leaves, with the clock at `start`.
    pub(crate) fn restart(&mut self, start: u64)
        ensures { self.new.book ≡ restarted_book start self.old.book }
    {
        self.origin = self.origin.left_behind(&self.journal);
        self.journal.clear();
        self.clock = start;
    }

    /// Forgets why the processes exited that had exited before the journal.
    pub(crate) fn forget_reasons(&mut self)
        ensures { self.new.book ≡ forgetful_book self.old.book }
    {
        self.origin = self.origin.without_reasons();
    }

    pub(crate) fn clock(&self) -> u64
        ensures { result ≡ self.now.book.clock }
    {
        self.clock
    }

    pub(crate) fn journal(&self) -> &Journal
        ensures desk { result.now.desk ≡ self.now.book.desk }
        ensures past { result.now.past ≡ self.now.book.journal }
    {
        &self.journal
    }

    /// Whether no event can be stamped above `floor`.
    #[inline(always)]
    pub(crate) fn is_worn(&self, floor: u64) -> bool
        ensures { result ≡ nat_le MAX_STAMP (max self.now.book.clock floor) }
    {
        self.clock.max(floor) >= MAX_STAMP
    }

    /// The reference that the next event makes.
    pub(crate) fn next_ref(&self) -> Ref
        requires { self.now.book.clock < MAX_STAMP }
        ensures { result ≡ record { desk = self.now.book.desk; number = self.now.book.clock + 1 } }
    {
        Ref {
            desk: self.journal.desk(),
            number: self.clock + 1,
        }
    }

    /// The id of a link that the next event makes.
    pub(crate) fn next_link(&self) -> LinkId
        requires { self.now.book.clock < MAX_STAMP }
        ensures { result ≡ record { desk = self.now.book.desk; number = self.now.book.clock + 1 } }
    {
        let Ref { desk, number } = self.next_ref();
        LinkId { desk, number }
    }

    /// Makes room for an event that is stamped above `floor`.
    #[inline(always)]
    pub(crate) fn prepare(&mut self, floor: u64) -> Result<(), Stop>
        ensures does { Prepares floor HasNoNeed self.old result self.new }
        ensures same { self.new.rooms ≡ self.old.rooms }
    {
        if self.is_worn(floor) {
            return Err(Stop::Worn);
        }
        self.journal.reserve()?;
        Ok(())
    }

    /// Makes room for an event that is stamped above `floor`, and for a letter to this process.
    #[inline(always)]
    pub(crate) fn prepare_said(&mut self, floor: u64, to: Pid) -> Result<(), Stop>
        requires { to.shard < length self.old.book.outbox }
        ensures { Prepares floor (HasRoomAt to.shard) self.old result self.new }
    {
        self.prepare(floor)?;
        self.outbox[usize::from(to.shard)].reserve(1)?;
        Ok(())
    }

    /// Makes room for an event that is stamped above `floor`, and for a letter to this process, if there is one.
    #[inline(always)]
    pub(crate) fn prepare_came(
        &mut self,
        floor: u64,
        back: Option<Signal>,
        to: Pid,
    ) -> Result<(), Stop>
        requires { to.shard < length self.old.book.outbox }
        ensures { Prepares floor (HasRoomFor back to.shard) self.old result self.new }
    {
        match back {
            Some(_) => self.prepare_said(floor, to),
            None => self.prepare(floor),
        }
    }

    /// Makes room for an event that is stamped above `floor`, and for a loss, if losses are kept.
    #[inline(always)]
    pub(crate) fn prepare_loss(&mut self, floor: u64) -> Result<(), Stop>
        ensures does { Prepares floor HasLossRoom self.old result self.new }
        ensures same { self.new.rooms ≡ self.old.rooms }
    {
        self.prepare(floor)?;
        self.losses.reserve()?;
        Ok(())
    }

    /// Keeps a loss until it is told, if losses are kept. There is room for it then.
    pub(crate) fn lose(&mut self, loss: Loss)
        requires { HasLossRoom self.old }
        ensures { self.new.book ≡ losing (Some loss) self.old.book }
    {
        self.losses.add(loss);
    }

    /// Keeps what a process loses by its exit until it is told, if losses are kept. There is room for it then.
    ///
    /// Else its mailbox is not even taken out of its estate.
    #[inline(always)]
    pub(crate) fn lose_estate(&mut self, p: Pid, reason: Reason, estate: Estate)
        requires { HasLossRoom self.old }
        ensures { self.new.book ≡ losing (Some (Exited p reason estate.waiting)) self.old.book }
    {
        if self.losses.keeps() {
            self.losses
                .add(Loss::Exited(p, reason, estate.into_mailbox()));
        }
    }

    /// Sets whether losses are kept from now on.
    pub(crate) fn keep_losses(&mut self, on: bool)
        ensures { self.new.book ≡ record self.old.book { keeps = on } }
    {
        self.losses.set_keeps(on);
    }

    /// The loss with this number among those kept, the oldest first.
    pub(crate) fn loss(&self, place: usize) -> Option<&Loss>
        ensures { option_copied result ≡ slice_get self.now.book.lost place }
    {
        self.losses.at(place)
    }

    /// Takes out the oldest loss that was kept.
    pub(crate) fn next_loss(&mut self) -> Option<Loss>
        ensures first { result ≡ slice_get self.old.book.lost 0 }
        ensures rest { self.new.book ≡ record self.old.book { lost = drop 1 self.old.book.lost } }
    {
        self.losses.next()
    }

    /// Makes room for an event that is stamped above `floor`, for what a process would owe at its exit, and for what it
    /// leaves.
    #[inline(always)]
    pub(crate) fn prepare_end(&mut self, floor: u64, process: &mut Process) -> Result<(), Stop>
        requires few { length self.old.book.outbox ≤ MAX_DESKS }
        requires near { Every (λ q. q.shard < length self.old.book.outbox) (peers_held process.old.state) }
        ensures does { Prepares floor (HasRoomToEnd (peers_held process.old.state)) self.old result self.new }
        ensures me { process.new.me ≡ process.old.me }
        ensures state { process.new.state ≡ process.old.state }
    {
        self.prepare_loss(floor)?;
        if process.owed_len() == 0 {
            return Ok(());
        }
        reserve_owed(&mut self.outbox, process)?;
        Ok(())
    }

    /// Writes an event, stamped above `floor` too, for which there is room, and returns the stamp.
    #[tactic(auto, using(crate::proofs::Ledgers::newer_above))]
    #[inline(always)]
    pub(crate) fn write(&mut self, floor: u64, event: Event) -> u64
        requires can { max self.old.book.clock floor < MAX_STAMP }
        requires room { 0 < self.old.room }
        ensures stamp { result ≡ max self.old.book.clock floor + 1 }
        ensures book { self.new.book ≡ wrote (max self.old.book.clock floor + 1) event [] self.old.book }
        ensures rooms { self.new.rooms ≡ self.old.rooms }
        ensures lost_room { self.new.lost_room ≡ self.old.lost_room }
    {
        let stamp = self.clock.max(floor) + 1;
        let desk = self.journal.desk();
        self.journal.push_reserved(Stamped { stamp, desk, event });
        self.clock = stamp;
        stamp
    }

    /// Puts a letter, for which there is room, after those for the same desk.
    #[inline(always)]
    fn put(&mut self, letter: Letter)
        requires to { letter.to.shard < length self.old.book.outbox }
        requires room { HasRoomAt letter.to.shard self.old }
        ensures book { self.new.book
            ≡ record self.old.book { outbox = one_more self.old.book.outbox letter.to.shard letter } }
        ensures rooms { self.new.rooms
            ≡ slice_set self.old.rooms letter.to.shard (slice_index_or self.old.rooms letter.to.shard 0 - 1) }
        ensures lost_room { self.new.lost_room ≡ self.old.lost_room }
    {
        self.outbox[usize::from(letter.to.shard)].push(letter);
    }

    /// Writes that a process sends a signal, and sends it. There is room for both.
    #[inline(always)]
    pub(crate) fn write_said(&mut self, from: Pid, to: Pid, signal: Signal)
        requires can { max self.old.book.clock 0 < MAX_STAMP }
        requires room { 0 < self.old.room }
        requires to { to.shard < length self.old.book.outbox }
        requires letter { HasRoomAt to.shard self.old }
        ensures { self.new.book
            ≡ wrote (max self.old.book.clock 0 + 1) (Event.Said from to signal)
            (letter (max self.old.book.clock 0 + 1) (sent from to signal) ∷ []) self.old.book }
    {
        let stamp = self.write(0, Event::Said(from, to, signal));
        self.put(Letter {
            from,
            to,
            signal,
            stamp,
        });
    }

    /// Writes that a letter arrived, and sends what goes back, if anything. There is room for both.
    #[inline(always)]
    pub(crate) fn write_came(&mut self, letter: &Letter, back: Option<Signal>)
        requires can { max self.old.book.clock letter.now.stamp < MAX_STAMP }
        requires room { 0 < self.old.room }
        requires from { letter.now.from.shard < length self.old.book.outbox }
        requires letter { HasRoomFor back letter.now.from.shard self.old }
        ensures { self.new.book
            ≡ wrote (max self.old.book.clock letter.now.stamp + 1) (came_event letter.now)
            (map (stamp_letter (max self.old.book.clock letter.now.stamp + 1))
            (map (sent letter.now.to letter.now.from) (option_to_list back))) self.old.book }
    {
        let event = Event::Came(letter.from, letter.to, letter.signal);
        let stamp = self.write(letter.stamp, event);
        if let Some(signal) = back {
            self.put(Letter {
                from: letter.to,
                to: letter.from,
                signal,
                stamp,
            });
        }
    }

    /// Writes the event by which a process exits, stamped above `floor` too, and sends what the process owes. There is
    /// room for all of it.
    #[inline(always)]
    pub(crate) fn write_end(&mut self, floor: u64, event: Event, from: Pid, estate: &Estate)
        requires can { max self.old.book.clock floor < MAX_STAMP }
        requires room { 0 < self.old.room }
        requires from { estate.now.from ≡ from }
        requires to { Every (λ l. l.to.shard < length self.old.book.outbox) estate.now.owed }
        requires letters { HasRoomToAll (map (λ l. l.to) estate.now.owed) self.old }
        ensures lost_room { self.new.lost_room ≡ self.old.lost_room }
        ensures book { self.new.book
            ≡ wrote (max self.old.book.clock floor + 1) event
            (map (letter (max self.old.book.clock floor + 1)) estate.now.owed) self.old.book }
    {
        let stamp = self.write(floor, event);
        for i in 0..estate.len() {
            let (to, signal) = estate.owed(i);
            self.put(Letter {
                from,
                to,
                signal,
                stamp,
            });
        }
    }

    /// The letters that wait to be posted to desk `to`, oldest first.
    #[inline(always)]
    pub(crate) fn letters_for(&self, to: u8) -> &[Letter]
        requires { to < length self.now.book.outbox }
        ensures { result.now ≡ slice_index_or self.now.book.outbox to [] }
    {
        self.outbox[usize::from(to)].as_slice()
    }

    /// Removes so many of the oldest letters that wait to be posted to desk `to`.
    #[inline(always)]
    pub(crate) fn pass_out(&mut self, to: u8, count: usize)
        requires desk { to < length self.old.book.outbox }
        requires wait { count ≤ length (slice_index_or self.old.book.outbox to []) }
        ensures { self.new.book
            ≡ record self.old.book {
              outbox = slice_set self.old.book.outbox to
                  (drop count (slice_index_or self.old.book.outbox to []));
            } }
    {
        self.outbox[usize::from(to)].pass(count);
    }

    pub(crate) fn next_out(&mut self, to: u8) -> Option<Letter>
        requires { to < length self.old.book.outbox }
        ensures first { result ≡ slice_get (slice_index_or self.old.book.outbox to []) 0 }
        ensures rest { self.new.book
            ≡ record self.old.book {
              outbox = slice_set self.old.book.outbox to
                  (drop 1 (slice_index_or self.old.book.outbox to []));
            } }
    {
        self.outbox[usize::from(to)].pop()
    }

    pub(crate) fn held(&self) -> Option<Letter>
        ensures { result ≡ self.now.book.hold }
    {
        self.hold
    }

    #[inline(always)]
    pub(crate) fn holds(&self) -> bool
        ensures { result ≡ is_some self.now.book.hold }
    {
        self.hold.is_some()
    }

    pub(crate) fn take_hold(&mut self) -> Option<Letter>
        ensures held { result ≡ self.old.book.hold }
        ensures rest { self.new.book ≡ record self.old.book { hold = None } }
    {
        self.hold.take()
    }

    pub(crate) fn put_hold(&mut self, letter: Letter)
        ensures { self.new.book ≡ record self.old.book { hold = Some letter } }
    {
        self.hold = Some(letter);
    }

    /// The number of letters that wait here, staying at `u64::MAX` once it is reached.
    pub(crate) fn pending(&self) -> u64
        ensures { result ≡ min (sum_by length self.now.book.outbox + count_held self.now.book.hold) (2 ^ 64 - 1) }
    {
        let mut count: u64 = if self.hold.is_some() { 1 } else { 0 };
        for e in 0..self.outbox.len() {
            count = count.saturating_add(self.outbox[e].len() as u64);
        }
        count
    }
}
