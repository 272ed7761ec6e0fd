//! What a call or a receipt does with the ledger, and with a process that the desk lends it.

ghost use Rattle.std.specs.Prelude.{◌≡◌, true, ◌<◌, ◌≤◌, max, length, Some, None};
ghost use Rattle.std.specs.Prelude.{IfSome, IsSome, is_some, slice_get};
ghost use Rattle.pt_signal.specs.declared.signal.Signal.{Signal};
ghost use Rattle.pt_events.specs.declared.event.Event.{Event};
ghost use Rattle.pt_signal.specs.declared.config.TheConstants.{MAX_DESKS, MAX_STAMP};
ghost use Rattle.pt_signal.specs.Process.{answer_of_dead, handle, held};
ghost use Rattle.pt_process.specs.Outcome.{Accepts};
ghost use Rattle.std.specs.List.{find};
ghost use Rattle.std.specs.Map.{lookup};
ghost use Rattle.pt_signal.specs.Values.{fits, same_ref};
ghost use Rattle.pt_process.specs.Peers.{peers_held};
ghost use Rattle.pt_shard.specs.Sound.{Every};
ghost use Rattle.pt_shard.specs.Processes.{in_place};
ghost use Rattle.pt_shard.specs.LedgerState.{HasLossRoom};
ghost use Rattle.pt_shard.specs.Acts.{Acts, Tells, PreparesBirth, TakesIn, GivesBack, PreparesEnding, IsReadyToEnd};
ghost use Rattle.pt_shard.specs.Acts.{Bounces, EndsBy, taking, unlinking, giving_up, link_after, ref_after};

use crate::fault::Fault;
use crate::ledger::Ledger;
use crate::loss::Loss;
use crate::processes::Processes;
use crate::stop::Stop;
use pt_events::Event;
use pt_process::{Outcome, Process};
use pt_signal::{Body, Item, Letter, LinkId, Pick, Pid, Reason, Ref, Signal};
use std::alloc::AllocError;

/// Writes that a process sends a signal, which changes nothing in it, and sends it.
#[inline(always)]
pub(crate) fn tell(ledger: &mut Ledger, from: Pid, to: Pid, signal: Signal) -> Result<(), Fault>
    requires { to.shard < length ledger.old.book.outbox }
    ensures { Tells (Event.Said from to signal) tt ledger.old result ledger.new }
{
    ledger.prepare_said(0, to)?;
    ledger.write_said(from, to, signal);
    Ok(())
}

/// Writes that a process asks whether another is alive, sends the question, and returns its reference.
pub(crate) fn ask(ledger: &mut Ledger, p: Pid, t: Pid) -> Result<Ref, Fault>
    requires { t.shard < length ledger.old.book.outbox }
    ensures { Tells (Event.Said p t (Signal.AliveAsk (ref_after ledger.old.book)))
        (ref_after ledger.old.book) ledger.old result ledger.new }
{
    ledger.prepare_said(0, t)?;
    let question = ledger.next_ref();
    ledger.write_said(p, t, Signal::AliveAsk(question));
    Ok(question)
}

/// Sets the flag of a process, writes the event, and returns what the flag was.
pub(crate) fn set_flag(
    process: &mut Process,
    ledger: &mut Ledger,
    p: Pid,
    on: bool,
) -> Result<bool, Fault>
    ensures { Acts
        (Some (Event.Flag p on)) process.old.state.traps process.old ledger.old result process.new ledger.new }
{
    ledger.prepare(0)?;
    let before = process.set_trap(on);
    ledger.write(0, Event::Flag(p, on));
    Ok(before)
}

/// Enters the half of a link that a process keeps, which has none with the other, and sends the link to the other.
pub(crate) fn keep_link(
    process: &mut Process,
    ledger: &mut Ledger,
    p: Pid,
    to: Pid,
) -> Result<(), Fault>
    requires near { to.shard < length ledger.old.book.outbox }
    requires new { held process.old.state.links to ≡ None }
    ensures { Acts (Some (Event.Said p to (Signal.Link (link_after ledger.old.book))))
        tt process.old ledger.old result process.new ledger.new }
{
    ledger.prepare_said(0, to)?;
    let id = ledger.next_link();
    process.add_link(to, id)?;
    ledger.write_said(p, to, Signal::Link(id));
    Ok(())
}

/// Removes the half of a link that a process keeps, if there is one, and sends the unlink to the other.
pub(crate) fn drop_link(
    process: &mut Process,
    ledger: &mut Ledger,
    p: Pid,
    to: Pid,
) -> Result<(), Fault>
    requires { to.shard < length ledger.old.book.outbox }
    ensures { Acts (unlinking p to process.old.state) tt process.old ledger.old result process.new ledger.new }
{
    let Some(ids) = process.linked(to) else {
        return Ok(());
    };
    ledger.prepare_said(0, to)?;
    process.cut_link(to);
    ledger.write_said(p, to, Signal::Unlink(ids));
    Ok(())
}

/// Opens a monitor of a process, sends it to the target, and returns its reference.
pub(crate) fn open_monitor(
    process: &mut Process,
    ledger: &mut Ledger,
    w: Pid,
    t: Pid,
) -> Result<Ref, Fault>
    requires near { t.shard < length ledger.old.book.outbox }
    requires new { lookup (same_ref (ref_after ledger.old.book)) process.old.state.watching ≡ None }
    ensures { Acts (Some (Event.Said w t (Signal.Monitor (ref_after ledger.old.book))))
        (ref_after ledger.old.book) process.old ledger.old result process.new ledger.new }
{
    ledger.prepare_said(0, t)?;
    let monitor = ledger.next_ref();
    process.add_monitor(monitor, t)?;
    ledger.write_said(w, t, Signal::Monitor(monitor));
    Ok(monitor)
}

/// Closes the monitor of a process, if it is open, and sends the demonitor to the target. Else it takes out the DOWN
/// that waits, if `flush` is true. It returns whether it wrote an event.
pub(crate) fn close_monitor(
    process: &mut Process,
    ledger: &mut Ledger,
    w: Pid,
    monitor: Ref,
    flush: bool,
) -> Result<bool, Fault>
    requires { IfSome (lookup (same_ref monitor) process.old.state.watching)
        (λ t. t.shard < length ledger.old.book.outbox) }
    ensures { Acts (giving_up w monitor flush process.old.state)
        (is_some (giving_up w monitor flush process.old.state)) process.old ledger.old result process.new ledger.new }
{
    let Some(t) = process.target_of(monitor) else {
        if !flush {
            return Ok(false);
        }
        let taken = take(process, ledger, w, Pick::DownOf(monitor))?;
        return Ok(taken.is_some());
    };
    ledger.prepare_said(0, t)?;
    process.cut_monitor(monitor);
    ledger.write_said(w, t, Signal::Demonitor(monitor));
    Ok(true)
}

/// Takes the first matching item out of the mailbox of a process, and writes the event.
#[inline(always)]
pub(crate) fn take(
    process: &mut Process,
    ledger: &mut Ledger,
    p: Pid,
    pick: Pick,
) -> Result<Option<Item>, Fault>
    ensures { Acts (taking p pick process.old.state)
        (find (fits pick) process.old.state.waiting) process.old ledger.old result process.new ledger.new }
{
    let Some(place) = process.place(pick) else {
        return Ok(None);
    };
    ledger.prepare(0)?;
    // The event is written from where the item waits: the item is not needed beside it.
    let waiting = item_at(process, place);
    ledger.write(0, Event::Took(p, pick, waiting));
    let item = process.take_at(place);
    Ok(Some(item))
}

/// The item that waits at a place.
#[inline(always)]
fn item_at(process: &Process, place: usize) -> Item
    requires { place < length process.now.state.waiting }
    ensures { slice_get process.now.state.waiting place ≡ Some result }
{
    process.waiting()[place]
}

/// Makes room for spawning a process, and for the parent's half of the link, if one is asked for. It returns the id of
/// the link.
pub(crate) fn prepare_birth(
    parent: &mut Process,
    ledger: &mut Ledger,
    linked: bool,
) -> Result<Option<LinkId>, Fault>
    ensures { PreparesBirth linked parent.old ledger.old result parent.new ledger.new }
{
    ledger.prepare(0)?;
    if !linked {
        return Ok(None);
    }
    parent.room()?;
    Ok(Some(ledger.next_link()))
}

/// Delivers a letter to a live process, and sends what it answers.
#[inline(always)]
pub(crate) fn take_in(
    process: &mut Process,
    ledger: &mut Ledger,
    letter: &Letter,
) -> Result<(), Stop>
    requires { letter.now.from.shard < length ledger.old.book.outbox }
    ensures { TakesIn letter.now process.old ledger.old result process.new ledger.new }
{
    if let Signal::AliveAsk(question) = letter.signal {
        return answer(ledger, letter, question);
    }
    ledger.prepare(letter.stamp)?;
    accept(process, letter)?;
    let event = Event::Came(letter.from, letter.to, letter.signal);
    ledger.write(letter.stamp, event);
    Ok(())
}

/// Takes the signal of a letter into a process. A message has a way of its own: if it went with all others, the signal
/// would first be copied in pieces, for each letter.
#[inline(always)]
fn accept(process: &mut Process, letter: &Letter) -> Result<Outcome, AllocError>
    ensures { Accepts process.old
        (handle process.old.me process.old.state letter.now.from letter.now.signal) result process.new }
{
    match letter.signal {
        Signal::Message(body) => process.accept(letter.from, Signal::Message(body)),
        signal => process.accept(letter.from, signal),
    }
}

/// Answers that a live process is alive. The question changes nothing of the process.
#[inline(never)]
fn answer(ledger: &mut Ledger, letter: &Letter, question: Ref) -> Result<(), Stop>
    requires { letter.now.from.shard < length ledger.old.book.outbox }
    ensures { GivesBack letter.now (Some (Signal.AliveSay question true)) ledger.old result ledger.new }
{
    give_back(ledger, letter, Some(Signal::AliveSay(question, true)))
}

/// Sends what goes back if a letter arrives at a process that is not alive.
///
/// It is not inlined, nor is `answer`: each letter that is taken in would then clear places for the signal that goes
/// back.
#[inline(never)]
pub(crate) fn bounce(ledger: &mut Ledger, letter: &Letter) -> Result<(), Stop>
    requires { letter.now.from.shard < length ledger.old.book.outbox }
    ensures { Bounces letter.now (answer_of_dead letter.now.signal) ledger.old result ledger.new }
{
    if let Signal::Message(body) = letter.signal {
        return lose_message(ledger, letter, body);
    }
    give_back(ledger, letter, letter.signal.answer_of_dead())
}

/// Writes that a message arrived at a process that is not alive. It is lost.
fn lose_message(ledger: &mut Ledger, letter: &Letter, body: Body) -> Result<(), Stop>
    requires { letter.now.signal ≡ Signal.Message body }
    ensures { Bounces letter.now None ledger.old result ledger.new }
{
    ledger.prepare_loss(letter.stamp)?;
    let event = Event::Came(letter.from, letter.to, letter.signal);
    ledger.write(letter.stamp, event);
    ledger.lose(Loss::Stray(letter.to, Item::User(letter.from, body)));
    Ok(())
}

/// Writes that a letter arrived, and sends what goes back, if anything.
fn give_back(ledger: &mut Ledger, letter: &Letter, back: Option<Signal>) -> Result<(), Stop>
    requires { letter.now.from.shard < length ledger.old.book.outbox }
    ensures { GivesBack letter.now back ledger.old result ledger.new }
{
    ledger.prepare_came(letter.stamp, back, letter.from)?;
    ledger.write_came(letter, back);
    Ok(())
}

/// Prepares a letter to a process that exits by it, with room for what it then owes.
#[inline(never)]
pub(crate) fn prepare_ending(
    process: &mut Process,
    ledger: &mut Ledger,
    letter: &Letter,
) -> Result<(), Stop>
    requires few { length ledger.old.book.outbox ≤ MAX_DESKS }
    requires near { Every (λ q. q.shard < length ledger.old.book.outbox) (peers_held process.old.state) }
    ensures { PreparesEnding letter.now process.old ledger.old result process.new ledger.new }
{
    ledger.prepare_end(letter.stamp, process)?;
    process.accept(letter.from, letter.signal)?;
    Ok(())
}

/// Makes a process exit by a letter that was prepared, and sends what it owes.
#[inline(never)]
pub(crate) fn end_by(
    processes: &mut Processes,
    ledger: &mut Ledger,
    letter: &Letter,
    reason: Reason,
)
    requires lives { IsSome (in_place processes.old.table letter.now.to) }
    requires can { max ledger.old.book.clock letter.now.stamp < MAX_STAMP }
    requires room { 0 < ledger.old.room }
    requires owes { IsReadyToEnd letter.now.to reason processes.old ledger.old }
    requires loss { HasLossRoom ledger.old }
    ensures { EndsBy letter.now reason processes.old ledger.old processes.new ledger.new }
{
    let estate = processes.end(letter.to, reason);
    let event = Event::Came(letter.from, letter.to, letter.signal);
    ledger.write_end(letter.stamp, event, letter.to, &estate);
    ledger.lose_estate(letter.to, reason, estate);
}
