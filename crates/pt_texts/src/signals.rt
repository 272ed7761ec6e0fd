//! Items of a mailbox, what a receive takes, and signals in flight.

ghost use Rattle.std.specs.Prelude.{codes};
ghost use Rattle.pt_signal.specs.declared.item.Item.{Item};
ghost use Rattle.pt_signal.specs.declared.item.Item.TheVariants.{User};
ghost use Rattle.pt_signal.specs.declared.signal.Signal.{Signal};
ghost use Rattle.pt_signal.specs.declared.signal.Signal.TheVariants.{LinkExit, AliveSay};
ghost use Rattle.pt_texts.specs.Steps.{ReaderGives, before, mapped, pair};
ghost use Rattle.pt_texts.specs.Readers.{item_at, pick_at, signal_at, other_signal_at, route_at, letter_at};
ghost use Rattle.pt_texts.specs.Readers.{pid_at, ref_at, ids_at, body_at, reason_at, yes_or_no_at};

use crate::numbers::{u32_at, u64_at};
use crate::steps::{Read, behind, word_at};
use crate::values::{body_at, ids_at, link_id_at, pid_at, reason_at, ref_at, yes_or_no_at};
use pt_signal::{Item, Letter, Pick, Pid, Reason, Signal};

#[tactic(auto, unfolding(crate::specs::Readers::item_at))]
pub(crate) fn item_at(text: &[u8]) -> Read<'_, Item>
    ensures { ReaderGives (λ read. (read.0, read.1.now)) result (item_at text.now) }
{
    if let Some(text) = behind("user ", text) {
        return user_at(text);
    }
    if let Some(text) = behind("exit ", text) {
        return item_exit_at(text);
    }
    if let Some(text) = behind("down ", text) {
        return item_down_at(text);
    }
    if let Some(text) = behind("alive ", text) {
        return item_alive_at(text);
    }
    Err(text.len())
}

/// The message of a process.
fn user_at(text: &[u8]) -> Read<'_, Item>
    ensures { ReaderGives (λ read. (read.0, read.1.now)) result
        (mapped (λ x. User x.0 x.1) (pair pid_at (before (codes " ") body_at)) text.now) }
{
    let (from, rest) = pid_at(text)?;
    let (body, rest) = body_at(word_at(" ", rest)?)?;
    Ok((Item::User(from, body), rest))
}

fn item_exit_at(text: &[u8]) -> Read<'_, Item>
    ensures { ReaderGives (λ read. (read.0, read.1.now)) result
        (mapped (λ x. Item.Exit x.0 x.1) (pair pid_at (before (codes " ") reason_at)) text.now) }
{
    let ((from, reason), rest) = pid_reason_at(text)?;
    Ok((Item::Exit(from, reason), rest))
}

fn item_down_at(text: &[u8]) -> Read<'_, Item>
    ensures { ReaderGives (λ read. (read.0, read.1.now)) result
        (mapped (λ x. Item.Down x.0 x.1.0 x.1.1)
        (pair ref_at (before (codes " ") (pair pid_at (before (codes " ") reason_at)))) text.now) }
{
    let (monitor, rest) = ref_at(text)?;
    let ((from, reason), rest) = pid_reason_at(word_at(" ", rest)?)?;
    Ok((Item::Down(monitor, from, reason), rest))
}

fn item_alive_at(text: &[u8]) -> Read<'_, Item>
    ensures { ReaderGives (λ read. (read.0, read.1.now)) result
        (mapped (λ x. Item.Alive x.0 x.1.0 x.1.1)
        (pair ref_at (before (codes " ") (pair pid_at (before (codes " ") yes_or_no_at)))) text.now) }
{
    let (question, rest) = ref_at(text)?;
    let ((from, alive), rest) = pid_alive_at(word_at(" ", rest)?)?;
    Ok((Item::Alive(question, from, alive), rest))
}

/// A process and why it exits.
pub(crate) fn pid_reason_at(text: &[u8]) -> Read<'_, (Pid, Reason)>
    ensures { ReaderGives (λ read. (read.0, read.1.now)) result
        (pair pid_at (before (codes " ") reason_at) text.now) }
{
    let (pid, rest) = pid_at(text)?;
    let (reason, rest) = reason_at(word_at(" ", rest)?)?;
    Ok(((pid, reason), rest))
}

/// A process and whether it is alive.
fn pid_alive_at(text: &[u8]) -> Read<'_, (Pid, bool)>
    ensures { ReaderGives (λ read. (read.0, read.1.now)) result
        (pair pid_at (before (codes " ") yes_or_no_at) text.now) }
{
    let (pid, rest) = pid_at(text)?;
    let (alive, rest) = yes_or_no_at(word_at(" ", rest)?)?;
    Ok(((pid, alive), rest))
}

#[tactic(auto, unfolding(crate::specs::Readers::pick_at))]
pub(crate) fn pick_at(text: &[u8]) -> Read<'_, Pick>
    ensures { ReaderGives (λ read. (read.0, read.1.now)) result (pick_at text.now) }
{
    if let Some(rest) = behind("any", text) {
        return Ok((Pick::Any, rest));
    }
    if let Some(text) = behind("kind ", text) {
        return u32_at(text).map(|(kind, rest)| (Pick::Kind(kind), rest));
    }
    if let Some(text) = behind("from ", text) {
        return pid_at(text).map(|(pid, rest)| (Pick::From(pid), rest));
    }
    if let Some(text) = behind("exit-of ", text) {
        return pid_at(text).map(|(pid, rest)| (Pick::ExitOf(pid), rest));
    }
    if let Some(text) = behind("down-of ", text) {
        return ref_at(text).map(|(monitor, rest)| (Pick::DownOf(monitor), rest));
    }
    if let Some(text) = behind("alive-of ", text) {
        return ref_at(text).map(|(question, rest)| (Pick::AliveOf(question), rest));
    }
    Err(text.len())
}

#[tactic(auto, unfolding(crate::specs::Readers::signal_at))]
pub(crate) fn signal_at(text: &[u8]) -> Read<'_, Signal>
    ensures { ReaderGives (λ read. (read.0, read.1.now)) result (signal_at text.now) }
{
    if let Some(text) = behind("message ", text) {
        return body_at(text).map(|(body, rest)| (Signal::Message(body), rest));
    }
    if let Some(text) = behind("link ", text) {
        return link_id_at(text).map(|(id, rest)| (Signal::Link(id), rest));
    }
    if let Some(text) = behind("unlink ", text) {
        return ids_at(text).map(|(ids, rest)| (Signal::Unlink(ids), rest));
    }
    if let Some(text) = behind("exit ", text) {
        return reason_at(text).map(|(reason, rest)| (Signal::Exit(reason), rest));
    }
    if let Some(text) = behind("link-exit ", text) {
        return link_exit_at(text);
    }
    other_signal_at(text)
}

fn link_exit_at(text: &[u8]) -> Read<'_, Signal>
    ensures { ReaderGives (λ read. (read.0, read.1.now)) result
        (mapped (λ x. LinkExit x.0 x.1) (pair ids_at (before (codes " ") reason_at)) text.now) }
{
    let (ids, rest) = ids_at(text)?;
    let (reason, rest) = reason_at(word_at(" ", rest)?)?;
    Ok((Signal::LinkExit(ids, reason), rest))
}

/// A signal of a monitor, or of the question whether a process is alive.
fn other_signal_at(text: &[u8]) -> Read<'_, Signal>
    ensures { ReaderGives (λ read. (read.0, read.1.now)) result (other_signal_at text.now) }
{
    if let Some(text) = behind("monitor ", text) {
        return ref_at(text).map(|(monitor, rest)| (Signal::Monitor(monitor), rest));
    }
    if let Some(text) = behind("demonitor ", text) {
        return ref_at(text).map(|(monitor, rest)| (Signal::Demonitor(monitor), rest));
    }
    if let Some(text) = behind("down ", text) {
        return down_at(text);
    }
    if let Some(text) = behind("alive-ask ", text) {
        return ref_at(text).map(|(question, rest)| (Signal::AliveAsk(question), rest));
    }
    if let Some(text) = behind("alive-say ", text) {
        return alive_say_at(text);
    }
    Err(text.len())
}

fn down_at(text: &[u8]) -> Read<'_, Signal>
    ensures { ReaderGives (λ read. (read.0, read.1.now)) result
        (mapped (λ x. Signal.Down x.0 x.1) (pair ref_at (before (codes " ") reason_at)) text.now) }
{
    let (monitor, rest) = ref_at(text)?;
    let (reason, rest) = reason_at(word_at(" ", rest)?)?;
    Ok((Signal::Down(monitor, reason), rest))
}

fn alive_say_at(text: &[u8]) -> Read<'_, Signal>
    ensures { ReaderGives (λ read. (read.0, read.1.now)) result
        (mapped (λ x. AliveSay x.0 x.1) (pair ref_at (before (codes " ") yes_or_no_at)) text.now) }
{
    let (question, rest) = ref_at(text)?;
    let (alive, rest) = yes_or_no_at(word_at(" ", rest)?)?;
    Ok((Signal::AliveSay(question, alive), rest))
}

/// The sender and the receiver.
#[tactic(auto, unfolding(crate::specs::Readers::route_at))]
pub(crate) fn route_at(text: &[u8]) -> Read<'_, (Pid, Pid)>
    ensures { ReaderGives (λ read. (read.0, read.1.now)) result (route_at text.now) }
{
    let (from, rest) = pid_at(text)?;
    let (to, rest) = pid_at(word_at(" -> ", rest)?)?;
    Ok(((from, to), rest))
}

#[tactic(auto, unfolding(crate::specs::Readers::letter_at))]
pub(crate) fn letter_at(text: &[u8]) -> Read<'_, Letter>
    ensures { ReaderGives (λ read. (read.0, read.1.now)) result (letter_at text.now) }
{
    let ((from, to), rest) = route_at(text)?;
    let (signal, rest) = signal_at(word_at(" ", rest)?)?;
    let (stamp, rest) = u64_at(word_at(" @", rest)?)?;
    let letter = Letter {
        from,
        to,
        signal,
        stamp,
    };
    Ok((letter, rest))
}
