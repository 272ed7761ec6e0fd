//! Events, with their stamps and without.

ghost use Rattle.std.specs.Prelude.{codes};
ghost use Rattle.pt_events.specs.declared.event.Event.TheVariants.{Said, Came, Took, Flag, Left, Refused};
ghost use Rattle.pt_texts.specs.Steps.{ReaderGives, before, mapped, pair};
ghost use Rattle.pt_texts.specs.Readers.{pid_at, reason_at, route_at, signal_at, pick_at, item_at};
ghost use Rattle.pt_texts.specs.Readers.{switch_at, parent_at, birth_link_at, birth_at, event_at, other_event_at};
ghost use Rattle.pt_texts.specs.Readers.{stamped_at};

use crate::numbers::{u8_at, u64_at};
use crate::signals::{item_at, pick_at, pid_reason_at, route_at, signal_at};
use crate::steps::{Read, behind, word_at};
use crate::values::{link_id_at, pid_at};
use pt_events::{Event, Stamped};
use pt_signal::{Item, LinkId, Pick, Pid, Signal};

#[tactic(auto, unfolding(crate::specs::Readers::switch_at))]
fn switch_at(text: &[u8]) -> Read<'_, bool>
    ensures { ReaderGives (λ read. (read.0, read.1.now)) result (switch_at text.now) }
{
    if let Some(rest) = behind("on", text) {
        return Ok((true, rest));
    }
    if let Some(rest) = behind("off", text) {
        return Ok((false, rest));
    }
    Err(text.len())
}

/// The parent of a birth, if there is one.
fn parent_at(text: &[u8]) -> Read<'_, Option<Pid>>
    ensures { ReaderGives (λ read. (read.0, read.1.now)) result (parent_at text.now) }
{
    match behind(" by ", text) {
        Some(text) => {
            let (parent, rest) = pid_at(text)?;
            Ok((Some(parent), rest))
        }
        None => Ok((None, text)),
    }
}

/// The id of the link that a birth makes, if it makes one.
fn birth_link_at(text: &[u8]) -> Read<'_, Option<LinkId>>
    ensures { ReaderGives (λ read. (read.0, read.1.now)) result (birth_link_at text.now) }
{
    match behind(" link ", text) {
        Some(text) => {
            let (id, rest) = link_id_at(text)?;
            Ok((Some(id), rest))
        }
        None => Ok((None, text)),
    }
}

/// The text after `born`.
#[tactic(auto, unfolding(crate::specs::Readers::birth_at))]
fn birth_at(text: &[u8]) -> Read<'_, Event>
    ensures { ReaderGives (λ read. (read.0, read.1.now)) result (birth_at text.now) }
{
    let (pid, rest) = pid_at(text)?;
    let (parent, rest) = parent_at(rest)?;
    let (link, rest) = birth_link_at(rest)?;
    Ok((Event::Born(pid, parent, link), rest))
}

#[tactic(auto, unfolding(crate::specs::Readers::event_at))]
pub(crate) fn event_at(text: &[u8]) -> Read<'_, Event>
    ensures { ReaderGives (λ read. (read.0, read.1.now)) result (event_at text.now) }
{
    if let Some(text) = behind("said ", text) {
        return said_at(text);
    }
    if let Some(text) = behind("came ", text) {
        return came_at(text);
    }
    if let Some(text) = behind("took ", text) {
        return took_at(text);
    }
    other_event_at(text)
}

fn said_at(text: &[u8]) -> Read<'_, Event>
    ensures { ReaderGives (λ read. (read.0, read.1.now)) result
        (mapped (λ x. Said x.0.0 x.0.1 x.1) (pair route_at (before (codes " ") signal_at)) text.now) }
{
    let (((from, to), signal), rest) = route_signal_at(text)?;
    Ok((Event::Said(from, to, signal), rest))
}

fn came_at(text: &[u8]) -> Read<'_, Event>
    ensures { ReaderGives (λ read. (read.0, read.1.now)) result
        (mapped (λ x. Came x.0.0 x.0.1 x.1) (pair route_at (before (codes " ") signal_at)) text.now) }
{
    let (((from, to), signal), rest) = route_signal_at(text)?;
    Ok((Event::Came(from, to, signal), rest))
}

/// The sender and the receiver, and the signal.
fn route_signal_at(text: &[u8]) -> Read<'_, ((Pid, Pid), Signal)>
    ensures { ReaderGives (λ read. (read.0, read.1.now)) result
        (pair route_at (before (codes " ") signal_at) text.now) }
{
    let (route, rest) = route_at(text)?;
    let (signal, rest) = signal_at(word_at(" ", rest)?)?;
    Ok(((route, signal), rest))
}

fn took_at(text: &[u8]) -> Read<'_, Event>
    ensures { ReaderGives (λ read. (read.0, read.1.now)) result
        (mapped (λ x. Took x.0 x.1.0 x.1.1)
        (pair pid_at (before (codes " ") (pair pick_at (before (codes " = ") item_at)))) text.now) }
{
    let (pid, rest) = pid_at(text)?;
    let ((pick, item), rest) = pick_item_at(word_at(" ", rest)?)?;
    Ok((Event::Took(pid, pick, item), rest))
}

/// What a receive takes, and the item that it took.
fn pick_item_at(text: &[u8]) -> Read<'_, (Pick, Item)>
    ensures { ReaderGives (λ read. (read.0, read.1.now)) result
        (pair pick_at (before (codes " = ") item_at) text.now) }
{
    let (pick, rest) = pick_at(text)?;
    let (item, rest) = item_at(word_at(" = ", rest)?)?;
    Ok(((pick, item), rest))
}

/// An event that has no signal and no item.
fn other_event_at(text: &[u8]) -> Read<'_, Event>
    ensures { ReaderGives (λ read. (read.0, read.1.now)) result (other_event_at text.now) }
{
    if let Some(text) = behind("born ", text) {
        return birth_at(text);
    }
    if let Some(text) = behind("left ", text) {
        return left_at(text);
    }
    if let Some(text) = behind("flag ", text) {
        return flag_at(text);
    }
    if let Some(text) = behind("refused ", text) {
        return refused_at(text);
    }
    Err(text.len())
}

fn left_at(text: &[u8]) -> Read<'_, Event>
    ensures { ReaderGives (λ read. (read.0, read.1.now)) result
        (mapped (λ x. Left x.0 x.1) (pair pid_at (before (codes " ") reason_at)) text.now) }
{
    let ((pid, reason), rest) = pid_reason_at(text)?;
    Ok((Event::Left(pid, reason), rest))
}

fn flag_at(text: &[u8]) -> Read<'_, Event>
    ensures { ReaderGives (λ read. (read.0, read.1.now)) result
        (mapped (λ x. Flag x.0 x.1) (pair pid_at (before (codes " ") switch_at)) text.now) }
{
    let (pid, rest) = pid_at(text)?;
    let (on, rest) = switch_at(word_at(" ", rest)?)?;
    Ok((Event::Flag(pid, on), rest))
}

fn refused_at(text: &[u8]) -> Read<'_, Event>
    ensures { ReaderGives (λ read. (read.0, read.1.now)) result
        (mapped (λ x. Refused x.0 x.1) route_at text.now) }
{
    let ((from, to), rest) = route_at(text)?;
    Ok((Event::Refused(from, to), rest))
}

#[tactic(auto, unfolding(crate::specs::Readers::stamped_at))]
pub(crate) fn stamped_at(text: &[u8]) -> Read<'_, Stamped>
    ensures { ReaderGives (λ read. (read.0, read.1.now)) result (stamped_at text.now) }
{
    let (stamp, rest) = u64_at(text)?;
    let (desk, rest) = u8_at(word_at("@", rest)?)?;
    let (event, rest) = event_at(word_at(" ", rest)?)?;
    let stamped = Stamped { stamp, desk, event };
    Ok((stamped, rest))
}
