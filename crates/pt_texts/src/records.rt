//! The lines of a state: what is known of a history at rest.

ghost use Rattle.std.specs.Prelude.{codes};
ghost use Rattle.pt_texts.specs.Numbers.{u8_at, u16_at, u32_at, u64_at};
ghost use Rattle.pt_texts.specs.Readers.{line_at, holding_at, record_at, stamped_at, item_at};
ghost use Rattle.pt_texts.specs.Readers.{pid_at, ref_at, ids_at, reason_at, yes_or_no_at};
ghost use Rattle.pt_texts.specs.Steps.{ReaderGives, before, mapped, pair};
ghost use Rattle.pt_texts.specs.declared.records.Record.TheVariants.{Head, Last, Clock, Seen, Lives, Waits, Linked};
ghost use Rattle.pt_texts.specs.declared.records.Record.TheVariants.{Watches, Watched, Ended, End};

use crate::events::stamped_at;
use crate::numbers::{u8_at, u16_at, u32_at, u64_at};
use crate::signals::item_at;
use crate::steps::{Read, behind, word_at};
use crate::values::{ids_at, pid_at, reason_at, ref_at, yes_or_no_at};
use pt_events::Stamped;
use pt_signal::{Ids, Item, Pid, Reason, Ref};
use std::fmt;

/// A line of a state. A state is what is known of a history at rest.
#[derive(Clone, Copy, Debug, PartialEq, Eq)]
pub enum Record {
    /// The number of events, one more than the greatest desk of an event, and whether all clocks may have stood just
    /// below the stamp of the last event before the first event of that stamp.
    Head(u64, u16, bool),
    /// The last event.
    Last(Stamped),
    /// The stamp of a desk's newest event.
    Clock(u8, u64),
    /// A desk, and a process of which it has seen that it ended, as those before it in its slot.
    Seen(u8, Pid),
    /// A process that lives, and whether it traps exits. The lines behind it say what it holds.
    Lives(Pid, bool),
    /// An item that waits in the mailbox of the process.
    Waits(Item),
    /// A process that it is linked with, and under which ids.
    Linked(Pid, Ids),
    /// An open monitor of the process, and whom it watches.
    Watches(Ref, Pid),
    /// A monitor that another one has of the process, and whose it is.
    Watched(Ref, Pid),
    /// The processes of a slot, from this one up to the one with this version, ended for this reason.
    Ended(Pid, u32, Reason),
    /// The end, with the sum of the lines before it.
    End(u64),
}

#[derive(Clone, Copy)]
struct YesOrNo(bool);

#[tactic(auto, unfolding(pt_signal::specs::Text::yes_or_no_text))]
impl fmt::Display for YesOrNo {
    ghost use Rattle.std.specs.Prelude.{Some};
    ghost use Rattle.pt_signal.specs.Text.{yes_or_no_text};

    ghost output = { λ w. Some (yes_or_no_text w.0) };

    fn fmt<W: fmt::Write>(&self, f: &mut fmt::Formatter<W>) -> fmt::Result {
        f.write_str(if self.0 { "yes" } else { "no" })
    }
}

#[tactic(auto, unfolding(crate::specs::Text::record_text))]
impl fmt::Display for Record {
    ghost use Rattle.std.specs.Prelude.{Some};
    ghost use Rattle.pt_texts.specs.Text.{record_text};

    ghost output = { λ r. Some (record_text r) };

    fn fmt<W: fmt::Write>(&self, f: &mut fmt::Formatter<W>) -> fmt::Result {
        match *self {
            Record::Head(events, desks, begun) => {
                let begun = YesOrNo(begun);
                write!(f, "state of {events} events on {desks} desks begun {begun}")
            }
            Record::Last(stamped) => write!(f, "last {stamped}"),
            Record::Clock(desk, stamp) => write!(f, "clock {desk} {stamp}"),
            Record::Seen(desk, pid) => write!(f, "seen {desk} {pid}"),
            Record::Lives(pid, traps) => {
                let traps = YesOrNo(traps);
                write!(f, "lives {pid} traps {traps}")
            }
            Record::Waits(item) => write!(f, "waits {item}"),
            Record::Linked(pid, ids) => write!(f, "linked {pid} {ids}"),
            Record::Watches(monitor, pid) => write!(f, "watches {monitor} {pid}"),
            Record::Watched(monitor, pid) => write!(f, "watched {monitor} {pid}"),
            Record::Ended(pid, last, reason) => write!(f, "ended {pid} to {last} {reason}"),
            Record::End(sum) => write!(f, "end {sum}"),
        }
    }
}

/// A line that says what a process holds, or why others ended.
fn holding_at(text: &[u8]) -> Read<'_, Record>
    ensures { ReaderGives (λ read. (read.0, read.1.now)) result (holding_at text.now) }
{
    if let Some(text) = behind("waits ", text) {
        return waits_at(text);
    }
    if let Some(text) = behind("linked ", text) {
        return linked_at(text);
    }
    if let Some(text) = behind("watches ", text) {
        return watches_at(text);
    }
    if let Some(text) = behind("watched ", text) {
        return watched_at(text);
    }
    if let Some(text) = behind("ended ", text) {
        return ended_at(text);
    }
    Err(text.len())
}

fn waits_at(text: &[u8]) -> Read<'_, Record>
    ensures { ReaderGives (λ read. (read.0, read.1.now)) result (mapped Waits item_at text.now) }
{
    let (item, rest) = item_at(text)?;
    Ok((Record::Waits(item), rest))
}

fn linked_at(text: &[u8]) -> Read<'_, Record>
    ensures { ReaderGives (λ read. (read.0, read.1.now)) result
        (mapped (λ x. Linked x.0 x.1) (pair pid_at (before (codes " ") ids_at)) text.now) }
{
    let ((pid, ids), rest) = pid_ids_at(text)?;
    Ok((Record::Linked(pid, ids), rest))
}

fn watches_at(text: &[u8]) -> Read<'_, Record>
    ensures { ReaderGives (λ read. (read.0, read.1.now)) result
        (mapped (λ x. Watches x.0 x.1) (pair ref_at (before (codes " ") pid_at)) text.now) }
{
    let ((monitor, pid), rest) = ref_pid_at(text)?;
    Ok((Record::Watches(monitor, pid), rest))
}

fn watched_at(text: &[u8]) -> Read<'_, Record>
    ensures { ReaderGives (λ read. (read.0, read.1.now)) result
        (mapped (λ x. Watched x.0 x.1) (pair ref_at (before (codes " ") pid_at)) text.now) }
{
    let ((monitor, pid), rest) = ref_pid_at(text)?;
    Ok((Record::Watched(monitor, pid), rest))
}

fn ended_at(text: &[u8]) -> Read<'_, Record>
    ensures { ReaderGives (λ read. (read.0, read.1.now)) result
        (mapped (λ x. Ended x.0 x.1.0 x.1.1)
        (pair pid_at (before (codes " to ") (pair u32_at (before (codes " ") reason_at)))) text.now) }
{
    let ((pid, (last, reason)), rest) = pid_last_reason_at(text)?;
    Ok((Record::Ended(pid, last, reason), rest))
}

fn pid_ids_at(text: &[u8]) -> Read<'_, (Pid, Ids)>
    ensures { ReaderGives (λ read. (read.0, read.1.now)) result
        (pair pid_at (before (codes " ") ids_at) text.now) }
{
    let (pid, rest) = pid_at(text)?;
    let (ids, rest) = ids_at(word_at(" ", rest)?)?;
    Ok(((pid, ids), rest))
}

fn ref_pid_at(text: &[u8]) -> Read<'_, (Ref, Pid)>
    ensures { ReaderGives (λ read. (read.0, read.1.now)) result
        (pair ref_at (before (codes " ") pid_at) text.now) }
{
    let (monitor, rest) = ref_at(text)?;
    let (pid, rest) = pid_at(word_at(" ", rest)?)?;
    Ok(((monitor, pid), rest))
}

/// A process, the version up to which the processes of its slot ended, and why they did.
fn pid_last_reason_at(text: &[u8]) -> Read<'_, (Pid, (u32, Reason))>
    ensures { ReaderGives (λ read. (read.0, read.1.now)) result
        (pair pid_at (before (codes " to ") (pair u32_at (before (codes " ") reason_at))) text.now) }
{
    let (pid, rest) = pid_at(text)?;
    let (last, rest) = u32_at(word_at(" to ", rest)?)?;
    let (reason, rest) = reason_at(word_at(" ", rest)?)?;
    Ok(((pid, (last, reason)), rest))
}

#[tactic(auto, unfolding(crate::specs::Readers::record_at))]
fn record_at(text: &[u8]) -> Read<'_, Record>
    ensures { ReaderGives (λ read. (read.0, read.1.now)) result (record_at text.now) }
{
    if let Some(text) = behind("state of ", text) {
        return head_at(text);
    }
    if let Some(text) = behind("last ", text) {
        return last_at(text);
    }
    if let Some(text) = behind("clock ", text) {
        return clock_at(text);
    }
    if let Some(text) = behind("seen ", text) {
        return seen_at(text);
    }
    if let Some(text) = behind("end ", text) {
        return end_at(text);
    }
    if let Some(text) = behind("lives ", text) {
        return lives_at(text);
    }
    holding_at(text)
}

fn head_at(text: &[u8]) -> Read<'_, Record>
    ensures { ReaderGives (λ read. (read.0, read.1.now)) result
        (mapped (λ x. Head x.0 x.1.0 x.1.1)
        (pair u64_at (before (codes " events on ")
        (pair u16_at (before (codes " desks begun ") yes_or_no_at)))) text.now) }
{
    let ((events, (desks, begun)), rest) = counts_at(text)?;
    Ok((Record::Head(events, desks, begun), rest))
}

/// The number of events, one more than the greatest desk, and whether the clocks stood just below the last stamp.
fn counts_at(text: &[u8]) -> Read<'_, (u64, (u16, bool))>
    ensures { ReaderGives (λ read. (read.0, read.1.now)) result
        (pair u64_at (before (codes " events on ")
        (pair u16_at (before (codes " desks begun ") yes_or_no_at))) text.now) }
{
    let (events, rest) = u64_at(text)?;
    let (desks, rest) = u16_at(word_at(" events on ", rest)?)?;
    let (begun, rest) = yes_or_no_at(word_at(" desks begun ", rest)?)?;
    Ok(((events, (desks, begun)), rest))
}

fn last_at(text: &[u8]) -> Read<'_, Record>
    ensures { ReaderGives (λ read. (read.0, read.1.now)) result (mapped Last stamped_at text.now) }
{
    let (stamped, rest) = stamped_at(text)?;
    Ok((Record::Last(stamped), rest))
}

fn clock_at(text: &[u8]) -> Read<'_, Record>
    ensures { ReaderGives (λ read. (read.0, read.1.now)) result
        (mapped (λ x. Clock x.0 x.1) (pair u8_at (before (codes " ") u64_at)) text.now) }
{
    let ((desk, stamp), rest) = desk_stamp_at(text)?;
    Ok((Record::Clock(desk, stamp), rest))
}

fn desk_stamp_at(text: &[u8]) -> Read<'_, (u8, u64)>
    ensures { ReaderGives (λ read. (read.0, read.1.now)) result
        (pair u8_at (before (codes " ") u64_at) text.now) }
{
    let (desk, rest) = u8_at(text)?;
    let (stamp, rest) = u64_at(word_at(" ", rest)?)?;
    Ok(((desk, stamp), rest))
}

fn seen_at(text: &[u8]) -> Read<'_, Record>
    ensures { ReaderGives (λ read. (read.0, read.1.now)) result
        (mapped (λ x. Seen x.0 x.1) (pair u8_at (before (codes " ") pid_at)) text.now) }
{
    let ((desk, pid), rest) = desk_pid_at(text)?;
    Ok((Record::Seen(desk, pid), rest))
}

fn desk_pid_at(text: &[u8]) -> Read<'_, (u8, Pid)>
    ensures { ReaderGives (λ read. (read.0, read.1.now)) result
        (pair u8_at (before (codes " ") pid_at) text.now) }
{
    let (desk, rest) = u8_at(text)?;
    let (pid, rest) = pid_at(word_at(" ", rest)?)?;
    Ok(((desk, pid), rest))
}

fn end_at(text: &[u8]) -> Read<'_, Record>
    ensures { ReaderGives (λ read. (read.0, read.1.now)) result (mapped End u64_at text.now) }
{
    let (sum, rest) = u64_at(text)?;
    Ok((Record::End(sum), rest))
}

fn lives_at(text: &[u8]) -> Read<'_, Record>
    ensures { ReaderGives (λ read. (read.0, read.1.now)) result
        (mapped (λ x. Lives x.0 x.1) (pair pid_at (before (codes " traps ") yes_or_no_at)) text.now) }
{
    let ((pid, traps), rest) = pid_traps_at(text)?;
    Ok((Record::Lives(pid, traps), rest))
}

fn pid_traps_at(text: &[u8]) -> Read<'_, (Pid, bool)>
    ensures { ReaderGives (λ read. (read.0, read.1.now)) result
        (pair pid_at (before (codes " traps ") yes_or_no_at) text.now) }
{
    let (pid, rest) = pid_at(text)?;
    let (traps, rest) = yes_or_no_at(word_at(" traps ", rest)?)?;
    Ok(((pid, traps), rest))
}

/// A line with its line feed.
pub(crate) fn line_at(text: &[u8]) -> Read<'_, Record>
    ensures { ReaderGives (λ read. (read.0, read.1.now)) result (line_at text.now) }
{
    let (record, rest) = record_at(text)?;
    let rest = word_at("\n", rest)?;
    Ok((record, rest))
}
