//! Whole texts.

ghost use Rattle.pt_signal.specs.Text.{pid_text, ref_text, link_id_text, ids_text, body_text, reason_text, item_text, left_over_text};
ghost use Rattle.pt_signal.specs.Text.{pick_text, signal_text, letter_text};
ghost use Rattle.pt_events.specs.Text.{event_text, stamped_text};
ghost use Rattle.std.specs.Prelude.{◌≡◌};
ghost use Rattle.pt_texts.specs.Steps.{Read as Got, ReaderGives};
ghost use Rattle.pt_texts.specs.Readers.{pid_at, ref_at, link_id_at, ids_at, body_at, reason_at, item_at, pick_at};
ghost use Rattle.pt_texts.specs.Readers.{signal_at, letter_at, event_at, stamped_at, left_over_at};
ghost use Rattle.pt_texts.specs.Fits.{FitsPid, FitsRef, FitsLinkId, FitsIds, FitsBody, FitsReason, FitsItem, FitsPick};
ghost use Rattle.pt_texts.specs.Fits.{FitsSignal, FitsLetter, FitsEvent, FitsStamped, FitsLeftOver};
ghost use Rattle.pt_texts.specs.Parsing.{Parses, ReadsRecord, finished, viewed};

use crate::events::{event_at, stamped_at};
use crate::left_over::left_over_at;
use crate::records::{Record, line_at};
use crate::signals::{item_at, letter_at, pick_at, signal_at};
use crate::steps::Read;
use crate::values::{body_at, ids_at, link_id_at, pid_at, reason_at, ref_at};
use pt_events::{Event, Stamped};
use pt_signal::{Body, Ids, Item, LeftOver, Letter, LinkId, Pick, Pid, Reason, Ref, Signal};
use thiserror::Error;

/// The text is not what a value prints.
#[derive(Clone, Copy, Debug, PartialEq, Eq, Error)]
#[error("column {column}")]
pub struct Refused {
    /// The column of the first word or number that no value prints there, counted in bytes from 1. If a number is too
    /// great for its place, it is the column of the digit that makes it so.
    pub column: usize,
}

/// The value, if the whole text was read.
fn finish<T: Copy>(text: &[u8], read: Read<'_, T>) -> Result<T, Refused>
    ensures { (got : Got T) → ReaderGives (λ x. (x.0, x.1.now)) read.entry got → result ≡ finished text.now got }
{
    let left = match read {
        Ok((value, rest)) => {
            if rest.len() == 0 {
                return Ok(value);
            }
            rest.len()
        }
        Err(left) => left,
    };
    Err(Refused {
        column: text.len().saturating_sub(left) + 1,
    })
}

/// A pid, as `<0.1.1>`.
pub fn parse_pid(text: &[u8]) -> Result<Pid, Refused>
    ensures { Parses FitsPid pid_text pid_at text.now result }
{
    finish(text, pid_at(text))
}

/// A reference, as `#0.4`.
pub fn parse_ref(text: &[u8]) -> Result<Ref, Refused>
    ensures { Parses FitsRef ref_text ref_at text.now result }
{
    finish(text, ref_at(text))
}

/// The id of a link, as `~0.6`.
pub fn parse_link_id(text: &[u8]) -> Result<LinkId, Refused>
    ensures { Parses FitsLinkId link_id_text link_id_at text.now result }
{
    finish(text, link_id_at(text))
}

/// The one or two ids of a link, as `~0.6+~1.4`.
pub fn parse_ids(text: &[u8]) -> Result<Ids, Refused>
    ensures { Parses FitsIds ids_text ids_at text.now result }
{
    finish(text, ids_at(text))
}

/// An exit reason, as `other:7`.
pub fn parse_reason(text: &[u8]) -> Result<Reason, Refused>
    ensures { Parses FitsReason reason_text reason_at text.now result }
{
    finish(text, reason_at(text))
}

/// What a message holds, as `1 7 who <0.0.1>`.
pub fn parse_body(text: &[u8]) -> Result<Body, Refused>
    ensures { Parses FitsBody body_text body_at text.now result }
{
    finish(text, body_at(text))
}

/// An item of a mailbox, as `user <0.0.1> 1 7`.
pub fn parse_item(text: &[u8]) -> Result<Item, Refused>
    ensures { Parses FitsItem item_text item_at text.now result }
{
    finish(text, item_at(text))
}

/// What a receive takes, as `kind 3`.
pub fn parse_pick(text: &[u8]) -> Result<Pick, Refused>
    ensures { Parses FitsPick pick_text pick_at text.now result }
{
    finish(text, pick_at(text))
}

/// A signal, as `link-exit ~0.6 killed`.
pub fn parse_signal(text: &[u8]) -> Result<Signal, Refused>
    ensures { Parses FitsSignal signal_text signal_at text.now result }
{
    finish(text, signal_at(text))
}

/// A letter, as `<0.0.1> -> <1.0.1> message 1 1 @2`.
pub fn parse_letter(text: &[u8]) -> Result<Letter, Refused>
    ensures { Parses FitsLetter letter_text letter_at text.now result }
{
    finish(text, letter_at(text))
}

/// An event, as `left <0.1.1> normal`.
pub fn parse_event(text: &[u8]) -> Result<Event, Refused>
    ensures { Parses FitsEvent event_text event_at text.now result }
{
    finish(text, event_at(text))
}

/// An event with its stamp and desk, as `3@0 left <0.1.1> normal`, a line of a history.
pub fn parse_stamped(text: &[u8]) -> Result<Stamped, Refused>
    ensures { Parses FitsStamped stamped_text stamped_at text.now result }
{
    finish(text, stamped_at(text))
}

/// A letter left over, as `left-over 0 -> 1 <0.0.1> -> <1.0.1> message 1 1 @2`.
pub fn parse_left_over(text: &[u8]) -> Result<LeftOver, Refused>
    ensures { Parses FitsLeftOver left_over_text left_over_at text.now result }
{
    finish(text, left_over_at(text))
}

/// The first line of the text, read as a line of a state, and the text behind it. Fails if the text does not begin with
/// such a line and its line feed.
pub fn read_record(text: &[u8]) -> Result<(Record, &[u8]), Refused>
    ensures { ReadsRecord text.now (viewed (λ read. (read.0, read.1.now)) result) }
{
    match line_at(text) {
        Ok((record, rest)) => Ok((record, rest)),
        Err(left) => Err(Refused {
            column: text.len().saturating_sub(left) + 1,
        }),
    }
}
