//! Pids, references and ids of links, exit reasons, and what a message holds.

ghost use Rattle.pt_texts.specs.Steps.{ReaderGives};
ghost use Rattle.pt_texts.specs.Readers.{pid_at, ref_at, link_id_at, ids_at, body_at, reason_at, yes_or_no_at};

use crate::numbers::{i64_at, u8_at, u32_at, u64_at};
use crate::steps::{Read, behind, word_at};
use pt_signal::{Body, Ids, LinkId, Pid, Reason, Ref};

#[tactic(auto, unfolding(crate::specs::Readers::pid_at))]
pub(crate) fn pid_at(text: &[u8]) -> Read<'_, Pid>
    ensures { ReaderGives (λ read. (read.0, read.1.now)) result (pid_at text.now) }
{
    let text = word_at("<", text)?;
    let (shard, rest) = u8_at(text)?;
    let text = word_at(".", rest)?;
    let (slot, rest) = u32_at(text)?;
    let text = word_at(".", rest)?;
    let (version, rest) = u32_at(text)?;
    let rest = word_at(">", rest)?;
    let pid = Pid {
        shard,
        slot,
        version,
    };
    Ok((pid, rest))
}

#[tactic(auto, unfolding(crate::specs::Readers::ref_at))]
pub(crate) fn ref_at(text: &[u8]) -> Read<'_, Ref>
    ensures { ReaderGives (λ read. (read.0, read.1.now)) result (ref_at text.now) }
{
    let text = word_at("#", text)?;
    let (desk, rest) = u8_at(text)?;
    let text = word_at(".", rest)?;
    let (number, rest) = u64_at(text)?;
    Ok((Ref { desk, number }, rest))
}

#[tactic(auto, unfolding(crate::specs::Readers::link_id_at))]
pub(crate) fn link_id_at(text: &[u8]) -> Read<'_, LinkId>
    ensures { ReaderGives (λ read. (read.0, read.1.now)) result (link_id_at text.now) }
{
    let text = word_at("~", text)?;
    let (desk, rest) = u8_at(text)?;
    let text = word_at(".", rest)?;
    let (number, rest) = u64_at(text)?;
    Ok((LinkId { desk, number }, rest))
}

#[tactic(auto, unfolding(crate::specs::Readers::ids_at))]
pub(crate) fn ids_at(text: &[u8]) -> Read<'_, Ids>
    ensures { ReaderGives (λ read. (read.0, read.1.now)) result (ids_at text.now) }
{
    let (one, rest) = link_id_at(text)?;
    match behind("+", rest) {
        Some(text) => {
            let (two, rest) = link_id_at(text)?;
            let two = Some(two);
            Ok((Ids { one, two }, rest))
        }
        None => Ok((Ids { one, two: None }, rest)),
    }
}

#[tactic(auto, unfolding(crate::specs::Readers::body_at))]
pub(crate) fn body_at(text: &[u8]) -> Read<'_, Body>
    ensures { ReaderGives (λ read. (read.0, read.1.now)) result (body_at text.now) }
{
    let (kind, rest) = u32_at(text)?;
    let text = word_at(" ", rest)?;
    let (num, rest) = i64_at(text)?;
    match behind(" who ", rest) {
        Some(text) => {
            let (pid, rest) = pid_at(text)?;
            let who = Some(pid);
            Ok((Body { kind, num, who }, rest))
        }
        None => {
            let who = None;
            Ok((Body { kind, num, who }, rest))
        }
    }
}

#[tactic(auto, unfolding(crate::specs::Readers::reason_at))]
pub(crate) fn reason_at(text: &[u8]) -> Read<'_, Reason>
    ensures { ReaderGives (λ read. (read.0, read.1.now)) result (reason_at text.now) }
{
    if let Some(rest) = behind("normal", text) {
        return Ok((Reason::Normal, rest));
    }
    if let Some(rest) = behind("killed", text) {
        return Ok((Reason::Killed, rest));
    }
    if let Some(rest) = behind("kill", text) {
        return Ok((Reason::Kill, rest));
    }
    if let Some(rest) = behind("noproc", text) {
        return Ok((Reason::Noproc, rest));
    }
    if let Some(rest) = behind("shutdown", text) {
        return Ok((Reason::Shutdown, rest));
    }
    if let Some(text) = behind("other:", text) {
        let (number, rest) = u32_at(text)?;
        return Ok((Reason::Other(number), rest));
    }
    Err(text.len())
}

#[tactic(auto, unfolding(crate::specs::Readers::yes_or_no_at))]
pub(crate) fn yes_or_no_at(text: &[u8]) -> Read<'_, bool>
    ensures { ReaderGives (λ read. (read.0, read.1.now)) result (yes_or_no_at text.now) }
{
    if let Some(rest) = behind("yes", text) {
        return Ok((true, rest));
    }
    if let Some(rest) = behind("no", text) {
        return Ok((false, rest));
    }
    Err(text.len())
}
