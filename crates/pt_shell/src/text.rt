//! Answers as texts: lines, each with a line feed at its end.

ghost use Rattle.std.specs.Prelude.{◌≡◌, ◌++◌, codes, IfOk, OnOk, string_bytes};
ghost use Rattle.pt_signal.specs.Text as signal_text;
ghost use Rattle.pt_events.specs.Text.{stamped_text};
ghost use Rattle.pt_shell.specs.Text as spec;
ghost use Rattle.pt_signal.specs.Text.{true_or_false_text};

use crate::answer::Answer;
use crate::lines::CALLS;
use crate::parts::{Contradiction, Count, Counts, Then, ThenAt, Turns, word_of_stop};
use pt_accounts::Account;
use pt_desk::Turned;
use pt_events::Stamped;
use pt_gathered::LeftOver;
use pt_judge::Cause;
use pt_node::{NodeFault, Stopped};
use pt_shard::{Fault, OpenError, Setting, Stop};
use pt_signal::{Ids, Item, Pid, Reason, Ref};
use std::alloc::{AllocError, Global};

/// The lines of an answer.
pub fn text_of(alloc: Global, answer: &Answer) -> Result<String, AllocError>
    ensures { IfOk result (λ s. string_bytes s ≡ spec.answer_text answer.now) }
{
    match answer {
        Answer::Opened(result) => opened_text(alloc, *result),
        Answer::Made(result) => made_text(alloc, *result),
        Answer::Done(result) => done_text(alloc, *result),
        Answer::Named(result) => named_text(alloc, *result),
        Answer::Told(result) => told_text(alloc, *result),
        Answer::Taken(result) => taken_text(alloc, *result),
        Answer::Turned(result) => turned_text(alloc, *result),
        Answer::Rested(rested) => rested_text(alloc, rested.handled, rested.stopped),
        Answer::Number(number) => number_text(alloc, *number),
        Answer::Truth(truth) => truth_text(alloc, *truth),
        Answer::Pid(pid) => pid_text(alloc, *pid),
        Answer::Ids(ids) => ids_text(alloc, *ids),
        Answer::Reason(reason) => reason_text(alloc, *reason),
        Answer::Event(event) => event_text(alloc, *event),
        Answer::Account(account) => account_text(alloc, *account),
        Answer::Items(Some(items)) => items_text(alloc, items.as_slice()),
        Answer::Items(None) => word_text(alloc, "none"),
        Answer::Events(events) => events_text(alloc, events.as_slice()),
        Answer::Letters(letters) => letters_text(alloc, letters.as_slice()),
        Answer::Pids(pids) => pids_text(alloc, pids.as_slice()),
        Answer::LeftOver(count) => format!(in alloc; "left-over {count}\n"),
        Answer::Handled(result) => handled_text(alloc, *result),
        Answer::Judged(result) => judged_text(alloc, *result),
        Answer::Resumed => word_text(alloc, "ok"),
        Answer::Unknown => word_text(alloc, "unknown"),
        Answer::NoMemory => word_text(alloc, "memory"),
    }
}

/// The text of `help`: a line for each call, then what else a line may be.
pub fn help_text(alloc: Global) -> Result<String, AllocError> {
    let mut text = String::new(alloc);
    for place in 0..CALLS.len() {
        text.push_str(CALLS[place].name)?;
        if CALLS[place].arguments.len() > 0 {
            text.push_str(" ")?;
            text.push_str(CALLS[place].arguments)?;
        }
        text.push_str("\n")?;
    }
    text.push_str("NAME = CALL\nexpect TEXT\nhelp\n")?;
    Ok(text)
}

/// One word, as a line.
fn word_text(alloc: Global, word: &str) -> Result<String, AllocError>
    ensures { IfOk result (λ s. string_bytes s ≡ word.now ++ codes "\n") }
{
    format!(in alloc; "{word}\n")
}

fn word_of_setting(setting: Setting) -> &'static str
    ensures { result.now ≡ spec.setting_word setting }
{
    match setting {
        Setting::Desks => "desks",
        Setting::Slots => "slots",
        Setting::TopVersion => "top_version",
        Setting::Lane => "lane",
        Setting::Start => "start",
    }
}

fn word_of_fault(fault: Fault) -> &'static str
    ensures { result.now ≡ spec.fault_word fault }
{
    match fault {
        Fault::Full => "full",
        Fault::Memory => "memory",
        Fault::Worn => "worn",
        Fault::Gone => "gone",
        Fault::Myself => "myself",
        Fault::NoProc => "noproc",
    }
}

fn word_of_refusal(fault: NodeFault) -> &'static str
    ensures { result.now ≡ spec.refusal_word fault }
{
    match fault {
        NodeFault::NoDesk | NodeFault::Unknown => "unknown",
        NodeFault::Refused(fault) => word_of_fault(fault),
    }
}

fn word_of_truth(truth: bool) -> &'static str
    ensures { result.now ≡ true_or_false_text truth }
{
    if truth { "true" } else { "false" }
}

fn refused_text(alloc: Global, fault: NodeFault) -> Result<String, AllocError>
    ensures { IfOk result (λ s. string_bytes s ≡ spec.text_line (spec.refusal_word fault)) }
{
    word_text(alloc, word_of_refusal(fault))
}

fn opened_text(alloc: Global, given: Result<(), OpenError>) -> Result<String, AllocError>
    ensures { IfOk result (λ s. string_bytes s ≡ spec.opened_text given) }
{
    match given {
        Ok(()) => word_text(alloc, "ok"),
        Err(OpenError::Memory) => word_text(alloc, "memory"),
        Err(OpenError::Bounds(setting)) => {
            let setting = word_of_setting(setting);
            format!(in alloc; "bounds {setting}\n")
        }
    }
}

fn made_text(alloc: Global, given: Result<Pid, NodeFault>) -> Result<String, AllocError>
    ensures { IfOk result (λ s. string_bytes s ≡ spec.made_text given) }
{
    match given {
        Ok(pid) => format!(in alloc; "{pid}\n"),
        Err(fault) => refused_text(alloc, fault),
    }
}

fn done_text(alloc: Global, given: Result<(), NodeFault>) -> Result<String, AllocError>
    ensures { IfOk result (λ s. string_bytes s ≡ spec.done_text given) }
{
    match given {
        Ok(()) => word_text(alloc, "ok"),
        Err(fault) => refused_text(alloc, fault),
    }
}

fn named_text(alloc: Global, given: Result<Ref, NodeFault>) -> Result<String, AllocError>
    ensures { IfOk result (λ s. string_bytes s ≡ spec.named_text given) }
{
    match given {
        Ok(made) => format!(in alloc; "{made}\n"),
        Err(fault) => refused_text(alloc, fault),
    }
}

fn told_text(alloc: Global, given: Result<bool, NodeFault>) -> Result<String, AllocError>
    ensures { IfOk result (λ s. string_bytes s ≡ spec.told_text given) }
{
    match given {
        Ok(truth) => word_text(alloc, word_of_truth(truth)),
        Err(fault) => refused_text(alloc, fault),
    }
}

fn taken_text(alloc: Global, given: Result<Option<Item>, NodeFault>) -> Result<String, AllocError>
    ensures { IfOk result (λ s. string_bytes s ≡ spec.taken_text given) }
{
    match given {
        Ok(Some(item)) => format!(in alloc; "{item}\n"),
        Ok(None) => word_text(alloc, "none"),
        Err(fault) => refused_text(alloc, fault),
    }
}

fn turned_text(alloc: Global, given: Result<Turned, NodeFault>) -> Result<String, AllocError>
    ensures { IfOk result (λ s. string_bytes s ≡ spec.turned_text given) }
{
    match given {
        Ok(turned) => turn_text(alloc, turned.posted, turned.handled, turned.stopped),
        Err(fault) => refused_text(alloc, fault),
    }
}

fn turn_text(
    alloc: Global,
    posted: u64,
    handled: u64,
    stopped: Option<Stop>,
) -> Result<String, AllocError>
    ensures { IfOk result (λ s. string_bytes s ≡ spec.turn_text posted handled stopped) }
{
    let turns = Turns { posted, handled };
    match stopped {
        None => format!(in alloc; "{turns}\n"),
        Some(stop) => stopped_text(alloc, turns, Then(stop)),
    }
}

fn stopped_text(alloc: Global, turns: Turns, stop: Then) -> Result<String, AllocError>
    ensures { IfOk result (λ s. string_bytes s
        ≡ spec.text_line (spec.turns_text turns.posted turns.handled ++ spec.then_text stop.0)) }
{
    let mut text = format!(in alloc; "{turns}")?;
    write!(text, "{stop}\n")?;
    Ok(text)
}

fn rested_text(alloc: Global, handled: u64, stopped: Option<Stopped>) -> Result<String, AllocError>
    ensures { IfOk result (λ s. string_bytes s ≡ spec.rested_text handled stopped) }
{
    let count = Count(handled);
    match stopped {
        None => format!(in alloc; "{count}\n"),
        Some(stopped) => stopped_rest_text(alloc, count, ThenAt(stopped)),
    }
}

fn stopped_rest_text(alloc: Global, count: Count, stop: ThenAt) -> Result<String, AllocError>
    ensures { IfOk result (λ s. string_bytes s ≡ spec.text_line (spec.count_text count.0 ++ spec.stopped_text stop.0)) }
{
    let mut text = format!(in alloc; "{count}")?;
    write!(text, "{stop}\n")?;
    Ok(text)
}

fn number_text(alloc: Global, number: Option<u64>) -> Result<String, AllocError>
    ensures { IfOk result (λ s. string_bytes s ≡ spec.number_line number) }
{
    match number {
        Some(number) => format!(in alloc; "{number}\n"),
        None => word_text(alloc, "unknown"),
    }
}

fn truth_text(alloc: Global, truth: Option<bool>) -> Result<String, AllocError>
    ensures { IfOk result (λ s. string_bytes s ≡ spec.truth_text truth) }
{
    match truth {
        Some(truth) => word_text(alloc, word_of_truth(truth)),
        None => word_text(alloc, "unknown"),
    }
}

fn pid_text(alloc: Global, pid: Option<Pid>) -> Result<String, AllocError>
    ensures { IfOk result (λ s. string_bytes s ≡ spec.or_none signal_text.pid_text pid) }
{
    match pid {
        Some(pid) => format!(in alloc; "{pid}\n"),
        None => word_text(alloc, "none"),
    }
}

fn ids_text(alloc: Global, ids: Option<Ids>) -> Result<String, AllocError>
    ensures { IfOk result (λ s. string_bytes s ≡ spec.or_none signal_text.ids_text ids) }
{
    match ids {
        Some(ids) => format!(in alloc; "{ids}\n"),
        None => word_text(alloc, "none"),
    }
}

fn reason_text(alloc: Global, reason: Option<Reason>) -> Result<String, AllocError>
    ensures { IfOk result (λ s. string_bytes s ≡ spec.or_none signal_text.reason_text reason) }
{
    match reason {
        Some(reason) => format!(in alloc; "{reason}\n"),
        None => word_text(alloc, "none"),
    }
}

fn event_text(alloc: Global, event: Option<Stamped>) -> Result<String, AllocError>
    ensures { IfOk result (λ s. string_bytes s ≡ spec.or_none stamped_text event) }
{
    match event {
        Some(event) => format!(in alloc; "{event}\n"),
        None => word_text(alloc, "none"),
    }
}

fn account_text(alloc: Global, account: Option<Account>) -> Result<String, AllocError>
    ensures { IfOk result (λ s. string_bytes s ≡ spec.account_told account) }
{
    match account {
        Some(account) => {
            let Account {
                ended,
                arrived,
                taken,
                waiting,
            } = account;
            let counts = Counts {
                arrived,
                taken,
                waiting,
            };
            fate_text(alloc, ended, counts)
        }
        None => word_text(alloc, "none"),
    }
}

fn fate_text(alloc: Global, ended: Option<Reason>, counts: Counts) -> Result<String, AllocError>
    ensures { IfOk result (λ s. string_bytes s
        ≡ spec.fate_line ended (spec.counts_text counts.arrived counts.taken counts.waiting)) }
{
    match ended {
        None => format!(in alloc; "alive{counts}\n"),
        Some(reason) => ended_text(alloc, reason, counts),
    }
}

fn ended_text(alloc: Global, reason: Reason, counts: Counts) -> Result<String, AllocError>
    ensures { IfOk result (λ s. string_bytes s
        ≡ spec.text_line (codes "ended " ++ signal_text.reason_text reason
        ++ spec.counts_text counts.arrived counts.taken counts.waiting)) }
{
    let mut text = format!(in alloc; "ended {reason}")?;
    write!(text, "{counts}\n")?;
    Ok(text)
}

fn items_text(alloc: Global, items: &[Item]) -> Result<String, AllocError>
    ensures { IfOk result (λ s. string_bytes s ≡ spec.mailbox_text items.now) }
{
    match items {
        [] => word_text(alloc, "nothing"),
        [first, rest @ ..] => {
            let first = *first;
            let mut text = format!(in alloc; "{first}")?;
            push_items(&mut text, rest)?;
            text.push_str("\n")?;
            Ok(text)
        }
    }
}

/// Adds each item after a semicolon.
fn push_items(text: &mut String, items: &[Item]) -> Result<(), AllocError>
    ensures { OnOk result (string_bytes text.new ≡ string_bytes text.old ++ spec.more_items items.now) }
{
    for place in 0..items.len() {
        let item = items[place];
        write!(text, "; {item}")?;
    }
    Ok(())
}

fn events_text(alloc: Global, events: &[Stamped]) -> Result<String, AllocError>
    ensures { IfOk result (λ s. string_bytes s ≡ spec.events_text events.now) }
{
    match events {
        [] => word_text(alloc, "nothing"),
        _ => event_lines(alloc, events),
    }
}

fn event_lines(alloc: Global, events: &[Stamped]) -> Result<String, AllocError>
    ensures { IfOk result (λ s. string_bytes s ≡ spec.event_lines events.now) }
{
    let mut text = String::new(alloc);
    for place in 0..events.len() {
        let event = events[place];
        write!(text, "{event}\n")?;
    }
    Ok(text)
}

fn letters_text(alloc: Global, letters: &[LeftOver]) -> Result<String, AllocError>
    ensures { IfOk result (λ s. string_bytes s ≡ spec.letters_text letters.now) }
{
    match letters {
        [] => word_text(alloc, "nothing"),
        _ => letter_lines(alloc, letters),
    }
}

fn letter_lines(alloc: Global, letters: &[LeftOver]) -> Result<String, AllocError>
    ensures { IfOk result (λ s. string_bytes s ≡ spec.letter_lines letters.now) }
{
    let mut text = String::new(alloc);
    for place in 0..letters.len() {
        let letter = letters[place];
        write!(text, "{letter}\n")?;
    }
    Ok(text)
}

fn pids_text(alloc: Global, pids: &[Pid]) -> Result<String, AllocError>
    ensures { IfOk result (λ s. string_bytes s ≡ spec.pids_text pids.now) }
{
    match pids {
        [] => word_text(alloc, "nothing"),
        [first, rest @ ..] => {
            let first = *first;
            let mut text = format!(in alloc; "{first}")?;
            push_pids(&mut text, rest)?;
            text.push_str("\n")?;
            Ok(text)
        }
    }
}

/// Adds each pid after a space.
fn push_pids(text: &mut String, pids: &[Pid]) -> Result<(), AllocError>
    ensures { OnOk result (string_bytes text.new ≡ string_bytes text.old ++ spec.more_pids pids.now) }
{
    for place in 0..pids.len() {
        let pid = pids[place];
        write!(text, " {pid}")?;
    }
    Ok(())
}

fn handled_text(alloc: Global, given: Result<u64, Stop>) -> Result<String, AllocError>
    ensures { IfOk result (λ s. string_bytes s ≡ spec.handled_text given) }
{
    match given {
        Ok(handled) => {
            let count = Count(handled);
            format!(in alloc; "{count}\n")
        }
        Err(stop) => word_text(alloc, word_of_stop(stop)),
    }
}

fn judged_text(alloc: Global, given: Result<(), (u64, Cause)>) -> Result<String, AllocError>
    ensures { IfOk result (λ s. string_bytes s ≡ spec.judged_text given) }
{
    match given {
        Ok(()) => word_text(alloc, "legal"),
        Err(found) => contradiction_text(alloc, found.0, found.1),
    }
}

fn contradiction_text(alloc: Global, place: u64, cause: Cause) -> Result<String, AllocError>
    ensures { IfOk result (λ s. string_bytes s ≡ spec.text_line (spec.cause_line place cause)) }
{
    let found = Contradiction { place, cause };
    format!(in alloc; "{found}\n")
}
