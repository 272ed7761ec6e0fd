//! A session: its node, the names that were given, and the last answer.

ghost use Rattle.std.specs.Prelude.{◌≡◌, ◌≢◌, [], map, Err, OnOk};
ghost use Rattle.std.specs.Option.{option_map};
ghost use Rattle.pt_shell.specs.Commands.{asked_by};
ghost use Rattle.pt_shell.specs.Words.{told_word};
ghost use Rattle.pt_shell.specs.Acting.{DoesAct};
ghost use Rattle.pt_shell.specs.Sessions as spec;
ghost use Rattle.pt_shell.specs.Sessions.{seen_session};
ghost use Rattle.pt_shell.specs.declared.complaint.Complaint.{Complaint};
ghost use Rattle.pt_shell.specs.declared.phase.Phase.{Phase};

use crate::acting::act;
use crate::answer::Answer;
use crate::complaint::{Complaint, State};
use crate::expecting::line_at;
use crate::lines::{Act, Call, Command, Look, Names, Value, Word, command_of, joined, words_of};
use crate::looking::look_at_node;
use crate::looking_back::{look_at_gathered, look_at_quiet};
use crate::phase::Phase;
use crate::stepping::{gather, open, resume, settle};
use crate::text::{help_text, text_of};
use pt_events::Event;
use pt_shard::Config;
use std::alloc::{AllocError, Global};

/// What a line led to.
#[derive(Clone, Copy, Debug, PartialEq, Eq)]
pub enum Heard {
    /// There is nothing to write.
    Silent,
    /// There is an answer.
    Answered,
}

/// A node, the names that were given, and the last answer.
#[derive(Drop)]
pub struct Session {
    alloc: Global,
    phase: Phase,
    /// The events of all epochs before the last `resume`.
    earlier: Vec<Event>,
    names: Names,
    answer: String,
    /// The number of bytes of the answer that were compared.
    compared: usize,
}

/// A session without a node.
pub fn begin(alloc: Global) -> Session
    ensures { seen_session result
        ≡ record { phase = Phase.Closed; earlier = []; names = []; answer = []; compared = 0 } }
{
    Session {
        alloc,
        phase: Phase::Closed,
        earlier: Vec::new(alloc),
        names: Names::new(alloc),
        answer: String::new(alloc),
        compared: 0,
    }
}

/// The last answer: lines, each with a line feed at its end.
pub fn answer_of(session: &Session) -> &str
    ensures { result.now ≡ (seen_session session.now).answer }
{
    session.answer.as_str()
}

/// The next line of the last answer that would be compared, without its line feed.
pub fn next_line(session: &Session) -> &[u8]
    ensures { result.now ≡ spec.next_line (seen_session session.now) }
{
    line_at(session.answer.as_bytes(), session.compared)
}

/// Whether some lines of the last answer were compared, and some were not.
pub fn is_comparing(session: &Session) -> bool
    ensures { result ≡ spec.is_comparing (seen_session session.now) }
{
    0 < session.compared && session.compared < session.answer.len()
}

/// Takes a line, without its line feed, and does what it asks for.
pub fn hear(session: &mut Session, line: &[u8]) -> Result<Heard, Complaint>
    ensures { result ≢ Err Complaint.Memory
        → spec.SessionHears Config.DEFAULT line.now (seen_session session.old) result (seen_session session.new) }
{
    let Ok(words) = words_of(session.alloc, line) else {
        return Err(Complaint::Memory);
    };
    let end = line.len().saturating_add(1);
    match command_of(&session.names, words.as_slice(), end) {
        Ok(command) => follow(session, command),
        Err(mistake) => Err(Complaint::Mistake(mistake)),
    }
}

/// Does what a line asked for.
fn follow(session: &mut Session, command: Command<'_>) -> Result<Heard, Complaint>
    ensures { spec.FollowsAsked (asked_by command.entry) (seen_session session.old) result (seen_session session.new) }
{
    match command {
        Command::Nothing => Ok(Heard::Silent),
        Command::Expect(wanted) => compare(session, wanted),
        Command::Help => {
            if is_comparing(session) {
                return Err(Complaint::LinesLeft);
            }
            help(session)
        }
        Command::Call(name, column, call) => {
            if is_comparing(session) {
                return Err(Complaint::LinesLeft);
            }
            make_call(session, name, column, call)
        }
    }
}

/// Compares the next line of the last answer.
fn compare(session: &mut Session, wanted: &[Word<'_>]) -> Result<Heard, Complaint>
    ensures { spec.Compares (map told_word wanted.now) (seen_session session.old) result (seen_session session.new) }
{
    if session.compared >= session.answer.len() {
        return Err(Complaint::NothingLeft);
    }
    let Ok(wanted) = joined(session.alloc, wanted) else {
        return Err(Complaint::Memory);
    };
    let line = line_at(session.answer.as_bytes(), session.compared);
    if wanted.as_slice() == line {
        session.compared = session
            .compared
            .saturating_add(line.len())
            .saturating_add(1);
        Ok(Heard::Silent)
    } else {
        Err(Complaint::Unexpected)
    }
}

fn help(session: &mut Session) -> Result<Heard, Complaint>
    ensures { spec.Helps (seen_session session.old) result (seen_session session.new) }
{
    match help_text(session.alloc) {
        Ok(text) => {
            session.answer = text;
            session.compared = 0;
            Ok(Heard::Answered)
        }
        Err(_) => Err(Complaint::Memory),
    }
}

/// Makes a call. The pid or the reference that it returns gets the name.
fn make_call(
    session: &mut Session,
    name: Option<&[u8]>,
    column: usize,
    call: Call,
) -> Result<Heard, Complaint>
    ensures { spec.MakesCall (option_map (λ n. n.now) name.entry) column call (seen_session session.old) result
        (seen_session session.new) }
{
    match make(
        session.alloc,
        &mut session.phase,
        &mut session.earlier,
        call,
    ) {
        Some(answer) => keep(session, name, &answer),
        None => Err(Complaint::NotNow(column, state_of(&session.phase))),
    }
}

/// The answer of a call, or `None` if the node's state does not allow it.
fn make(alloc: Global, phase: &mut Phase, earlier: &mut Vec<Event>, call: Call) -> Option<Answer>
    ensures { spec.CallsOn call phase.old earlier.old.items result phase.new earlier.new.items }
{
    match call {
        Call::Open(config) => Some(open(alloc, phase, earlier, config)),
        Call::Gather => gather(phase),
        Call::Settle => settle(phase),
        Call::Resume => resume(alloc, phase, earlier),
        Call::Look(look) => look_at(alloc, phase, earlier.as_slice(), look),
        Call::Act(call) => act_on(phase, call),
    }
}

fn act_on(phase: &mut Phase, call: Act) -> Option<Answer>
    ensures { spec.ActsOn phase.old (DoesAct call) result phase.new }
{
    match phase {
        Phase::Running(node) => Some(act(node, call)),
        _ => None,
    }
}

fn look_at(alloc: Global, phase: &Phase, earlier: &[Event], look: Look) -> Option<Answer>
    ensures { spec.LookGives look phase.now earlier.now result }
{
    match phase {
        Phase::Closed => None,
        Phase::Running(node) => look_at_node(alloc, node, look),
        Phase::Gathered(gathered) => look_at_gathered(alloc, gathered, earlier, look),
        Phase::Settled(quiet) => look_at_quiet(alloc, quiet, earlier, look),
    }
}

/// Keeps the answer, and gives the name to its pid or reference.
fn keep(session: &mut Session, name: Option<&[u8]>, answer: &Answer) -> Result<Heard, Complaint>
    ensures { spec.KeepsAnswer (option_map (λ n. n.now) name.entry) answer.now (seen_session session.old) result
        (seen_session session.new) }
{
    let Ok(text) = text_of(session.alloc, answer) else {
        return Err(Complaint::Memory);
    };
    if give(&mut session.names, name, value_in(answer)).is_err() {
        return Err(Complaint::Memory);
    }
    session.answer = text;
    session.compared = 0;
    Ok(Heard::Answered)
}

/// Gives the name to the value, if there are both.
fn give(names: &mut Names, name: Option<&[u8]>, value: Option<Value>) -> Result<(), AllocError>
    ensures { OnOk result (names.new ≡ spec.given_name (option_map (λ n. n.now) name.entry) value names.old) }
{
    match (name, value) {
        (Some(name), Some(value)) => names.give(name, value),
        _ => Ok(()),
    }
}

fn state_of(phase: &Phase) -> State
    ensures { result ≡ spec.phase_state phase.now }
{
    match phase {
        Phase::Closed => State::Closed,
        Phase::Running(_) => State::Running,
        Phase::Gathered(_) => State::Gathered,
        Phase::Settled(_) => State::Settled,
    }
}

/// The pid or the reference of an answer.
fn value_in(answer: &Answer) -> Option<Value>
    ensures { result ≡ spec.value_in answer.now }
{
    match answer {
        Answer::Made(Ok(pid)) => Some(Value::Pid(*pid)),
        Answer::Pid(Some(pid)) => Some(Value::Pid(*pid)),
        Answer::Named(Ok(made)) => Some(Value::Ref(*made)),
        _ => None,
    }
}
