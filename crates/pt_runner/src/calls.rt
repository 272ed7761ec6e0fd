//! The operations of a process, as calls of its desk.

#![tactic(auto, using(pt_workers::proofs::GoingOn::stays))]

ghost use Rattle.std.specs.Prelude.{◌≡◌, ◌≢◌, ℕ, Bool, ◌<◌, ◌+◌, ◌-◌, true, Some, IfSome, vec_len, vec_capacity};
ghost use Rattle.pt_signal.specs.declared.signal.Signal.{Signal};
ghost use Rattle.pt_events.specs.declared.event.Event.{Event};
ghost use Rattle.pt_desk.specs.DeskState.{GoesOn, HasSameEnds};
ghost use Rattle.pt_desk.specs.Reaching.{has_link_to_make};
ghost use Rattle.pt_shard.specs.Calls.{link_event, unlink_event};
ghost use Rattle.pt_shard.specs.Known.{knows};
ghost use Rattle.pt_script.specs.declared.values.Operation.{Operation};
ghost use Rattle.pt_script.specs.declared.values.Pattern.{Pattern};
ghost use Rattle.pt_runner.specs.declared.calls.Progress.{Progress};
ghost use Rattle.pt_runner.specs.Acting as spec;
ghost use Rattle.pt_runner.specs.Acting.{Performs, came_of};

use pt_script::{Operation, Pattern};
use pt_workers::{Body, Desk, Fault, Item, Pick, Pid, Reason, Ref};

/// What an operation did.
#[derive(Clone, Copy, Debug, PartialEq, Eq)]
pub(crate) enum Progress {
    /// It is done, or skipped.
    Done,
    /// It is done, and took this item.
    Took(Item),
    /// No item matches: it is tried again once one may.
    Waits,
    /// It failed for want of memory or at the clock's limit, and is to be tried again.
    Stays,
    /// It failed, and its process is to exit with this reason.
    Ends(Reason),
}

/// The references that the monitors and asks of a process got, by tag.
pub(crate) type References = Vec<Option<Ref>>;

/// What an operation did, by the answer to its call.
pub(crate) fn progress_of<T: Drop>(answer: Result<T, Fault>) -> Progress
    ensures { result ≡ came_of answer }
{
    match answer {
        Ok(_) | Err(Fault::NoProc) => Progress::Done,
        Err(Fault::Full) => Progress::Ends(Reason::Other(1)),
        Err(Fault::Myself) => Progress::Ends(Reason::Other(5)),
        Err(Fault::Memory | Fault::Worn | Fault::Gone) => Progress::Stays,
    }
}

/// What a receive did, by the answer to its call; without an item it did that.
pub(crate) fn taken_of(without: Progress, answer: Result<Option<Item>, Fault>) -> Progress
    ensures { result ≡ spec.taken_of without answer }
{
    match answer {
        Ok(None) => without,
        Ok(Some(item)) => Progress::Took(item),
        Err(fault) => progress_of::<()>(Err(fault)),
    }
}

/// The pid of a process of the script, by its number.
pub(crate) fn pid_of(pids: &[Option<Pid>], process: u32) -> Option<Pid>
    ensures { result ≡ spec.pid_numbered pids.now process }
{
    match pids.get(process as usize) {
        Some(pid) => *pid,
        None => None,
    }
}

/// The pid of a process of the script, if one is named.
fn pid_if(pids: &[Option<Pid>], process: Option<u32>) -> Option<Pid>
    ensures { result ≡ spec.pid_if pids.now process }
{
    match process {
        Some(process) => pid_of(pids, process),
        None => None,
    }
}

/// The pid of a process of the script, if the desk knows it.
fn target(desk: &Desk, pids: &[Option<Pid>], process: u32) -> Option<Pid>
    ensures known { IfSome result (λ p. knows desk.now.shard p ≡ true) }
    ensures target { result ≡ spec.target_of desk.now.shard pids.now process }
{
    let pid = pid_of(pids, process)?;
    if desk.knows(pid) { Some(pid) } else { None }
}

/// The reference of a tag.
fn reference_of(references: &References, tag: u32) -> Option<Ref>
    ensures { result ≡ spec.reference_of references.now.items tag }
{
    match references.get(tag as usize) {
        Some(reference) => *reference,
        None => None,
    }
}

/// What a receive takes.
pub(crate) fn pick_of(
    pids: &[Option<Pid>],
    references: &References,
    pattern: Pattern,
) -> Option<Pick>
    ensures { result ≡ spec.pick_meant pids.now references.now.items pattern }
{
    match pattern {
        Pattern::Any => Some(Pick::Any),
        Pattern::Kind(kind) => Some(Pick::Kind(kind)),
        Pattern::From(process) => pid_of(pids, process).map(Pick::From),
        Pattern::ExitOf(process) => pid_of(pids, process).map(Pick::ExitOf),
        Pattern::DownOf(tag) => reference_of(references, tag).map(Pick::DownOf),
        Pattern::AliveOf(tag) => reference_of(references, tag).map(Pick::AliveOf),
    }
}

/// Does an operation of p that spawns nothing and is no receive.
pub(crate) fn call(
    desk: &mut Desk,
    pids: &[Option<Pid>],
    references: &mut References,
    p: Pid,
    operation: Operation,
) -> Progress
    requires spawns { (process : ℕ) (linked : Bool) → operation ≢ Operation.Spawn process linked }
    requires takes { (pattern : Pattern) → operation ≢ Operation.Receive pattern }
    ensures performs { Performs pids.now p operation desk.old.shard references.old.items result desk.new.shard
        references.new.items }
    ensures ends { HasSameEnds desk.old desk.new }
    ensures goes_on { GoesOn desk.old desk.new }
{
    match operation {
        Operation::Send { to, kind, num, who } => send(desk, pids, p, to, kind, num, who),
        Operation::Check(pattern) => take(desk, pids, references, p, pattern, Progress::Done),
        Operation::ReceiveAfter { pattern, tries: _ } => {
            take(desk, pids, references, p, pattern, Progress::Stays)
        }
        Operation::Link(to) => link(desk, pids, p, to),
        Operation::Unlink(to) => unlink(desk, pids, p, to),
        Operation::Monitor { to, tag } => monitor(desk, pids, references, p, to, tag),
        Operation::Demonitor { tag, flush } => demonitor(desk, references, p, tag, flush),
        Operation::Alive { to, tag } => ask_alive(desk, pids, references, p, to, tag),
        Operation::Trap(on) => progress_of(desk.trap(p, on)),
        Operation::Exit(reason) => progress_of(desk.exit(p, reason)),
        Operation::Signal { to, reason } => exit_signal(desk, pids, p, to, reason),
        Operation::Pass
        | Operation::If(_)
        | Operation::Else
        | Operation::End
        | Operation::Repeat(_)
        | Operation::Again => Progress::Done,
        Operation::Receive(_) => unreachable!(),
        Operation::Spawn {
            process: _,
            linked: _,
        } => unreachable!(),
    }
}

fn send(
    desk: &mut Desk,
    pids: &[Option<Pid>],
    p: Pid,
    to: u32,
    kind: u32,
    num: i64,
    who: Option<u32>,
) -> Progress
    ensures does { spec.Sends pids.now p to kind num who desk.old.shard result desk.new.shard }
    ensures ends { HasSameEnds desk.old desk.new }
    ensures goes_on { GoesOn desk.old desk.new }
{
    let Some(to) = target(desk, pids, to) else {
        return Progress::Done;
    };
    let who = pid_if(pids, who);
    progress_of(desk.send(p, to, Body { kind, num, who }))
}

/// Takes a matching item. If there is none, it did that.
fn take(
    desk: &mut Desk,
    pids: &[Option<Pid>],
    references: &References,
    p: Pid,
    pattern: Pattern,
    without: Progress,
) -> Progress
    ensures does { spec.Takes (spec.pick_meant pids.now references.now.items pattern) p without desk.old.shard result
        desk.new.shard }
    ensures ends { HasSameEnds desk.old desk.new }
    ensures goes_on { GoesOn desk.old desk.new }
{
    let Some(pick) = pick_of(pids, references, pattern) else {
        return Progress::Done;
    };
    taken_of(without, desk.receive(p, pick))
}

fn link(desk: &mut Desk, pids: &[Option<Pid>], p: Pid, to: u32) -> Progress
    ensures does { spec.ReachesAt (spec.target_of desk.old.shard pids.now to) p (has_link_to_make desk.old.shard p)
        (link_event desk.old.shard p) desk.old.shard result desk.new.shard }
    ensures ends { HasSameEnds desk.old desk.new }
    ensures goes_on { GoesOn desk.old desk.new }
{
    match target(desk, pids, to) {
        Some(to) => progress_of(desk.link(p, to)),
        None => Progress::Done,
    }
}

fn unlink(desk: &mut Desk, pids: &[Option<Pid>], p: Pid, to: u32) -> Progress
    ensures does { spec.CallsTarget (spec.target_of desk.old.shard pids.now to) p
        (unlink_event desk.old.shard p) desk.old.shard result desk.new.shard }
    ensures ends { HasSameEnds desk.old desk.new }
    ensures goes_on { GoesOn desk.old desk.new }
{
    match target(desk, pids, to) {
        Some(to) => progress_of(desk.unlink(p, to)),
        None => Progress::Done,
    }
}

fn exit_signal(desk: &mut Desk, pids: &[Option<Pid>], p: Pid, to: u32, reason: Reason) -> Progress
    ensures does { spec.CallsTarget (spec.target_of desk.old.shard pids.now to) p
        (λ t. Some (Event.Said p t (Signal.Exit reason))) desk.old.shard result desk.new.shard }
    ensures ends { HasSameEnds desk.old desk.new }
    ensures goes_on { GoesOn desk.old desk.new }
{
    match target(desk, pids, to) {
        Some(to) => progress_of(desk.exit_signal(p, to, reason)),
        None => Progress::Done,
    }
}

/// How many places there have to be more for the references up to this tag.
fn places_for(references: &References, tag: u32) -> usize
    ensures { result ≡ (tag - vec_len references.now) + 1 }
{
    (tag as usize).saturating_sub(references.len()) + 1
}

/// Notes that the tags before this one have no reference, if nothing was noted of them.
fn pad(references: &mut References, tag: u32)
    requires { vec_len references.old + (tag - vec_len references.old) < vec_capacity references.old }
    ensures padded { references.new.items ≡ spec.padded_to tag references.old.items }
    ensures room { vec_len references.new < vec_capacity references.new }
{
    while references.len() < tag as usize {
        references.push_reserved(None);
    }
}

/// Notes the tag by the answer: a reference, or nothing if the operation is skipped.
fn note(references: &mut References, tag: u32, answer: Result<Ref, Fault>)
    requires { vec_len references.old + (tag - vec_len references.old) < vec_capacity references.old }
    ensures { references.new.items ≡ spec.with_answer tag references.old.items answer }
{
    let noted = match answer {
        Ok(reference) => Some(reference),
        Err(Fault::NoProc) => None,
        Err(_) => return,
    };
    pad(references, tag);
    references.push_reserved(noted);
}

fn monitor(
    desk: &mut Desk,
    pids: &[Option<Pid>],
    references: &mut References,
    p: Pid,
    to: u32,
    tag: u32,
) -> Progress
    ensures does { spec.MonitorsAt p
        (spec.target_of desk.old.shard pids.now to) tag desk.old.shard references.old.items result desk.new.shard
        references.new.items }
    ensures ends { HasSameEnds desk.old desk.new }
    ensures goes_on { GoesOn desk.old desk.new }
{
    if references.reserve(places_for(references, tag)).is_err() {
        return Progress::Stays;
    }
    let Some(to) = target(desk, pids, to) else {
        note(references, tag, Err(Fault::NoProc));
        return Progress::Done;
    };
    let answer = desk.monitor(p, to);
    note(references, tag, answer);
    progress_of(answer)
}

fn demonitor(desk: &mut Desk, references: &References, p: Pid, tag: u32, flush: bool) -> Progress
    ensures does { spec.Demonitors
        (spec.reference_of references.now.items tag) p flush desk.old.shard result desk.new.shard }
    ensures ends { HasSameEnds desk.old desk.new }
    ensures goes_on { GoesOn desk.old desk.new }
{
    match reference_of(references, tag) {
        Some(reference) => progress_of(desk.demonitor(p, reference, flush)),
        None => Progress::Done,
    }
}

fn ask_alive(
    desk: &mut Desk,
    pids: &[Option<Pid>],
    references: &mut References,
    p: Pid,
    to: u32,
    tag: u32,
) -> Progress
    ensures does { spec.AsksAt p
        (spec.target_of desk.old.shard pids.now to) tag desk.old.shard references.old.items result desk.new.shard
        references.new.items }
    ensures ends { HasSameEnds desk.old desk.new }
    ensures goes_on { GoesOn desk.old desk.new }
{
    if references.reserve(places_for(references, tag)).is_err() {
        return Progress::Stays;
    }
    let Some(to) = target(desk, pids, to) else {
        note(references, tag, Err(Fault::NoProc));
        return Progress::Done;
    };
    let answer = desk.ask_alive(p, to);
    note(references, tag, answer);
    progress_of(answer)
}
