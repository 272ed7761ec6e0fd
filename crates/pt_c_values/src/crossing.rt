//! The table's values as the structs that cross, and the other way round.

ghost use Rattle.std.specs.Prelude.{◌≡◌, true};
ghost use Rattle.pt_events.specs.declared.event.Event.TheVariants.{Born};
ghost use Rattle.pt_c_values.specs.Crossing.{pid_crossed, pid_or_none, pid_out, ref_in, ref_out, link_out, ids_out, reason_in, reason_out};
ghost use Rattle.pt_c_values.specs.Crossing.{body_in, body_out, pick_in, pick_out, item_out, signal_out, event_out, told_in_c};
ghost use Rattle.pt_c_values.specs.Crossing.{left_out, account_out, no_pid, no_ref, no_ids, no_reason, no_body, no_pick};
ghost use Rattle.pt_c_values.specs.Crossing.{no_item, no_signal, blank};

use crate::types::{
    PtAccount, PtBody, PtEvent, PtIds, PtItem, PtLeftOver, PtPick, PtPid, PtReason, PtRef, PtSignal,
};
use pt_accounts::Account;
use pt_events::{Event, Stamped};
use pt_signal::{Body, Ids, Item, LeftOver, LinkId, Pick, Pid, Reason, Ref, Signal};

pub fn pid_in(p: PtPid) -> Pid
    ensures { result ≡ pid_crossed p }
{
    Pid {
        shard: p.shard,
        slot: p.slot,
        version: p.version,
    }
}

/// The process, if there is one; else all fields are zero.
pub fn pid_or_none(pid: Option<Pid>) -> PtPid
    ensures { result ≡ pid_or_none pid }
{
    match pid {
        Some(pid) => pid_out(pid),
        None => PtPid {
            shard: 0,
            slot: 0,
            version: 0,
        },
    }
}

pub fn pid_out(p: Pid) -> PtPid
    ensures { result ≡ pid_out p }
{
    PtPid {
        shard: p.shard,
        slot: p.slot,
        version: p.version,
    }
}

pub fn ref_in(m: PtRef) -> Ref
    ensures { result ≡ ref_in m }
{
    Ref {
        desk: m.desk,
        number: m.number,
    }
}

pub fn ref_out(m: Ref) -> PtRef
    ensures { result ≡ ref_out m }
{
    PtRef {
        desk: m.desk,
        number: m.number,
    }
}

pub fn link_out(i: LinkId) -> PtRef
    ensures { result ≡ link_out i }
{
    PtRef {
        desk: i.desk,
        number: i.number,
    }
}

pub fn ids_out(ids: Ids) -> PtIds
    ensures { result ≡ ids_out ids }
{
    match ids.two {
        Some(two) => PtIds {
            one: link_out(ids.one),
            has_two: true,
            two: link_out(two),
        },
        None => PtIds {
            one: link_out(ids.one),
            has_two: false,
            two: no_ref(),
        },
    }
}

/// The reason; none if its code is that of no reason.
pub fn reason_in(r: PtReason) -> Option<Reason>
    ensures { result ≡ reason_in r }
{
    if r.code == 0 {
        Some(Reason::Normal)
    } else if r.code == 1 {
        Some(Reason::Kill)
    } else if r.code == 2 {
        Some(Reason::Killed)
    } else if r.code == 3 {
        Some(Reason::Noproc)
    } else if r.code == 4 {
        Some(Reason::Shutdown)
    } else if r.code == 5 {
        Some(Reason::Other(r.number))
    } else {
        None
    }
}

pub fn reason_out(r: Reason) -> PtReason
    ensures { result ≡ reason_out r }
{
    match r {
        Reason::Normal => PtReason { code: 0, number: 0 },
        Reason::Kill => PtReason { code: 1, number: 0 },
        Reason::Killed => PtReason { code: 2, number: 0 },
        Reason::Noproc => PtReason { code: 3, number: 0 },
        Reason::Shutdown => PtReason { code: 4, number: 0 },
        Reason::Other(number) => PtReason { code: 5, number },
    }
}

pub fn body_in(b: PtBody) -> Body
    ensures { result ≡ body_in b }
{
    Body {
        kind: b.kind,
        num: b.num,
        who: if b.has_who { Some(pid_in(b.who)) } else { None },
    }
}

pub fn body_out(b: Body) -> PtBody
    ensures { result ≡ body_out b }
{
    match b.who {
        Some(who) => PtBody {
            kind: b.kind,
            num: b.num,
            has_who: true,
            who: pid_out(who),
        },
        None => PtBody {
            kind: b.kind,
            num: b.num,
            has_who: false,
            who: no_pid(),
        },
    }
}

/// The pick; none if its code is that of no pick.
pub fn pick_in(k: PtPick) -> Option<Pick>
    ensures { result ≡ pick_in k }
{
    if k.code == 0 {
        Some(Pick::Kind(k.kind))
    } else if k.code == 1 {
        Some(Pick::From(pid_in(k.pid)))
    } else if k.code == 2 {
        Some(Pick::ExitOf(pid_in(k.pid)))
    } else if k.code == 3 {
        Some(Pick::DownOf(ref_in(k.reference)))
    } else if k.code == 4 {
        Some(Pick::AliveOf(ref_in(k.reference)))
    } else if k.code == 5 {
        Some(Pick::Any)
    } else {
        None
    }
}

pub fn pick_out(k: Pick) -> PtPick
    ensures { result ≡ pick_out k }
{
    let blank = no_pick();
    match k {
        Pick::Kind(kind) => PtPick {
            code: 0,
            kind,
            ..blank
        },
        Pick::From(pid) => PtPick {
            code: 1,
            pid: pid_out(pid),
            ..blank
        },
        Pick::ExitOf(pid) => PtPick {
            code: 2,
            pid: pid_out(pid),
            ..blank
        },
        Pick::DownOf(monitor) => PtPick {
            code: 3,
            reference: ref_out(monitor),
            ..blank
        },
        Pick::AliveOf(question) => PtPick {
            code: 4,
            reference: ref_out(question),
            ..blank
        },
        Pick::Any => PtPick { code: 5, ..blank },
    }
}

pub fn item_out(i: Item) -> PtItem
    ensures { result ≡ item_out i }
{
    let blank = no_item();
    match i {
        Item::User(from, body) => PtItem {
            code: 0,
            pid: pid_out(from),
            body: body_out(body),
            ..blank
        },
        Item::Exit(from, reason) => PtItem {
            code: 1,
            pid: pid_out(from),
            reason: reason_out(reason),
            ..blank
        },
        Item::Down(monitor, from, reason) => PtItem {
            code: 2,
            pid: pid_out(from),
            reference: ref_out(monitor),
            reason: reason_out(reason),
            ..blank
        },
        Item::Alive(question, pid, alive) => PtItem {
            code: 3,
            alive,
            pid: pid_out(pid),
            reference: ref_out(question),
            ..blank
        },
    }
}

/// A signal that has ids.
fn signal_of_ids(code: u32, ids: Ids) -> PtSignal
    ensures { result ≡ record no_signal { code = code; ids = ids_out ids } }
{
    PtSignal {
        code,
        ids: ids_out(ids),
        ..no_signal()
    }
}

/// A signal that has a reference.
fn signal_of_reference(code: u32, reference: Ref) -> PtSignal
    ensures { result ≡ record no_signal { code = code; reference = ref_out reference } }
{
    PtSignal {
        code,
        reference: ref_out(reference),
        ..no_signal()
    }
}

pub fn signal_out(x: Signal) -> PtSignal
    ensures { result ≡ signal_out x }
{
    match x {
        Signal::Message(body) => PtSignal {
            body: body_out(body),
            ..no_signal()
        },
        Signal::Link(id) => signal_of_ids(1, Ids::of(id)),
        Signal::Unlink(ids) => signal_of_ids(2, ids),
        Signal::Exit(reason) => PtSignal {
            code: 3,
            reason: reason_out(reason),
            ..no_signal()
        },
        Signal::LinkExit(ids, reason) => PtSignal {
            reason: reason_out(reason),
            ..signal_of_ids(4, ids)
        },
        Signal::Monitor(monitor) => signal_of_reference(5, monitor),
        Signal::Demonitor(monitor) => signal_of_reference(6, monitor),
        Signal::Down(monitor, reason) => PtSignal {
            reason: reason_out(reason),
            ..signal_of_reference(7, monitor)
        },
        Signal::AliveAsk(question) => signal_of_reference(8, question),
        Signal::AliveSay(question, alive) => PtSignal {
            alive,
            ..signal_of_reference(9, question)
        },
    }
}

/// An event of a process, in place of an empty one of its stamp and desk.
fn event_of(empty: PtEvent, code: u32, pid: Pid) -> PtEvent
    ensures { result ≡ record empty { code = code; pid = pid_out pid } }
{
    PtEvent {
        code,
        pid: pid_out(pid),
        ..empty
    }
}

/// The same of an event that names another process too.
fn event_between(empty: PtEvent, code: u32, pid: Pid, peer: Pid) -> PtEvent
    ensures { result ≡ record empty { has_peer = true; code = code; pid = pid_out pid; peer = pid_out peer } }
{
    PtEvent {
        has_peer: true,
        peer: pid_out(peer),
        ..event_of(empty, code, pid)
    }
}

/// A birth, in place of an empty event.
fn birth_out(empty: PtEvent, pid: Pid, parent: Option<Pid>, link: Option<LinkId>) -> PtEvent
    ensures { result ≡ told_in_c (Born pid parent link) empty }
{
    PtEvent {
        has_peer: parent.is_some(),
        has_link: link.is_some(),
        peer: match parent {
            Some(parent) => pid_out(parent),
            None => no_pid(),
        },
        link: match link {
            Some(link) => link_out(link),
            None => no_ref(),
        },
        ..event_of(empty, 0, pid)
    }
}

pub fn event_out(s: Stamped) -> PtEvent
    ensures { result ≡ event_out s }
{
    let empty = blank(s.stamp, s.desk);
    match s.event {
        Event::Born(pid, parent, link) => birth_out(empty, pid, parent, link),
        Event::Said(from, to, signal) => PtEvent {
            signal: signal_out(signal),
            ..event_between(empty, 1, from, to)
        },
        Event::Came(from, to, signal) => PtEvent {
            signal: signal_out(signal),
            ..event_between(empty, 2, to, from)
        },
        Event::Took(pid, pick, item) => PtEvent {
            pick: pick_out(pick),
            item: item_out(item),
            ..event_of(empty, 3, pid)
        },
        Event::Flag(pid, on) => PtEvent {
            on,
            ..event_of(empty, 4, pid)
        },
        Event::Left(pid, reason) => PtEvent {
            reason: reason_out(reason),
            ..event_of(empty, 5, pid)
        },
        Event::Refused(from, to) => event_between(empty, 6, from, to),
    }
}

pub fn left_out(l: LeftOver) -> PtLeftOver
    ensures { result ≡ left_out l }
{
    PtLeftOver {
        from_desk: l.from_desk,
        to_desk: l.to_desk,
        from: pid_out(l.letter.from),
        to: pid_out(l.letter.to),
        stamp: l.letter.stamp,
        signal: signal_out(l.letter.signal),
    }
}

pub fn account_out(a: Account) -> PtAccount
    ensures { result ≡ account_out a }
{
    PtAccount {
        has_ended: a.ended.is_some(),
        ended: match a.ended {
            Some(reason) => reason_out(reason),
            None => no_reason(),
        },
        arrived: a.arrived,
        taken: a.taken,
        waiting: a.waiting,
    }
}

fn no_pid() -> PtPid
    ensures { result ≡ no_pid }
{
    PtPid {
        shard: 0,
        slot: 0,
        version: 0,
    }
}

fn no_ref() -> PtRef
    ensures { result ≡ no_ref }
{
    PtRef { desk: 0, number: 0 }
}

fn no_ids() -> PtIds
    ensures { result ≡ no_ids }
{
    PtIds {
        one: no_ref(),
        has_two: false,
        two: no_ref(),
    }
}

/// The struct of no reason: all fields are zero.
pub fn no_reason() -> PtReason
    ensures { result ≡ no_reason }
{
    PtReason { code: 0, number: 0 }
}

fn no_body() -> PtBody
    ensures { result ≡ no_body }
{
    PtBody {
        kind: 0,
        num: 0,
        has_who: false,
        who: no_pid(),
    }
}

pub fn no_pick() -> PtPick
    ensures { result ≡ no_pick }
{
    PtPick {
        code: 0,
        kind: 0,
        pid: no_pid(),
        reference: no_ref(),
    }
}

pub fn no_item() -> PtItem
    ensures { result ≡ no_item }
{
    PtItem {
        code: 0,
        alive: false,
        pid: no_pid(),
        reference: no_ref(),
        reason: no_reason(),
        body: no_body(),
    }
}

fn no_signal() -> PtSignal
    ensures { result ≡ no_signal }
{
    PtSignal {
        code: 0,
        alive: false,
        reason: no_reason(),
        reference: no_ref(),
        ids: no_ids(),
        body: no_body(),
    }
}

/// An event with its stamp and its desk only.
fn blank(stamp: u64, desk: u8) -> PtEvent
    ensures { result ≡ blank stamp desk }
{
    PtEvent {
        stamp,
        desk,
        has_peer: false,
        has_link: false,
        on: false,
        code: 0,
        pid: no_pid(),
        peer: no_pid(),
        link: no_ref(),
        reason: no_reason(),
        pick: no_pick(),
        item: no_item(),
        signal: no_signal(),
    }
}
