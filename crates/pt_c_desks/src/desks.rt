//! The calls of a desk.
//!
//! Each makes the desk's call of that name on the desk of the handle, and returns its code. It returns 9 if the handle
//! has none. A call that gets a pick or a reason returns 16 if the code in it is none of its enumeration. So 9 comes before
//! 16, and 16 before each other refusal.

ghost use Rattle.std.specs.Prelude.{◌≡◌};
ghost use Rattle.pt_c_values.specs.Places.{CallsThrough};
ghost use Rattle.pt_c_desks.specs.Answers.{SpawnsOnDesk, SpawnsChild, SendsOnDesk, SendsExit, Links, Unlinks, WatchesOnDesk, UnwatchesOnDesk};
ghost use Rattle.pt_c_desks.specs.Answers.{AsksOnDesk, Traps, TakesOnDesk, Exits, TurnsOnce};
ghost use Rattle.pt_c_values.specs.Crossing.{pid_crossed, ref_in, body_in};

use crate::desk_handle::{DeskHandle, claim, hold};
use pt_c_values::codes::{BAD_CODE, DONE, EMPTY, NOTHING, UNKNOWN, code_at, code_of, stop_code};
use pt_c_values::crossing::{
    body_in, item_out, pick_in, pid_in, pid_out, reason_in, ref_in, ref_out,
};
use pt_c_values::types::{PtBody, PtItem, PtPick, PtPid, PtReason, PtRef, PtTurned};
use pt_desk::Desk;
use pt_signal::Pid;
use std::alloc::Global;

/// Spawns a process without a parent, as `Desk::spawn` does. It writes the pid to `out` if it returns 0.
#[tactic(auto, unfolding(crate::specs::Answers::SpawnsOnDesk))]
pub fn spawn(alloc: Global, h: &mut DeskHandle, out: &mut PtPid) -> u32
    ensures { CallsThrough h.old.state h.new.state result (out.new ≡ out.old) (SpawnsOnDesk result out.old out.new) }
{
    let Some(mut place) = claim(alloc, h) else {
        return EMPTY;
    };
    let code = match &mut place.desk {
        Some(desk) => match desk.spawn() {
            Ok(pid) => {
                *out = pid_out(pid);
                DONE
            }
            Err(fault) => code_of(fault),
        },
        None => EMPTY,
    };
    *h = hold(place);
    code
}

/// Spawns a child of the parent, linked with it if `linked` is true, as `Desk::spawn_child` does. It writes the pid to
/// `out` if it returns 0.
#[tactic(auto, unfolding(crate::specs::Answers::SpawnsChild))]
pub fn spawn_child(
    alloc: Global,
    h: &mut DeskHandle,
    parent: PtPid,
    linked: bool,
    out: &mut PtPid,
) -> u32
    ensures { CallsThrough h.old.state h.new.state result (out.new ≡ out.old)
        (SpawnsChild (pid_crossed parent) linked result out.old out.new) }
{
    let Some(mut place) = claim(alloc, h) else {
        return EMPTY;
    };
    let code = match &mut place.desk {
        Some(desk) => match desk.spawn_child(pid_in(parent), linked) {
            Ok(pid) => {
                *out = pid_out(pid);
                DONE
            }
            Err(fault) => code_of(fault),
        },
        None => EMPTY,
    };
    *h = hold(place);
    code
}

/// Sends a message, as `Desk::send` does.
#[tactic(auto, unfolding(crate::specs::Answers::SendsOnDesk))]
pub fn send(alloc: Global, h: &mut DeskHandle, from: PtPid, to: PtPid, body: PtBody) -> u32
    ensures { CallsThrough h.old.state h.new.state result (Unit {0}) (SendsOnDesk (pid_crossed from) (pid_crossed to) (body_in body) result) }
{
    let Some(mut place) = claim(alloc, h) else {
        return EMPTY;
    };
    let code = match &mut place.desk {
        Some(desk) if !desk.knows(pid_in(to)) => UNKNOWN,
        Some(desk) => code_at(desk.send(pid_in(from), pid_in(to), body_in(body))),
        None => EMPTY,
    };
    *h = hold(place);
    code
}

/// Sends an exit signal that no link carries, as `Desk::exit_signal` does. It returns 16 if the code in `reason` is that
/// of no reason, and then nothing has changed.
#[tactic(auto, unfolding(crate::specs::Answers::SendsExit))]
pub fn exit_signal(
    alloc: Global,
    h: &mut DeskHandle,
    from: PtPid,
    to: PtPid,
    reason: PtReason,
) -> u32
    ensures { CallsThrough h.old.state h.new.state result (Unit {0})
        (SendsExit (pid_crossed from) (pid_crossed to) reason result) }
{
    let Some(mut place) = claim(alloc, h) else {
        return EMPTY;
    };
    let code = match &mut place.desk {
        Some(desk) => match reason_in(reason) {
            Some(_) if !desk.knows(pid_in(to)) => UNKNOWN,
            Some(reason) => code_at(desk.exit_signal(pid_in(from), pid_in(to), reason)),
            None => BAD_CODE,
        },
        None => EMPTY,
    };
    *h = hold(place);
    code
}

/// Links p with another process, as `Desk::link` does.
pub fn link(alloc: Global, h: &mut DeskHandle, p: PtPid, to: PtPid) -> u32
    ensures { CallsThrough h.old.state h.new.state result (Unit {0}) (Links (pid_crossed p) (pid_crossed to) result) }
{
    let Some(mut place) = claim(alloc, h) else {
        return EMPTY;
    };
    let code = match &mut place.desk {
        Some(desk) => link_known(desk, pid_in(p), pid_in(to)),
        None => EMPTY,
    };
    *h = hold(place);
    code
}

/// The same on the desk itself. (Beside the handle the prover does not find the look of this call.)
#[tactic(auto, unfolding(crate::specs::Answers::Links))]
fn link_known(desk: &mut Desk, p: Pid, to: Pid) -> u32
    ensures { Links p to result desk.old desk.new }
{
    if !desk.knows(to) {
        return UNKNOWN;
    }
    code_at(desk.link(p, to))
}

/// Removes the link of p with another process, as `Desk::unlink` does.
#[tactic(auto, unfolding(crate::specs::Answers::Unlinks))]
pub fn unlink(alloc: Global, h: &mut DeskHandle, p: PtPid, to: PtPid) -> u32
    ensures { CallsThrough h.old.state h.new.state result (Unit {0}) (Unlinks (pid_crossed p) (pid_crossed to) result) }
{
    let Some(mut place) = claim(alloc, h) else {
        return EMPTY;
    };
    let code = match &mut place.desk {
        Some(desk) if !desk.knows(pid_in(to)) => UNKNOWN,
        Some(desk) => code_at(desk.unlink(pid_in(p), pid_in(to))),
        None => EMPTY,
    };
    *h = hold(place);
    code
}

/// Monitors a process, as `Desk::monitor` does. It writes the reference to `out` if it returns 0.
#[tactic(auto, unfolding(crate::specs::Answers::WatchesOnDesk))]
pub fn monitor(alloc: Global, h: &mut DeskHandle, w: PtPid, t: PtPid, out: &mut PtRef) -> u32
    ensures { CallsThrough h.old.state h.new.state result (out.new ≡ out.old)
        (WatchesOnDesk (pid_crossed w) (pid_crossed t) result out.old out.new) }
{
    let Some(mut place) = claim(alloc, h) else {
        return EMPTY;
    };
    let code = match &mut place.desk {
        Some(desk) if !desk.knows(pid_in(t)) => UNKNOWN,
        Some(desk) => match desk.monitor(pid_in(w), pid_in(t)) {
            Ok(monitor) => {
                *out = ref_out(monitor);
                DONE
            }
            Err(fault) => code_of(fault),
        },
        None => EMPTY,
    };
    *h = hold(place);
    code
}

/// Cancels a monitor, as `Desk::demonitor` does. It writes to `wrote` whether there was an event, if it returns 0.
#[tactic(auto, unfolding(crate::specs::Answers::UnwatchesOnDesk))]
pub fn demonitor(
    alloc: Global,
    h: &mut DeskHandle,
    w: PtPid,
    monitor: PtRef,
    flush: bool,
    wrote: &mut bool,
) -> u32
    ensures { CallsThrough h.old.state h.new.state result (wrote.new ≡ wrote.old)
        (UnwatchesOnDesk (pid_crossed w) (ref_in monitor) flush result wrote.old wrote.new) }
{
    let Some(mut place) = claim(alloc, h) else {
        return EMPTY;
    };
    let code = match &mut place.desk {
        Some(desk) => match desk.demonitor(pid_in(w), ref_in(monitor), flush) {
            Ok(did) => {
                *wrote = did;
                DONE
            }
            Err(fault) => code_of(fault),
        },
        None => EMPTY,
    };
    *h = hold(place);
    code
}

/// Asks whether a process is alive, as `Desk::ask_alive` does. It writes the reference to `out` if it returns 0.
#[tactic(auto, unfolding(crate::specs::Answers::AsksOnDesk))]
pub fn ask_alive(alloc: Global, h: &mut DeskHandle, p: PtPid, t: PtPid, out: &mut PtRef) -> u32
    ensures { CallsThrough h.old.state h.new.state result (out.new ≡ out.old)
        (AsksOnDesk (pid_crossed p) (pid_crossed t) result out.old out.new) }
{
    let Some(mut place) = claim(alloc, h) else {
        return EMPTY;
    };
    let code = match &mut place.desk {
        Some(desk) if !desk.knows(pid_in(t)) => UNKNOWN,
        Some(desk) => match desk.ask_alive(pid_in(p), pid_in(t)) {
            Ok(question) => {
                *out = ref_out(question);
                DONE
            }
            Err(fault) => code_of(fault),
        },
        None => EMPTY,
    };
    *h = hold(place);
    code
}

/// Sets whether p traps exits, as `Desk::trap` does. It writes to `was` whether p did before, if it returns 0.
#[tactic(auto, unfolding(crate::specs::Answers::Traps))]
pub fn trap(alloc: Global, h: &mut DeskHandle, p: PtPid, on: bool, was: &mut bool) -> u32
    ensures { CallsThrough h.old.state h.new.state result (was.new ≡ was.old) (Traps (pid_crossed p) on result was.old was.new) }
{
    let Some(mut place) = claim(alloc, h) else {
        return EMPTY;
    };
    let code = match &mut place.desk {
        Some(desk) => match desk.trap(pid_in(p), on) {
            Ok(before) => {
                *was = before;
                DONE
            }
            Err(fault) => code_of(fault),
        },
        None => EMPTY,
    };
    *h = hold(place);
    code
}

/// Takes the first matching item, as `Desk::receive` does. It writes the item to `out` if it returns 0, and returns 8
/// if no item matches. It returns 16 if the code in `pick` is that of no pick, and then nothing has changed.
#[tactic(auto, unfolding(crate::specs::Answers::TakesOnDesk))]
pub fn receive(alloc: Global, h: &mut DeskHandle, p: PtPid, pick: PtPick, out: &mut PtItem) -> u32
    ensures { CallsThrough h.old.state h.new.state result (out.new ≡ out.old)
        (TakesOnDesk (pid_crossed p) pick result out.old out.new) }
{
    let Some(mut place) = claim(alloc, h) else {
        return EMPTY;
    };
    let code = match &mut place.desk {
        Some(desk) => match pick_in(pick) {
            Some(pick) => match desk.receive(pid_in(p), pick) {
                Ok(Some(item)) => {
                    *out = item_out(item);
                    DONE
                }
                Ok(None) => NOTHING,
                Err(fault) => code_of(fault),
            },
            None => BAD_CODE,
        },
        None => EMPTY,
    };
    *h = hold(place);
    code
}

/// Makes p exit, as `Desk::exit` does. It returns 16 if the code in `reason` is that of no reason, and then nothing has
/// changed.
#[tactic(auto, unfolding(crate::specs::Answers::Exits))]
pub fn exit(alloc: Global, h: &mut DeskHandle, p: PtPid, reason: PtReason) -> u32
    ensures { CallsThrough h.old.state h.new.state result (Unit {0}) (Exits (pid_crossed p) reason result) }
{
    let Some(mut place) = claim(alloc, h) else {
        return EMPTY;
    };
    let code = match &mut place.desk {
        Some(desk) => match reason_in(reason) {
            Some(reason) => code_at(desk.exit(pid_in(p), reason)),
            None => BAD_CODE,
        },
        None => EMPTY,
    };
    *h = hold(place);
    code
}

/// Posts letters, and then handles at most `budget` letters, as `Desk::turn` does. It writes to `out` what it did if it
/// returns 0, and `stopped` there says what stopped it.
#[tactic(auto, unfolding(crate::specs::Answers::TurnsOnce))]
pub fn turn(alloc: Global, h: &mut DeskHandle, budget: u32, out: &mut PtTurned) -> u32
    ensures { CallsThrough h.old.state h.new.state result (out.new ≡ out.old)
        (λ old new. (result ≡ 0) × TurnsOnce budget out.new old new) }
{
    let Some(mut place) = claim(alloc, h) else {
        return EMPTY;
    };
    let code = match &mut place.desk {
        Some(desk) => {
            let turned = desk.turn(budget);
            *out = PtTurned {
                posted: turned.posted,
                handled: turned.handled,
                stopped: stop_code(turned.stopped),
            };
            DONE
        }
        None => EMPTY,
    };
    *h = hold(place);
    code
}
