//! Opening a node, gathering its desks, and giving up what a handle has.

ghost use Rattle.std.specs.Prelude.{◌≡◌, ◌≤◌, [], map, length, IfOk};
ghost use Rattle.std.specs.Vec.{vec_capacity};
ghost use Rattle.pt_workers.specs.Desks.{AreDesks};
ghost use Rattle.pt_c_values.specs.Places.{value_behind, values};
ghost use Rattle.pt_c_tools.specs.Nodes.{OpensAs, OpensMany, AreAllFull, IsWholeNode, GathersAs, GathersWhole, Joins, HandleTells, Writes};
ghost use Rattle.pt_c_values.specs.Filling.{GivesUp};
ghost use Rattle.pt_c_tools.specs.Nodes.{IsHistoryOf, IsHistoryOfQuiet, IsQuietHistoryOf};

use crate::gathered_handle::{
    GatheredHandle, claim as claim_gathered, filled as filled_gathered, hold as hold_gathered,
    is_full as has_gathered, spare as spare_gathered,
};
use crate::held::HeldGathered;
use pt_c_desks::desk_handle::{DeskHandle, claim as claim_desk};
use pt_c_desks::held::{HeldDesk, History};
use pt_c_desks::history_handle::{
    HistoryHandle, claim as claim_history, filled as filled_history, is_full as has_history,
    spare as spare_history,
};
use pt_c_desks::quiet_handle::{QuietHandle, claim as claim_quiet, hold as hold_quiet};
use pt_c_desks::rows::{are_in_order, count_full, empty_all, fill_all, spare_places};
use pt_c_values::codes::{DONE, EMPTY, FILLED, MEMORY, open_code};
use pt_c_values::ending::end_code;
use pt_c_values::types::PtConfig;
use pt_node::{Config, Desk, Gathered, OpenError, Setting, Settled, abandon, gather, open};
use std::alloc::{AllocError, Global};

/// Opens a node: each handle gets one of its desks, in order, as `open` makes them.
///
/// The handles must be empty: it returns 10 if one is not. It returns 11 to 15 if a setting is out of its range; for 11
/// this is the number of handles.
pub fn open_desks(alloc: Global, desks: &mut [DeskHandle], config: PtConfig) -> u32
    ensures { OpensAs config result (map (λ h. h.state) desks.old) (map (λ h. h.state) desks.new) }
{
    if count_full(alloc, desks) != 0 {
        return FILLED;
    }
    let list = match open_many(alloc, desks.len(), config) {
        Ok(list) => list,
        Err(error) => return open_code(error),
    };
    let Ok(places) = spare_places(alloc, desks.len()) else {
        abandon(list);
        return MEMORY;
    };
    fill_all(desks, places, list);
    DONE
}

/// The desks of a new node, as many as this.
fn open_many(alloc: Global, count: usize, config: PtConfig) -> Result<Vec<Desk>, OpenError>
    ensures { OpensMany count config result }
{
    let Ok(desks) = u8::try_from(count) else {
        return Err(OpenError::Bounds(Setting::Desks));
    };
    open(
        alloc,
        Config {
            desks,
            slots: config.slots,
            top_version: config.top_version,
            lane: config.lane,
            start: config.start,
        },
    )
}

/// Brings the desks of a node together, as `gather` does. `out` has the node then, and the handles of the desks are
/// empty.
///
/// All handles must have a desk: it returns 9 if one has none, or there is no handle. They must be all desks of one
/// `open_desks` or of one resumption, each once and in order: it returns 11 if there are more or fewer than their node has, or
/// one is not at the place of its number. Desks of different nodes are not told apart. `out` must be empty: it returns
/// 10 if it is not. If it returns 2, for want of memory, all desks are in their handles as they were.
pub fn gather_desks(alloc: Global, desks: &mut [DeskHandle], out: &mut GatheredHandle) -> u32
    requires { IsWholeNode (map (λ h. h.state) desks.old) → AreDesks (values (map (λ h. h.state) desks.old)) }
    ensures { GathersAs result (map (λ h. h.state) desks.old) (map (λ h. h.state) desks.new)
        out.old.state out.new.state }
{
    let count = count_full(alloc, desks);
    if count == 0 || count != desks.len() {
        return EMPTY;
    }
    if !are_in_order(alloc, desks) {
        return open_code(OpenError::Bounds(Setting::Desks));
    }
    gather_whole(alloc, desks, out)
}

/// Brings the desks of a node together, which are in their handles.
fn gather_whole(alloc: Global, desks: &mut [DeskHandle], out: &mut GatheredHandle) -> u32
    requires full { AreAllFull (map (λ h. h.state) desks.old) }
    requires node { AreDesks (values (map (λ h. h.state) desks.old)) }
    ensures { GathersWhole result (map (λ h. h.state) desks.old) (map (λ h. h.state) desks.new)
        out.old.state out.new.state }
{
    if has_gathered(alloc, out) {
        return FILLED;
    }
    let Ok(place) = spare_gathered(alloc) else {
        return MEMORY;
    };
    let Ok(places) = Vec::with_capacity(alloc, desks.len()) else {
        return MEMORY;
    };
    let Ok(list) = Vec::with_capacity(alloc, desks.len()) else {
        return MEMORY;
    };
    gather_all(alloc, desks, places, list, place, out)
}

/// Takes the desks out of their handles, and brings them together.
fn gather_all(
    alloc: Global,
    desks: &mut [DeskHandle],
    places: Vec<Box<HeldDesk, Global>>,
    list: Vec<Desk>,
    place: Box<HeldGathered, Global>,
    out: &mut GatheredHandle,
) -> u32
    requires room { (length desks.old ≤ vec_capacity list) × (length desks.old ≤ vec_capacity places) }
    requires none { (list.items ≡ []) × (places.items ≡ []) }
    requires full { length (values (map (λ h. h.state) desks.old)) ≡ length desks.old }
    requires node { AreDesks (values (map (λ h. h.state) desks.old)) }
    ensures { Joins result (values (map (λ h. h.state) desks.old)) (map (λ h. h.state) desks.new)
        out.old.state out.new.state }
{
    let mut places = places;
    let mut list = list;
    empty_all(alloc, desks, &mut places, &mut list);
    match gather(alloc, list) {
        Ok(gathered) => {
            *out = filled_gathered(place, gathered);
            DONE
        }
        Err(back) => {
            fill_all(desks, places, back.into_desks());
            MEMORY
        }
    }
}

/// Gives up a desk, with its processes, its journal and the letters in it. The handle is empty then, and the memory is
/// freed.
pub fn give_up_desk(alloc: Global, h: &mut DeskHandle) -> u32
    ensures { GivesUp result h.old.state h.new.state }
{
    match claim_desk(alloc, h) {
        Some(place) => end_code(place.desk.is_some()),
        None => EMPTY,
    }
}

/// Gives up a gathered node.
pub fn give_up_gathered(alloc: Global, g: &mut GatheredHandle) -> u32
    ensures { GivesUp result g.old.state g.new.state }
{
    match claim_gathered(alloc, g) {
        Some(place) => end_code(place.gathered.is_some()),
        None => EMPTY,
    }
}

/// Gives up a settled node.
pub fn give_up_quiet(alloc: Global, q: &mut QuietHandle) -> u32
    ensures { GivesUp result q.old.state q.new.state }
{
    match claim_quiet(alloc, q) {
        Some(place) => end_code(place.quiet.is_some()),
        None => EMPTY,
    }
}

/// Gives up a history.
pub fn give_up_history(alloc: Global, h: &mut HistoryHandle) -> u32
    ensures { GivesUp result h.old.state h.new.state }
{
    match claim_history(alloc, h) {
        Some(place) => end_code(place.history.is_some()),
        None => EMPTY,
    }
}

/// The history of a gathered node, as `Gathered::history` and `Gathered::left_over` return it. `out` has it then.
///
/// `out` must be empty: it returns 10 if it is not.
pub fn gathered_history(alloc: Global, g: &mut GatheredHandle, out: &mut HistoryHandle) -> u32
    ensures tells { HandleTells result (value_behind g.old.state) IsHistoryOf out.old.state out.new.state }
    ensures same { g.new.state ≡ g.old.state }
{
    let Some(place) = claim_gathered(alloc, g) else {
        return EMPTY;
    };
    let code = match &place.gathered {
        Some(_) if has_history(alloc, out) => FILLED,
        Some(gathered) => match history_of(gathered) {
            Ok(history) => match spare_history(alloc) {
                Ok(empty) => {
                    *out = filled_history(empty, history);
                    DONE
                }
                Err(_) => MEMORY,
            },
            Err(_) => MEMORY,
        },
        None => EMPTY,
    };
    *g = hold_gathered(place);
    code
}

fn history_of(gathered: &Gathered) -> Result<History, AllocError>
    ensures { IfOk result (λ h. IsHistoryOf gathered.now h) }
{
    Ok(History {
        events: gathered.history()?,
        left: gathered.left_over()?,
    })
}

/// The history of a settled node, as `Settled::history` returns it. `out` has it then, with no letter left over.
///
/// `out` must be empty: it returns 10 if it is not.
pub fn quiet_history(alloc: Global, q: &mut QuietHandle, out: &mut HistoryHandle) -> u32
    ensures tells { HandleTells result (value_behind q.old.state) IsHistoryOfQuiet out.old.state out.new.state }
    ensures same { q.new.state ≡ q.old.state }
{
    let Some(place) = claim_quiet(alloc, q) else {
        return EMPTY;
    };
    let code = match &place.quiet {
        Some(node) => tell_settled(alloc, node.settled(), out),
        None => EMPTY,
    };
    *q = hold_quiet(place);
    code
}

fn tell_settled(alloc: Global, settled: &Settled, out: &mut HistoryHandle) -> u32
    ensures { Writes result (IsQuietHistoryOf settled.now) out.old.state out.new.state }
{
    if has_history(alloc, out) {
        return FILLED;
    }
    match settled.history() {
        Ok(events) => match spare_history(alloc) {
            Ok(place) => {
                let left = Vec::new(alloc);
                *out = filled_history(place, History { events, left });
                DONE
            }
            Err(_) => MEMORY,
        },
        Err(_) => MEMORY,
    }
}
