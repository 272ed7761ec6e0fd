//! Gathering: the desks of a node are brought together.

ghost use Rattle.std.specs.Prelude.{◌≡◌, ◌*◌, ◌≤◌, [], length, map, IfOk, IfErr, vec_len};
ghost use Rattle.std.specs.Vec.{vec_capacity};
ghost use Rattle.pt_carrier.specs.Node.{lists};
ghost use Rattle.pt_carrier.specs.declared.reunion.Cause.{Cause};
ghost use Rattle.pt_gathered.specs.Lawful.{LanesKeep, KeepsHeadline, IsLegalNode, AnswersHold};
ghost use Rattle.pt_desk.specs.DeskState.{DeskState};
ghost use Rattle.pt_workers.specs.Desks.{AreDesks, desk_kept};
ghost use Rattle.pt_node.specs.Gathering.{Gathers, HasJournalsOf, ReadsAreTrue};
ghost use Rattle.pt_node.specs.Pasts.{GathersPast, GathersOutline};

use crate::making::{look, make_whole, take_apart};
use crate::seating::{Seated, audit_all};
use pt_accounts::DeskLives;
use pt_carrier::{Cause, Ins, Outs, reunite};
use pt_desk::Desk;
use pt_gathered::{Gathered, Lane, laws_of};
use pt_shard::Shard;
use pt_signal::Letter;
use std::alloc::{AllocError, Global};
use std::fmt;
use std::marker::Model;

/// The desks of a call of [`gather`] that failed.
///
/// They cannot be dropped: take them out, or abandon them. So this is no [`Error`](std::error::Error), which can be
/// dropped, but its [`cause`](DesksBack::cause) is one.
pub struct DesksBack {
    desks: Vec<Desk>,
}

impl fmt::Display for DesksBack {
    fn fmt<W: fmt::Write>(&self, f: &mut fmt::Formatter<W>) -> fmt::Result {
        write!(f, "the desks come back: {}", self.cause())
    }
}

impl Model for DesksBack {
    ghost use Rattle.std.specs.Prelude.{List};
    ghost use Rattle.pt_desk.specs.DeskState.{DeskState};

    ghost Value = { List DeskState };

    ghost view = { λ b. b.desks.items };
}

impl DesksBack {
    /// Why the desks come back.
    pub fn cause(&self) -> Cause
        ensures { result ≡ Cause.Memory }
    {
        Cause::Memory
    }

    /// The desks, in order.
    pub fn into_desks(self) -> Vec<Desk>
        ensures { result.items ≡ self }
    {
        let DesksBack { desks } = self;
        desks
    }

    /// Gives up the desks, with their processes, their journals and the letters between them.
    pub fn abandon(self) {
        let DesksBack { desks } = self;
        abandon(desks);
    }
}

/// Gives up desks, with their processes, their journals and the letters between them. No process is notified.
///
/// A desk cannot be dropped. So a program that has desks and does not gather them, as after an error of its own, calls
/// this. The desks need not be all those of a node. It takes no memory, and nothing is claimed of what was given up.
pub fn abandon(desks: Vec<Desk>) {
    let mut desks = desks;
    while let Some(desk) = desks.pop() {
        let (_shard, outs, ins, _directory, _seat, _before) = desk.apart();
        outs.close();
        ins.close();
    }
    desks.destroy_empty();
}

/// The lists that desks are taken apart into, the list of their lanes, and the lengths of their journals.
struct Room {
    lanes: Vec<Lane>,
    shards: Vec<Shard>,
    seats: Vec<Seated>,
    tables: Vec<DeskLives>,
    written: Vec<usize>,
    pairs: Vec<(Outs, Ins)>,
}

/// How many events the journal of each desk has.
fn written_on(alloc: Global, desks: &[Desk]) -> Result<Vec<usize>, AllocError>
    ensures { IfOk result (λ v. v.items ≡ map (λ (d : DeskState). length d.shard.journal) desks.now) }
{
    let mut written = Vec::with_capacity(alloc, desks.len())?;
    for which in 0..desks.len() {
        written.push(desks[which].journal().events().len())?;
    }
    Ok(written)
}

/// Takes the memory for these desks, of which there are so many: the lists that they go into are empty, and have room for
/// all of them.
fn take_room(alloc: Global, number: u8, desks: &[Desk]) -> Result<Room, AllocError>
    ensures lanes { IfOk result
        (λ room. (room.lanes.items ≡ []) × (number * number ≤ vec_capacity room.lanes)) }
    ensures shards { IfOk result (λ room. (room.shards.items ≡ []) × (number ≤ vec_capacity room.shards)) }
    ensures seats { IfOk result (λ room. (room.seats.items ≡ []) × (number ≤ vec_capacity room.seats)) }
    ensures tables { IfOk result (λ room. (room.tables.items ≡ []) × (number ≤ vec_capacity room.tables)) }
    ensures pairs { IfOk result (λ room. (room.pairs.items ≡ []) × (number ≤ vec_capacity room.pairs)) }
    ensures written { IfOk result
        (λ room. room.written.items ≡ map (λ (d : DeskState). length d.shard.journal) desks.now) }
{
    let count = usize::from(number);
    Ok(Room {
        lanes: Vec::with_capacity(alloc, count * count)?,
        shards: Vec::with_capacity(alloc, count)?,
        seats: Vec::with_capacity(alloc, count)?,
        tables: Vec::with_capacity(alloc, count)?,
        written: written_on(alloc, desks)?,
        pairs: Vec::with_capacity(alloc, count)?,
    })
}

/// Brings the desks of a node together: all desks of one [`open`](crate::open), or of one [`resume`](crate::resume),
/// each once and in order.
///
/// The journals are those of the desks, event for event. For any two desks, the letters that one sent to the other are
/// those that arrived there, one for one and in order, followed by those left over. So these hold for any calls on the
/// desks, in any order and by any threads:
///
/// - A mailbox's messages from one sender are that sender's messages to it, in order and each once. They run from the
///   process's birth to its exit or to the letters left over.
/// - No item enters a mailbox after the exit of its process.
/// - The items taken and the items waiting are together the arrivals.
/// - A monitor gives at most one `DOWN`, and none after its demonitor.
/// - Each answer to the question whether a process is alive is true. All that the asker had sent the process before
///   arrived first.
/// - If a call failed because a desk saw that its target had exited, the target had exited.
///
/// The node also keeps the directory of exited processes, which takes its memory until the node is resumed or dropped. So
/// [`resume`](crate::resume) and its variants go on in that directory, and need not make a new one.
///
/// Time and memory grow with the number of lanes and with the letters left over in them. Processes, slots and events cost
/// nothing. It waits for no thread.
///
/// Fails only if there is no memory: all desks then come back in order, as they were, each with its place in the
/// directory. Only what the two ends of a lane know of each other may be more, which no call shows.
pub fn gather(alloc: Global, desks: Vec<Desk>) -> Result<Gathered, DesksBack>
    requires { AreDesks desks.items }
    ensures gathers { IfOk result (λ g. Gathers desks.items g) }
    ensures journals { IfOk result (λ g. HasJournalsOf desks.items g) }
    ensures lanes { IfOk result (λ g. LanesKeep g) }
    ensures headline { IfOk result (λ g. KeepsHeadline g) }
    ensures legal { IfOk result (λ g. IsLegalNode g) }
    ensures answers { IfOk result (λ g. AnswersHold g) }
    ensures reads { IfOk result (λ g. ReadsAreTrue desks.items g) }
    ensures past { IfOk result (λ g. GathersPast desks.items g) }
    ensures outline { IfOk result (λ g. GathersOutline desks.items g) }
    ensures back { IfErr result (λ b. map desk_kept b ≡ map desk_kept desks.items) }
{
    look(desks.as_slice());
    let mut desks = desks;
    let config = desks[0].config();
    let Ok(room) = take_room(alloc, config.desks, desks.as_slice()) else {
        return Err(DesksBack { desks });
    };
    let Room {
        mut lanes,
        mut shards,
        mut seats,
        mut tables,
        written,
        mut pairs,
    } = room;
    take_apart(&mut desks, &mut pairs, &mut shards, &mut seats, &mut tables);
    match reunite(alloc, pairs) {
        Ok(left) => {
            desks.destroy_empty();
            fill(left.lanes, &mut lanes);
            let kept = audit_all(seats, written);
            let gathered = Gathered::of(alloc, config, shards, lanes, tables, kept);
            laws_of(&gathered);
            Ok(gathered)
        }
        Err(back) => {
            make_whole(back.into_ends(), shards, seats, tables, &mut desks);
            Err(DesksBack { desks })
        }
    }
}

/// The lists of the letters left over, as lanes.
fn fill(left: Vec<Vec<Letter>>, lanes: &mut Vec<Lane>)
    requires { (lanes.old.items ≡ []) × (vec_len left ≤ vec_capacity lanes.old) }
    ensures { lanes.new.items ≡ lists left.items }
{
    let mut left = left;
    left.reverse();
    while let Some(letters) = left.pop() {
        lanes.push_reserved(Lane::of(letters));
    }
}
