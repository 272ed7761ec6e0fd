//! Resuming a quiet node, or one that is settled and has no list of its processes.

ghost use Rattle.std.specs.Prelude.{◌≡◌, ◌≤◌, ◌<◌, ℕ, List, [], length, map, slice_index_or, IfErr, IfOk, IfSome, vec_len};
ghost use Rattle.std.specs.Arc.{arc_value};
ghost use Rattle.std.specs.Vec.{vec_capacity};
ghost use Rattle.pt_signal.specs.declared.config.TheConstants.{MAX_STAMP};
ghost use Rattle.pt_signal.specs.Settings.{IsInRange};
ghost use Rattle.pt_directory.specs.Seats.{AreEnded};
ghost use Rattle.pt_shard.specs.Begun.{Every};
ghost use Rattle.pt_shard.specs.Restart.{restarted};
ghost use Rattle.pt_accounts.specs.DeskLives.{all_forgotten};
ghost use Rattle.pt_gathered.specs.Keeping.{IsKeptFor};
ghost use Rattle.pt_gathered.specs.Quiet.{latest_stamp};
ghost use Rattle.pt_desk.specs.DeskState.{DeskState};
ghost use Rattle.pt_desk.specs.Forgetting.{forgetful_desk};
ghost use Rattle.pt_node.specs.Seating.{Seated, AreFreshSeats, AreReady};
ghost use Rattle.pt_node.specs.Resuming.{AreNewPairs, AreResumed, Resumes, ResumesForgetful};

use crate::making::make_whole;
use crate::seating::{Seated, fresh_seats, kept_seats};
use pt_accounts::DeskLives;
use pt_carrier::{Ins, Outs};
use pt_desk::Desk;
use pt_gathered::{Kept, Quiet, Settled};
use pt_shard::{Config, Shard};
use pt_signal::Pid;
use std::alloc::{AllocError, Global};
use std::error::Error;
use std::fmt;

/// The quiet node of a call of [`resume`] that failed, since there was no memory.
#[derive(Drop)]
pub struct Resting {
    /// The node, as it was.
    pub quiet: Quiet,
}

impl fmt::Debug for Resting {
    fn fmt<W: fmt::Write>(&self, f: &mut fmt::Formatter<W>) -> fmt::Result {
        write!(f, "Resting {{ .. }}")
    }
}

impl fmt::Display for Resting {
    fn fmt<W: fmt::Write>(&self, f: &mut fmt::Formatter<W>) -> fmt::Result {
        write!(f, "there was no memory to go on from the quiet node")
    }
}

impl Error for Resting {}

/// The memory that resuming takes: the lanes, the seats in a directory of exited processes, and the lists of shards and
/// of desks, which are empty.
struct Room {
    pairs: Vec<(Outs, Ins)>,
    seats: Vec<Seated>,
    shards: Vec<Shard>,
    desks: Vec<Desk>,
}

/// Continues from a quiet node: returns its desks, in order, with empty journals over what their histories left behind.
///
/// The processes are as they were. A live process keeps its links, open monitors, watchers, flag and waiting items. An
/// exited process stays exited for ever: its exit and its reason are known, and nothing is left of what it held. The
/// versions of each slot continue from its last one, and a retired slot stays retired. The clocks of all desks begin at
/// the greatest stamp of the history. If it has no event, they begin as they did before. So all that is made from here
/// on is new. The lanes are new.
///
/// What holds for an opened node holds for this one, with what was before as its start: it may be gathered, settled and
/// resumed again. All that happened on the node since its first opening, over any number of resumptions, is one legal
/// history, and the desks continue from it. The quiet node is used up with its journals: take its
/// [`history`](Quiet::history) before, if it is to be kept.
///
/// The directory of exited processes is the one that [`gather`](crate::gather) kept. It has the exits that came before
/// gathering, and is told only of those that settling brought, which are found by the receipts that settling wrote. So
/// time and memory grow with what happened since the desks were opened or resumed last, and with the number of desks. A
/// slot that did not change since then costs nothing, whether a process lives there or not.
///
/// Fails only if there is no memory: the quiet node then comes back, as it was. The directory that was kept is dropped,
/// so the next call makes a new one with the latest exit of each slot. Time and memory of that call grow with the live
/// processes and the slots too, but never with all processes that ever were.
pub fn resume(alloc: Global, quiet: Quiet) -> Result<Vec<Desk>, Resting>
    ensures resumes { IfOk result (λ desks. Resumes quiet.gathered desks.items) }
    ensures resting { IfErr result (λ back. back.quiet ≡ quiet) }
{
    let mut quiet = quiet;
    let kept = quiet.take_kept();
    let start = quiet.settled().clock();
    match prepare(alloc, quiet.settled(), start, kept) {
        Ok(room) => Ok(go_on(quiet.into_settled(), start, room)),
        Err(_) => Err(Resting { quiet }),
    }
}

/// Continues from a settled node, which needs no list of its processes, as [`resume`] does from a quiet node: the desks
/// are those that `resume` makes of the quiet node with the same history.
///
/// Time and memory are those of `resume`: in the directory that [`gather`](crate::gather) kept they grow with what
/// happened since the desks were opened or resumed last, and with the number of desks.
///
/// Fails only if there is no memory: the settled node then comes back, as it was. The directory that was kept is dropped,
/// so the next call makes a new one, and its time and memory grow with the live processes and the slots too.
pub fn resume_settled(alloc: Global, settled: Settled) -> Result<Vec<Desk>, Settled>
    ensures resumes { IfOk result (λ desks. Resumes settled.gathered desks.items) }
    ensures resting { IfErr result (λ back. back ≡ settled) }
{
    let mut settled = settled;
    let kept = settled.take_kept();
    let start = settled.clock();
    match prepare(alloc, &settled, start, kept) {
        Ok(room) => Ok(go_on(settled, start, room)),
        Err(_) => Err(settled),
    }
}

/// Continues from a settled node as [`resume_settled`] does, and forgets why its processes exited: each exited process
/// stays exited for ever, but its reason is [`Reason::Noproc`](pt_signal::Reason::Noproc) from now on. That is what a
/// monitor of it is told anyway. So of all processes that a slot ever had only their number is kept, in one entry of 12
/// bytes beside the room for a second, also if each exited for a reason of its own.
///
/// Nothing else is forgotten: what lives, what it holds, whether a process was ever spawned, and whether it exited. All
/// laws of quiet nodes hold as before. The desks continue from the same history, but for the reasons in it
/// (`ResumesForgetful`).
///
/// It takes the memory of `resume_settled`, and its time with a look at each slot that was ever used.
///
/// Fails only if there is no memory: the settled node then comes back, as it was, and has forgotten nothing. The
/// directory that was kept is dropped, so the next call makes a new one, as after a `resume_settled` that failed.
pub fn resume_forgetting(alloc: Global, settled: Settled) -> Result<Vec<Desk>, Settled>
    ensures resumes { IfOk result (λ desks. ResumesForgetful settled.gathered desks.items) }
    ensures resting { IfErr result (λ back. back ≡ settled) }
{
    let mut desks = resume_settled(alloc, settled)?;
    forget_reasons(desks.as_mut_slice());
    Ok(desks)
}

/// Makes each desk forget why processes exited before its journal, which is empty.
fn forget_reasons(desks: &mut [Desk])
    requires { (d : ℕ) (x : DeskState) → d < length desks.old → (slice_index_or desks.old d x).shard.journal ≡ [] }
    ensures { desks.new ≡ map forgetful_desk desks.old }
{
    for which in 0..desks.len() {
        desks[which].forget_reasons();
    }
}

/// Takes all memory that it needs to resume a settled node at this stamp, its latest: in the directory that was kept, or
/// in a new one if none was.
fn prepare(
    alloc: Global,
    settled: &Settled,
    start: u64,
    kept: Option<Kept>,
) -> Result<Room, AllocError>
    requires latest { start ≡ latest_stamp settled.now.gathered }
    requires within { start ≤ MAX_STAMP }
    requires kept { IfSome kept (λ k. IsKeptFor settled.now.gathered k) }
    ensures pairs { IfOk result (λ room. AreNewPairs settled.now.gathered.config.desks settled.now.gathered.config.lane
        room.pairs.items) }
    ensures seats { IfOk result
        (λ room. AreReady (map (restarted start) settled.now.gathered.shards) (map all_forgotten settled.now.lives)
        (map (λ p. (arc_value p.0, p.1)) room.seats.items)) }
    ensures shards { IfOk result (λ room. (room.shards.items ≡ [])
        × (length settled.now.gathered.shards ≤ vec_capacity room.shards)) }
    ensures desks { IfOk result (λ room. (room.desks.items ≡ [])
        × (length settled.now.gathered.shards ≤ vec_capacity room.desks)) }
{
    match kept {
        Some(kept) => prepare_kept(alloc, settled, start, kept),
        None => prepare_anew(alloc, settled, start),
    }
}

/// Takes all memory that it needs to resume a settled node at this stamp, its latest, in the directory that was kept. The
/// directory is told only of the exits since the node was gathered, as those before were told when they happened.
fn prepare_kept(
    alloc: Global,
    settled: &Settled,
    start: u64,
    kept: Kept,
) -> Result<Room, AllocError>
    requires latest { start ≡ latest_stamp settled.now.gathered }
    requires within { start ≤ MAX_STAMP }
    requires kept { IsKeptFor settled.now.gathered kept }
    ensures pairs { IfOk result (λ room. AreNewPairs settled.now.gathered.config.desks settled.now.gathered.config.lane
        room.pairs.items) }
    ensures seats { IfOk result
        (λ room. AreReady (map (restarted start) settled.now.gathered.shards) (map all_forgotten settled.now.lives)
        (map (λ p. (arc_value p.0, p.1)) room.seats.items)) }
    ensures shards { IfOk result (λ room. (room.shards.items ≡ [])
        × (length settled.now.gathered.shards ≤ vec_capacity room.shards)) }
    ensures desks { IfOk result (λ room. (room.desks.items ≡ [])
        × (length settled.now.gathered.shards ≤ vec_capacity room.desks)) }
{
    // read for the proof alone: whose processes the desks had, and where their clocks stand
    settled.versions();
    let _clock = settled.clock();
    let config = Config {
        start,
        ..settled.config()
    };
    let late = settled.ends_since(kept.written(), start)?;
    let seats = kept_seats(alloc, settled.desks(), kept, late.as_slice())?;
    take_rest(alloc, config, settled.desks(), seats)
}

/// Takes all memory that it needs to resume a settled node at this stamp, its latest, in a new directory. The directory is
/// told of the latest exit of each slot.
fn prepare_anew(alloc: Global, settled: &Settled, start: u64) -> Result<Room, AllocError>
    requires latest { start ≡ latest_stamp settled.now.gathered }
    requires within { start ≤ MAX_STAMP }
    ensures pairs { IfOk result (λ room. AreNewPairs settled.now.gathered.config.desks settled.now.gathered.config.lane
        room.pairs.items) }
    ensures seats { IfOk result
        (λ room. AreReady (map (restarted start) settled.now.gathered.shards) (map all_forgotten settled.now.lives)
        (map (λ p. (arc_value p.0, p.1)) room.seats.items)) }
    ensures shards { IfOk result (λ room. (room.shards.items ≡ [])
        × (length settled.now.gathered.shards ≤ vec_capacity room.shards)) }
    ensures desks { IfOk result (λ room. (room.desks.items ≡ [])
        × (length settled.now.gathered.shards ≤ vec_capacity room.desks)) }
{
    // read for the proof alone: whose processes the desks had
    settled.versions();
    let config = Config {
        start,
        ..settled.config()
    };
    let ended = settled.latest_ends(start)?;
    take_room(alloc, config, settled.desks(), ended.as_slice())
}

/// Takes the memory for so many desks of a node with these settings, in whose directory these processes have exited.
fn take_room(
    alloc: Global,
    config: Config,
    desks: u8,
    ended: &[(Pid, u64)],
) -> Result<Room, AllocError>
    requires range { IsInRange config }
    requires ended { AreEnded config.desks config.slots ended.now }
    ensures pairs { IfOk result (λ room. AreNewPairs config.desks config.lane room.pairs.items) }
    ensures seats { IfOk result
        (λ room. AreFreshSeats config ended.now (map (λ p. (arc_value p.0, p.1)) room.seats.items)) }
    ensures shards { IfOk result (λ room. (room.shards.items ≡ []) × (desks ≤ vec_capacity room.shards)) }
    ensures desks { IfOk result (λ room. (room.desks.items ≡ []) × (desks ≤ vec_capacity room.desks)) }
{
    let seats = fresh_seats(alloc, config, ended)?;
    take_rest(alloc, config, desks, seats)
}

/// Takes the memory for so many desks of a node with these settings, beside their seats.
fn take_rest(
    alloc: Global,
    config: Config,
    desks: u8,
    seats: Vec<Seated>,
) -> Result<Room, AllocError>
    requires range { IsInRange config }
    ensures pairs { IfOk result (λ room. AreNewPairs config.desks config.lane room.pairs.items) }
    ensures seats { IfOk result (λ room. ◌≡◌ {A = List Seated} (map (λ p. (arc_value p.0, p.1)) room.seats.items)
        (map (λ p. (arc_value p.0, p.1)) seats.items)) }
    ensures shards { IfOk result (λ room. (room.shards.items ≡ []) × (desks ≤ vec_capacity room.shards)) }
    ensures desks { IfOk result (λ room. (room.desks.items ≡ []) × (desks ≤ vec_capacity room.desks)) }
{
    let count = usize::from(desks);
    let shards = Vec::with_capacity(alloc, count)?;
    let mut desks = Vec::with_capacity(alloc, count)?;
    let Ok(pairs) = pt_carrier::open(alloc, config.desks, config.lane) else {
        desks.destroy_empty();
        return Err(AllocError);
    };
    Ok(Room {
        pairs,
        seats,
        shards,
        desks,
    })
}

/// Makes the desks of a settled node that is resumed at this stamp, its latest. It takes no memory.
fn go_on(settled: Settled, start: u64, room: Room) -> Vec<Desk>
    requires latest { start ≡ latest_stamp settled.gathered }
    requires within { start ≤ MAX_STAMP }
    requires pairs { AreNewPairs settled.gathered.config.desks settled.gathered.config.lane room.pairs.items }
    requires seats { AreReady (map (restarted start) settled.gathered.shards) (map all_forgotten settled.lives)
        (map (λ p. (arc_value p.0, p.1)) room.seats.items) }
    requires shards { (room.shards.items ≡ []) × (length settled.gathered.shards ≤ vec_capacity room.shards) }
    requires desks { (room.desks.items ≡ []) × (length settled.gathered.shards ≤ vec_capacity room.desks) }
    ensures { AreResumed settled.gathered start result.items }
{
    let Room {
        pairs,
        seats,
        mut shards,
        mut desks,
    } = room;
    // read for the proof alone: what the desks leave behind, whose processes they had, and where their clocks stand
    settled.laws();
    settled.versions();
    let _desks = settled.desks();
    let _clock = settled.clock();
    let (_config, old, mut tables) = settled.into_parts();
    restart_all(old, start, &mut shards);
    forget_all(tables.as_mut_slice());
    make_whole(pairs, shards, seats, tables, &mut desks);
    desks
}

/// Restarts each shard at this stamp, in order.
fn restart_all(old: Vec<Shard>, start: u64, shards: &mut Vec<Shard>)
    requires later { Every (λ s. s.clock ≤ start) old.items }
    requires within { start ≤ MAX_STAMP }
    requires room { (shards.old.items ≡ []) × (vec_len old ≤ vec_capacity shards.old) }
    ensures { shards.new.items ≡ map (restarted start) old.items }
{
    let mut old = old;
    old.reverse();
    while let Some(shard) = old.pop() {
        shards.push_reserved(shard.restart(start));
    }
}

/// Makes each table forget what the exited processes held.
fn forget_all(tables: &mut [DeskLives])
    ensures { tables.new ≡ map all_forgotten tables.old }
{
    for which in 0..tables.len() {
        tables[which].forget();
    }
}
