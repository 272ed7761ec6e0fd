//! The words, and the calls over them.

ghost use Rattle.std.specs.Prelude.{◌≡◌, ◌*◌, ◌<◌, ◌≤◌, [], ◌∷◌, length, map, replicate, None, IfOk, IsSome};
ghost use Rattle.pt_directory.specs.Views.{new_read, deaths_at, last_version, last_stamp, IsHomeOf, with_stamp};
ghost use Rattle.pt_directory.specs.Views.{with_begun, finished_view, LastRead, up_from, fresh_view};
ghost use Rattle.pt_directory.specs.Rule.{version_word, LoadsVersion};
ghost use Rattle.pt_directory.specs.Seats.{HasWordsFor, DeathIsBegun, add_death, death_of, Probes, HasReadOf, HasToldOf};
ghost use Rattle.pt_directory.specs.Seats.{join_seats, IsAudited, new_seat, reopened_seat, AreEnded, mark_seat};
ghost use Rattle.pt_directory.specs.Seats.{first_seat, later_seat, AreLate, late_seat, tell_one, with_deaths};

use crate::rule::{
    Audit, DirectoryRule, JoinViews, LoadDeath, LoadTold, LoadVersion, Mark, Numbers, RenewHome,
    SplitHome, StoreDeath, StoreVersion,
};
use crate::seat::{Seat, TableSeat};
use crate::view::{Shape, View};
use atomic_table::Table;
use pt_signal::Pid;
use std::alloc::{AllocError, Global};
use std::marker::{Brand, Model};

/// The words, under the rule.
type Words = Table<(), View, Shape, DirectoryRule, Global>;

/// Which pids of a node have ended: two words for each slot of each desk.
///
/// The first is the greatest version of the slot that has ended, the second the stamp of the slot's latest death; both
/// begin at 0. A death stores its stamp first, so who sees the version sees the stamp too, or a later one.
#[derive(Drop)]
pub struct Directory {
    table: Words,
    desks: u8,
    slots: u32,
}

impl Model for Directory {
    ghost use Rattle.std.specs.Prelude.{◌≡◌, ◌*◌, ◌<◌};
    ghost use Rattle.pt_directory.specs.Seats.{DirectoryState};

    ghost Value = { DirectoryState };

    ghost view = { λ d. record { name = d.table.shared.table_id; desks = d.desks; slots = d.slots } };

    ghost invariant = { λ d. (d.table.shared.key.desks ≡ d.desks) × (d.table.shared.key.slots ≡ d.slots)
        × (d.table.shared.table_id.words ≡ 2 * (d.desks * d.slots)) × (0 < d.desks) × (0 < d.slots) };
}

impl Directory {
    /// A directory for so many desks, each with so many slots, and the seats of the desks in order.
    ///
    /// No pid has ended yet. There is at least one desk, and one slot. Memory is the only refusal.
    pub fn open(alloc: Global, desks: u8, slots: u32) -> Result<(Directory, Vec<Seat>), AllocError>
        requires desks { 0 < desks }
        requires slots { 0 < slots }
        ensures shape { IfOk result (λ r. (r.0.desks ≡ desks) × (r.0.slots ≡ slots)) }
        ensures seats { IfOk result (λ r. r.1.items ≡ map (new_seat r.0.name) (up_from 0 desks)) }
    {
        let mut seats = Vec::with_capacity(alloc, usize::from(desks))?;
        let (table, mut rest) = with_one_seat(alloc, desks, slots)?;
        for _desk in 0..desks {
            let inner = table.shared.split_seat::<SplitHome>(&mut rest);
            seats.push_reserved(Seat { inner });
        }
        let directory = Directory {
            table,
            desks,
            slots,
        };
        Ok((directory, seats))
    }

    /// A directory in which these pids have ended, each at its stamp, and the seats of the desks in order.
    ///
    /// Each seat has told of the pids of its desk, in the order given. Of one slot there is at most one pid, and its
    /// version and stamp are not 0. Otherwise as [`Directory::open`].
    pub fn reopen(
        alloc: Global,
        desks: u8,
        slots: u32,
        ended: &[(Pid, u64)],
    ) -> Result<(Directory, Vec<Seat>), AllocError>
        requires desks { 0 < desks }
        requires slots { 0 < slots }
        requires ended { AreEnded desks slots ended.now }
        ensures shape { IfOk result (λ r. (r.0.desks ≡ desks) × (r.0.slots ≡ slots)) }
        ensures seats { IfOk result (λ r. r.1.items ≡ map (reopened_seat r.0.name ended.now) (up_from 0 desks)) }
    {
        let (directory, mut seats) = Directory::open(alloc, desks, slots)?;
        for entry in ended {
            let (pid, stamp) = *entry;
            let seat = &mut seats[usize::from(pid.shard)];
            directory.had_ended(seat, pid, stamp);
        }
        Ok((directory, seats))
    }

    /// Has this pid ended? Where it is seen to, the answer is a stamp that is not below that of its death.
    ///
    /// It always is, where the pid is of the seat's own desk, and where the seat saw it before. The slot is one that
    /// the directory has, and the version not 0. It takes no memory and waits for nobody.
    pub fn probe(&self, seat: &mut Seat, pid: Pid) -> Option<u64>
        requires seat { seat.old.name ≡ self.now.name }
        requires pid { HasWordsFor self.now pid × (0 < pid.version) }
        ensures read { Probes pid seat.old result seat.new }
        ensures again { HasReadOf pid seat.old → IsSome result }
        ensures own { HasToldOf pid seat.old → IsSome result }
    {
        let version = self.load_version::<Brand>(&mut seat.inner, pid);
        if version < u64::from(pid.version) {
            return None;
        }
        Some(self.load_death(&mut seat.inner, pid, version))
    }

    /// Tells all seats that a pid of this seat's desk has ended, at this stamp.
    ///
    /// The desk is the seat's only home. Version and stamp are above those of the last death that it told of the slot.
    /// It takes no memory and waits for nobody.
    pub fn ended(&self, seat: &mut Seat, pid: Pid, stamp: u64)
        requires seat { (seat.old.name ≡ self.now.name) × (seat.old.homes ≡ pid.shard ∷ []) }
        requires pid { HasWordsFor self.now pid }
        requires version { last_version (deaths_at pid.shard pid.slot seat.old.deaths) < pid.version }
        requires stamp { last_stamp (deaths_at pid.shard pid.slot seat.old.deaths) < stamp }
        ensures { seat.new ≡ add_death (death_of pid stamp) seat.old }
    {
        self.store_death::<Brand>(&mut seat.inner, pid, stamp);
        self.store_version(&mut seat.inner, pid);
    }

    /// Tells all seats that a pid of this seat's desk had ended by this stamp, and marks all that the seat told.
    ///
    /// The desk is the seat's only home. The version is above that of the last death that it told of the slot, and the
    /// stamp not below. It takes no memory and waits for nobody.
    pub fn had_ended(&self, seat: &mut Seat, pid: Pid, stamp: u64)
        requires seat { (seat.old.name ≡ self.now.name) × (seat.old.homes ≡ pid.shard ∷ []) }
        requires pid { HasWordsFor self.now pid }
        requires version { last_version (deaths_at pid.shard pid.slot seat.old.deaths) < pid.version }
        requires stamp { last_stamp (deaths_at pid.shard pid.slot seat.old.deaths) ≤ stamp }
        ensures { seat.new ≡ mark_seat (add_death (death_of pid stamp) seat.old) }
    {
        let inner = &mut seat.inner;
        self.store_death::<Brand>(inner, pid, stamp);
        self.store_version(inner, pid);
        self.table.shared.load::<Mark>(inner, 0);
    }

    /// The greatest version of the pid's slot whose end this seat has told, or 0. The slot's desk is the seat's only
    /// home. It takes no memory and waits for nobody.
    pub fn told(&self, seat: &mut Seat, pid: Pid) -> u64
        requires seat { (seat.old.name ≡ self.now.name) × (seat.old.homes ≡ pid.shard ∷ []) }
        requires pid { HasWordsFor self.now pid }
        ensures same { seat.new ≡ seat.old }
        ensures told { result ≡ last_version (deaths_at pid.shard pid.slot seat.old.deaths) }
    {
        self.load_told::<Brand>(&mut seat.inner, pid)
    }

    /// Splits off the home of the seat's first desk, with all that the seat told of that desk, and marks it.
    ///
    /// The new seat has read nothing. The old one keeps its other desks and what it read. So the seats of a node whose
    /// desks were joined are made anew, over the same directory. It takes no memory.
    pub fn renew(&self, seat: &mut Seat) -> Seat
        requires seat { seat.old.name ≡ self.now.name }
        requires home { 0 < length seat.old.homes }
        ensures first { result ≡ first_seat seat.old }
        ensures rest { seat.new ≡ later_seat seat.old }
    {
        let inner = self.table.shared.split_seat::<RenewHome>(&mut seat.inner);
        Seat { inner }
    }

    /// The seats of the desks in order, made anew of one that knows all that they knew, in the same directory. Of these
    /// pids each is told that was not told yet, at its stamp.
    ///
    /// Each seat has told what was told of its desk before, and marked it. It has read nothing. The stamps are all the
    /// same, and no death told before has a greater one. Time and memory grow with the desks and the pids, and not with
    /// the slots.
    pub fn go_on(
        &self,
        alloc: Global,
        seat: Seat,
        ended: &[(Pid, u64)],
    ) -> Result<Vec<Seat>, AllocError>
        requires seat { (seat.name ≡ self.now.name) × (seat.homes ≡ up_from 0 self.now.desks) }
        requires ended { AreLate self.now seat.deaths ended.now }
        ensures { IfOk result
            (λ r. r.items ≡ map (late_seat self.now.name seat.deaths ended.now) (up_from 0 self.now.desks)) }
    {
        let mut seats = self.renew_all(alloc, seat)?;
        for entry in ended {
            let (pid, stamp) = *entry;
            let seat = &mut seats[usize::from(pid.shard)];
            self.tell_late(seat, pid, stamp);
        }
        Ok(seats)
    }

    /// The seats of the desks in order, made anew.
    fn renew_all(&self, alloc: Global, seat: Seat) -> Result<Vec<Seat>, AllocError>
        requires { (seat.name ≡ self.now.name) × (seat.homes ≡ up_from 0 self.now.desks) }
        ensures { IfOk result
            (λ r. r.items ≡ map (late_seat self.now.name seat.deaths []) (up_from 0 self.now.desks)) }
    {
        let mut rest = seat;
        let mut seats = Vec::with_capacity(alloc, usize::from(self.desks))?;
        for _desk in 0..self.desks {
            seats.push_reserved(self.renew(&mut rest));
        }
        Ok(seats)
    }

    /// Tells that a pid had ended, if its end was not told yet.
    fn tell_late(&self, seat: &mut Seat, pid: Pid, stamp: u64)
        requires seat { (seat.old.name ≡ self.now.name) × (seat.old.homes ≡ pid.shard ∷ []) }
        requires pid { HasWordsFor self.now pid }
        requires marked { seat.old.marked ≡ seat.old.deaths }
        requires stamp { last_stamp (deaths_at pid.shard pid.slot seat.old.deaths) ≤ stamp }
        ensures { seat.new ≡ with_deaths (tell_one pid.shard (pid, stamp) seat.old.deaths) seat.old }
    {
        if self.told(seat, pid) < u64::from(pid.version) {
            self.had_ended(seat, pid, stamp);
        }
    }

    /// The seat takes in all that another knows, at the end of its own.
    pub fn join(&self, seat: &mut Seat, other: Seat)
        requires { (seat.old.name ≡ self.now.name) × (other.name ≡ self.now.name) }
        ensures { seat.new ≡ join_seats seat.old other }
    {
        let Seat { inner } = other;
        self.table
            .shared
            .join_seat::<JoinViews>(&mut seat.inner, inner);
    }

    /// Holds the seat's reads against the deaths that it told: those of all desks, once their seats have joined.
    ///
    /// Each read with a stamp, of a slot whose home the seat is, was of a version that has died, and neither its death
    /// nor that of an earlier version has a greater stamp.
    pub fn audit(&self, seat: &mut Seat)
        requires { seat.old.name ≡ self.now.name }
        ensures same { seat.new ≡ seat.old }
        ensures audited { IsAudited seat.old }
    {
        self.table.shared.load::<Audit>(&mut seat.inner, 0);
    }

    /// Where the version word of the pid's slot stands; its death word stands behind it.
    fn word(&self, pid: Pid) -> usize
        requires { HasWordsFor self.now pid }
        ensures { result ≡ version_word self.now.slots pid.shard pid.slot }
    {
        2 * (usize::from(pid.shard) * self.slots as usize + pid.slot as usize)
    }

    /// Loads the version word of the pid's slot, and adds that read.
    fn load_version<N: Numbers>(&self, seat: &mut TableSeat, pid: Pid) -> u64
        requires seat { seat.old.table_id ≡ self.now.name }
        requires pid { HasWordsFor self.now pid }
        requires numbers { (N.shard ≡ pid.shard) × (N.slot ≡ pid.slot) }
        ensures same { (seat.new.table_id ≡ seat.old.table_id) × (seat.new.id ≡ seat.old.id) }
        ensures read { LoadsVersion pid.shard pid.slot seat.old.me result seat.new.me }
    {
        self.table
            .shared
            .load::<LoadVersion<N>>(seat, self.word(pid))
    }

    /// Loads the version word of the pid's slot, of which the seat is the home.
    fn load_told<N: Numbers>(&self, seat: &mut TableSeat, pid: Pid) -> u64
        requires seat { seat.old.table_id ≡ self.now.name }
        requires pid { HasWordsFor self.now pid }
        requires numbers { (N.shard ≡ pid.shard) × (N.slot ≡ pid.slot) }
        requires home { IsHomeOf pid.shard seat.old.me.0 }
        ensures same { (seat.new.table_id ≡ seat.old.table_id) × (seat.new.id ≡ seat.old.id)
            × (seat.new.me ≡ seat.old.me) }
        ensures told { result ≡ last_version (deaths_at pid.shard pid.slot seat.old.me.0.deaths) }
    {
        self.table.shared.load::<LoadTold<N>>(seat, self.word(pid))
    }

    /// Loads the death word of the pid's slot; the stamp joins the last read, which is of that slot.
    fn load_death(&self, seat: &mut TableSeat, pid: Pid, version: u64) -> u64
        requires seat { seat.old.table_id ≡ self.now.name }
        requires pid { HasWordsFor self.now pid }
        requires read { LastRead (new_read pid.shard pid.slot version None) seat.old.me.0.reads }
        ensures same { (seat.new.table_id ≡ seat.old.table_id) × (seat.new.id ≡ seat.old.id) }
        ensures stamped { seat.new.me ≡ (with_stamp result seat.old.me.0, seat.old.me.1) }
    {
        self.table
            .shared
            .load::<LoadDeath>(seat, self.word(pid) + 1)
    }

    /// Stores the stamp of a death, which is begun by it.
    fn store_death<N: Numbers>(&self, seat: &mut TableSeat, pid: Pid, stamp: u64)
        requires seat { seat.old.table_id ≡ self.now.name }
        requires pid { HasWordsFor self.now pid }
        requires numbers { (N.shard ≡ pid.shard) × (N.slot ≡ pid.slot) × (N.version ≡ pid.version) }
        requires home { IsHomeOf pid.shard seat.old.me.0 × (seat.old.me.0.begun ≡ []) }
        requires version { last_version (deaths_at pid.shard pid.slot seat.old.me.0.deaths) < pid.version }
        requires stamp { last_stamp (deaths_at pid.shard pid.slot seat.old.me.0.deaths) ≤ stamp }
        ensures same { (seat.new.table_id ≡ seat.old.table_id) × (seat.new.id ≡ seat.old.id) }
        ensures begun { seat.new.me ≡ (with_begun (death_of pid stamp) seat.old.me.0, seat.old.me.1) }
    {
        self.table
            .shared
            .store::<StoreDeath<N>>(seat, self.word(pid) + 1, stamp);
    }

    /// Stores the version of the death that was begun, which is told whole by it.
    fn store_version(&self, seat: &mut TableSeat, pid: Pid)
        requires seat { seat.old.table_id ≡ self.now.name }
        requires pid { HasWordsFor self.now pid }
        requires begun { DeathIsBegun pid seat.old.me.0.begun }
        ensures same { (seat.new.table_id ≡ seat.old.table_id) × (seat.new.id ≡ seat.old.id) }
        ensures finished { seat.new.me ≡ (finished_view seat.old.me.0, seat.old.me.1) }
    {
        self.table
            .shared
            .store::<StoreVersion>(seat, self.word(pid), u64::from(pid.version));
    }
}

/// The words of so many slots, all 0, and a seat that is the home of all desks.
fn with_one_seat(alloc: Global, desks: u8, slots: u32) -> Result<(Words, TableSeat), AllocError>
    requires desks { 0 < desks }
    requires slots { 0 < slots }
    ensures key { IfOk result (λ r. (r.0.shared.key.desks ≡ desks) × (r.0.shared.key.slots ≡ slots)) }
    ensures words { IfOk result (λ r. r.0.shared.table_id.words ≡ 2 * (desks * slots)) }
    ensures seat { IfOk result (λ r. (r.1.table_id ≡ r.0.shared.table_id) × (r.1.me.0 ≡ fresh_view (up_from 0 desks))) }
{
    let shape = Shape {
        desks: u64::from(desks),
        slots: u64::from(slots),
    };
    let zeros = zeros(alloc, 2 * (usize::from(desks) * slots as usize))?;
    Table::of_words(alloc, zeros.as_slice(), &shape)
}

/// So many words, all 0.
fn zeros(alloc: Global, count: usize) -> Result<Vec<u64>, AllocError>
    ensures { IfOk result (λ v. v.items ≡ replicate count 0) }
{
    vec![in alloc; 0u64; count]
}
