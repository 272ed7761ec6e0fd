//! The desks of a node without their lanes, and the letters left over: a gathered node without the tables of its
//! processes.

ghost use Rattle.pt_signal.specs.declared.config.TheConstants.{MAX_DESKS};
ghost use Rattle.std.specs.Prelude.{◌≡◌, ◌*◌, ◌<◌, ◌≤◌, ◌-◌, ◌++◌, length, reverse, drop, slice_get};
ghost use Rattle.std.specs.Prelude.{IfOk, OnOk, IfSome, IfNone};
ghost use Rattle.pt_events.specs.Journal.{IsMerge};
ghost use Rattle.pt_laws.specs.Laws.{LegalWithLeftOver};
ghost use Rattle.pt_laws.specs.Load.{IsStart};
ghost use Rattle.pt_judge.specs.Merging.{AreApart, journal_of};
ghost use Rattle.pt_shard.specs.Outbox.{held_from};
ghost use Rattle.std.specs.Option.{option_copied};
ghost use Rattle.pt_gathered.specs.Gathered.{IsGathered, begins, lost_on, box_at, hold_at, over, over_in, journals};
ghost use Rattle.pt_gathered.specs.LeftOvers.{all_left, left_from, left_between};
ghost use Rattle.pt_gathered.specs.Quiet.{AreInTurn, latest_stamp};
ghost use Rattle.pt_gathered.specs.Settling.{Steps};
ghost use Rattle.pt_gathered.specs.Taking.{TakesOut, AreShards};
ghost use Rattle.pt_gathered.specs.History.{AreJournalsOf};
ghost use Rattle.pt_gathered.specs.Waits.{StepsPosted};

use crate::node_laws::laws_of_node;
use pt_events::{Journal, Stamped};
use pt_judge::merge;
use pt_shard::{Config, Loss, Shard, Stop};
use pt_signal::{LeftOver, Letter};
use std::alloc::{AllocError, Global};
use std::collections::VecDeque;
use std::marker::Model;

/// The letters left over in one lane, oldest first.
#[derive(Drop)]
pub struct Lane {
    letters: VecDeque<Letter>,
}

impl Model for Lane {
    ghost use Rattle.std.specs.Prelude.{List};
    ghost use Rattle.pt_signal.specs.declared.letter.Letter.{Letter};

    ghost Value = { List Letter };

    ghost view = { λ l. l.letters.items };
}

impl Lane {
    /// The lane with these letters, oldest first.
    pub fn of(letters: Vec<Letter>) -> Lane
        ensures { result ≡ letters.items }
    {
        Lane {
            letters: VecDeque::from(letters),
        }
    }

    fn len(&self) -> usize
        ensures { result ≡ length self.now }
    {
        self.letters.len()
    }

    fn at(&self, place: usize) -> Option<Letter>
        ensures { result ≡ slice_get self.now place }
    {
        self.letters.get(place).copied()
    }

    fn pop(&mut self)
        ensures { self.new ≡ drop 1 self.old }
    {
        let _ = self.letters.pop_front();
    }
}

/// The desks of a node without their lanes, and the letters left over.
///
/// For any two desks, the letters that one posted to the other are those that arrived there, followed by those left
/// over between the two. Each receipt is stamped above its letter.
#[derive(Drop)]
pub(crate) struct AtRest {
    alloc: Global,
    config: Config,
    shards: Vec<Shard>,
    lanes: Vec<Lane>,
}

impl Model for AtRest {
    ghost use Rattle.pt_gathered.specs.Gathered.{GatheredState, IsGathered};

    ghost Value = { GatheredState };

    ghost view = { λ a. record { config = a.config; shards = a.shards.items; lanes = a.lanes.items } };

    ghost invariant = { λ a. IsGathered (record {
      config = a.config;
      shards = a.shards.items;
      lanes = a.lanes.items;
    }) };
}

impl AtRest {
    /// The node with these desks and these letters left over, the lane from desk d to desk e at d * desks + e.
    pub fn of(alloc: Global, config: Config, shards: Vec<Shard>, lanes: Vec<Lane>) -> AtRest
        requires { IsGathered (record { config = config; shards = shards.items; lanes = lanes.items }) }
        ensures { result ≡ record { config = config; shards = shards.items; lanes = lanes.items } }
    {
        AtRest {
            alloc,
            config,
            shards,
            lanes,
        }
    }

    /// The number of desks of the node.
    pub fn desks(&self) -> u8
        ensures count { result ≡ length self.now.shards }
        ensures few { length self.now.shards ≤ MAX_DESKS }
        ensures gathered { IsGathered self.now }
    {
        self.config.desks
    }

    /// What happened on a desk, as it was when the desk was gathered, or as settling left it. `None` exactly if the
    /// node has no desk of that number.
    pub fn journal(&self, desk: u8) -> Option<&Journal>
        ensures some { IfSome result
            (λ j. (desk < length self.now.shards) × (j.now.desk ≡ desk) × (j.now.past ≡ journals self.now desk)) }
        ensures none { IfNone result (length self.now.shards ≤ desk) }
    {
        let which = usize::from(desk);
        if which < self.shards.len() {
            Some(self.shards[which].journal())
        } else {
            None
        }
    }

    /// The events of all desks in the order of stamp, then desk: a legal history. It has each journal whole and in its
    /// order, and its letters in flight are the letters left over.
    pub fn history(&self) -> Result<Vec<Stamped>, AllocError>
        ensures merge { IfOk result (λ h. IsMerge (journals self.now) (reverse h.items)) }
        ensures legal { IfOk result (λ h. LegalWithLeftOver (begins self.now) (reverse h.items) (over self.now)) }
    {
        laws_of_node(self);
        let journals = journals_of(self.alloc, self.config, self.shards.as_slice())?;
        let history = merged(self.alloc, journals.as_slice())?;
        Ok(history)
    }

    /// The letters left over: by sending desk, then by receiving desk, and for each two desks the oldest first. These
    /// are the one in the hold of the receiving desk, then those in the lane, then those in the outbox.
    pub fn left_over(&self) -> Result<Vec<LeftOver>, AllocError>
        ensures { IfOk result (λ v. v.items ≡ all_left self.now) }
    {
        let mut left = Vec::new(self.alloc);
        for d in 0..self.desks() {
            self.list_from(d, &mut left)?;
        }
        Ok(left)
    }

    /// Lists the letters left over from desk d.
    fn list_from(&self, d: u8, left: &mut Vec<LeftOver>) -> Result<(), AllocError>
        requires { d < length self.now.shards }
        ensures { OnOk result (left.new.items ≡ left.old.items ++ left_from self.now d (length self.now.shards)) }
    {
        for e in 0..self.desks() {
            self.list_between(d, e, left)?;
        }
        Ok(())
    }

    /// Lists the letters left over from desk d to desk e.
    fn list_between(&self, d: u8, e: u8, left: &mut Vec<LeftOver>) -> Result<(), AllocError>
        requires { (d < length self.now.shards) × (e < length self.now.shards) }
        ensures { OnOk result (left.new.items ≡ left.old.items ++ left_between self.now d e) }
    {
        let before = left.len();
        while let Some(letter) = self.letter_at(d, e, left.len() - before) {
            left.push(LeftOver {
                from_desk: d,
                to_desk: e,
                letter,
            })?;
        }
        Ok(())
    }

    pub fn alloc(&self) -> Global {
        self.alloc
    }

    pub fn config(&self) -> Config
        ensures { result ≡ self.now.config }
    {
        self.config
    }

    /// The greatest stamp, or the number above which stamps began if nothing happened.
    pub fn clock(&self) -> u64
        ensures { result ≡ latest_stamp self.now }
    {
        let mut latest = self.config.start;
        for which in 0..self.shards.len() {
            latest = latest.max(self.shards[which].clock());
        }
        latest
    }

    /// The loss with this number among those that a desk kept and did not tell, the oldest first.
    pub fn loss(&self, desk: u8, place: usize) -> Option<&Loss>
        ensures { option_copied result ≡ slice_get (lost_on (slice_get self.now.shards desk)) place }
    {
        self.shards.get(usize::from(desk))?.loss(place)
    }

    pub fn into_parts(self) -> (Config, Vec<Shard>)
        ensures config { result.0 ≡ self.config }
        ensures shards { result.1.items ≡ self.shards }
    {
        let AtRest { config, shards, .. } = self;
        (config, shards)
    }

    /// What holds for each process spawned on a desk: it is of one of its slots, and those before it in that slot have
    /// exited.
    pub fn versions(&self)
        ensures { AreInTurn self.now.shards }
    {
        for which in 0..self.shards.len() {
            self.shards[which].versions();
        }
    }

    /// The desks, in order of number.
    pub fn shards(&self) -> &[Shard]
        ensures { result.now ≡ self.now.shards }
    {
        self.shards.as_slice()
    }

    /// The letter at this place among those left over from desk d to desk e, counted from the oldest.
    fn letter_at(&self, d: u8, e: u8, place: usize) -> Option<Letter>
        requires { (d < length self.now.shards) × (e < length self.now.shards) }
        ensures { result ≡ slice_get (over_in self.now.shards self.now.lanes d e) place }
    {
        letter_at(
            self.config,
            self.shards.as_slice(),
            self.lanes.as_slice(),
            d,
            e,
            place,
        )
    }

    /// The number of letters left over from desk d to desk e.
    pub fn count_over(&self, d: u8, e: u8) -> u128
        requires { (d < length self.now.shards) × (e < length self.now.shards) }
        ensures { result ≡ length (over_in self.now.shards self.now.lanes d e) }
    {
        count_of(
            self.config,
            self.shards.as_slice(),
            self.lanes.as_slice(),
            d,
            e,
        )
    }

    /// The number of letters that wait in the outbox of desk d for desk e.
    pub fn count_out(&self, d: u8, e: u8) -> usize
        requires { (d < length self.now.shards) × (e < length self.now.shards) }
        ensures { result ≡ length (box_at self.now.shards d e) }
    {
        self.shards[usize::from(d)].count_out(e)
    }

    /// Delivers the first letter left over from desk d to desk e, if there is one.
    pub fn step(&mut self, d: u8, e: u8) -> Result<bool, Stop>
        requires { (d < length self.old.shards) × (e < length self.old.shards) }
        ensures does { Steps d e self.old result self.new }
        ensures posted { StepsPosted d e self.old result self.new }
        ensures begun { IsStart (begins self.old) }
    {
        let Some(letter) = letter_at(
            self.config,
            self.shards.as_slice(),
            self.lanes.as_slice(),
            d,
            e,
            0,
        ) else {
            return Ok(false);
        };
        // a `match` and no `?`: the conversion of the error would be one more step of the proof
        match self.shards[usize::from(e)].handle(letter) {
            Ok(_ended) => {}
            Err(stop) => return Err(stop),
        }
        take_out(self.config, &mut self.shards, &mut self.lanes, d, e);
        Ok(true)
    }
}

/// The letter in the hold of desk e, if it is from desk d.
fn held_from(shards: &[Shard], d: u8, e: u8) -> Option<Letter>
    requires { e < length shards.now }
    ensures { result ≡ slice_get (held_from d (hold_at shards.now e)) 0 }
{
    match shards[usize::from(e)].held() {
        Some(letter) if letter.from.shard == d => Some(letter),
        _ => None,
    }
}

/// The letter at this place among those left over from desk d to desk e, counted from the oldest.
fn letter_at(
    config: Config,
    shards: &[Shard],
    lanes: &[Lane],
    d: u8,
    e: u8,
    place: usize,
) -> Option<Letter>
    requires within { (d < length shards.now) × (e < length shards.now) }
    requires lanes { length lanes.now ≡ length shards.now * length shards.now }
    requires shards { AreShards config shards.now }
    requires desks { length shards.now ≡ config.desks }
    ensures { result ≡ slice_get (over_in shards.now lanes.now d e) place }
{
    let mut place = place;
    if let Some(letter) = held_from(shards, d, e) {
        if place == 0 {
            return Some(letter);
        }
        place -= 1;
    }
    let lane = &lanes[usize::from(d) * shards.len() + usize::from(e)];
    if place < lane.len() {
        return lane.at(place);
    }
    shards[usize::from(d)].out_at(e, place - lane.len())
}

/// The journals of the desks, in order of desk.
fn journals_of<'a>(
    alloc: Global,
    config: Config,
    shards: &'a [Shard],
) -> Result<Vec<&'a Journal>, AllocError>
    requires { AreShards config shards.now }
    ensures { IfOk result (λ v. AreJournalsOf v.items shards.now) }
{
    let mut journals = Vec::with_capacity(alloc, shards.len())?;
    for which in 0..shards.len() {
        journals.push(shards[which].journal())?;
    }
    Ok(journals)
}

/// The merge of the journals.
fn merged(alloc: Global, journals: &[&Journal]) -> Result<Vec<Stamped>, AllocError>
    ensures { IfOk result (λ m. AreApart journals.now → IsMerge (journal_of journals.now) (reverse m.items)) }
{
    merge(alloc, journals)
}

/// Takes out the oldest letter left over from desk d to desk e.
fn take_out(config: Config, shards: &mut Vec<Shard>, lanes: &mut Vec<Lane>, d: u8, e: u8)
    requires within { (d < length shards.old.items) × (e < length shards.old.items) }
    requires lanes { length lanes.old.items ≡ length shards.old.items * length shards.old.items }
    requires shards { AreShards config shards.old.items }
    requires desks { length shards.old.items ≡ config.desks }
    ensures takes { TakesOut d e shards.old.items shards.new.items lanes.old.items lanes.new.items }
    ensures shards { AreShards config shards.new.items }
{
    if held_from(shards.as_slice(), d, e).is_some() {
        let _ = shards[usize::from(e)].take_hold();
        return;
    }
    let lane = usize::from(d) * shards.len() + usize::from(e);
    if lanes[lane].len() > 0 {
        lanes[lane].pop();
        return;
    }
    let _ = shards[usize::from(d)].next_out(e);
}

/// The number of letters left over from desk d to desk e.
fn count_of(config: Config, shards: &[Shard], lanes: &[Lane], d: u8, e: u8) -> u128
    requires within { (d < length shards.now) × (e < length shards.now) }
    requires lanes { length lanes.now ≡ length shards.now * length shards.now }
    requires shards { AreShards config shards.now }
    requires desks { length shards.now ≡ config.desks }
    ensures { result ≡ length (over_in shards.now lanes.now d e) }
{
    let held = u128::from(held_from(shards, d, e).is_some());
    let lane = lanes[usize::from(d) * shards.len() + usize::from(e)].len() as u128;
    held + lane + shards[usize::from(d)].count_out(e) as u128
}
