//! Delivering the letters left over.

ghost use Rattle.std.specs.Prelude.{◌≡◌, ℕ, ◌<◌, ◌≤◌, length, [], OnOk, IfOk, IfErr, IfSome};
ghost use Rattle.pt_shard.specs.declared.stop.Stop.TheVariants.{Memory};
ghost use Rattle.pt_gathered.specs.Gathered.{over_in};
ghost use Rattle.pt_gathered.specs.Keeping.{IsKeptFor};
ghost use Rattle.pt_gathered.specs.Settling.{Runs, Moves, Settles, NothingLeft, NothingTo, NothingBelow};
ghost use Rattle.pt_gathered.specs.Order.{Passes, SettlingStops, Pass, PassStops, DeskComes, DeskStops, LaneComes};
ghost use Rattle.pt_gathered.specs.Order.{LaneStops, PassesStop};
ghost use Rattle.pt_gathered.specs.Waits.{Waits, Marks, AreLeast, IsLeast, KeepsNone, NonePosted, posted_in};
ghost use Rattle.pt_gathered.specs.Lawful.{LanesKeep, KeepsHeadline, IsLegalNode, IsQuietNode, IsBounded, LinksStand};
ghost use Rattle.pt_gathered.specs.Lawful.{WatchesStand, AnswersHold, QuestionsAnswered};
ghost use Rattle.pt_gathered.specs.Pasts.{KeepsPast};
ghost use Rattle.pt_gathered.specs.Tables.{AreTables, TablesAreTold};

use crate::at_rest::AtRest;
use crate::gathered::Gathered;
use crate::kept::Kept;
use crate::node_laws::laws_of;
use crate::quiet::Quiet;
use crate::settled::Settled;
use pt_accounts::DeskLives;
use pt_shard::Stop;
use pt_signal::MAX_DESKS;
use std::alloc::AllocError;
use std::error::Error;
use std::fmt;

/// A node whose settling failed, with what was handled so far.
#[derive(Drop)]
pub struct Unsettled {
    /// Why.
    pub fault: Stop,
    /// The node as it is now.
    pub gathered: Gathered,
}

impl fmt::Debug for Unsettled {
    fn fmt<W: fmt::Write>(&self, f: &mut fmt::Formatter<W>) -> fmt::Result {
        let fault = self.fault;
        write!(f, "Unsettled {{ fault: {fault:?}, .. }}")
    }
}

impl fmt::Display for Unsettled {
    fn fmt<W: fmt::Write>(&self, f: &mut fmt::Formatter<W>) -> fmt::Result {
        let fault = self.fault;
        write!(f, "the node is not settled: {fault}")
    }
}

impl Error for Unsettled {}

impl Gathered {
    /// Delivers the letters left over, pass by pass, until there are none.
    ///
    /// A pass visits each receiving desk from 0, and for it each sending desk from 0. It delivers the letters that are
    /// left over between the two at that moment, oldest first. What is sent meanwhile is delivered later in the same
    /// pass, or in a later one. Each journal gets receipts alone, and all together no more than the load of the history
    /// before. A desk that keeps its losses keeps what the receipts lose, behind what it kept before.
    ///
    /// The merge of the journals is then legal and quiet. Links are at both ends or at neither. Each monitor of a live
    /// process was cancelled, had its one `DOWN`, or is open and kept. Each answer to the question whether a process is
    /// alive is true, and each such question of a live process has its one answer.
    ///
    /// Once no letter is left over, each journal is read once, from its first event to its last, for what the quiet
    /// node returns of its processes. What was before it is not read again.
    ///
    /// Fails with `Worn` if a receipt's stamp would pass the limit of clocks, else with `Memory` if there is none for a
    /// receipt. The node then comes back with what was handled so far, and all holds for it that holds for a gathered
    /// node. Settling it again resumes from there. Fails with `Memory` too if reading the journals finds none, and no
    /// letter is left over in the node that comes back. Settling that again changes nothing of the node, and resumes
    /// reading the journals at the place that it had reached.
    ///
    /// A letter costs what its receipt costs, and tests. If it is the only one of its pass, there are three tests for
    /// each desk, each of one mark or of one count:
    ///
    /// - whether letters may be left over to the desk;
    /// - whether the desk has any for the receiver in its outbox;
    /// - whether the receiver now has any for the desk.
    ///
    /// That is 192 in a node of 64, and a dozen for the place of the letter itself. Letters of the same pass share the
    /// first 64, and letters of that pass to the same desk share the others too. Besides, each lane is looked at once
    /// in full, when its desk is first visited.
    pub fn settle(self) -> Result<Quiet, Unsettled>
        ensures order { IfOk result (λ q. (count : ℕ) × Passes (length self.shards) count self q.gathered) }
        ensures runs { IfOk result (λ q. Runs self 0 q.gathered q.handled) }
        ensures nothing_left { IfOk result (λ q. NothingLeft q.gathered) }
        ensures bounded { IfOk result (λ q. IsBounded self q.gathered) }
        ensures quiet { IfOk result (λ q. IsQuietNode q.gathered) }
        ensures links { IfOk result (λ q. LinksStand q.gathered) }
        ensures watches { IfOk result (λ q. WatchesStand q.gathered) }
        ensures answers { IfOk result (λ q. AnswersHold q.gathered) }
        ensures questions { IfOk result (λ q. QuestionsAnswered q.gathered) }
        ensures past { IfOk result (λ q. KeepsPast self q.gathered) }
        ensures again { NothingLeft self → IfOk result (λ q. (q.gathered ≡ self) × (q.handled ≡ 0)) }
        ensures refused { IfErr result (λ u. Settles self u.gathered) }
        ensures refused_order { IfErr result (λ u. SettlingStops (length self.shards) u.fault self u.gathered) }
        ensures refused_bounded { IfErr result (λ u. IsBounded self u.gathered) }
        ensures refused_lanes { IfErr result (λ u. LanesKeep u.gathered) }
        ensures refused_headline { IfErr result (λ u. KeepsHeadline u.gathered) }
        ensures refused_legal { IfErr result (λ u. IsLegalNode u.gathered) }
        ensures refused_answers { IfErr result (λ u. AnswersHold u.gathered) }
        ensures refused_past { IfErr result (λ u. KeepsPast self u.gathered) }
        ensures refused_again { NothingLeft self → IfErr result (λ u. (u.gathered ≡ self) × (u.fault ≡ Memory)) }
    {
        let settled = match self.settle_unlisted() {
            Ok(settled) => settled,
            Err(unsettled) => return Err(unsettled),
        };
        match settled.into_quiet() {
            Ok(quiet) => Ok(quiet),
            Err(settled) => {
                let gathered = settled.into_gathered();
                laws_of(&gathered);
                Err(Unsettled {
                    fault: Stop::Memory,
                    gathered,
                })
            }
        }
    }

    /// Settles the node as [`settle`](Gathered::settle) does, without the list of all pids that ever were: a pause of a
    /// program that goes on. It costs the letters left over, and what happened since the desks were opened or resumed.
    /// `settle` takes time and memory for the list besides.
    ///
    /// Fails as `settle` does, but for want of memory for the list. Settling again, by either call, resumes from there.
    pub fn settle_unlisted(self) -> Result<Settled, Unsettled>
        ensures order { IfOk result (λ s. (count : ℕ) × Passes (length self.shards) count self s.gathered) }
        ensures runs { IfOk result (λ s. Runs self 0 s.gathered s.handled) }
        ensures nothing_left { IfOk result (λ s. NothingLeft s.gathered) }
        ensures bounded { IfOk result (λ s. IsBounded self s.gathered) }
        ensures quiet { IfOk result (λ s. IsQuietNode s.gathered) }
        ensures links { IfOk result (λ s. LinksStand s.gathered) }
        ensures watches { IfOk result (λ s. WatchesStand s.gathered) }
        ensures answers { IfOk result (λ s. AnswersHold s.gathered) }
        ensures questions { IfOk result (λ s. QuestionsAnswered s.gathered) }
        ensures past { IfOk result (λ s. KeepsPast self s.gathered) }
        ensures again { NothingLeft self → IfOk result (λ s. (s.gathered ≡ self) × (s.handled ≡ 0)) }
        ensures refused { IfErr result (λ u. Settles self u.gathered) }
        ensures refused_order { IfErr result (λ u. SettlingStops (length self.shards) u.fault self u.gathered) }
        ensures refused_bounded { IfErr result (λ u. IsBounded self u.gathered) }
        ensures refused_lanes { IfErr result (λ u. LanesKeep u.gathered) }
        ensures refused_headline { IfErr result (λ u. KeepsHeadline u.gathered) }
        ensures refused_legal { IfErr result (λ u. IsLegalNode u.gathered) }
        ensures refused_answers { IfErr result (λ u. AnswersHold u.gathered) }
        ensures refused_past { IfErr result (λ u. KeepsPast self u.gathered) }
        ensures refused_again { NothingLeft self → IfErr result (λ u. (u.gathered ≡ self) × (u.fault ≡ Memory)) }
    {
        laws_of(&self);
        let (mut settling, mut tables, kept) = Settling::of(self);
        // read for the proof alone, here and below: it says what holds of every gathered node
        let _before = settling.node.desks();
        match settling.run_passes() {
            Ok(()) => {}
            Err(fault) => {
                let Settling { node, .. } = settling;
                let _after = node.desks();
                let gathered = Gathered::with(node, tables, kept);
                laws_of(&gathered);
                return Err(Unsettled { fault, gathered });
            }
        }
        let Settling { node, handled, .. } = settling;
        let _after = node.desks();
        match read_journals(&node, &mut tables) {
            Ok(()) => {
                let settled = Settled::of(node, handled, tables, kept);
                settled.laws();
                Ok(settled)
            }
            Err(_) => {
                let gathered = Gathered::with(node, tables, kept);
                laws_of(&gathered);
                let fault = Stop::Memory;
                Err(Unsettled { fault, gathered })
            }
        }
    }
}

/// A place for each desk that a node can have.
const PLACES: usize = MAX_DESKS as usize;

/// A settling under way: the node as it is now, where its next pass looks, and how many letters were handled.
#[derive(Drop)]
struct Settling {
    node: AtRest,
    /// For each desk, whether it is marked: no letter is left over to a desk without a mark.
    waits: [bool; PLACES],
    /// For each desk, how many letters an outbox has to hold for it so that any can be left over between the two: 0
    /// until a pass visited the desk, and 1 from then on, since all letters to it then wait in outboxes.
    least: [usize; PLACES],
    /// How many letters were handled, staying at `u64::MAX` once it is reached.
    handled: u64,
}

impl Settling {
    /// The settling of a node, at its start, the tables beside the node's desks, and what is kept.
    fn of(gathered: Gathered) -> (Settling, Vec<DeskLives>, Option<Kept>)
        ensures node { result.0.node ≡ gathered }
        ensures waits { Waits result.0.waits result.0.node }
        ensures least { AreLeast result.0.least result.0.node }
        ensures handled { result.0.handled ≡ 0 }
        ensures tables { AreTables gathered.shards result.1.items }
        ensures kept { IfSome result.2 (λ k. IsKeptFor gathered k) }
    {
        let (node, lives, kept) = gathered.apart();
        let settling = Settling {
            node,
            waits: [true; PLACES],
            least: [0; PLACES],
            handled: 0,
        };
        (settling, lives, kept)
    }

    /// Makes one pass after the other, until no letter is left over.
    fn run_passes(&mut self) -> Result<(), Stop>
        requires waits { Waits self.old.waits self.old.node }
        requires least { AreLeast self.old.least self.old.node }
        ensures order { OnOk result
            ((count : ℕ) × Passes (length self.old.node.shards) count self.old.node self.new.node) }
        ensures runs { Runs self.old.node self.old.handled self.new.node self.new.handled }
        ensures nothing_left { OnOk result (NothingLeft self.new.node) }
        ensures stops { IfErr result
            (λ stop. PassesStop (length self.old.node.shards) stop self.old.node self.new.node) }
    {
        // kept for the proof alone, which names it
        let _before = self.handled;
        let mut more = true;
        while more {
            more = self.pass()?;
        }
        Ok(())
    }

    /// One pass: visits each receiving desk, from desk 0. It returns whether a letter was handled, as do its parts below.
    fn pass(&mut self) -> Result<bool, Stop>
        requires waits { Waits self.old.waits self.old.node }
        requires least { AreLeast self.old.least self.old.node }
        ensures runs { Runs self.old.node self.old.handled self.new.node self.new.handled }
        ensures moves { Moves (NothingBelow (length self.old.node.shards) self.old.node) self.old.node result
            self.new.node }
        ensures waits { OnOk result (Waits self.new.waits self.new.node) }
        ensures least { OnOk result (AreLeast self.new.least self.new.node) }
        ensures order { OnOk result (Pass (length self.old.node.shards) 0 self.old.node self.new.node) }
        ensures stops { IfErr result
            (λ stop. PassStops (length self.old.node.shards) stop self.old.node self.new.node) }
    {
        // kept for the proof alone, which names it
        let _before = self.handled;
        let mut moved = false;
        for e in 0..self.node.desks() {
            moved |= self.settle_desk(e)?;
        }
        Ok(moved)
    }

    /// Delivers the letters to desk e, if it is marked.
    fn settle_desk(&mut self, e: u8) -> Result<bool, Stop>
        requires desk { e < length self.old.node.shards }
        requires waits { Waits self.old.waits self.old.node }
        requires least { AreLeast self.old.least self.old.node }
        ensures runs { Runs self.old.node self.old.handled self.new.node self.new.handled }
        ensures moves { Moves (NothingTo (length self.old.node.shards) e self.old.node) self.old.node result
            self.new.node }
        ensures waits { OnOk result (Waits self.new.waits self.new.node) }
        ensures least { OnOk result (AreLeast self.new.least self.new.node) }
        ensures order { OnOk result (DeskComes (length self.old.node.shards) e self.old.node self.new.node) }
        ensures stops { IfErr result
            (λ stop. DeskStops (length self.old.node.shards) e stop self.old.node self.new.node) }
    {
        // kept for the proof alone, which names it
        let _before = self.handled;
        // read for the proof alone: it says what holds of every gathered node
        let _desks = self.node.desks();
        if !self.waits[usize::from(e)] {
            return Ok(false);
        }
        let moved = self.settle_to(e, self.least[usize::from(e)])?;
        self.waits[usize::from(e)] = false;
        self.least[usize::from(e)] = 1;
        self.mark(e);
        Ok(moved)
    }

    /// Marks the desks for which desk d has letters in its outbox.
    fn mark(&mut self, d: u8)
        requires { d < length self.old.node.shards }
        ensures marks { Marks d (length self.old.node.shards) self.old.node self.old.waits self.new.waits }
        ensures kept { (self.new.node ≡ self.old.node) × (self.new.least ≡ self.old.least)
            × (self.new.handled ≡ self.old.handled) }
    {
        for k in 0..self.node.desks() {
            if self.node.count_out(d, k) > 0 {
                self.waits[usize::from(k)] = true;
            }
        }
    }

    /// Delivers the letters to desk e, from each sending desk, from desk 0.
    fn settle_to(&mut self, e: u8, least: usize) -> Result<bool, Stop>
        requires desk { e < length self.old.node.shards }
        requires least { IsLeast e least self.old.node }
        ensures runs { Runs self.old.node self.old.handled self.new.node self.new.handled }
        ensures moves { Moves (NothingTo (length self.old.node.shards) e self.old.node) self.old.node result
            self.new.node }
        ensures order { OnOk result (DeskComes (length self.old.node.shards) e self.old.node self.new.node) }
        ensures stops { IfErr result
            (λ stop. DeskStops (length self.old.node.shards) e stop self.old.node self.new.node) }
        ensures keeps { OnOk result (KeepsNone self.old.node self.new.node) }
        ensures none { OnOk result (NonePosted e self.new.node) }
        ensures marks { (self.new.waits ≡ self.old.waits) × (self.new.least ≡ self.old.least) }
    {
        // kept for the proof alone, which names it
        let _before = self.handled;
        let mut moved = false;
        for d in 0..self.node.desks() {
            moved |= self.settle_lane(d, e, least)?;
        }
        Ok(moved)
    }

    /// Delivers the letters that are now left over from desk d to desk e: none if the outbox holds fewer than `least`
    /// for it.
    fn settle_lane(&mut self, d: u8, e: u8, least: usize) -> Result<bool, Stop>
        requires within { (d < length self.old.node.shards) × (e < length self.old.node.shards) }
        requires least { (least ≤ 1)
            × (0 < least → posted_in self.old.node.shards self.old.node.lanes d e ≡ []) }
        ensures runs { Runs self.old.node self.old.handled self.new.node self.new.handled }
        ensures moves { Moves (over_in self.old.node.shards self.old.node.lanes d e ≡ []) self.old.node result
            self.new.node }
        ensures order { OnOk result (LaneComes e d self.old.node self.new.node) }
        ensures stops { IfErr result (λ stop. LaneStops e d stop self.old.node self.new.node) }
        ensures keeps { OnOk result (KeepsNone self.old.node self.new.node) }
        ensures none { OnOk result (posted_in self.new.node.shards self.new.node.lanes d e ≡ []) }
        ensures marks { (self.new.waits ≡ self.old.waits) × (self.new.least ≡ self.old.least) }
    {
        // kept for the proof alone, which names it
        let _before = self.handled;
        if self.node.count_out(d, e) < least {
            return Ok(false);
        }
        let mut moved = false;
        for _k in 0..self.node.count_over(d, e) {
            let more = self.node.step(d, e)?;
            if !more {
                return Ok(moved);
            }
            self.handled = self.handled.saturating_add(1);
            moved = true;
        }
        Ok(moved)
    }
}

/// Reads each journal to its end, from the place that its table has reached.
fn read_journals(node: &AtRest, lives: &mut Vec<DeskLives>) -> Result<(), AllocError>
    requires { AreTables node.now.shards lives.old.items }
    ensures tables { AreTables node.now.shards lives.new.items }
    ensures told { OnOk result (TablesAreTold node.now lives.new.items) }
{
    // read for the proof alone: it says what holds of every gathered node
    let _desks = node.desks();
    for which in 0..node.shards().len() {
        lives[which].read(node.shards()[which].journal())?;
    }
    Ok(())
}
