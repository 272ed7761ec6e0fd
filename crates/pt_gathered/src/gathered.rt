//! A node whose desks were gathered.

ghost use Rattle.pt_signal.specs.declared.config.TheConstants.{MAX_DESKS};
ghost use Rattle.std.specs.Prelude.{◌≡◌, ◌<◌, ◌≤◌, [], ◌++◌, length, reverse, IfOk, IfSome, IfNone};
ghost use Rattle.pt_events.specs.History.{IsLegal, Past};
ghost use Rattle.pt_events.specs.Journal.{IsMerge, events};
ghost use Rattle.pt_laws.specs.Laws.{LegalWithLeftOver, LanesFly};
ghost use Rattle.pt_gathered.specs.Gathered.{IsGathered, begins, over, journals};
ghost use Rattle.pt_gathered.specs.Keeping.{IsKeptOf, IsKeptFor};
ghost use Rattle.pt_gathered.specs.LeftOvers.{all_left};
ghost use Rattle.pt_gathered.specs.Pasts.{GoesOnFrom};
ghost use Rattle.pt_gathered.specs.Tables.{AreTables};

use crate::at_rest::{AtRest, Lane};
use crate::kept::Kept;
use crate::node_laws::laws_of_node;
use pt_accounts::DeskLives;
use pt_events::{Journal, Stamped};
use pt_shard::{Config, Shard};
use pt_signal::LeftOver;
use std::alloc::{AllocError, Global};
use std::marker::Model;

/// The desks of a node without their lanes, and the letters left over.
///
/// For any two desks, the letters that one posted to the other are those that arrived there, followed by those left
/// over between the two. Each receipt is stamped above its letter.
///
/// For each desk it also keeps what became of the processes that were there before the desk's journal. It keeps the
/// directory of exited processes too, so that resuming makes none anew.
#[derive(Drop)]
pub struct Gathered {
    node: AtRest,
    lives: Vec<DeskLives>,
    directory: Option<Kept>,
}

impl Model for Gathered {
    ghost use Rattle.pt_gathered.specs.Gathered.{GatheredState};
    ghost use Rattle.pt_gathered.specs.Tables.{AreTables};
    ghost use Rattle.pt_gathered.specs.Keeping.{IsKeptFor};
    ghost use Rattle.std.specs.Prelude.{IfSome};

    ghost Value = { GatheredState };

    ghost view = { λ a. a.node };

    ghost invariant = { λ a. AreTables a.node.shards a.lives.items × IfSome a.directory (λ k. IsKeptFor a.node k) };
}

impl Gathered {
    /// The node with these desks and these letters left over, the lane from desk d to desk e at d * desks + e. The
    /// table of each desk has what was before its journal, or some of the journal's first events too. What is kept is
    /// that of these desks.
    pub fn of(
        alloc: Global,
        config: Config,
        shards: Vec<Shard>,
        lanes: Vec<Lane>,
        lives: Vec<DeskLives>,
        kept: Kept,
    ) -> Gathered
        requires gathered { IsGathered (record { config = config; shards = shards.items; lanes = lanes.items }) }
        requires tables { AreTables shards.items lives.items }
        requires kept { IsKeptOf (record { config = config; shards = shards.items; lanes = lanes.items }) kept }
        ensures { result ≡ record { config = config; shards = shards.items; lanes = lanes.items } }
    {
        Gathered {
            node: AtRest::of(alloc, config, shards, lanes),
            lives,
            directory: Some(kept),
        }
    }

    pub(crate) fn with(node: AtRest, lives: Vec<DeskLives>, directory: Option<Kept>) -> Gathered
        requires tables { AreTables node.shards lives.items }
        requires kept { IfSome directory (λ k. IsKeptFor node k) }
        ensures { result ≡ node }
    {
        Gathered {
            node,
            lives,
            directory,
        }
    }

    pub(crate) fn apart(self) -> (AtRest, Vec<DeskLives>, Option<Kept>)
        ensures node { result.0 ≡ self }
        ensures tables { AreTables self.shards result.1.items }
        ensures kept { IfSome result.2 (λ k. IsKeptFor self k) }
    {
        (self.node, self.lives, self.directory)
    }

    pub(crate) fn node(&self) -> &AtRest
        ensures { result.now ≡ self.now }
    {
        &self.node
    }

    /// The number of desks of the node.
    pub fn desks(&self) -> u8
        ensures count { result ≡ length self.now.shards }
        ensures few { length self.now.shards ≤ MAX_DESKS }
        ensures gathered { IsGathered self.now }
    {
        self.node.desks()
    }

    /// What happened on a desk, as it was when the desk was gathered, or as settling left it. `None` exactly if the
    /// node has no desk of that number.
    pub fn journal(&self, desk: u8) -> Option<&Journal>
        ensures some { IfSome result
            (λ j. (desk < length self.now.shards) × (j.now.desk ≡ desk) × (j.now.past ≡ journals self.now desk)) }
        ensures none { IfNone result (length self.now.shards ≤ desk) }
    {
        self.node.journal(desk)
    }

    /// The events of all desks in the order of stamp, then desk: a legal history. It has each journal whole and in its
    /// order, and its letters in flight are the letters left over. Put after what the node continues from, it is such a
    /// history from the very beginning on. Fails only if there is no memory.
    pub fn history(&self) -> Result<Vec<Stamped>, AllocError>
        ensures merge { IfOk result (λ h. IsMerge (journals self.now) (reverse h.items)) }
        ensures legal { IfOk result (λ h. LegalWithLeftOver (begins self.now) (reverse h.items) (over self.now)) }
        ensures whole { IfOk result (λ h. (past : Past) → GoesOnFrom past self.now
            → IsLegal [] (events (reverse h.items) ++ past)
            × LanesFly [] (events (reverse h.items) ++ past) (over self.now)) }
    {
        laws_of_node(&self.node);
        self.node.history()
    }

    /// The letters left over: by sending desk, then by receiving desk, and for each two desks the oldest first. These
    /// are the one in the hold of the receiving desk, then those in the lane, then those in the outbox. Fails only if
    /// there is no memory.
    pub fn left_over(&self) -> Result<Vec<LeftOver>, AllocError>
        ensures { IfOk result (λ v. v.items ≡ all_left self.now) }
    {
        self.node.left_over()
    }
}
