//! A settled node, with the list of its pids or without.

ghost use Rattle.std.specs.Prelude.{◌≡◌, false, IfErr, IfOk};
ghost use Rattle.pt_c_desks.specs.QuietNodes.{is_listed, node_of};
ghost use Rattle.pt_c_desks.specs.declared.quiet_node.QuietNode.TheVariants.{Listed};

use pt_gathered::{Quiet, Settled};

/// A settled node. Reading one process of it needs no list.
#[derive(Drop)]
pub enum QuietNode {
    /// It has the list of its pids.
    Listed(Quiet),
    /// It has none.
    Unlisted(Settled),
}

impl QuietNode {
    /// The node itself.
    pub fn settled(&self) -> &Settled
        ensures { result.now ≡ node_of self.now }
    {
        match self {
            QuietNode::Listed(quiet) => quiet.settled(),
            QuietNode::Unlisted(settled) => settled,
        }
    }

    /// The node with the list of its pids. Fails only if it has none and there is no memory for it: the node then comes
    /// back as it was.
    pub fn with_list(self) -> Result<QuietNode, QuietNode>
        ensures listed { IfOk result (λ node. node ≡ Listed (node_of self)) }
        ensures back { IfErr result (λ back. (back ≡ self) × (is_listed self ≡ false)) }
    {
        match self {
            QuietNode::Listed(quiet) => Ok(QuietNode::Listed(quiet)),
            QuietNode::Unlisted(settled) => match settled.into_quiet() {
                Ok(quiet) => Ok(QuietNode::Listed(quiet)),
                Err(settled) => Err(QuietNode::Unlisted(settled)),
            },
        }
    }
}
