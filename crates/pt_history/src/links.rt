//! The laws of links: each is the contract of a function that does nothing.

ghost use Rattle.pt_history.specs.EarlyLinks.{EarlyLinkUnknown, EarlyLinkAbroad};

pub use pt_laws::links::{known_born_free, merge_known, merge_links, quiet_links, resumed_links};

/// A counterexample on one desk: a parent sends `Link` to its child's pid before the child is spawned.
///
/// - The parent traps exits. The `Link` finds no process, and an exit signal with reason `noproc` goes back.
/// - Then the parent spawns the child with a link.
/// - Then the exit signal arrives at the parent, names the first link, and removes the child's link with it.
///
/// No letter is in flight any more, both are alive, and only the child holds a link.
pub fn early_link_unknown()
    ensures { EarlyLinkUnknown }
{}

/// The same counterexample on two desks. The child is spawned on another desk than its parent's, so the parent may send
/// `Link` to it at any time.
pub fn early_link_abroad()
    ensures { EarlyLinkAbroad }
{}
