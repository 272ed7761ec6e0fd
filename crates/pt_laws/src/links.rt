//! The laws of links: each is the contract of a function that does nothing.

ghost use Rattle.pt_laws.specs.LinkLaws.{QuietLinks, KnownBornFree, MergeKnown, MergeLinks, QuietLinksOver};
ghost use Rattle.pt_laws.specs.LinkLaws.{MergeLinksOver, KnownAgain};

/// Once no signal is on its way, a link of a live process stands at both ends or at neither: where the other
/// process lives, the two hold the same link ids with each other; where it has ended or was never born, the live
/// one holds none. So a live process is linked to no dead one, and to no live one that does not know of it.
///
/// It holds of every legal history that begins with no process and in which each linked spawn found that the parent
/// had not said `Link` to the child's pid before (`known_born_free` and `merge_known` say where). Which of the two
/// made a link, and which calls of `link` and `unlink` crossed on the way, plays no part.
pub fn quiet_links()
    ensures { QuietLinks }
{}

/// In a legal history each linked spawn finds that the parent had not said `Link` to the child's pid before,
/// where no process speaks to a pid of its own desk before that pid is born, and where each child is born on its
/// parent's desk.
pub fn known_born_free()
    ensures { KnownBornFree }
{}

/// Where each desk keeps its journal, the merge of the journals is a history in which no process speaks to a pid of
/// its own desk before that pid is born, and in which each child is born on its parent's desk.
pub fn merge_known()
    ensures { MergeKnown }
{}

/// In the merge of the desks' journals, where what each desk got is a front of what the others posted to it and
/// nothing is on its way any more, a live process holds the same link ids with each other live process as that
/// one holds with it, and none with a process that is not alive. Nothing is asked of linked spawns here, since no
/// journal has one that would break it.
pub fn merge_links()
    ensures { MergeLinks }
{}

/// The same holds of a quiet history over any start state that an earlier quiet one left behind, with link ids and
/// references of its own, where both keep the two rules of `known_born_free`: links that were made before the
/// resumption and links that were made after it stand at both ends or at neither. Journals that go on with stamps above
/// the numbers made before have such ids and keep both rules. Both histories together keep them again, so it holds
/// after any number of resumptions.
pub fn resumed_links()
    ensures over { QuietLinksOver }
    ensures merge { MergeLinksOver }
    ensures again { KnownAgain }
{}
