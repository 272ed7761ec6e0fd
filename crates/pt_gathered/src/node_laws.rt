//! The laws of histories, at a node whose desks were gathered.

ghost use Rattle.pt_gathered.specs.Gathered.{GatheredState};
ghost use Rattle.pt_gathered.specs.Settling.{Settles, NothingLeft};
ghost use Rattle.pt_gathered.specs.Lawful.{LanesKeep, KeepsHeadline, IsLegalNode, IsQuietNode, IsBounded, LinksStand};
ghost use Rattle.pt_gathered.specs.Lawful.{WatchesStand, HoldingsStand, AnswersHold, QuestionsAnswered, BeginsAgain};
ghost use Rattle.pt_gathered.specs.Pasts.{IsLegalWhole, IsQuietWhole, BeginsAgainAfter};
ghost use Rattle.pt_gathered.specs.Pasts.{IsLegalOutline, IsQuietOutline, OutlinesAgainAfter};

use crate::at_rest::AtRest;
use crate::gathered::Gathered;
use pt_laws::{laws, links};

/// What the laws of histories say of a node whose desks were gathered. The function does nothing: its contract is the
/// promise.
pub fn laws_of(gathered: &Gathered)
    ensures lanes { LanesKeep gathered.now }
    ensures headline { KeepsHeadline gathered.now }
    ensures legal { IsLegalNode gathered.now }
    ensures held { HoldingsStand gathered.now }
    ensures answers { AnswersHold gathered.now }
    ensures bounded { (new : GatheredState) → Settles gathered.now new → IsBounded gathered.now new }
    ensures quiet { NothingLeft gathered.now → IsQuietNode gathered.now }
    ensures links { NothingLeft gathered.now → LinksStand gathered.now }
    ensures watches { NothingLeft gathered.now → WatchesStand gathered.now }
    ensures questions { NothingLeft gathered.now → QuestionsAnswered gathered.now }
    ensures again { NothingLeft gathered.now → BeginsAgain gathered.now }
    ensures whole { IsLegalWhole gathered.now }
    ensures quiet_whole { NothingLeft gathered.now → IsQuietWhole gathered.now }
    ensures after { NothingLeft gathered.now → BeginsAgainAfter gathered.now }
    ensures outline { IsLegalOutline gathered.now }
    ensures quiet_outline { NothingLeft gathered.now → IsQuietOutline gathered.now }
    ensures outline_after { NothingLeft gathered.now → OutlinesAgainAfter gathered.now }
{
    laws_of_node(gathered.node());
}

/// The same for a node without its tables.
pub(crate) fn laws_of_node(gathered: &AtRest)
    ensures lanes { LanesKeep gathered.now }
    ensures headline { KeepsHeadline gathered.now }
    ensures legal { IsLegalNode gathered.now }
    ensures held { HoldingsStand gathered.now }
    ensures answers { AnswersHold gathered.now }
    ensures bounded { (new : GatheredState) → Settles gathered.now new → IsBounded gathered.now new }
    ensures quiet { NothingLeft gathered.now → IsQuietNode gathered.now }
    ensures links { NothingLeft gathered.now → LinksStand gathered.now }
    ensures watches { NothingLeft gathered.now → WatchesStand gathered.now }
    ensures questions { NothingLeft gathered.now → QuestionsAnswered gathered.now }
    ensures again { NothingLeft gathered.now → BeginsAgain gathered.now }
    ensures whole { IsLegalWhole gathered.now }
    ensures quiet_whole { NothingLeft gathered.now → IsQuietWhole gathered.now }
    ensures after { NothingLeft gathered.now → BeginsAgainAfter gathered.now }
    ensures outline { IsLegalOutline gathered.now }
    ensures quiet_outline { NothingLeft gathered.now → IsQuietOutline gathered.now }
    ensures outline_after { NothingLeft gathered.now → OutlinesAgainAfter gathered.now }
{
    laws::headline_holds();
    laws::merge_is_legal();
    laws::load_by_desk_falls();
    laws::receipts_lower_the_load();
    laws::quiet_monitors();
    laws::each_is_held_since();
    laws::stamps_make_new_ids();
    laws::answers_are_true();
    laws::resumed_is_legal();
    laws::journals_tell_their_pids();
    laws::journals_have_one_merge();
    links::resumed_links();
    links::merge_known();
    // read for the proof alone: it says what holds of every gathered node
    let _desks = gathered.desks();
}
