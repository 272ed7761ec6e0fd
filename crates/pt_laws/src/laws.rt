//! The laws of histories: each is the contract of a function that does nothing.

ghost use Rattle.pt_laws.specs.Acts.{LocalActs, LegalActs};
ghost use Rattle.pt_laws.specs.BirthsAndEnds.{LivesOnce, StaysEnded, NothingAfterEnd, AliveUntilEnd};
ghost use Rattle.pt_laws.specs.Words.{HeldSince, IsHeldSince, KeptSince, IsKeptSince, EachHoldsSince};
ghost use Rattle.pt_laws.specs.JournalLaws.{MergeIsThere, MergeIsOne};
ghost use Rattle.pt_laws.specs.Taken.{TakenByPosition};
ghost use Rattle.pt_laws.specs.Laws.{CameOrFlies, SenderFront, MergeLegal};
ghost use Rattle.pt_laws.specs.ResumedLaws.{ResumedLegal, ResumedSame, ResumedStart, ResumedTwice, EmptyIsLeft};
ghost use Rattle.pt_laws.specs.ResumedLaws.{LeftAgain, StampsNumber, BothNumber, StampsAreNew, OldRefsResumed};
ghost use Rattle.pt_laws.specs.ResumedLaws.{ForgetsEach, ForgettingIsLeft, ReasonsStay};
ghost use Rattle.pt_laws.specs.MonitorLaws.{OneDown, MadeOnce, MadeOnceLocal, EmptyHasOldRefs, MadeOnceOver};
ghost use Rattle.pt_laws.specs.MonitorLaws.{QuietMonitor, QuietWatch, QuietMonitorOver, QuietWatchOver};
ghost use Rattle.pt_laws.specs.MonitorLaws.{QuietMonitorSince};
ghost use Rattle.pt_laws.specs.LoadLaws.{LoadFalls, ReceiptsBounded, QuietFlights, EmptyIsQuiet, OldestMayCome};
ghost use Rattle.pt_laws.specs.LoadLaws.{OneReceipt, ReceiptLowers, LoadByDesk};
ghost use Rattle.pt_laws.specs.Headline.{HeadlineHolds};
ghost use Rattle.pt_laws.specs.Asking.{AnswersAreTrue, QuietAnswers};

pub use pt_events::journals_tell_their_pids;

/// In one desk's local journal, and in a legal history, each event but a receipt may come. The laws that ask no more
/// than that hold of both.
pub fn acts_may_come()
    ensures local { LocalActs }
    ensures legal { LegalActs }
{}

/// A pid is born once and ends once, and is ever after as it ended; nothing enters its mailbox any more.
pub fn lives_once()
    ensures once { LivesOnce }
    ensures after { StaysEnded }
    ensures closed { NothingAfterEnd }
{}

/// A process is alive where it was born and has not ended, by its own exit or by a signal that came while it lived.
pub fn alive_until_its_end()
    ensures { AliveUntilEnd }
{}

/// The link ids that a process holds with another, in order of entry, are those that entered and have not left
/// since. An id enters where the two are linked at a birth, where the process says `Link`, and where a `Link` comes
/// while it lives, unless two are held. It leaves where the process says an `Unlink` of it, and where there comes,
/// while it lives, an `Unlink` of it or a `LinkExit` of an id that is held.
pub fn links_are_held_since()
    ensures list { HeldSince }
    ensures each { IsHeldSince }
{}

/// The monitors that a process keeps for its watchers, in order of coming, are those that came while it lived and
/// whose `Demonitor` has not come since, up to its end.
pub fn watches_are_kept_since()
    ensures list { KeptSince }
    ensures each { IsKeptSince }
{}

/// Both hold of every process in a legal history over a start state at which no process has two entries with one other
/// and none keeps a watch twice.
pub fn each_is_held_since()
    ensures { EachHoldsSince }
{}

/// The local journals of finitely many desks have a merge, and one only.
pub fn journals_have_one_merge()
    ensures there { MergeIsThere }
    ensures one { MergeIsOne }
{}

/// In a legal history the signals that one pid sent another are those that came, in that order, then those in
/// flight.
pub fn sent_came_or_flies()
    ensures { CameOrFlies }
{}

/// Where lanes agree, one process's messages to another are four lists joined: those that came before the
/// receiver's birth, those that arrived in its mailbox, those that came after its end, and those left over.
pub fn messages_keep_their_order()
    ensures { SenderFront }
{}

/// The merge of local journals whose lanes agree is legal, and what is in flight in it is what the lanes leave
/// over.
pub fn merge_is_legal()
    ensures { MergeLegal }
{}

/// A monitor has one `DOWN` at most, and none where it was demonitored. From the empty start each monitor is made
/// once, and so it is in a journal that goes on from a start whose references are numbered below its stamps, and over
/// every start state that a legal and quiet history left behind.
pub fn one_down()
    ensures down { OneDown }
    ensures made { MadeOnce }
    ensures local { MadeOnceLocal }
    ensures empty { EmptyHasOldRefs }
    ensures over { MadeOnceOver }
{}

/// The headline, where each desk's journal is local and the lanes agree. Of each sender the messages to each mailbox,
/// in order and each once, are those that came before its birth, those that arrived, those that came after its end
/// and those left over. A pid is born once. Nothing enters after the end. What was taken and what waits together are
/// what arrived. A monitor has one `DOWN` at most, and none once it was demonitored.
pub fn headline_holds()
    ensures { HeadlineHolds }
{}

/// Each take took the arrival at one position, no two took the same, and what waits in the mailbox are the arrivals
/// at the other positions, in the order of arrival. A take takes at the first position that no earlier one took and
/// whose item its pick fits.
pub fn taken_or_waiting()
    ensures { TakenByPosition }
{}

/// Each receipt lowers the load, so no more receipts than the load can follow one another. A history is quiet exactly
/// where nothing is in flight between any two pids, and so where no lane leaves a letter over; while one does, the
/// oldest letter of that lane may come.
pub fn receipts_lower_the_load()
    ensures falls { LoadFalls }
    ensures bounded { ReceiptsBounded }
    ensures quiet { QuietFlights }
    ensures empty { EmptyIsQuiet }
    ensures oldest { OldestMayCome }
{}

/// The load is told desk by desk: the letters left over in each lane, and for each desk the link entries and monitors
/// that its own journal gives its live processes. One receipt, of which only its own desk's journal is looked at,
/// lowers it; and it is the load of every merge of the journals. So settling, which gives a desk one letter after the
/// other, ends after no more receipts than the load.
pub fn load_by_desk_falls()
    ensures one { OneReceipt }
    ensures lowers { ReceiptLowers }
    ensures merge { LoadByDesk }
{}

/// In a quiet history each monitor of a live watcher was demonitored, or had its one `DOWN`, or is open and kept
/// by its live target; no live target keeps a watch of a process that is not alive. The same holds over every
/// start state that a legal and quiet history left behind, counted from the very beginning, or since that start.
pub fn quiet_monitors()
    ensures monitors { QuietMonitor }
    ensures watches { QuietWatch }
    ensures over_monitors { QuietMonitorOver }
    ensures over_watches { QuietWatchOver }
    ensures since { QuietMonitorSince }
{}

/// A legal and quiet history, followed by one that is legal over its state and makes new link ids and references,
/// is legal. Each flight is then what it is after both, and so is each pid, but that nothing is left of one that had
/// ended before but its reason. So every law of legal histories holds of a history that goes on from another one. The
/// state after it is again a start as these laws want it, and to go on twice is to go on once with both histories: so
/// a start that a history from the very beginning left behind, as the empty start is, leaves one again, any number of
/// times.
pub fn resumed_is_legal()
    ensures legal { ResumedLegal }
    ensures same { ResumedSame }
    ensures start { ResumedStart }
    ensures twice { ResumedTwice }
    ensures empty { EmptyIsLeft }
    ensures again { LeftAgain }
{}

/// The state that a history leaves behind may forget why processes ended. Each process is there as before, but the
/// reason of one that ended is `noproc` then. It is still a start that the history left behind, so each law that asks
/// for such a start holds over it. If no reason is forgotten, each start after it has all reasons.
pub fn reasons_may_be_forgotten()
    ensures each { ForgetsEach }
    ensures left { ForgettingIsLeft }
    ensures stay { ReasonsStay }
{}

/// Journals make ids and references that are numbered by their stamps. So those that go on above the stamps of all
/// earlier ones, after any number of resumptions, make new ones, and each monitor is made once.
pub fn stamps_make_new_ids()
    ensures numbers { StampsNumber }
    ensures both { BothNumber }
    ensures new { StampsAreNew }
    ensures open { OldRefsResumed }
{}

/// An answer to the question whether a process is alive says whether it was alive just before the question came to
/// it; and by then all had come to it that the asker had sent it before it asked. Once no signal is on its way, each
/// question of a live process has its one answer.
pub fn answers_are_true()
    ensures told { AnswersAreTrue }
    ensures once { QuietAnswers }
{}
