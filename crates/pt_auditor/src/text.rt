//! The texts of verdicts, processes and faults.

#![tactic(auto, unfolding(crate::specs::Text::verdict_text, crate::specs::Text::verdict_text_of, crate::specs::Text::verdict_counts_text, crate::specs::Text::no_node_text, crate::specs::Text::foreign_text, crate::specs::Text::standing_text, crate::specs::Text::any_signal_text, crate::specs::Text::any_item_text, crate::specs::Text::absence_text, crate::specs::Text::contradiction_text, crate::specs::Text::objection_text, crate::specs::Text::line_fault_text, crate::specs::Text::fault_text, crate::specs::Text::flaw_text, crate::specs::Text::damage_text,))]

use crate::{
    Contradiction, Damage, Fault, Flaw, Foreign, NoNode, Objection, Standing, Verdict, Why,
};
use pt_signal::{Fate, Item, Reason, Signal};
use std::fmt;

/// A signal, or the word that there is none.
#[derive(Clone, Copy)]
struct AnySignal(Option<Signal>);

/// An item, or the word that there is none.
#[derive(Clone, Copy)]
struct AnyItem(Option<Item>);

/// Why a process is not alive.
#[derive(Clone, Copy)]
struct Absence(Option<Reason>);

impl fmt::Display for Standing {
    ghost use Rattle.std.specs.Prelude.{Some};
    ghost use Rattle.pt_auditor.specs.Text.{standing_text};

    ghost output = { λ s. Some (standing_text s) };

    fn fmt<W: fmt::Write>(&self, f: &mut fmt::Formatter<W>) -> fmt::Result {
        let Standing {
            pid,
            ended,
            waiting,
        } = *self;
        let fate = Fate(ended);
        write!(f, "{pid} {fate} waiting {waiting}")
    }
}

impl fmt::Display for AnySignal {
    ghost use Rattle.std.specs.Prelude.{Some};
    ghost use Rattle.pt_auditor.specs.Text.{any_signal_text};

    ghost output = { λ x. Some (any_signal_text x.0) };

    fn fmt<W: fmt::Write>(&self, f: &mut fmt::Formatter<W>) -> fmt::Result {
        match self.0 {
            Some(signal) => write!(f, "{signal}"),
            None => f.write_str("nothing"),
        }
    }
}

impl fmt::Display for AnyItem {
    ghost use Rattle.std.specs.Prelude.{Some};
    ghost use Rattle.pt_auditor.specs.Text.{any_item_text};

    ghost output = { λ i. Some (any_item_text i.0) };

    fn fmt<W: fmt::Write>(&self, f: &mut fmt::Formatter<W>) -> fmt::Result {
        match self.0 {
            Some(item) => write!(f, "{item}"),
            None => f.write_str("nothing"),
        }
    }
}

impl fmt::Display for Absence {
    ghost use Rattle.std.specs.Prelude.{Some};
    ghost use Rattle.pt_auditor.specs.Text.{absence_text};

    ghost output = { λ a. Some (absence_text a.0) };

    fn fmt<W: fmt::Write>(&self, f: &mut fmt::Formatter<W>) -> fmt::Result {
        match self.0 {
            Some(reason) => write!(f, "ended with {reason}"),
            None => f.write_str("was never born"),
        }
    }
}

impl fmt::Display for NoNode {
    ghost use Rattle.std.specs.Prelude.{Some};
    ghost use Rattle.pt_auditor.specs.Text.{no_node_text};

    ghost output = { λ w. Some (no_node_text w) };

    fn fmt<W: fmt::Write>(&self, f: &mut fmt::Formatter<W>) -> fmt::Result {
        f.write_str(match *self {
            NoNode::Desk => "a node has desks 0 to 63",
            NoNode::Stamp => "a node's stamps are from 1 to 4611686018427387904",
            NoNode::Slot => "a node has slots 0 to 65535",
            NoNode::NoVersion => "a node has versions from 1 on",
            NoNode::OtherDesk => "the process is of another desk",
            NoNode::OtherId => "what is new is not named by the desk and the stamp",
            NoNode::Version => "the version before it in the slot has not ended",
            NoNode::Unborn => "the receiver is of the same desk, and was not born",
            NoNode::Ended => "the receiver is of the same desk, and has ended",
            NoNode::Seen => "the desk has seen that the receiver has ended",
            NoNode::Overtakes => "an older letter between the two desks is on its way",
            NoNode::OtherStamp => "the stamp is not the one that a node gives",
            NoNode::OtherTurn => "letters left over are in the order of their desks",
        })
    }
}

impl fmt::Display for Foreign {
    ghost use Rattle.std.specs.Prelude.{Some};
    ghost use Rattle.pt_auditor.specs.Text.{foreign_text};

    ghost output = { λ f. Some (foreign_text f) };

    fn fmt<W: fmt::Write>(&self, f: &mut fmt::Formatter<W>) -> fmt::Result {
        let Foreign { line, why } = *self;
        write!(f, "line {line}: {why}")
    }
}

impl fmt::Display for Verdict {
    ghost use Rattle.std.specs.Prelude.{Some};
    ghost use Rattle.pt_auditor.specs.Text.{verdict_text};

    ghost output = { λ v. Some (verdict_text v) };

    fn fmt<W: fmt::Write>(&self, f: &mut fmt::Formatter<W>) -> fmt::Result {
        let Verdict {
            events,
            desks,
            letters,
            foreign,
        } = *self;
        match foreign {
            Some(foreign) => write!(f, "legal, but of no node: {foreign}"),
            None => write!(
                f,
                "legal: {events} events, {desks} desks, {letters} letters on their way"
            ),
        }
    }
}

impl fmt::Display for Contradiction {
    ghost use Rattle.std.specs.Prelude.{Some};
    ghost use Rattle.pt_auditor.specs.Text.{contradiction_text};

    ghost output = { λ c. Some (contradiction_text c) };

    fn fmt<W: fmt::Write>(&self, f: &mut fmt::Formatter<W>) -> fmt::Result {
        match *self {
            Contradiction::Oldest(signal) => {
                let signal = AnySignal(signal);
                write!(f, "; the oldest on its way between the two: {signal}")
            }
            Contradiction::First(item) => {
                let item = AnyItem(item);
                write!(f, "; the first that fits: {item}")
            }
            Contradiction::Dead(pid, reason) => {
                let absence = Absence(reason);
                write!(f, "; {pid} {absence}")
            }
            Contradiction::Nothing => Ok(()),
        }
    }
}

impl fmt::Display for Objection {
    ghost use Rattle.std.specs.Prelude.{Some};
    ghost use Rattle.pt_auditor.specs.Text.{objection_text};

    ghost output = { λ o. Some (objection_text o) };

    fn fmt<W: fmt::Write>(&self, f: &mut fmt::Formatter<W>) -> fmt::Result {
        match *self {
            Objection::Behind => f.write_str("an event behind a letter left over"),
            Objection::Sinks(last) => {
                write!(f, "its stamp and desk do not rise above those of: {last}")
            }
            Objection::MayNot(cause, against) => write!(f, "{cause}{against}"),
            Objection::OtherDesks => {
                f.write_str("the desks are not those of the sender and the receiver")
            }
            Objection::OtherLetter(signal) => {
                let signal = AnySignal(signal);
                write!(
                    f,
                    "it is not the oldest on its way between the two, which is: {signal}"
                )
            }
            Objection::Untold(from, to, signal) => {
                write!(
                    f,
                    "no line tells of what is on its way: {from} -> {to} {signal}"
                )
            }
            Objection::OfNoNode(why) => write!(f, "no node prints it: {why}"),
            Objection::Memory => f.write_str("memory refused"),
        }
    }
}

impl fmt::Display for Why {
    ghost use Rattle.std.specs.Prelude.{Some};
    ghost use Rattle.pt_auditor.specs.Text.{line_fault_text};

    ghost output = { λ w. Some (line_fault_text w) };

    fn fmt<W: fmt::Write>(&self, f: &mut fmt::Formatter<W>) -> fmt::Result {
        match *self {
            Why::Unread(column) => {
                write!(f, "column {column}: no event and no letter left over")
            }
            Why::Event(stamped, objection) => write!(f, "{stamped}: {objection}"),
            Why::Letter(left, objection) => {
                let letter = left.letter;
                write!(f, "{letter}: {objection}")
            }
            Why::Over(objection) => write!(f, "{objection}"),
            Why::Long => f.write_str("more than 1024 bytes"),
            Why::Memory => f.write_str("memory refused"),
        }
    }
}

impl fmt::Display for Fault {
    ghost use Rattle.std.specs.Prelude.{Some};
    ghost use Rattle.pt_auditor.specs.Text.{fault_text};

    ghost output = { λ f. Some (fault_text f) };

    fn fmt<W: fmt::Write>(&self, f: &mut fmt::Formatter<W>) -> fmt::Result {
        let Fault { line, why } = *self;
        write!(f, "line {line}: {why}")
    }
}

impl fmt::Display for Flaw {
    ghost use Rattle.std.specs.Prelude.{Some};
    ghost use Rattle.pt_auditor.specs.Text.{flaw_text};

    ghost output = { λ f. Some (flaw_text f) };

    fn fmt<W: fmt::Write>(&self, f: &mut fmt::Formatter<W>) -> fmt::Result {
        f.write_str(match *self {
            Flaw::Unread => "no line of a state",
            Flaw::Misplaced => "a line that may not come here",
            Flaw::Sum => "the sum is not that of the lines before it",
            Flaw::Behind => "more comes after the end",
            Flaw::Memory => "memory refused",
        })
    }
}

impl fmt::Display for Damage {
    ghost use Rattle.std.specs.Prelude.{Some};
    ghost use Rattle.pt_auditor.specs.Text.{damage_text};

    ghost output = { λ d. Some (damage_text d) };

    fn fmt<W: fmt::Write>(&self, f: &mut fmt::Formatter<W>) -> fmt::Result {
        let Damage { line, column, flaw } = *self;
        write!(f, "line {line}: column {column}: {flaw}")
    }
}
