//! References of monitors and questions, and ids of links.

ghost use Rattle.std.specs.Prelude.{◌≡◌};
ghost use Rattle.pt_signal.specs.Process.{one_id, has_id, share_id, add_id, without_ids};

use std::fmt;

/// The reference of one monitor, or of one question whether a process is alive.
#[derive(Clone, Copy, Debug, PartialOrd, Ord, Hash)]
pub struct Ref {
    /// The desk of the process that watches or asks.
    pub desk: u8,
    /// The stamp of the event that made the monitor or asked.
    pub number: u64,
}

/// The id of one making of a link.
#[derive(Clone, Copy, Debug, PartialOrd, Ord, Hash)]
pub struct LinkId {
    /// The desk of the process that made the link.
    pub desk: u8,
    /// The stamp of the event that made it.
    pub number: u64,
}

/// The ids under which two processes are linked, in order of entry.
///
/// There are two where both sides made the link at the same time.
#[derive(Clone, Copy, Debug, PartialEq, Eq)]
pub struct Ids {
    /// The id that entered first.
    pub one: LinkId,
    /// The one that entered after it.
    pub two: Option<LinkId>,
}

impl PartialEq for Ref {
    ghost use Rattle.std.proofs.Common.{rules};
    ghost use Rattle.std.specs.Cmp.Rules.{comparing};
    ghost use Rattle.pt_signal.specs.Values.{same_ref};

    ghost eq = { same_ref };

    ghost laws = { Prim.search (comparing, rules) };

    fn eq(&self, other: &Ref) -> bool {
        self.desk == other.desk && self.number == other.number
    }
}

impl Eq for Ref {
    ghost use Rattle.std.proofs.Common.{rules};
    ghost use Rattle.std.specs.Cmp.Rules.{comparing};

    ghost laws = { Prim.search (comparing, rules) };
}

impl PartialEq for LinkId {
    ghost use Rattle.std.proofs.Common.{rules};
    ghost use Rattle.std.specs.Cmp.Rules.{comparing};
    ghost use Rattle.pt_signal.specs.Values.{same_link};

    ghost eq = { same_link };

    ghost laws = { Prim.search (comparing, rules) };

    fn eq(&self, other: &LinkId) -> bool {
        self.desk == other.desk && self.number == other.number
    }
}

impl Eq for LinkId {
    ghost use Rattle.std.proofs.Common.{rules};
    ghost use Rattle.std.specs.Cmp.Rules.{comparing};

    ghost laws = { Prim.search (comparing, rules) };
}

impl Ids {
    /// The one id alone.
    pub fn of(id: LinkId) -> Ids
        ensures { result ≡ one_id id }
    {
        Ids { one: id, two: None }
    }

    /// Whether the id is among these.
    pub fn has(self, id: LinkId) -> bool
        ensures { result ≡ has_id self id }
    {
        match self.two {
            Some(two) => id == self.one || id == two,
            None => id == self.one,
        }
    }

    /// Whether the two have an id in common.
    pub fn shares(self, named: Ids) -> bool
        ensures { result ≡ share_id self named }
    {
        match self.two {
            Some(two) => named.has(self.one) || named.has(two),
            None => named.has(self.one),
        }
    }

    /// These and one more, unless there are two.
    pub fn and(self, id: LinkId) -> Ids
        ensures { result ≡ add_id self id }
    {
        match self.two {
            Some(_) => self,
            None => Ids {
                one: self.one,
                two: Some(id),
            },
        }
    }

    /// Those that are not named, or `None` where none is left.
    pub fn without(self, named: Ids) -> Option<Ids>
        ensures { result ≡ without_ids named self }
    {
        let two = match self.two {
            Some(two) if !named.has(two) => Some(two),
            _ => None,
        };
        if named.has(self.one) {
            return two.map(|id| Ids::of(id));
        }
        Some(Ids { one: self.one, two })
    }
}

impl fmt::Display for Ref {
    ghost use Rattle.std.specs.Prelude.{Some};
    ghost use Rattle.pt_signal.specs.Text.{ref_text};

    ghost output = { λ m. Some (ref_text m) };

    fn fmt<W: fmt::Write>(&self, f: &mut fmt::Formatter<W>) -> fmt::Result {
        let Ref { desk, number } = *self;
        write!(f, "#{desk}.{number}")
    }
}

impl fmt::Display for LinkId {
    ghost use Rattle.std.specs.Prelude.{Some};
    ghost use Rattle.pt_signal.specs.Text.{link_id_text};

    ghost output = { λ i. Some (link_id_text i) };

    fn fmt<W: fmt::Write>(&self, f: &mut fmt::Formatter<W>) -> fmt::Result {
        let LinkId { desk, number } = *self;
        write!(f, "~{desk}.{number}")
    }
}

impl fmt::Display for Ids {
    ghost use Rattle.std.specs.Prelude.{Some};
    ghost use Rattle.pt_signal.specs.Text.{ids_text};

    ghost output = { λ ids. Some (ids_text ids) };

    fn fmt<W: fmt::Write>(&self, f: &mut fmt::Formatter<W>) -> fmt::Result {
        let Ids { one, two } = *self;
        match two {
            Some(two) => write!(f, "{one}+{two}"),
            None => write!(f, "{one}"),
        }
    }
}
