//! Of each kind of children the first place and the last, so that no walk through all of them is needed.

ghost use Rattle.std.specs.Prelude.{◌≡◌, ◌<◌, ◌≤◌, ℕ, ◌-◌, ◌^◌, length, nat_le};
ghost use Rattle.pt_children.specs.Children.{last_alive};
ghost use Rattle.pt_children.specs.Spans.{AreSpans, AreSpansBut, AreIn, AreInBut, IsSpan, IsThere, NoneBetween, Outside, first_in, is_kind, last_in};

use crate::children::{Child, Shutdown};
use pt_signal::Pid;

/// What a child may be, so that something is to be done about it. It is public since the definitions name it.
#[derive(Clone, Copy, Debug, PartialEq, Eq)]
pub enum Kind {
    /// It has a process.
    Alive,
    /// It has a process, and is not wanted.
    Unwanted,
    /// It is being started on another desk.
    Coming,
    /// It is to be started.
    Missing,
    /// Its first start failed.
    Over,
}

impl Kind {
    /// Whether a child is of the kind.
    fn is_of(self, child: &Child) -> bool
        ensures { result ≡ is_kind self child.now }
    {
        match self {
            Kind::Alive => child.pid.is_some(),
            Kind::Unwanted => child.pid.is_some() && !child.wanted,
            Kind::Coming => child.is_coming(),
            Kind::Missing => child.is_missing(),
            Kind::Over => child.trial.has_failed_first(),
        }
    }

    /// The first place of the kind from one place on and before another, or that.
    pub(crate) fn first_of(self, children: &[Child], first: usize, end: usize) -> usize
        requires ordered { first ≤ end }
        requires within { end ≤ length children.now }
        ensures from { first ≤ result }
        ensures to { result ≤ end }
        ensures none { NoneBetween (is_kind self) first result children.now }
        ensures there { result < end → IsThere (is_kind self) result children.now }
    {
        for place in first..end {
            if self.is_of(&children[place]) {
                return place;
            }
        }
        end
    }

    /// The place behind the last one of the kind from one place on and before another, or the first.
    fn end_of(self, children: &[Child], first: usize, end: usize) -> usize
        requires ordered { first ≤ end }
        requires within { end ≤ length children.now }
        ensures from { first ≤ result }
        ensures to { result ≤ end }
        ensures none { NoneBetween (is_kind self) result end children.now }
        ensures there { first < result → IsThere (is_kind self) (result - 1) children.now }
    {
        let mut behind = end;
        while first < behind {
            if self.is_of(&children[behind - 1]) {
                return behind;
            }
            behind -= 1;
        }
        behind
    }
}

/// The places from the first one of a kind to the last. It is public since the definitions name it.
#[derive(Clone, Copy, Debug, PartialEq, Eq)]
pub struct Span {
    pub first: usize,
    /// The place behind the last one.
    pub end: usize,
}

impl Span {
    /// Whether no child is of the kind.
    pub(crate) fn is_empty(self) -> bool
        ensures { result ≡ nat_le self.end self.first }
    {
        self.end <= self.first
    }

    /// The first place, if a child is of the kind.
    pub(crate) fn first_place(self) -> Option<usize>
        ensures { result ≡ first_in self }
    {
        if self.end <= self.first {
            return None;
        }
        Some(self.first)
    }

    /// The last place, if a child is of the kind and the last one stands from this place on.
    fn last_from(self, from: usize) -> Option<usize>
        ensures { result ≡ last_in from self }
    {
        if self.first < self.end && from < self.end {
            Some(self.end - 1)
        } else {
            None
        }
    }

    /// The same places, and this one.
    fn and(self, place: usize) -> Span
        requires ordered { self.first ≤ self.end }
        requires bounded { place < 2 ^ 64 - 1 }
        ensures from { result.first ≤ place }
        ensures to { place < result.end }
        ensures within { (n : ℕ) → self.end ≤ n → place < n → result.end ≤ n }
        ensures outside { (j : ℕ) → Outside result j → Outside self j }
    {
        if self.end <= self.first {
            return Span {
                first: place,
                end: place + 1,
            };
        }
        if place < self.first {
            return Span {
                first: place,
                end: self.end,
            };
        }
        if self.end <= place {
            return Span {
                first: self.first,
                end: place + 1,
            };
        }
        self
    }

    /// The places of the kind among these, without those of no such child before the first and behind the last.
    fn tight(self, kind: Kind, children: &[Child]) -> Span
        requires { AreIn (is_kind kind) self children.now }
        ensures { IsSpan (is_kind kind) result children.now }
    {
        let first = kind.first_of(children, self.first, self.end);
        let end = kind.end_of(children, first, self.end);
        Span { first, end }
    }

    /// The places of the kind, among all.
    fn of(kind: Kind, children: &[Child]) -> Span
        ensures { IsSpan (is_kind kind) result children.now }
    {
        let all = Span {
            first: 0,
            end: children.len(),
        };
        all.tight(kind, children)
    }

    /// The places of the kind, once this child is in its place and those outside of that are as they were.
    fn with(self, kind: Kind, children: &[Child], place: usize) -> Span
        requires within { place < length children.now }
        requires holds { AreInBut (is_kind kind) self place children.now }
        ensures { IsSpan (is_kind kind) result children.now }
    {
        let _count = children.len();
        if kind.is_of(&children[place]) {
            return self.and(place).tight(kind, children);
        }
        self.tight(kind, children)
    }
}

/// The places of each kind. It is public since the definitions name it.
#[derive(Clone, Copy, Debug, PartialEq, Eq)]
pub struct Spans {
    pub alive: Span,
    pub unwanted: Span,
    pub coming: Span,
    pub missing: Span,
    pub over: Span,
}

impl Spans {
    /// The places among these children.
    pub(crate) fn of(children: &[Child]) -> Spans
        ensures { AreSpans result children.now }
    {
        Spans {
            alive: Span::of(Kind::Alive, children),
            unwanted: Span::of(Kind::Unwanted, children),
            coming: Span::of(Kind::Coming, children),
            missing: Span::of(Kind::Missing, children),
            over: Span::of(Kind::Over, children),
        }
    }

    /// The places, once a child has changed in its place.
    pub(crate) fn with(self, children: &[Child], place: usize) -> Spans
        requires within { place < length children.now }
        requires others { AreSpansBut self place children.now }
        ensures { AreSpans result children.now }
    {
        Spans {
            alive: self.alive.with(Kind::Alive, children, place),
            unwanted: self.unwanted.with(Kind::Unwanted, children, place),
            coming: self.coming.with(Kind::Coming, children, place),
            missing: self.missing.with(Kind::Missing, children, place),
            over: self.over.with(Kind::Over, children, place),
        }
    }

    /// The last child that has a pid and is to end, and how it is ended: from the place `first` on each is to end, and
    /// before that each that is not wanted.
    pub(crate) fn last_alive(self, children: &[Child], first: usize) -> Option<(Pid, Shutdown)>
        requires { AreSpans self children.now }
        ensures { result ≡ last_alive children.now first (length children.now) }
    {
        if let Some(place) = self.alive.last_from(first) {
            return children[place].leaving();
        }
        match self.unwanted.last_from(0) {
            Some(place) => children[place].leaving(),
            None => None,
        }
    }
}
