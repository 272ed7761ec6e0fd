//! The list of a supervisor's children, which knows where something is to be done.

ghost use Rattle.std.specs.Prelude.{◌≡◌, ◌<◌, ◌++◌, ◌∷◌, [], IfSome, OnErr, OnOk, Some, length, not, position, remove, slice_get, slice_set};
ghost use Rattle.std.specs.List.{list_all};
ghost use Rattle.pt_signal.specs.Values.{is_pid};
ghost use Rattle.pt_children.specs.Children.{NextMissing, is_missing, last_alive, revived};
ghost use Rattle.pt_children.specs.Homes.{place_coming};
ghost use Rattle.pt_children.specs.Trying.{first_failed, has_failed_first};

use crate::children::{Child, Shutdown, place_of};
use crate::known::{known_place, moves, note_all};
use crate::spans::{Kind, Spans};
use crate::trial::first_failed;
use indexmap::IndexMap;
use pt_signal::Pid;
use std::alloc::AllocError;
use std::marker::Model;

/// How often a process is sought by a walk before the places of all are noted again.
const WALKS: usize = 4;

/// The children of a supervisor, in their places.
///
/// It knows of each kind of children where the first is and the last, and of each process where its child is. So to find
/// what is to be done next takes no walk through all children. If there is no memory for the places of the processes, or
/// two children have the same one, a process is sought by a walk.
#[derive(Drop)]
pub struct ChildList {
    items: Vec<Child>,
    spans: Spans,
    places: IndexMap<Pid, usize>,
    /// Whether each process of a child is among the places.
    knows: bool,
    /// How many walks there were since the places were not known any more.
    walks: usize,
}

impl Model for ChildList {
    ghost use Rattle.std.specs.Prelude.{List};
    ghost use Rattle.pt_children.specs.declared.children.Child.{Child};

    ghost Value = { List Child };

    ghost use Rattle.pt_children.specs.Listed.{IsChildList};

    ghost view = { λ s. s.items.items };

    ghost invariant = { IsChildList };
}

impl ChildList {
    /// These children.
    pub fn new(children: Vec<Child>) -> ChildList
        ensures { result ≡ children.items }
    {
        let spans = Spans::of(children.as_slice());
        let alloc = *children.allocator();
        ChildList {
            items: children,
            spans,
            places: IndexMap::new(alloc),
            knows: spans.alive.is_empty(),
            walks: 0,
        }
    }

    /// The children, in their places.
    pub fn as_slice(&self) -> &[Child]
        ensures { result.now ≡ self.now }
    {
        self.items.as_slice()
    }

    /// The number of children.
    pub fn len(&self) -> usize
        ensures { result ≡ length self.now }
    {
        self.items.len()
    }

    /// The child at a place.
    pub fn child(&self, place: usize) -> Child
        requires { place < length self.now }
        ensures { slice_get self.now place ≡ Some result }
    {
        self.items[place]
    }

    /// Puts a child into its place.
    pub fn set(&mut self, place: usize, child: Child)
        requires { place < length self.old }
        ensures { self.new ≡ slice_set self.old place child }
    {
        let was = self.items[place].pid;
        self.items[place] = child;
        self.spans = self.spans.with(self.items.as_slice(), place);
        if self.knows {
            self.knows = moves(&mut self.places, self.items.as_slice(), place, was);
        }
    }

    /// Adds a child behind the others. If there is no memory for that, nothing changes.
    pub fn push(&mut self, child: Child) -> Result<(), AllocError>
        ensures added { OnOk result (self.new ≡ self.old ++ child ∷ []) }
        ensures same { OnErr result (self.new ≡ self.old) }
    {
        let place = self.items.len();
        self.items.push(child)?;
        self.spans = self.spans.with(self.items.as_slice(), place);
        if self.knows {
            self.knows = moves(&mut self.places, self.items.as_slice(), place, None);
        }
        Ok(())
    }

    /// Forgets the child at a place. Those behind it move up.
    pub fn remove(&mut self, place: usize)
        requires { place < length self.old }
        ensures { self.new ≡ remove self.old place }
    {
        let _ = self.items.remove(place);
        self.spans = Spans::of(self.items.as_slice());
        self.knows = self.spans.alive.is_empty();
        self.walks = 0;
    }

    /// Each child from the place `first` on is to live again, unless it is temporary.
    pub fn revive(&mut self, first: usize)
        ensures { self.new ≡ revived self.old first (length self.old) }
    {
        let count = self.len();
        for place in first.min(count)..count {
            let child = self.child(place);
            self.set(place, child.revived());
        }
    }

    /// The place of a child by its pid.
    pub fn place_of(&mut self, pid: Pid) -> Option<usize>
        ensures same { self.new ≡ self.old }
        ensures place { result ≡ position (λ c. is_pid c.pid pid) self.old }
        ensures within { IfSome result (λ i. i < length self.old) }
    {
        self.note_again();
        self.seek(pid)
    }

    /// The place of a child by its pid, as far as the places are known, or else by a walk.
    fn seek(&self, pid: Pid) -> Option<usize>
        ensures place { result ≡ position (λ c. is_pid c.pid pid) self.now }
        ensures within { IfSome result (λ i. i < length self.now) }
    {
        if self.knows {
            return known_place(&self.places, self.items.as_slice(), pid);
        }
        place_of(self.items.as_slice(), pid)
    }

    /// Notes the places of all processes if they are not known, unless there were few walks without them.
    fn note_again(&mut self)
        ensures { self.new ≡ self.old }
    {
        if self.knows {
            return;
        }
        self.walks = self.walks.saturating_add(1);
        if self.walks > WALKS {
            self.knows = note_all(&mut self.places, self.items.as_slice());
        }
    }

    /// The last child that has a pid and is to end, and how it is ended: from the place `first` on each is to end, and
    /// before that each that is not wanted.
    pub fn last_alive(&self, first: usize) -> Option<(Pid, Shutdown)>
        ensures { result ≡ last_alive self.now first (length self.now) }
    {
        self.spans.last_alive(self.items.as_slice(), first)
    }

    /// The place of the first child that is being started on another desk.
    pub fn place_coming(&self) -> Option<usize>
        ensures place { result ≡ place_coming self.now }
        ensures within { IfSome result (λ i. i < length self.now) }
    {
        self.spans.coming.first_place()
    }

    /// The first place, from this one on, of a child that is to be started.
    pub fn next_missing(&self, from: usize) -> Option<usize>
        ensures { NextMissing from self.now result }
    {
        let missing = self.spans.missing;
        let first = from.max(missing.first).min(missing.end);
        let place = Kind::Missing.first_of(self.items.as_slice(), first, missing.end);
        if place < missing.end {
            Some(place)
        } else {
            None
        }
    }

    /// Whether none of them is to be started.
    pub fn all_started(&self) -> bool
        ensures { result ≡ list_all (λ c. not (is_missing c)) self.now }
    {
        self.spans.missing.is_empty()
    }

    /// The place of the first child whose first start failed.
    pub fn place_over(&self) -> Option<usize>
        ensures place { result ≡ position (λ c. has_failed_first c.trial) self.now }
        ensures within { IfSome result (λ i. i < length self.now) }
    {
        self.spans.over.first_place()
    }

    /// The place of the child that is to be tried again first: that whose start failed first.
    pub fn first_failed(&self) -> Option<(usize, u64)>
        ensures { result ≡ first_failed self.now (length self.now) }
    {
        let missing = self.spans.missing;
        first_failed(self.items.as_slice(), missing.first, missing.end)
    }
}
