//! Where each process of a supervisor's children is.

ghost use Rattle.std.specs.Prelude.{◌≡◌, ◌+◌, ◌<◌, IfSome, IsTrue, None, Some, cond, length, position};
ghost use Rattle.indexmap.specs.IndexMap.{get};
ghost use Rattle.pt_signal.specs.declared.pid.Pid.{Pid};
ghost use Rattle.pt_signal.specs.Values.{is_pid, same_pid};
ghost use Rattle.pt_children.specs.Families.{child_at};
ghost use Rattle.pt_children.specs.Spans.{KnowsPlaces, KnowsBelow, KnowsBut};

use crate::children::Child;
use indexmap::IndexMap;
use pt_signal::Pid;

/// Notes the place of one more process. Returns whether it did: there was none of this process, and memory for one.
fn note(places: &mut IndexMap<Pid, usize>, pid: Pid, place: usize) -> bool
    ensures new { IsTrue result → get same_pid places.old pid ≡ None }
    ensures noted { IsTrue result
        → (q : Pid) → get same_pid places.new q ≡ cond (same_pid pid q) (Some place) (get same_pid places.old q) }
{
    if places.get(&pid).is_some() {
        return false;
    }
    places.insert(pid, place).is_ok()
}

/// The process of the child at a place, if there is one.
fn pid_at(children: &[Child], place: usize) -> Option<Pid>
    ensures is { result ≡ child_at children.now place }
    ensures within { IfSome result (λ _. place < length children.now) }
{
    match children.get(place) {
        Some(child) => child.pid,
        None => None,
    }
}

/// Notes the place of the process of one more child, if it has one. Returns whether it did.
fn note_child(places: &mut IndexMap<Pid, usize>, children: &[Child], place: usize) -> bool
    requires { KnowsBelow place (get same_pid places.old) children.now }
    ensures { IsTrue result → KnowsBelow (place + 1) (get same_pid places.new) children.now }
{
    match pid_at(children, place) {
        Some(pid) => note(places, pid, place),
        None => true,
    }
}

/// Notes the places of all these children's processes. Returns whether it did: no two are the same, and there was memory.
pub(crate) fn note_all(places: &mut IndexMap<Pid, usize>, children: &[Child]) -> bool
    ensures { IsTrue result → KnowsPlaces (get same_pid places.new) children.now }
{
    places.clear();
    for place in 0..children.len() {
        if !note_child(places, children, place) {
            return false;
        }
    }
    true
}

/// Takes out a process, which was that of the child at a place, if there is one.
fn take_out(places: &mut IndexMap<Pid, usize>, children: &[Child], place: usize, was: Option<Pid>)
    requires others { KnowsBut place (get same_pid places.old) children.now }
    requires here { IfSome was (λ p. get same_pid places.old p ≡ Some place) }
    ensures { KnowsBut place (get same_pid places.new) children.now }
{
    if let Some(pid) = was {
        let _ = places.swap_remove(&pid);
    }
}

/// Notes that the child at a place has its process now, and this one no more. Returns whether it did.
pub(crate) fn moves(
    places: &mut IndexMap<Pid, usize>,
    children: &[Child],
    place: usize,
    was: Option<Pid>,
) -> bool
    requires others { KnowsBut place (get same_pid places.old) children.now }
    requires here { IfSome was (λ p. get same_pid places.old p ≡ Some place) }
    ensures { IsTrue result → KnowsPlaces (get same_pid places.new) children.now }
{
    let pid = pid_at(children, place);
    if pid == was {
        return true;
    }
    take_out(places, children, place, was);
    match pid {
        Some(pid) => note(places, pid, place),
        None => true,
    }
}

/// Whether the child at a place has this process.
fn is_at(children: &[Child], place: usize, pid: Pid) -> bool
    ensures is { result ≡ is_pid (child_at children.now place) pid }
    ensures within { IsTrue result → place < length children.now }
{
    match pid_at(children, place) {
        Some(own) => own == pid,
        None => false,
    }
}

/// The place of the child with this pid, if the places are known.
pub(crate) fn known_place(
    places: &IndexMap<Pid, usize>,
    children: &[Child],
    pid: Pid,
) -> Option<usize>
    requires { KnowsPlaces (get same_pid places.now) children.now }
    ensures place { result ≡ position (λ c. is_pid c.pid pid) children.now }
    ensures within { IfSome result (λ i. i < length children.now) }
{
    match places.get(&pid) {
        Some(place) if is_at(children, *place, pid) => Some(*place),
        _ => None,
    }
}
