//! The places that the members of a crew had last.

ghost use Rattle.std.specs.Prelude.{◌≡◌, ◌<◌, ◌≤◌, ◌↔◌, IfSome, IsOk, IsTrue, OnOk, Some, is_some, vec_len};
ghost use Rattle.indexmap.specs.IndexMap.{IndexMap, get, index_map_len, index_of_by};
ghost use Rattle.pt_signal.specs.Values.{same_pid};

use indexmap::IndexMap;
use pt_workers::Pid;
use std::alloc::{AllocError, Global};

/// For each member of a crew a guess of its place in the map of the members, which saves the hash of its pid.
///
/// A guess is at the last bits of the member's slot. It may be wrong, since members move and two slots may end alike.
/// So a reader looks which member is there: a hint is a place that has that member, or none. It is public since a crew
/// has one; no call returns one.
#[derive(Drop)]
pub struct Hints {
    places: Vec<u32>,
}

impl Hints {
    /// None yet.
    pub(crate) fn new(alloc: Global) -> Hints {
        Hints {
            places: Vec::new(alloc),
        }
    }

    /// Makes room for the guesses of so many members: a power of two of them, as many as the last bits of a slot
    /// distinguish.
    pub(crate) fn grow(&mut self, members: usize) -> Result<(), AllocError>
        ensures ok { OnOk result (members ≤ vec_len self.new.places) }
        ensures succeeds { members ≤ vec_len self.old.places → IsOk result }
    {
        if members <= self.places.len() {
            return Ok(());
        }
        match members.checked_next_power_of_two() {
            Some(count) => self.places.resize(count, 0),
            None => Err(AllocError),
        }
    }

    /// The place of p among the members: the last place of the member of its slot, or else the place that its hash
    /// leads to.
    #[inline(always)]
    pub(crate) fn place_of<V>(&mut self, members: &IndexMap<Pid, V>, p: &Pid) -> Option<usize>
        ensures index { result ≡ index_of_by (same_pid p.now) members.now }
        ensures found { is_some result ≡ is_some (get same_pid members.now p.now) }
        ensures within { IfSome result (λ place. place < index_map_len members.now) }
    {
        if let Some(place) = self.hint(members, p) {
            return Some(place);
        }
        self.look_up(members, *p)
    }

    /// The place that was noted for p, if p is the member there.
    #[inline(always)]
    fn hint<V>(&self, members: &IndexMap<Pid, V>, p: &Pid) -> Option<usize>
        ensures { IfSome result (λ place. index_of_by (same_pid p.now) members.now ≡ Some place) }
    {
        let place = self.guess(p.slot);
        stands_at(members, place, p).then_some(place)
    }

    /// The place of p among the members, which is noted.
    #[inline(never)]
    fn look_up<V>(&mut self, members: &IndexMap<Pid, V>, p: Pid) -> Option<usize>
        ensures index { result ≡ index_of_by (same_pid p) members.now }
        ensures found { is_some result ≡ is_some (get same_pid members.now p) }
        ensures within { IfSome result (λ place. place < index_map_len members.now) }
    {
        let place = members.get_index_of(&p)?;
        self.note(p.slot, place);
        Some(place)
    }

    /// The guess of that slot: the first place if there is none.
    #[inline(always)]
    fn guess(&self, slot: u32) -> usize {
        match self.places.get(self.index(slot)) {
            Some(place) => *place as usize,
            None => 0,
        }
    }

    /// Notes the place of the member of that slot.
    fn note(&mut self, slot: u32, place: usize) {
        let index = self.index(slot);
        if let (Some(guess), Ok(place)) = (self.places.get_mut(index), u32::try_from(place)) {
            *guess = place;
        }
    }

    /// The place of that slot's guess, if there is room for one.
    #[inline(always)]
    fn index(&self, slot: u32) -> usize {
        slot as usize & self.places.len().wrapping_sub(1)
    }
}

/// Whether p is the member at that place.
#[inline(always)]
fn stands_at<V>(members: &IndexMap<Pid, V>, place: usize, p: &Pid) -> bool
    ensures { IsTrue result ↔ (index_of_by (same_pid p.now) members.now ≡ Some place) }
{
    match members.as_slice().get_index(place) {
        Some((key, _member)) => *key == *p,
        None => false,
    }
}
