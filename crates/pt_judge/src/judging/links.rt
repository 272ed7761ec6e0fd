//! The lists of one process.

ghost use Rattle.std.specs.Prelude.{◌≡◌, OnOk};
ghost use Rattle.std.specs.Map.{lookup, remove_entry, set_value};
ghost use Rattle.std.specs.List.{find, list_any};
ghost use Rattle.pt_signal.specs.Values.{same_pid, same_ref, fits, without_first};
ghost use Rattle.pt_signal.specs.Process.{held, enter, cut, keep, same_watch};

use crate::judging::entries::{Test, find, place_of, take_out};
use pt_signal::{Ids, Item, LinkId, Pick, Pid, Ref};
use std::alloc::AllocError;

impl Test<(Pid, Ids)> for Pid {
    ghost use Rattle.pt_signal.specs.Values.{same_pid};

    ghost passes = { λ peer entry. same_pid peer entry.0 };

    fn passes(&self, entry: &(Pid, Ids)) -> bool {
        *self == entry.0
    }
}

impl Test<(Ref, Pid)> for Ref {
    ghost use Rattle.pt_signal.specs.Values.{same_ref};

    ghost passes = { λ monitor entry. same_ref monitor entry.0 };

    fn passes(&self, entry: &(Ref, Pid)) -> bool {
        *self == entry.0
    }
}

/// A kept watch.
#[derive(Clone, Copy)]
struct Watch(Ref, Pid);

impl Test<(Ref, Pid)> for Watch {
    ghost use Rattle.pt_signal.specs.Process.{same_watch};

    ghost passes = { λ watch entry. same_watch watch.0 watch.1 entry };

    fn passes(&self, entry: &(Ref, Pid)) -> bool {
        self.0 == entry.0 && self.1 == entry.1
    }
}

impl Test<Item> for Pick {
    ghost use Rattle.pt_signal.specs.Values.{fits};

    ghost passes = { fits };

    fn passes(&self, item: &Item) -> bool {
        self.fits(item)
    }
}

/// The ids under which the process is linked with the peer.
pub(crate) fn ids_with(links: &[(Pid, Ids)], peer: Pid) -> Option<Ids>
    ensures { result ≡ held links.now peer }
{
    match find(links, &peer) {
        Some((_, ids)) => Some(ids),
        None => None,
    }
}

/// Takes out the whole entry of the peer.
pub(crate) fn leave(links: &mut Vec<(Pid, Ids)>, peer: Pid)
    ensures { links.new.items ≡ remove_entry (same_pid peer) links.old.items }
{
    take_out(links, &peer);
}

/// Writes the ids of the peer's entry.
fn set_ids(links: &mut Vec<(Pid, Ids)>, peer: Pid, ids: Ids)
    ensures { links.new.items ≡ set_value (same_pid peer) links.old.items ids }
{
    let place = place_of(links.as_slice(), &peer);
    if place < links.len() {
        links[place].1 = ids;
    }
}

/// The id enters at the peer, unless there are two.
pub(crate) fn enter(links: &mut Vec<(Pid, Ids)>, peer: Pid, id: LinkId) -> Result<(), AllocError>
    ensures { OnOk result (links.new.items ≡ enter peer id links.old.items) }
{
    match ids_with(links.as_slice(), peer) {
        Some(ids) => set_ids(links, peer, ids.and(id)),
        None => links.push((peer, Ids::of(id)))?,
    }
    Ok(())
}

/// The named ids leave at the peer.
pub(crate) fn cut(links: &mut Vec<(Pid, Ids)>, peer: Pid, named: Ids)
    ensures { links.new.items ≡ cut peer named links.old.items }
{
    if let Some(ids) = ids_with(links.as_slice(), peer) {
        match ids.without(named) {
            Some(left) => set_ids(links, peer, left),
            None => leave(links, peer),
        }
    }
}

/// The process that is watched under the reference.
pub(crate) fn target_of(watching: &[(Ref, Pid)], monitor: Ref) -> Option<Pid>
    ensures { result ≡ lookup (same_ref monitor) watching.now }
{
    match find(watching, &monitor) {
        Some((_, target)) => Some(target),
        None => None,
    }
}

/// Closes the monitor.
pub(crate) fn close(watching: &mut Vec<(Ref, Pid)>, monitor: Ref)
    ensures { watching.new.items ≡ remove_entry (same_ref monitor) watching.old.items }
{
    take_out(watching, &monitor);
}

/// Whether the watch is kept.
pub(crate) fn keeps(kept: &[(Ref, Pid)], monitor: Ref, watcher: Pid) -> bool
    ensures { result ≡ list_any (same_watch monitor watcher) kept.now }
{
    find(kept, &Watch(monitor, watcher)).is_some()
}

/// Keeps the watch, if it is not kept.
pub(crate) fn keep(kept: &mut Vec<(Ref, Pid)>, monitor: Ref, watcher: Pid) -> Result<(), AllocError>
    ensures { OnOk result (kept.new.items ≡ keep monitor watcher kept.old.items) }
{
    if !keeps(kept.as_slice(), monitor, watcher) {
        kept.push((monitor, watcher))?;
    }
    Ok(())
}

/// Keeps the watch no more.
pub(crate) fn forget(kept: &mut Vec<(Ref, Pid)>, monitor: Ref, watcher: Pid)
    ensures { kept.new.items ≡ without_first (same_watch monitor watcher) kept.old.items }
{
    take_out(kept, &Watch(monitor, watcher));
}

/// The first item that the pick fits.
pub(crate) fn first_match(waiting: &[Item], pick: Pick) -> Option<Item>
    ensures { result ≡ find (fits pick) waiting.now }
{
    find(waiting, &pick)
}

/// Takes out the first item that the pick fits.
pub(crate) fn take(waiting: &mut Vec<Item>, pick: Pick)
    ensures { waiting.new.items ≡ without_first (fits pick) waiting.old.items }
{
    take_out(waiting, &pick);
}
