//! The items that wait for a receive.

ghost use Rattle.std.specs.Prelude.{◌≡◌, ◌+◌, ◌-◌, ◌*◌, ◌<◌, ◌≤◌, ◌++◌, ◌∷◌, [], take, drop, length, slice_get, Some};
ghost use Rattle.std.specs.Prelude.{OnOk, OnErr, true};
ghost use Rattle.std.specs.List.{position, remove};
ghost use Rattle.pt_signal.specs.Values.{fits};
ghost use Rattle.pt_process.specs.Places.{IsFirst};
ghost use Rattle.pt_process.specs.Marks.{AreUnder, answer_number, top_after, mark_after, left_before};

use pt_signal::{Item, Pick, Pid, Ref};
use std::alloc::{AllocError, Global};
use std::marker::Model;

/// A queue of items, oldest first. A selective receive takes the first matching one.
///
/// Taking an item costs what was looked at before it, and moves the items before it or after it, whichever are fewer.
/// Taking all of n items in order costs O(n). By the invariant, at least half of the places in use hold items that
/// wait.
///
/// A receive by a reference passes over what waits before the mark, if the item there answers this reference or one
/// with a lower number. By the invariant none of what it passes over can answer it.
#[derive(Drop)]
pub struct Mailbox {
    items: Vec<Item>,
    /// The number of places of taken items in front: no more than the items that wait.
    head: usize,
    /// The highest number of a reference that an item answered which came here.
    top: u64,
    /// The mark: the place that this item got. What waits in a place before it answers references with lower numbers.
    mark: usize,
}

impl Model for Mailbox {
    ghost use Rattle.std.specs.Prelude.{List, ◌*◌, ◌-◌, ◌≤◌, drop, length};
    ghost use Rattle.pt_signal.specs.declared.item.Item.{Item};
    ghost use Rattle.pt_process.specs.Marks.{IsMarked};

    ghost Value = { List Item };

    ghost view = { λ m. drop m.head m.items.items };

    ghost invariant = { λ m. (2 * m.head ≤ length m.items.items)
        × IsMarked m.top (m.mark - m.head) (drop m.head m.items.items) };
}

impl Mailbox {
    /// An empty mailbox, which allocates nothing.
    pub fn new(alloc: Global) -> Mailbox
        ensures { result ≡ [] }
    {
        Mailbox {
            items: Vec::new(alloc),
            head: 0,
            top: 0,
            mark: 0,
        }
    }

    /// The items that wait, oldest first.
    pub fn as_slice(&self) -> &[Item]
        ensures { result.now ≡ self.now }
    {
        &self.items[self.head..]
    }

    /// Adds an item at the end.
    #[inline(always)]
    pub fn push(&mut self, item: Item) -> Result<(), AllocError>
        ensures ok { OnOk result (self.new ≡ self.old ++ item ∷ []) }
        ensures err { OnErr result (self.new ≡ self.old) }
    {
        if self.items.len() == self.items.capacity() {
            self.items.reserve(1)?;
        }
        let places = self.items.len();
        note(&mut self.top, &mut self.mark, answer_number(&item), places);
        // So the item is written where it stays. `Vec::push` is a call, for which it is put together in a place of its
        // own.
        self.items.push_reserved(item);
        Ok(())
    }

    /// The number of the oldest items that need not be looked at for an answer to a reference with this number.
    ///
    /// All are passed over if none had so high a number, and those before the mark if its item had this one.
    fn passed_over(&self, number: u64) -> usize
        ensures within { result ≤ length self.now }
        ensures under { AreUnder number result self.now }
    {
        let waiting = self.items.len() - self.head;
        if number > self.top {
            return waiting;
        }
        if number < self.top {
            return 0;
        }
        waiting.min(self.mark.saturating_sub(self.head))
    }

    /// Whether the oldest item is seen at once to match: most takes are of the oldest, and `position` is a call.
    ///
    /// Only picks of any item, of a kind and of a sender are tested. If it returns `false`, the oldest may still match.
    #[inline(always)]
    pub fn head_fits(&self, pick: Pick) -> bool
        ensures { result ≡ true → position (fits pick) self.now ≡ Some 0 }
    {
        let Some(oldest) = self.as_slice().first() else {
            return false;
        };
        match pick {
            Pick::Any => true,
            Pick::Kind(kind) => is_of_kind(oldest, kind),
            Pick::From(from) => is_from(oldest, from),
            _ => false,
        }
    }

    /// The place of the first matching item.
    #[inline(never)]
    pub fn position(&self, pick: Pick) -> Option<usize>
        ensures { result ≡ position (fits pick) self.now }
    {
        let waiting = self.as_slice();
        // One loop a pick: a test that looks at the pick anew for each item costs several times as much.
        match pick {
            Pick::Any => waiting.iter().position(|_| true),
            Pick::Kind(kind) => waiting.iter().position(|item| is_of_kind(item, kind)),
            Pick::From(from) => waiting.iter().position(|item| is_from(item, from)),
            Pick::ExitOf(pid) => waiting.iter().position(|item| is_exit_of(item, pid)),
            Pick::DownOf(monitor) => {
                let from = self.passed_over(monitor.number);
                let place = down_place(&waiting[from..], monitor)?;
                Some(from + place)
            }
            Pick::AliveOf(question) => {
                let from = self.passed_over(question.number);
                let place = alive_place(&waiting[from..], question)?;
                Some(from + place)
            }
        }
    }

    /// The first matching item, with its place, counted from the oldest.
    pub fn first(&self, pick: Pick) -> Option<(usize, Item)>
        ensures { IsFirst (fits pick) self.now result }
    {
        match self.position(pick) {
            Some(place) => Some((place, self.as_slice()[place])),
            None => None,
        }
    }

    /// Takes the item at a place; the others stay, in order.
    #[inline(always)]
    pub fn take_at(&mut self, place: usize) -> Item
        requires { place < length self.old }
        ensures item { slice_get self.old place ≡ Some result }
        ensures rest { self.new ≡ remove self.old place }
    {
        let item = self.items[self.head + place];
        remove_at(&mut self.items, &mut self.head, &mut self.mark, place);
        if self.head > self.items.len() - self.head {
            close_gap(&mut self.items, &mut self.head, &mut self.mark);
        }
        item
    }
}

/// Removes the item at a place, and leaves the mark at its item.
#[inline(always)]
fn remove_at(items: &mut Vec<Item>, head: &mut usize, mark: &mut usize, place: usize)
    requires { head.old + place < length items.old.items }
    ensures waiting { drop head.new items.new.items ≡ remove (drop head.old items.old.items) place }
    ensures within { head.new ≤ length items.new.items }
    ensures mark { mark.new - head.new ≡ left_before place (mark.old - head.old) }
{
    if place == 0 {
        *head += 1;
    } else {
        take_out(items, head, mark, place);
    }
}

/// Takes an item out. The items before it move up, or those after it move down, whichever are fewer.
#[inline(never)]
fn take_out(items: &mut Vec<Item>, head: &mut usize, mark: &mut usize, place: usize)
    requires { head.old + place < length items.old.items }
    ensures waiting { drop head.new items.new.items ≡ remove (drop head.old items.old.items) place }
    ensures within { head.new ≤ length items.new.items }
    ensures mark { mark.new - head.new ≡ left_before place (mark.old - head.old) }
{
    let taken = *head + place;
    if place >= items.len() - taken {
        items.remove(taken);
        *mark -= usize::from(taken < *mark);
    } else {
        items[*head..taken + 1].rotate_right(1);
        *head += 1;
        *mark += usize::from(*mark <= taken);
    }
}

/// Closes the gap before the head if it is more than half, so that its cost was paid by as many takes.
#[inline(always)]
fn close_gap(items: &mut Vec<Item>, head: &mut usize, mark: &mut usize)
    requires within { head.old ≤ length items.old.items }
    requires half { length items.old.items - head.old ≤ head.old }
    ensures waiting { drop head.new items.new.items ≡ drop head.old items.old.items }
    ensures closed { head.new ≡ 0 }
    ensures mark { head.old < length items.old.items → mark.new ≡ mark.old - head.old }
{
    let waiting = items.len() - *head;
    if waiting > 0 {
        bring_forward(items, *head);
        *mark = mark.saturating_sub(*head);
    }
    items.truncate(waiting);
    *head = 0;
}

/// Copies the items from the head on to the front, in one block: `copy_within` goes item by item. Most takes leave an
/// empty mailbox, and then there is nothing to copy.
#[inline(never)]
fn bring_forward(items: &mut [Item], head: usize)
    requires within { head ≤ length items.old }
    requires apart { length items.old - head ≤ head }
    ensures front { take (length items.old - head) items.new ≡ drop head items.old }
    ensures len { length items.new ≡ length items.old }
{
    let (gap, waiting) = items.split_at_mut(head);
    gap[..waiting.len()].copy_from_slice(waiting);
}

/// The number of the reference that an item answers, if it answers one.
#[inline(always)]
fn answer_number(item: &Item) -> Option<u64>
    ensures { result ≡ answer_number item.now }
{
    match *item {
        Item::Down(answered, _, _) | Item::Alive(answered, _, _) => Some(answered.number),
        Item::User(..) | Item::Exit(..) => None,
    }
}

/// Marks the place behind so many if an item comes there that answers a reference with a higher number than all before.
#[inline(always)]
fn note(top: &mut u64, mark: &mut usize, number: Option<u64>, places: usize)
    ensures top { top.new ≡ top_after number top.old }
    ensures mark { mark.new ≡ mark_after number top.old places mark.old }
{
    let Some(number) = number else {
        return;
    };
    if number > *top {
        *top = number;
        *mark = places;
    } else if number == *top {
        // No two answers have the same number. So all are looked at, if ever they had.
        *mark = 0;
    }
}

fn is_of_kind(item: &Item, kind: u32) -> bool
    ensures { result ≡ fits (Pick.Kind kind) item.now }
{
    matches!(item, Item::User(_, body) if body.kind == kind)
}

fn is_from(item: &Item, pid: Pid) -> bool
    ensures { result ≡ fits (Pick.From pid) item.now }
{
    matches!(item, Item::User(from, _) if pid == *from)
}

fn is_exit_of(item: &Item, pid: Pid) -> bool
    ensures { result ≡ fits (Pick.ExitOf pid) item.now }
{
    matches!(item, Item::Exit(from, _) if pid == *from)
}

fn down_place(items: &[Item], monitor: Ref) -> Option<usize>
    ensures { result ≡ position (fits (Pick.DownOf monitor)) items.now }
{
    items.iter().position(|item| is_down_of(item, monitor))
}

fn is_down_of(item: &Item, monitor: Ref) -> bool
    ensures { result ≡ fits (Pick.DownOf monitor) item.now }
{
    matches!(item, Item::Down(answered, _, _) if monitor == *answered)
}

fn alive_place(items: &[Item], question: Ref) -> Option<usize>
    ensures { result ≡ position (fits (Pick.AliveOf question)) items.now }
{
    items.iter().position(|item| is_alive_of(item, question))
}

fn is_alive_of(item: &Item, question: Ref) -> bool
    ensures { result ≡ fits (Pick.AliveOf question) item.now }
{
    matches!(item, Item::Alive(answered, _, _) if question == *answered)
}
