//! The journals of several desks as one list.

ghost use Rattle.std.specs.Prelude.{◌≡◌, ℕ, ◌+◌, ◌<◌, ◌≤◌, ◌^◌, length, reverse, IfOk, OnSome};
ghost use Rattle.pt_events.specs.Journal.{IsMerge};
ghost use Rattle.pt_events.specs.JournalState.{IsInOrder};
ghost use Rattle.pt_judge.specs.Merging.{AreApart, journal_of};
ghost use Rattle.pt_judge.specs.Race.{AreInOrder, desk_at, past_at, events_at, left_at, head_of, next_key, taken_at};
ghost use Rattle.pt_judge.specs.Race.{winner_at, winner_in, middle, leads, IsBest, IsPlayed, IsTaken, OnlyWinners};
ghost use Rattle.pt_judge.specs.Race.{TakesFirst};

use pt_events::{Journal, Stamped};
use std::alloc::{AllocError, Global};

/// Journals race to give the next event of the merge. Of the journals from `low` up to `high`, where there are two
/// or more, the winner stands in the seat of the middle one: so each has one match, and a journal that moves on
/// plays again in a number of matches that is the logarithm of the number of journals.
#[derive(Clone, Copy)]
struct Seat {
    /// The journal that won the match in whose middle this seat is.
    winner: usize,
    /// How many events of the journal with this number were taken.
    taken: usize,
}

/// The events of all journals, in the order of stamp, then desk.
///
/// The journals are to be of different desks: of two of one desk nothing is said. It takes two pieces of memory,
/// the answer, and a few words for each journal; where one is refused nothing is left. Each event costs the
/// logarithm of the number of journals.
pub fn merge(alloc: Global, journals: &[&Journal]) -> Result<Vec<Stamped>, AllocError>
    ensures { IfOk result (λ merged. AreApart journals.now → IsMerge (journal_of journals.now) (reverse merged.items)) }
{
    let count = count(journals);
    let mut merged = Vec::with_capacity(alloc, count)?;
    let mut seats = seats(alloc, journals)?;
    while let Some(event) = next(journals, &mut seats) {
        merged.push(event)?;
    }
    Ok(merged)
}

/// How many events there are.
fn count(journals: &[&Journal]) -> usize
    ensures { AreInOrder journals.now }
{
    let mut count: usize = 0;
    for which in 0..journals.len() {
        count = count.saturating_add(events_of(journals, which).len());
    }
    count
}

/// The events of a journal, oldest first.
fn events_of<'a>(journals: &[&'a Journal], which: usize) -> &'a [Stamped]
    requires { which < length journals.now }
    ensures events { result.now ≡ events_at journals.now which }
    ensures order { IsInOrder (desk_at journals.now which) (past_at journals.now which) }
{
    journals[which].events()
}

/// The seats of journals of which nothing was taken, all matches played.
fn seats(alloc: Global, journals: &[&Journal]) -> Result<Vec<Seat>, AllocError>
    ensures length { IfOk result (λ seats. length seats.items ≡ length journals.now) }
    ensures untaken { IfOk result (λ seats. (j : ℕ) → taken_at seats.items j ≡ 0) }
    ensures played { IfOk result
        (λ seats. 0 < length journals.now
        → IsPlayed (next_key journals.now seats.items) (winner_at seats.items) 0 (length journals.now)) }
{
    let start = Seat {
        winner: 0,
        taken: 0,
    };
    let mut seats = vec![in alloc; start; journals.len()]?;
    if !journals.is_empty() {
        play_all(journals, &mut seats, 0, journals.len());
    }
    Ok(seats)
}

/// The next event of a journal, if any is left.
fn head(journals: &[&Journal], seats: &[Seat], which: usize) -> Option<Stamped>
    requires same { length seats.now ≡ length journals.now }
    requires within { which < length journals.now }
    ensures event { result ≡ head_of (left_at journals.now seats.now which) }
    ensures room { OnSome result (taken_at seats.now which + 1 < 2 ^ 64) }
{
    events_of(journals, which).get(seats[which].taken).copied()
}

/// The stamp and the desk of the next event of a journal, if any is left.
fn key(journals: &[&Journal], seats: &[Seat], which: usize) -> Option<(u64, u8)>
    requires same { length seats.now ≡ length journals.now }
    requires within { which < length journals.now }
    ensures { result ≡ next_key journals.now seats.now which }
{
    let next = events_of(journals, which).get(seats[which].taken)?;
    Some((next.stamp, next.desk))
}

/// Whether the one comes no later than the other; no event comes last.
fn leads(one: Option<(u64, u8)>, other: Option<(u64, u8)>) -> bool
    ensures { result ≡ leads one other }
{
    match (one, other) {
        (_, None) => true,
        (None, Some(_)) => false,
        (Some(one), Some(other)) => one.0 < other.0 || (one.0 == other.0 && one.1 <= other.1),
    }
}

/// The winner among the journals from `low` up to `high`.
fn winner(seats: &[Seat], low: usize, high: usize) -> usize
    requires some { low < high }
    requires within { high ≤ length seats.now }
    ensures { result ≡ winner_in (winner_at seats.now) low high }
{
    if high - low == 1 {
        return low;
    }
    seats[low + (high - low) / 2].winner
}

/// The best of the winners of the two halves.
fn best_of_halves(journals: &[&Journal], seats: &[Seat], low: usize, high: usize) -> usize
    requires same { length seats.now ≡ length journals.now }
    requires some { low + 1 < high }
    requires within { high ≤ length journals.now }
    requires one_half { IsPlayed (next_key journals.now seats.now) (winner_at seats.now) low (middle low high) }
    requires other_half { IsPlayed (next_key journals.now seats.now) (winner_at seats.now) (middle low high) high }
    ensures { IsBest (next_key journals.now seats.now) low high result }
{
    let middle = low + (high - low) / 2;
    let one = winner(seats, low, middle);
    let other = winner(seats, middle, high);
    if leads(key(journals, seats, one), key(journals, seats, other)) {
        one
    } else {
        other
    }
}

/// Plays the match among the journals from `low` up to `high`, of which each half has played.
fn play(journals: &[&Journal], seats: &mut Vec<Seat>, low: usize, high: usize)
    requires same { length seats.old.items ≡ length journals.now }
    requires some { low + 1 < high }
    requires within { high ≤ length journals.now }
    requires one_half { IsPlayed (next_key journals.now seats.old.items) (winner_at seats.old.items) low
        (middle low high) }
    requires other_half { IsPlayed (next_key journals.now seats.old.items) (winner_at seats.old.items)
        (middle low high) high }
    ensures written { OnlyWinners low high seats.old.items seats.new.items }
    ensures played { IsPlayed (next_key journals.now seats.new.items) (winner_at seats.new.items) low high }
{
    let best = best_of_halves(journals, seats.as_slice(), low, high);
    seats[low + (high - low) / 2].winner = best;
}

/// Plays every match among the journals from `low` up to `high`.
fn play_all(journals: &[&Journal], seats: &mut Vec<Seat>, low: usize, high: usize)
    requires same { length seats.old.items ≡ length journals.now }
    requires some { low < high }
    requires within { high ≤ length journals.now }
    ensures written { OnlyWinners low high seats.old.items seats.new.items }
    ensures played { IsPlayed (next_key journals.now seats.new.items) (winner_at seats.new.items) low high }
{
    if high - low == 1 {
        return;
    }
    let middle = low + (high - low) / 2;
    play_all(journals, seats, low, middle);
    play_all(journals, seats, middle, high);
    play(journals, seats, low, high);
}

/// Takes the next event of a journal from `low` up to `high`, and plays its matches there again.
fn advance(journals: &[&Journal], seats: &mut Vec<Seat>, low: usize, high: usize, which: usize)
    requires same { length seats.old.items ≡ length journals.now }
    requires within { high ≤ length journals.now }
    requires from { low ≤ which }
    requires below { which < high }
    requires left { taken_at seats.old.items which + 1 < 2 ^ 64 }
    requires played { IsPlayed (next_key journals.now seats.old.items) (winner_at seats.old.items) low high }
    ensures taken { IsTaken low high which seats.old.items seats.new.items }
    ensures played { IsPlayed (next_key journals.now seats.new.items) (winner_at seats.new.items) low high }
{
    if high - low == 1 {
        seats[low].taken += 1;
        return;
    }
    let middle = low + (high - low) / 2;
    if which < middle {
        advance(journals, seats, low, middle, which);
    } else {
        advance(journals, seats, middle, high, which);
    }
    play(journals, seats, low, high);
}

/// Takes the next event of the merge, if any is left.
fn next(journals: &[&Journal], seats: &mut Vec<Seat>) -> Option<Stamped>
    requires same { length seats.old.items ≡ length journals.now }
    requires played { 0 < length journals.now
        → IsPlayed (next_key journals.now seats.old.items) (winner_at seats.old.items) 0 (length journals.now) }
    ensures same { length seats.new.items ≡ length seats.old.items }
    ensures played { 0 < length journals.now
        → IsPlayed (next_key journals.now seats.new.items) (winner_at seats.new.items) 0 (length journals.now) }
    ensures takes { TakesFirst journals.now seats.old.items result seats.new.items }
{
    if journals.is_empty() {
        return None;
    }
    let which = winner(seats.as_slice(), 0, journals.len());
    let event = head(journals, seats.as_slice(), which)?;
    advance(journals, seats, 0, journals.len(), which);
    Some(event)
}
