//! The text of what is known of a history at rest, and its reader.

ghost use Rattle.std.specs.Prelude.{◌≡◌, ◌==◌, ◌&&◌, ◌++◌, ◌∷◌, [], Some, is_none, IfOk, IfErr, OnOk, string_bytes};
ghost use Rattle.std.specs.Map.{lookup};
ghost use Rattle.std.specs.List.{flat_map};
ghost use Rattle.std.specs.Option.{option_map};
ghost use Rattle.pt_texts.specs.declared.records.Record.TheVariants.{Clock, Last, Linked, Seen, Waits, Watched, Watches};
ghost use Rattle.pt_texts.specs.Text.{record_line};
ghost use Rattle.pt_auditor.specs.declared.saved.Flaw.TheVariants.{Memory};
ghost use Rattle.pt_auditor.specs.Rests.{holds_so};
ghost use Rattle.pt_auditor.specs.Saving.{EndsReading, IsClosed, IsHeldSo, IsToldSo, ParsesRest, entries_held, entry_of};
ghost use Rattle.pt_auditor.specs.Saving.{entry_records, first_told, held_records, held_with, is_nil, kept_record, last_records, lines_of};
ghost use Rattle.pt_auditor.specs.Saving.{link_record, no_holding, rest_text, sum_behind, told_more, told_of, told_records};
ghost use Rattle.pt_auditor.specs.Saving.{told_with, watch_record};
ghost use Rattle.pt_auditor.specs.Seen.{is_slot_of};

use crate::clocks::Clocks;
use crate::rest::put;
use crate::seen::SeenExits;
use crate::{Resident, Rest};
use pt_events::Stamped;
use pt_judge::Holding;
use pt_signal::{Ids, Item, Pid, Ref};
use pt_texts::{Record, read_record};
use std::alloc::{AllocError, Global};
use std::collections::VecDeque;

/// Why a line of a state may not stand where it does.
#[derive(Clone, Copy, Debug, PartialEq, Eq)]
pub enum Flaw {
    /// It is no line of a state, or has no line feed.
    Unread,
    /// A line of this kind may not come there.
    Misplaced,
    /// It is the end, and its sum is not that of the lines before it.
    Sum,
    /// It is the end, and more stands behind it.
    Behind,
    /// There was no memory.
    Memory,
}

/// The first line of a state at fault.
#[derive(Clone, Copy, Debug, PartialEq, Eq)]
pub struct Damage {
    /// Its number, from 1 on; one more than there are lines if the end is missing.
    pub line: u64,
    /// The column, from 1 on, of the first byte that does not fit.
    pub column: usize,
    pub flaw: Flaw,
}

/// Writes a line.
pub(crate) fn write_line(line: Record, text: &mut String) -> Result<(), AllocError>
    ensures { OnOk result (string_bytes text.new ≡ string_bytes text.old ++ record_line line) }
{
    write!(text, "{line}\n")?;
    Ok(())
}

fn write_waiting(items: &[Item], text: &mut String) -> Result<(), AllocError>
    ensures { OnOk result
        (string_bytes text.new ≡ string_bytes text.old ++ flat_map (λ i. record_line (Waits i)) items.now) }
{
    for item in items {
        write_line(Record::Waits(*item), text)?;
    }
    Ok(())
}

fn write_links(links: &[(Pid, Ids)], text: &mut String) -> Result<(), AllocError>
    ensures { OnOk result
        (string_bytes text.new ≡ string_bytes text.old ++ flat_map (λ l. record_line (link_record l)) links.now) }
{
    for link in links {
        write_line(Record::Linked(link.0, link.1), text)?;
    }
    Ok(())
}

fn write_watching(monitors: &[(Ref, Pid)], text: &mut String) -> Result<(), AllocError>
    ensures { OnOk result
        (string_bytes text.new ≡ string_bytes text.old ++ flat_map (λ m. record_line (watch_record m)) monitors.now) }
{
    for monitor in monitors {
        write_line(Record::Watches(monitor.0, monitor.1), text)?;
    }
    Ok(())
}

fn write_kept(monitors: &[(Ref, Pid)], text: &mut String) -> Result<(), AllocError>
    ensures { OnOk result
        (string_bytes text.new ≡ string_bytes text.old ++ flat_map (λ m. record_line (kept_record m)) monitors.now) }
{
    for monitor in monitors {
        write_line(Record::Watched(monitor.0, monitor.1), text)?;
    }
    Ok(())
}

fn write_holding(holding: &Holding, text: &mut String) -> Result<(), AllocError>
    ensures { OnOk result
        (string_bytes text.new ≡ string_bytes text.old ++ lines_of (held_records (holds_so holding.now))) }
{
    write_waiting(holding.waiting.as_slice(), text)?;
    write_links(holding.links.as_slice(), text)?;
    write_watching(holding.watching.as_slice(), text)?;
    write_kept(holding.kept.as_slice(), text)?;
    Ok(())
}

fn write_resident(resident: &Resident, text: &mut String) -> Result<(), AllocError>
    ensures { OnOk result
        (string_bytes text.new ≡ string_bytes text.old ++ lines_of (entry_records (entry_of resident.now))) }
{
    match resident {
        Resident::Lives(pid, holding) => {
            write_line(Record::Lives(*pid, holding.traps), text)?;
            write_holding(holding, text)
        }
        Resident::Ended(pid, last, reason) => write_line(Record::Ended(*pid, *last, *reason), text),
    }
}

fn write_residents(residents: &VecDeque<Resident>, text: &mut String) -> Result<(), AllocError>
    ensures { OnOk result (string_bytes text.new
        ≡ string_bytes text.old ++ flat_map (λ r. lines_of (entry_records (entry_of r))) residents.now.items) }
{
    for place in 0..residents.len() {
        if let Some(resident) = residents.get(place) {
            write_resident(resident, text)?;
        }
    }
    Ok(())
}

fn write_last(last: Option<Stamped>, text: &mut String) -> Result<(), AllocError>
    ensures { OnOk result (string_bytes text.new ≡ string_bytes text.old ++ lines_of (last_records last)) }
{
    match last {
        Some(last) => write_line(Record::Last(last), text),
        None => Ok(()),
    }
}

/// The sum of the bytes, in which no two bytes can be exchanged and no byte changed.
fn sum_of(bytes: &[u8]) -> u64
    ensures { result ≡ sum_behind 0 bytes.now }
{
    let mut sum = 0;
    for byte in bytes {
        sum = (sum * 257 + *byte as u64 + 1) % 4_294_967_291;
    }
    sum
}

/// Puts the item behind.
fn push<T: Drop>(list: &mut Vec<T>, item: T) -> Result<(), Flaw>
    ensures added { OnOk result (list.new.items ≡ list.old.items ++ item ∷ []) }
    ensures memory { IfErr result (λ flaw. flaw ≡ Memory) }
{
    match list.push(item) {
        Ok(()) => Ok(()),
        Err(_) => Err(Flaw::Memory),
    }
}

/// Drops it, for the reason that is returned. What a drop does is so proved once.
fn without(_holding: Holding, flaw: Flaw) -> Flaw
    ensures { result ≡ flaw }
{
    flaw
}

fn hold_waiting(holding: Holding, item: Item) -> Result<Holding, Flaw>
    ensures { IsHeldSo (held_with (holds_so holding) (Waits item)) result }
{
    if holding.links.len() > 0 || holding.watching.len() > 0 || holding.kept.len() > 0 {
        return Err(without(holding, Flaw::Misplaced));
    }
    let mut holding = holding;
    match push(&mut holding.waiting, item) {
        Ok(()) => Ok(holding),
        Err(flaw) => Err(without(holding, flaw)),
    }
}

fn hold_link(holding: Holding, pid: Pid, ids: Ids) -> Result<Holding, Flaw>
    ensures { IsHeldSo (held_with (holds_so holding) (Linked pid ids)) result }
{
    if holding.watching.len() > 0 || holding.kept.len() > 0 {
        return Err(without(holding, Flaw::Misplaced));
    }
    let mut holding = holding;
    match push(&mut holding.links, (pid, ids)) {
        Ok(()) => Ok(holding),
        Err(flaw) => Err(without(holding, flaw)),
    }
}

fn hold_monitor(holding: Holding, monitor: Ref, pid: Pid) -> Result<Holding, Flaw>
    ensures { IsHeldSo (held_with (holds_so holding) (Watches monitor pid)) result }
{
    if holding.kept.len() > 0 {
        return Err(without(holding, Flaw::Misplaced));
    }
    let mut holding = holding;
    match push(&mut holding.watching, (monitor, pid)) {
        Ok(()) => Ok(holding),
        Err(flaw) => Err(without(holding, flaw)),
    }
}

fn hold_watcher(holding: Holding, monitor: Ref, pid: Pid) -> Result<Holding, Flaw>
    ensures { IsHeldSo (held_with (holds_so holding) (Watched monitor pid)) result }
{
    let mut holding = holding;
    match push(&mut holding.kept, (monitor, pid)) {
        Ok(()) => Ok(holding),
        Err(flaw) => Err(without(holding, flaw)),
    }
}

/// What a process holds with one line more.
fn hold(holding: Holding, line: Record) -> Result<Holding, Flaw>
    ensures { IsHeldSo (held_with (holds_so holding) line) result }
{
    match line {
        Record::Waits(item) => hold_waiting(holding, item),
        Record::Linked(pid, ids) => hold_link(holding, pid, ids),
        Record::Watches(monitor, pid) => hold_monitor(holding, monitor, pid),
        Record::Watched(monitor, pid) => hold_watcher(holding, monitor, pid),
        _ => Err(without(holding, Flaw::Misplaced)),
    }
}

/// What the first line of a state tells.
fn begun(alloc: Global, line: Record) -> Result<Rest, Flaw>
    ensures { IsToldSo (first_told line) result }
{
    let Record::Head(events, desks, begun) = line else {
        return Err(Flaw::Misplaced);
    };
    Ok(Rest {
        events,
        desks,
        last: None,
        begun,
        clocks: Clocks::new(alloc),
        seen: SeenExits::new(alloc),
        residents: VecDeque::new(alloc),
    })
}

/// The state as far as it was read, with one line more.
fn add(alloc: Global, state: Option<Rest>, line: Record) -> Result<Rest, Flaw>
    ensures { IsToldSo (told_more (option_map told_of state) line) result }
{
    match state {
        Some(rest) => rest.with(alloc, line),
        None => begun(alloc, line),
    }
}

/// The state whose lines are these, where the end has this sum, and that much stands behind it. The end is the line
/// with this number.
fn close(
    state: Option<Rest>,
    lines: &[u8],
    sum: u64,
    behind: &[u8],
    line: u64,
) -> Result<Rest, Damage>
    ensures { IsClosed (option_map told_of state) lines.now sum behind.now line result }
{
    let Some(rest) = state else {
        return Err(misplaced(line, Flaw::Misplaced));
    };
    if sum != sum_of(lines) {
        return Err(misplaced(line, Flaw::Sum));
    }
    if behind.len() > 0 {
        return Err(misplaced(line, Flaw::Behind));
    }
    Ok(rest)
}

/// The line is at fault from its first column on.
fn misplaced(line: u64, flaw: Flaw) -> Damage
    ensures { result ≡ record { line = line; column = 1; flaw = flaw } }
{
    Damage {
        line,
        column: 1,
        flaw,
    }
}

impl Rest {
    /// The text, line by line, before its end.
    fn write(&self, text: &mut String) -> Result<(), AllocError>
        ensures { OnOk result
            (string_bytes text.new ≡ string_bytes text.old ++ lines_of (told_records (told_of self.now))) }
    {
        write_line(Record::Head(self.events, self.desks, self.begun), text)?;
        write_last(self.last, text)?;
        self.clocks.write(text)?;
        self.seen.write(text)?;
        write_residents(&self.residents, text)?;
        Ok(())
    }

    /// The text of a state: a line for each thing that is known, and at the end the sum of them.
    pub fn text(&self, alloc: Global) -> Result<String, AllocError>
        ensures { IfOk result (λ text. string_bytes text ≡ rest_text self.now) }
    {
        let mut text = String::new(alloc);
        self.write(&mut text)?;
        let sum = sum_of(text.as_str().as_bytes());
        write_line(Record::End(sum), &mut text)?;
        Ok(text)
    }

    /// The number of events of the history, up to the greatest number of 64 bits.
    pub fn events(&self) -> u64
        ensures { result ≡ self.now.events }
    {
        self.events
    }

    /// Reads the text of a state. Fails with the first line at fault.
    pub fn parse(alloc: Global, text: &[u8]) -> Result<Rest, Damage>
        ensures { ParsesRest text.now result }
    {
        read_lines(alloc, text)
    }

    /// The state with a process more, or several that ended alike.
    fn with_resident(self, resident: Resident) -> Result<Rest, Flaw>
        ensures { IsToldSo (Some (record (told_of self) { entries = entry_of resident ∷ (told_of self).entries })) result }
    {
        let mut rest = self;
        match put(&mut rest.residents, resident) {
            Ok(()) => Ok(rest),
            Err(_) => Err(Flaw::Memory),
        }
    }

    /// The state with a line more of what the last process holds.
    fn with_held(self, line: Record) -> Result<Rest, Flaw>
        ensures { IsToldSo (entries_held (told_of self) line (told_of self).entries) result }
    {
        let mut rest = self;
        match rest.residents.pop_back() {
            Some(Resident::Lives(pid, holding)) => match hold(holding, line) {
                Ok(holding) => rest.with_resident(Resident::Lives(pid, holding)),
                Err(flaw) => Err(flaw),
            },
            Some(Resident::Ended(_, _, _)) => Err(Flaw::Misplaced),
            None => Err(Flaw::Misplaced),
        }
    }

    /// Whether no process is known yet.
    fn is_empty(&self) -> bool
        ensures { result ≡ is_nil (told_of self.now).entries }
    {
        self.residents.front().is_none()
    }

    /// Whether nothing but the first line is known yet.
    fn is_bare(&self) -> bool
        ensures { result
            ≡ (is_none self.now.last && is_nil self.now.clocks && is_nil self.now.seen && is_nil (told_of self.now).entries) }
    {
        self.last.is_none() && self.clocks.is_empty() && self.seen.is_empty() && self.is_empty()
    }

    /// Whether the desk's clock may come next.
    fn takes_clock(&self, desk: u8) -> bool
        ensures { result
            ≡ (is_nil self.now.seen && is_nil (told_of self.now).entries && is_none (lookup (λ d. desk == d) self.now.clocks)) }
    {
        self.seen.is_empty() && self.is_empty() && self.clocks.lacks(desk)
    }

    /// Whether a line may come next that says that the desk has seen an exit of the process's slot.
    fn takes_seen(&self, desk: u8, pid: Pid) -> bool
        ensures { result
            ≡ (is_nil (told_of self.now).entries && is_none (lookup (is_slot_of desk pid) self.now.seen)) }
    {
        self.is_empty() && self.seen.lacks(desk, pid)
    }

    fn with_last(self, stamped: Stamped) -> Result<Rest, Flaw>
        ensures { IsToldSo (told_with (told_of self) (Last stamped)) result }
    {
        if !self.is_bare() {
            return Err(Flaw::Misplaced);
        }
        let mut rest = self;
        rest.last = Some(stamped);
        Ok(rest)
    }

    fn with_clock(self, desk: u8, stamp: u64) -> Result<Rest, Flaw>
        ensures { IsToldSo (told_with (told_of self) (Clock desk stamp)) result }
    {
        if !self.takes_clock(desk) {
            return Err(Flaw::Misplaced);
        }
        let mut rest = self;
        match rest.clocks.add(desk, stamp) {
            Ok(()) => Ok(rest),
            Err(_) => Err(Flaw::Memory),
        }
    }

    fn with_seen(self, desk: u8, pid: Pid) -> Result<Rest, Flaw>
        ensures { IsToldSo (told_with (told_of self) (Seen desk pid)) result }
    {
        if !self.takes_seen(desk, pid) {
            return Err(Flaw::Misplaced);
        }
        let mut rest = self;
        match rest.seen.add(desk, pid) {
            Ok(()) => Ok(rest),
            Err(_) => Err(Flaw::Memory),
        }
    }

    /// The state with one line more.
    fn with(self, alloc: Global, line: Record) -> Result<Rest, Flaw>
        ensures { IsToldSo (told_with (told_of self) line) result }
    {
        match line {
            Record::Head(_, _, _) => Err(Flaw::Misplaced),
            Record::Last(stamped) => self.with_last(stamped),
            Record::Clock(desk, stamp) => self.with_clock(desk, stamp),
            Record::Seen(desk, pid) => self.with_seen(desk, pid),
            Record::Lives(pid, traps) => {
                self.with_resident(Resident::Lives(pid, nothing(alloc, traps)))
            }
            Record::Ended(pid, last, reason) => {
                self.with_resident(Resident::Ended(pid, last, reason))
            }
            Record::End(_) => Err(Flaw::Misplaced),
            _ => self.with_held(line),
        }
    }
}

/// What a process holds that holds nothing.
fn nothing(alloc: Global, traps: bool) -> Holding
    ensures { holds_so result ≡ no_holding traps }
{
    Holding {
        waiting: Vec::new(alloc),
        links: Vec::new(alloc),
        watching: Vec::new(alloc),
        kept: Vec::new(alloc),
        traps,
    }
}

/// Reads the lines of a state, up to its end.
fn read_lines(alloc: Global, text: &[u8]) -> Result<Rest, Damage>
    ensures { EndsReading text.now result }
{
    let mut state: Option<Rest> = None;
    let mut left = text;
    let mut line: u64 = 1;
    'lines: loop {
        let (record, behind) = match read_record(left) {
            Ok(read) => read,
            Err(refused) => {
                return Err(Damage {
                    line,
                    column: refused.column,
                    flaw: Flaw::Unread,
                });
            }
        };
        match record {
            Record::End(sum) => {
                let lines = &text[..text.len() - left.len()];
                return close(state, lines, sum, behind, line);
            }
            _ => match add(alloc, state, record) {
                Ok(rest) => state = Some(rest),
                Err(flaw) => return Err(misplaced(line, flaw)),
            },
        }
        left = behind;
        line = line.saturating_add(1);
    }
}
