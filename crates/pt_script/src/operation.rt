//! One operation, in its scope.

ghost use Rattle.std.specs.Prelude.{◌≡◌, map, option_map, None, codes};
ghost use Rattle.std.specs.List.{list_all};
ghost use Rattle.serde_json.specs.Find.{get};
ghost use Rattle.serde_json.specs.View.{view};
ghost use Rattle.pt_script.specs.Members as members;
ghost use Rattle.pt_script.specs.Operations as spec;
ghost use Rattle.pt_script.specs.Scopes.{scope_view, can_ask, has_blocks, process_in, tag_in, is_script_digit};
ghost use Rattle.pt_script.specs.Steps.{ReadingGives};

use crate::fault::Fault;
use crate::limits::{ASKING_FORMAT, BLOCKS_FORMAT, MAX_TIMES};
use crate::members::{flag_at, flag_or_false, known, list, signed_at, text, whole_at};
use crate::names::{Names, is_digit, is_name, is_own_name};
use crate::values::{Operation, Pattern};
use pt_signal::Reason;
use serde_json::Value;

/// What an operation can name.
#[derive(Drop)]
pub(crate) struct Scope<'a, 'b> {
    /// The script's format.
    pub(crate) format: u8,
    /// The process that does the operation.
    pub(crate) own: u32,
    /// The process that spawned it.
    pub(crate) parent: Option<u32>,
    /// The processes that the script begins with.
    pub(crate) tops: &'b Names<'a>,
    /// The processes that earlier operations of the list spawned.
    pub(crate) children: Names<'a>,
    /// The tags of the monitors that earlier operations of the list made.
    pub(crate) monitors: Names<'a>,
    /// The tags of the asks that earlier operations of the list made.
    pub(crate) asks: Names<'a>,
    /// The number of all these tags.
    pub(crate) made: u32,
}

impl Scope<'_, '_> {
    /// Whether a process can ask if another is alive.
    pub(crate) fn can_ask(&self) -> bool
        ensures { result ≡ can_ask (scope_view self.now) }
    {
        ASKING_FORMAT <= self.format
    }

    /// Whether a list has branches and repeats, and a receive can end after some tries.
    fn has_blocks(&self) -> bool
        ensures { result ≡ has_blocks (scope_view self.now) }
    {
        BLOCKS_FORMAT <= self.format
    }

    /// The number of the tag with this name.
    fn tag(&self, name: &str) -> Option<u32>
        ensures { result ≡ tag_in (scope_view self.now) name.now }
    {
        match self.monitors.find(name) {
            Some(number) => Some(number),
            None => self.asks.find(name),
        }
    }

    /// The number of the process with this name.
    pub(crate) fn process(&self, name: &str) -> Option<u32>
        ensures { result ≡ process_in (scope_view self.now) name.now }
    {
        if name == "self" {
            return Some(self.own);
        }
        if name == "parent" {
            return self.parent;
        }
        match self.children.find(name) {
            Some(number) => Some(number),
            None => self.tops.find(name),
        }
    }
}

/// What a spawn says of its process, without the operations.
#[derive(Clone, Copy)]
pub(crate) struct Spawned<'a> {
    pub(crate) name: &'a str,
    pub(crate) linked: bool,
    pub(crate) trap: bool,
    pub(crate) list: &'a Vec<Value>,
}

/// Whether it is an object with the `op` `spawn`, and any other members.
pub(crate) fn is_spawn(value: &Value) -> bool
    ensures { result ≡ spec.is_spawn (view value.now) }
{
    match value.get("op").and_then(Value::as_str) {
        Some(op) => op == "spawn",
        None => false,
    }
}

fn name(scope: &Scope<'_, '_>, member: Option<&Value>) -> Result<u32, Fault>
    ensures { result
        ≡ members.required (spec.process (scope_view scope.now)) (option_map (λ v. view v.now) member.entry) }
{
    scope.process(text(member)?).ok_or(Fault::Name)
}

fn name_or_none(scope: &Scope<'_, '_>, member: Option<&Value>) -> Result<Option<u32>, Fault>
    ensures { result
        ≡ members.optional_member None (spec.maybe_process (scope_view scope.now))
        (option_map (λ v. view v.now) member.entry) }
{
    match member {
        Some(_) => Ok(Some(name(scope, member)?)),
        None => Ok(None),
    }
}

fn monitor_tag(scope: &Scope<'_, '_>, member: Option<&Value>) -> Result<u32, Fault>
    ensures { result
        ≡ members.required (spec.monitor_tag (scope_view scope.now)) (option_map (λ v. view v.now) member.entry) }
{
    scope.monitors.find(text(member)?).ok_or(Fault::Name)
}

fn ask_tag(scope: &Scope<'_, '_>, member: Option<&Value>) -> Result<u32, Fault>
    ensures { result
        ≡ members.required (spec.ask_tag (scope_view scope.now)) (option_map (λ v. view v.now) member.entry) }
{
    scope.asks.find(text(member)?).ok_or(Fault::Name)
}

fn new_tag<'a>(scope: &Scope<'_, '_>, member: Option<&'a Value>) -> Result<&'a str, Fault>
    ensures { ReadingGives (λ t. t.now) result
        (members.required (spec.new_tag (scope_view scope.now)) (option_map (λ v. view v.now) member.entry)) }
{
    let tag = text(member)?;
    if !is_name(tag) {
        return Err(Fault::Field);
    }
    if scope.tag(tag).is_some() {
        return Err(Fault::Name);
    }
    Ok(tag)
}

fn new_name<'a>(scope: &Scope<'_, '_>, member: Option<&'a Value>) -> Result<&'a str, Fault>
    ensures { ReadingGives (λ t. t.now) result
        (members.required (spec.new_name (process_in (scope_view scope.now)))
        (option_map (λ v. view v.now) member.entry)) }
{
    let name = text(member)?;
    if !is_own_name(name) {
        return Err(Fault::Field);
    }
    if scope.process(name).is_some() {
        return Err(Fault::Name);
    }
    Ok(name)
}

fn kind(member: Option<&Value>) -> Result<u32, Fault>
    ensures { result ≡ members.required spec.kind (option_map (λ v. view v.now) member.entry) }
{
    Ok(whole_at(member, 0, 4_294_967_295)? as u32)
}

/// Whether the bytes are a decimal number with no zero in front.
#[tactic(auto, unfolding(crate::specs::Operations::is_decimal))]
fn is_decimal(bytes: &[u8]) -> bool
    ensures { result ≡ spec.is_decimal bytes.now }
{
    0 < bytes.len() && are_digits(bytes) && (bytes.len() == 1 || bytes[0] != b'0')
}

fn are_digits(bytes: &[u8]) -> bool
    ensures { result ≡ list_all is_script_digit bytes.now }
{
    bytes.iter().all(|b| is_digit(*b))
}

/// The number that decimal digits spell, with no zero in front.
fn decimal(digits: &str) -> Result<u32, Fault>
    ensures { result ≡ spec.number_read digits.now }
{
    if !is_decimal(digits.as_bytes()) {
        return Err(Fault::Field);
    }
    match digits.parse::<u32>() {
        Ok(number) => Ok(number),
        Err(_) => Err(Fault::Bounds),
    }
}

fn reason(member: Option<&Value>) -> Result<Reason, Fault>
    ensures { result ≡ members.required spec.reason (option_map (λ v. view v.now) member.entry) }
{
    reason_of(text(member)?)
}

fn reason_of(text: &str) -> Result<Reason, Fault>
    ensures { result ≡ spec.reason_written text.now }
{
    match text {
        "normal" => Ok(Reason::Normal),
        "kill" => Ok(Reason::Kill),
        "killed" => Ok(Reason::Killed),
        "noproc" => Ok(Reason::Noproc),
        "shutdown" => Ok(Reason::Shutdown),
        other => other_reason(other),
    }
}

/// The reason that has a number.
fn other_reason(text: &str) -> Result<Reason, Fault>
    ensures { result ≡ spec.other_reason text.now }
{
    match text.strip_prefix("other:") {
        Some(digits) => Ok(Reason::Other(decimal(digits)?)),
        None => Err(Fault::Field),
    }
}

fn pattern(scope: &Scope<'_, '_>, member: Option<&Value>) -> Result<Pattern, Fault>
    ensures { result
        ≡ members.optional_member Pattern.Any (spec.pick (scope_view scope.now)) (option_map (λ v. view v.now) member.entry) }
{
    match member {
        Some(value) => pick(scope, value),
        None => Ok(Pattern::Any),
    }
}

/// Fails if the value has a member that no pick has. Format 1 does not know `alive`.
fn known_pick(scope: &Scope<'_, '_>, value: &Value) -> Result<(), Fault>
    ensures { result ≡ members.known_members (spec.pick_members (can_ask (scope_view scope.now))) (view value.now) }
{
    if scope.can_ask() {
        known(value, &["kind", "from", "exit", "down", "alive"])
    } else {
        known(value, &["kind", "from", "exit", "down"])
    }
}

#[tactic(auto, unfolding(crate::specs::Operations::pick))]
fn pick(scope: &Scope<'_, '_>, value: &Value) -> Result<Pattern, Fault>
    ensures { result ≡ spec.pick (scope_view scope.now) (view value.now) }
{
    known_pick(scope, value)?;
    one_pick(
        scope,
        value.get("kind"),
        value.get("from"),
        value.get("exit"),
        value.get("down"),
        value.get("alive"),
    )
}

fn one_pick(
    scope: &Scope<'_, '_>,
    of_kind: Option<&Value>,
    from: Option<&Value>,
    exit: Option<&Value>,
    down: Option<&Value>,
    alive: Option<&Value>,
) -> Result<Pattern, Fault>
    ensures { result
        ≡ spec.one_pick (scope_view scope.now) (option_map (λ v. view v.now) of_kind.entry)
        (option_map (λ v. view v.now) from.entry) (option_map (λ v. view v.now) exit.entry)
        (option_map (λ v. view v.now) down.entry) (option_map (λ v. view v.now) alive.entry) }
{
    match (of_kind, from, exit, down, alive) {
        (Some(_), None, None, None, None) => Ok(Pattern::Kind(kind(of_kind)?)),
        (None, Some(_), None, None, None) => Ok(Pattern::From(name(scope, from)?)),
        (None, None, Some(_), None, None) => Ok(Pattern::ExitOf(name(scope, exit)?)),
        (None, None, None, Some(_), None) => Ok(Pattern::DownOf(monitor_tag(scope, down)?)),
        (None, None, None, None, Some(_)) => Ok(Pattern::AliveOf(ask_tag(scope, alive)?)),
        _ => Err(Fault::Field),
    }
}

#[tactic(auto, unfolding(crate::specs::Operations::send))]
fn send(scope: &Scope<'_, '_>, value: &Value) -> Result<Operation, Fault>
    ensures { result ≡ spec.send (scope_view scope.now) (view value.now) }
{
    known(value, &["op", "to", "kind", "num", "who"])?;
    let to = name(scope, value.get("to"))?;
    let kind = kind(value.get("kind"))?;
    let num = signed_at(value.get("num"))?;
    let who = name_or_none(scope, value.get("who"))?;
    Ok(Operation::Send { to, kind, num, who })
}

/// Fails if the value has a member that no `receive` has. Format 3 knows `after`.
fn known_receive(scope: &Scope<'_, '_>, value: &Value) -> Result<(), Fault>
    ensures { result ≡ members.known_members (spec.receive_members (has_blocks (scope_view scope.now))) (view value.now) }
{
    if scope.has_blocks() {
        known(value, &["op", "pick", "after"])
    } else {
        known(value, &["op", "pick"])
    }
}

/// After how many tries a `receive` waits no longer, if it says so.
fn tries(member: Option<&Value>) -> Result<Option<u32>, Fault>
    ensures { result ≡ members.optional_member None spec.tries (option_map (λ v. view v.now) member.entry) }
{
    match member {
        Some(_) => Ok(Some(whole_at(member, 0, MAX_TIMES)? as u32)),
        None => Ok(None),
    }
}

#[tactic(auto, unfolding(crate::specs::Operations::receive))]
fn receive(scope: &Scope<'_, '_>, value: &Value) -> Result<Operation, Fault>
    ensures { result ≡ spec.receive (scope_view scope.now) (view value.now) }
{
    known_receive(scope, value)?;
    let pattern = pattern(scope, value.get("pick"))?;
    match tries(value.get("after"))? {
        Some(tries) => Ok(Operation::ReceiveAfter { pattern, tries }),
        None => Ok(Operation::Receive(pattern)),
    }
}

#[tactic(auto, unfolding(crate::specs::Operations::check))]
fn check(scope: &Scope<'_, '_>, value: &Value) -> Result<Operation, Fault>
    ensures { result ≡ spec.check (scope_view scope.now) (view value.now) }
{
    known(value, &["op", "pick"])?;
    Ok(Operation::Check(pattern(scope, value.get("pick"))?))
}

#[tactic(auto, unfolding(crate::specs::Operations::link))]
fn link(scope: &Scope<'_, '_>, value: &Value) -> Result<Operation, Fault>
    ensures { result ≡ spec.link (scope_view scope.now) (view value.now) }
{
    known(value, &["op", "to"])?;
    Ok(Operation::Link(name(scope, value.get("to"))?))
}

#[tactic(auto, unfolding(crate::specs::Operations::unlink))]
fn unlink(scope: &Scope<'_, '_>, value: &Value) -> Result<Operation, Fault>
    ensures { result ≡ spec.unlink (scope_view scope.now) (view value.now) }
{
    known(value, &["op", "to"])?;
    Ok(Operation::Unlink(name(scope, value.get("to"))?))
}

#[tactic(auto, unfolding(crate::specs::Operations::demonitor))]
fn demonitor(scope: &Scope<'_, '_>, value: &Value) -> Result<Operation, Fault>
    ensures { result ≡ spec.demonitor (scope_view scope.now) (view value.now) }
{
    known(value, &["op", "tag", "flush"])?;
    let tag = monitor_tag(scope, value.get("tag"))?;
    let flush = flag_or_false(value.get("flush"))?;
    Ok(Operation::Demonitor { tag, flush })
}

#[tactic(auto, unfolding(crate::specs::Operations::trap))]
fn trap(value: &Value) -> Result<Operation, Fault>
    ensures { result ≡ spec.trap (view value.now) }
{
    known(value, &["op", "on"])?;
    Ok(Operation::Trap(flag_at(value.get("on"))?))
}

#[tactic(auto, unfolding(crate::specs::Operations::exit))]
fn exit(value: &Value) -> Result<Operation, Fault>
    ensures { result ≡ spec.exit (view value.now) }
{
    known(value, &["op", "reason"])?;
    Ok(Operation::Exit(reason(value.get("reason"))?))
}

#[tactic(auto, unfolding(crate::specs::Operations::signal))]
fn signal(scope: &Scope<'_, '_>, value: &Value) -> Result<Operation, Fault>
    ensures { result ≡ spec.signal (scope_view scope.now) (view value.now) }
{
    known(value, &["op", "to", "reason"])?;
    let to = name(scope, value.get("to"))?;
    let reason = reason(value.get("reason"))?;
    Ok(Operation::Signal { to, reason })
}

#[tactic(auto, unfolding(crate::specs::Operations::pass))]
fn pass(value: &Value) -> Result<Operation, Fault>
    ensures { result ≡ spec.pass (view value.now) }
{
    known(value, &["op"])?;
    Ok(Operation::Pass)
}

#[tactic(auto, unfolding(crate::specs::Operations::branch))]
fn branch(scope: &Scope<'_, '_>, value: &Value) -> Result<Operation, Fault>
    ensures { result ≡ spec.branch (scope_view scope.now) (view value.now) }
{
    known(value, &["op", "pick"])?;
    Ok(Operation::If(pattern(scope, value.get("pick"))?))
}

#[tactic(auto, unfolding(crate::specs::Operations::otherwise))]
fn otherwise(value: &Value) -> Result<Operation, Fault>
    ensures { result ≡ spec.otherwise (view value.now) }
{
    known(value, &["op"])?;
    Ok(Operation::Else)
}

#[tactic(auto, unfolding(crate::specs::Operations::branch_end))]
fn end(value: &Value) -> Result<Operation, Fault>
    ensures { result ≡ spec.branch_end (view value.now) }
{
    known(value, &["op"])?;
    Ok(Operation::End)
}

#[tactic(auto, unfolding(crate::specs::Operations::repeat))]
fn repeat(value: &Value) -> Result<Operation, Fault>
    ensures { result ≡ spec.repeat (view value.now) }
{
    known(value, &["op", "times"])?;
    Ok(Operation::Repeat(whole_at(value.get("times"), 1, MAX_TIMES)? as u32))
}

#[tactic(auto, unfolding(crate::specs::Operations::again))]
fn again(value: &Value) -> Result<Operation, Fault>
    ensures { result ≡ spec.again (view value.now) }
{
    known(value, &["op"])?;
    Ok(Operation::Again)
}

/// An operation that begins or ends a block.
#[tactic(auto, unfolding(crate::specs::Operations::block_mark))]
fn block(scope: &Scope<'_, '_>, op: &str, value: &Value) -> Result<Operation, Fault>
    ensures { result ≡ spec.block_mark (scope_view scope.now) op.now (view value.now) }
{
    match op {
        "if" => branch(scope, value),
        "else" => otherwise(value),
        "end" => end(value),
        "repeat" => repeat(value),
        "again" => again(value),
        _ => Err(Fault::Field),
    }
}

/// The process that a monitor or an ask is about, and its tag.
#[tactic(auto, unfolding(crate::specs::Operations::tagged))]
pub(crate) fn tagged<'a>(scope: &Scope<'_, '_>, value: &'a Value) -> Result<(u32, &'a str), Fault>
    ensures { ReadingGives (λ m. (m.0, m.1.now)) result (spec.tagged (scope_view scope.now) (view value.now)) }
{
    known(value, &["op", "to", "tag"])?;
    let to = name(scope, value.get("to"))?;
    let tag = new_tag(scope, value.get("tag"))?;
    Ok((to, tag))
}

/// What a spawn says, without its operations.
#[tactic(auto, unfolding(crate::specs::Operations::spawn))]
pub(crate) fn spawned_by<'a>(scope: &Scope<'_, '_>, value: &'a Value) -> Result<Spawned<'a>, Fault>
    ensures { ReadingGives (λ c. record {
      name = c.name.now;
      linked = c.linked;
      trap = c.trap;
      ops = map view c.list.now.items;
    }) result (spec.spawn (scope_view scope.now) (view value.now)) }
{
    known(value, &["op", "name", "linked", "trap", "ops"])?;
    let name = new_name(scope, value.get("name"))?;
    let linked = flag_or_false(value.get("linked"))?;
    let trap = flag_or_false(value.get("trap"))?;
    let list = list(value.get("ops"))?;
    Ok(Spawned {
        name,
        linked,
        trap,
        list,
    })
}

/// The `op` of an operation.
pub(crate) fn op_of(value: &Value) -> Result<&str, Fault>
    ensures { ReadingGives (λ t. t.now) result (members.required members.text (get (codes "op") (view value.now))) }
{
    text(value.get("op"))
}

/// An operation that makes no name: any but spawn, monitor and ask.
#[tactic(auto, unfolding(crate::specs::Operations::plain))]
pub(crate) fn plain(scope: &Scope<'_, '_>, op: &str, value: &Value) -> Result<Operation, Fault>
    ensures { result ≡ spec.plain (scope_view scope.now) op.now (view value.now) }
{
    match op {
        "send" => send(scope, value),
        "receive" => receive(scope, value),
        "check" => check(scope, value),
        "link" => link(scope, value),
        "unlink" => unlink(scope, value),
        "demonitor" => demonitor(scope, value),
        "trap" => trap(value),
        "exit" => exit(value),
        "signal" => signal(scope, value),
        "pass" => pass(value),
        _ if scope.has_blocks() => block(scope, op, value),
        _ => Err(Fault::Field),
    }
}
