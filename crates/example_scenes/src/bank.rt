//! Four accounts on four desks, each with a teller, transfer money to each other: none is made or lost.
//!
//! Who has how much at the end differs from run to run: a payment that comes later may leave an order unpaid.

ghost use Rattle.std.specs.Prelude.{◌≡◌};
ghost use Rattle.pt_desk.specs.DeskState.{GoesOn};
ghost use Rattle.pt_behaviour.specs.Births.{kept_roles};
ghost use Rattle.pt_behaviour.specs.Behaving.{takes};

use crate::stage;
use crate::stage::{Curtain, DESKS, Stage, first_of};
use anyhow::Result;
use pt_behaviour::{Behaviour, Births, Next, send, spawn_child};
use pt_node::{Body, Desk, Item, Pick, Pid};
use std::alloc::Global;
use std::fmt;
use std::fmt::{Display, Formatter, Write};
use std::sync::Wait;
use std::thread::Threads;

/// The kind of a teller's order: pay so much to the account that it names.
const PAY: u32 = 1;

/// The kind of a payment from one account to another.
const PAID: u32 = 2;

/// The kind of the message by which a teller says that it gave its last order, and an account that it pays no more.
const CLOSED: u32 = 3;

/// The money that each account has at first.
const AT_FIRST: i64 = 1_000;

/// The number of orders that each teller gives.
const ORDERS: i64 = 100;

/// An account: its balance, the number of orders that it got, and the number of accounts that pay no more, its own among
/// them.
#[derive(Drop)]
struct Account<'a> {
    balance: i64,
    orders: u32,
    closed: u8,
    curtain: &'a Curtain,
}

/// A teller: it orders the account of its desk to pay, so many times more.
#[derive(Drop)]
struct Teller {
    account: Pid,
    orders: i64,
}

/// The processes of the bank.
#[derive(Drop)]
enum Clerk<'a> {
    Account(Account<'a>),
    Teller(Teller),
}

fn message(kind: u32, num: i64, who: Pid) -> Body {
    Body {
        kind,
        num,
        who: Some(who),
    }
}

/// Another account, a different one for each order.
fn other(account: Pid, order: i64) -> Pid {
    let step = if order % 3 == 0 { 1 } else { 2 };
    first_of(account.shard.saturating_add(step) % DESKS)
}

/// Pays, and returns the new balance. Nothing is paid if there is not enough, or the receiver has exited.
#[tactic(auto, using(pt_workers::proofs::GoingOn::stays))]
fn pay(desk: &mut Desk, me: Pid, to: Pid, amount: i64, balance: i64) -> Option<i64>
    ensures takes { takes desk.new.shard.journal ≡ takes desk.old.shard.journal }
    ensures goes_on { GoesOn desk.old desk.new }
{
    if amount < 0 || amount > balance {
        return None;
    }
    match send(desk, me, to, message(PAID, amount, me)) {
        Ok(()) => Some(balance - amount),
        Err(_) => None,
    }
}

/// Says to an account that this one pays no more.
#[tactic(auto, using(pt_workers::proofs::GoingOn::stays))]
fn close_to(desk: &mut Desk, me: Pid, other: Pid)
    ensures takes { takes desk.new.shard.journal ≡ takes desk.old.shard.journal }
    ensures goes_on { GoesOn desk.old desk.new }
{
    let _ = send(desk, me, other, message(CLOSED, 0, me));
}

/// Says so to the accounts of the other desks.
#[tactic(auto, using(pt_workers::proofs::GoingOn::stays, pt_desk::proofs::Turning::goes_on_then))]
fn close(desk: &mut Desk, me: Pid)
    ensures takes { takes desk.new.shard.journal ≡ takes desk.old.shard.journal }
    ensures goes_on { GoesOn desk.old desk.new }
{
    let next = me.shard.saturating_add(1);
    close_to(desk, me, first_of(next % DESKS));
    close_to(desk, me, first_of(next.saturating_add(1) % DESKS));
    close_to(desk, me, first_of(next.saturating_add(2) % DESKS));
}

/// Spawns the teller of this account.
#[tactic(auto, using(pt_workers::proofs::GoingOn::stays))]
fn open<'a>(desk: &mut Desk, births: &mut Births<Clerk<'a>>, me: Pid) -> Next
    ensures takes { takes desk.new.shard.journal ≡ takes desk.old.shard.journal }
    ensures kept { kept_roles births.new ≡ kept_roles births.old }
    ensures goes_on { GoesOn desk.old desk.new }
{
    let teller = Teller {
        account: me,
        orders: ORDERS,
    };
    let _ = spawn_child(desk, births, me, true, Clerk::Teller(teller), Next::Proceed);
    Next::Wait(Pick::Any)
}

impl<'a> Account<'a> {
    /// Takes a payment, does what an order says, or hears that an account pays no more.
    #[tactic(auto, using(pt_workers::proofs::GoingOn::stays))]
    fn hear(&mut self, desk: &mut Desk, me: Pid, from: Pid, body: Body)
        ensures takes { takes desk.new.shard.journal ≡ takes desk.old.shard.journal }
        ensures goes_on { GoesOn desk.old desk.new }
    {
        match (body.kind, body.who) {
            (PAID, _) => self.balance = self.balance.saturating_add(body.num),
            (PAY, Some(to)) => self.obey(desk, me, to, body.num),
            _ => self.hear_closed(desk, me, from),
        }
    }

    /// Pays what an order says, if there is enough.
    #[tactic(auto, using(pt_workers::proofs::GoingOn::stays))]
    fn obey(&mut self, desk: &mut Desk, me: Pid, to: Pid, amount: i64)
        ensures takes { takes desk.new.shard.journal ≡ takes desk.old.shard.journal }
        ensures goes_on { GoesOn desk.old desk.new }
    {
        self.orders = self.orders.saturating_add(1);
        if let Some(left) = pay(desk, me, to, amount, self.balance) {
            self.balance = left;
        }
    }

    /// Counts an account that pays no more. Of its own it hears so by its teller, and tells the others. Between two
    /// processes messages keep their order, so once it has heard of all, no payment is on its way to it.
    #[tactic(auto, using(pt_workers::proofs::GoingOn::stays))]
    fn hear_closed(&mut self, desk: &mut Desk, me: Pid, from: Pid)
        ensures takes { takes desk.new.shard.journal ≡ takes desk.old.shard.journal }
        ensures goes_on { GoesOn desk.old desk.new }
    {
        self.closed = self.closed.saturating_add(1);
        if self.closed == DESKS {
            self.curtain.part_is_played();
        }
        if from.shard == me.shard {
            close(desk, me);
        }
    }
}

impl Teller {
    /// Gives the next order, or says that there is none any more.
    #[tactic(auto, using(pt_workers::proofs::GoingOn::stays))]
    fn order(&mut self, desk: &mut Desk, me: Pid) -> Next
        ensures takes { takes desk.new.shard.journal ≡ takes desk.old.shard.journal }
        ensures goes_on { GoesOn desk.old desk.new }
    {
        if self.orders <= 0 {
            let _ = send(desk, me, self.account, message(CLOSED, 0, me));
            return Next::Wait(Pick::Any);
        }
        let body = message(PAY, self.orders, other(self.account, self.orders));
        let _ = send(desk, me, self.account, body);
        self.orders -= 1;
        Next::Proceed
    }
}

impl<'a> Behaviour for Clerk<'a> {
    ghost use Rattle.std.specs.Prelude.{⊤};

    ghost answers = { λ _ _ _ _ _ _ _ _ _. ⊤ };

    #[tactic(auto, using(pt_workers::proofs::GoingOn::stays))]
    fn handle(
        &mut self,
        desk: &mut Desk,
        births: &mut Births<Clerk<'a>>,
        me: Pid,
        item: Option<Item>,
    ) -> Next {
        match self {
            Clerk::Teller(teller) => teller.order(desk, me),
            Clerk::Account(account) => match item {
                None => open(desk, births, me),
                Some(Item::User(from, body)) => {
                    account.hear(desk, me, from, body);
                    Next::Wait(Pick::Any)
                }
                Some(_) => Next::Wait(Pick::Any),
            },
        }
    }
}

/// The result of the scene.
#[derive(Clone, Copy, Debug)]
pub struct Bank {
    orders: u32,
    sum: i64,
}

impl Display for Bank {
    fn fmt<W: Write>(&self, f: &mut Formatter<W>) -> fmt::Result {
        write!(
            f,
            "bank: 4 accounts got {} orders to pay each other, and have {} in all",
            self.orders, self.sum
        )
    }
}

impl Bank {
    /// The result of the scene that these desks played.
    fn of(works: &[Stage<Clerk<'_>>]) -> Bank {
        let mut bank = Bank { orders: 0, sum: 0 };
        for desk in 0..DESKS {
            if let Some(stage) = works.get(desk as usize) {
                bank.add(desk, stage);
            }
        }
        bank
    }

    /// Adds the account of that desk.
    fn add(&mut self, desk: u8, stage: &Stage<Clerk<'_>>) {
        if let Some(Clerk::Account(account)) = stage.crew().behaviour(first_of(desk)) {
            self.orders = self.orders.saturating_add(account.orders);
            self.sum = self.sum.saturating_add(account.balance);
        }
    }
}

fn desk_of<'a>(alloc: Global, curtain: &'a Curtain) -> Stage<Clerk<'a>> {
    let account = Account {
        balance: AT_FIRST,
        orders: 0,
        closed: 0,
        curtain,
    };
    Stage::new(alloc, 8, Clerk::Account(account))
}

/// Plays the scene. It ends when each account knows that no payment is on its way to it.
pub fn play<R: Threads + Wait + Sync>(rt: &R, alloc: Global) -> Result<Bank> {
    let curtain = Curtain::new(alloc, u64::from(DESKS))?;
    let stages = [
        desk_of(alloc, &curtain),
        desk_of(alloc, &curtain),
        desk_of(alloc, &curtain),
        desk_of(alloc, &curtain),
    ];
    let works = stage::play(rt, alloc, 4, stages, &curtain)?;
    Ok(Bank::of(works.as_slice()))
}
