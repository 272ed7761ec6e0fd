//! The recipes of `example_uses` that work on a desk, each on a node of its own, and the text of a recipe's refusal.

ghost use Rattle.pt_workers.specs.Desks.{AreDesks, IsStill};

use crate::compared::same;
use example_uses::game::{Game, HIT};
use example_uses::payloads::Texts;
use example_uses::{RecipeError, steps};
use pt_node::{Config, Desk, OpenError, Setting, open};
use std::alloc::Global;
use std::fmt::Display;
use std::process::Abort;

const ONE_DESK: Config = Config {
    desks: 1,
    slots: 8,
    top_version: u32::MAX,
    lane: 8,
    ..Config::DEFAULT
};

/// What runs on the desk of a node.
#[derive(Drop)]
enum Play {
    Game,
    Texts,
}

/// Runs on a new node, and gathers it.
fn played(rt: &impl Abort, alloc: Global, play: Play) {
    let mut desks = open(alloc, ONE_DESK).ok().expect(rt, "a node");
    on_first(rt, alloc, &mut desks, play);
    let _node = steps::gathered(alloc, desks).ok().expect(rt, "memory");
}

#[tactic(auto, using(pt_workers::proofs::StillDesks::still_desks))]
fn on_first(rt: &impl Abort, alloc: Global, desks: &mut Vec<Desk>, play: Play)
    requires { AreDesks desks.old.items }
    ensures { AreDesks desks.new.items }
{
    on_desk(rt, alloc, &mut desks[0], play)
}

fn on_desk(rt: &impl Abort, alloc: Global, desk: &mut Desk, play: Play)
    ensures { IsStill desk.old desk.new }
{
    match play {
        Play::Game => fight(rt, alloc, desk),
        Play::Texts => write(rt, alloc, desk),
    }
}

fn fight(rt: &impl Abort, alloc: Global, desk: &mut Desk)
    ensures { IsStill desk.old desk.new }
{
    let mut game = Game::new(alloc);
    hit(rt, desk, &mut game);
}

/// An orc hits an elf.
fn hit(rt: &impl Abort, desk: &mut Desk, game: &mut Game)
    ensures { IsStill desk.old desk.new }
{
    let orc = game.enter(desk, 10).expect(rt, "memory");
    let elf = game.enter(desk, 5).expect(rt, "memory");
    same(rt, steps::tell(desk, orc, elf, HIT, 2), Ok(()));
    same(rt, game.tick(desk), Ok(()));
    same(rt, game.tick(desk), Ok(()));
    same(rt, game.health.get(&elf).copied(), Some(3));
}

fn write(rt: &impl Abort, alloc: Global, desk: &mut Desk)
    ensures { IsStill desk.old desk.new }
{
    let mut texts = Texts::new(alloc);
    greet(rt, alloc, desk, &mut texts);
}

/// A text arrives with its message, and the table of texts is empty then.
fn greet(rt: &impl Abort, alloc: Global, desk: &mut Desk, texts: &mut Texts)
    ensures { IsStill desk.old desk.new }
{
    let ada = desk.spawn().expect(rt, "memory");
    let hello = String::from_str(alloc, "hello").expect(rt, "memory");
    let _number = texts.send(desk, ada, ada, hello).expect(rt, "memory");
    texts.drop_lost(desk);
    let _ = desk.turn(16);
    let came = texts.receive(desk, ada).expect(rt, "memory");
    let (from, text) = came.expect(rt, "a text");
    same(rt, from, ada);
    assert_eq!(rt; text.as_str(), "hello");
    same(rt, texts.kept.len(), 0);
}

#[test]
fn a_monster_is_hit(rt: HostRuntime) {
    played(&rt, rt.alloc(), Play::Game);
}

#[test]
fn a_text_comes_with_its_message(rt: HostRuntime) {
    played(&rt, rt.alloc(), Play::Texts);
}

#[test]
fn a_refusal_says_why(rt: HostRuntime) {
    let refusal = RecipeError::Open(OpenError::Bounds(Setting::Desks));
    let text = refusal.to_string(rt.alloc()).expect(&rt, "memory");
    assert_eq!(rt;
        text.as_str(),
        "the node does not open: a setting is out of its range: desks"
    );
}
