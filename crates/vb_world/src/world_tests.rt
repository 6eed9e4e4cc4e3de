// Parts are taken and given back on two vBuckets, and what is noted there is the world's history.
ghost use Rattle.std.specs.Prelude.{◌≡◌, ℕ, ◌≤◌, ◌<◌, length, true, false, [], IfOk};
ghost use Rattle.ep_model.specs.declared.event.PartName.{PartName};
ghost use Rattle.ep_model.specs.declared.event.PartName.TheVariants.{Queue as QueueName};
ghost use Rattle.hold_stage.specs.Touches.{there};
ghost use Rattle.vb_world.specs.World.{has_out, front_in};

use super::*;
use ep_model::{Call, Cause, Config, Event, Eviction, NoMemory, PartName};
use hold_stage::{Stage, Stands};
use std::alloc::Global;
use std::process::Abort;
use std::test::Fail;

const CONFIG: Config = Config {
    vbuckets: 2,
    stripes: 2,
    blocks: 16,
    ckpt_blocks: 16,
    ckpt_max: 1,
    eviction: Eviction::Value,
    early: false,
};

/// A part that stands for every history.
#[derive(Drop)]
struct Token {
    number: u16,
}

impl Stands for Token {
    ghost stands = { λ _ _ _. Unit {0} };

    ghost keeps = { λ _ _ _ _ _ _ _ _. tt };
}

/// The parts of a vBucket, numbered from `first`.
fn tokens(alloc: Global, first: u16) -> Result<Vec<Token>, NoMemory>
    requires { first ≤ 100 }
    ensures { IfOk result (λ parts. length parts.items ≡ 4) }
{
    let mut parts = Vec::with_capacity(alloc, 4)?;
    parts.push(Token { number: first })?;
    parts.push(Token { number: first + 1 })?;
    parts.push(Token { number: first + 2 })?;
    parts.push(Token { number: first + 3 })?;
    Ok(parts)
}

/// A world with room for an event and two vBuckets, their parts numbered from 0 and from 10.
fn two_vbuckets(alloc: Global) -> Result<World<Token>, NoMemory>
    ensures config { IfOk result (λ w. w.config ≡ CONFIG) }
    ensures buckets { IfOk result (λ w. length w.buckets ≡ 2) }
    ensures history { IfOk result (λ w. w.history ≡ []) }
    ensures room { IfOk result (λ w. (1 ≤ w.event_room) × (64 ≤ w.byte_room)) }
    ensures home { IfOk result (λ w. (id caller : ℕ) (part : PartName) → has_out w id caller part
        ≡ false) }
{
    let mut world = World::new(alloc, &CONFIG)?;
    world.add(tokens(alloc, 0)?)?;
    world.add(tokens(alloc, 10)?)?;
    world.reserve(1, 64)?;
    Ok(world)
}

/// Takes a part and gives it back, and answers its number, if it wasn't busy.
fn take_and_give<S: Stage<Part = Token>>(stage: &mut S, part: PartName) -> Option<u16>
    requires there { there (S.front stage.old).config part ≡ true }
    requires free { S.holds stage.old part ≡ false }
    ensures config { (S.front stage.new).config ≡ (S.front stage.old).config }
    ensures same_reference { S.lent stage.new ≡ S.lent stage.old }
{
    match stage.take(part) {
        Ok(token) => {
            let number = token.number;
            stage.give(part, token);
            Some(number)
        }
        Err(_) => None,
    }
}

/// Notes that a call for the state of a vBucket that hasn't opened was refused, where the queue isn't busy.
fn refuse<S: Stage<Part = Token>>(stage: &mut S, caller: u64)
    requires telling { S.is_telling stage.old ≡ true }
    requires number { S.number stage.old ≡ caller }
    requires free { S.holds stage.old QueueName ≡ false }
    requires events { (S.front stage.old).events ≡ [] }
    requires room { S.covers stage.old 1 0 }
{
    let Ok(queue) = stage.take(PartName::Queue) else {
        return;
    };
    stage.note(&Event::Refused {
        caller,
        call: Call::GetState,
        now: 5,
        cause: Cause::Warming,
    });
    stage.give(PartName::Queue, queue);
}

#[test]
fn parts_are_busy_while_they_are_out(rt: HostRuntime) -> Result<(), Fail> {
    let mut world = two_vbuckets(rt.alloc()).expect(&rt, "memory");
    let Ok(queue) = world.take(0, 7, PartName::Queue) else {
        panic!(rt; "the queue is at home");
    };
    assert_eq!(rt; queue.number, 2);
    assert!(rt; world.take(0, 8, PartName::Queue).is_err());
    assert!(rt; world.take(1, 8, PartName::Queue).is_ok());
    assert!(rt; world.take(2, 8, PartName::Desk).is_err());
    assert_eq!(rt; world.count(), 2);
    world.give(0, PartName::Queue, queue);
    assert!(rt; world.take(0, 8, PartName::Queue).is_ok());
    Ok(())
}

/// What happens where one call is refused on the second vBucket.
fn refused(alloc: Global) -> Result<History, NoMemory> {
    let mut world = two_vbuckets(alloc)?;
    let mut stage = world.stage(1, 7);
    refuse(&mut stage, 7);
    Ok(world.into_history())
}

#[test]
fn a_stage_notes_for_its_vbucket(rt: HostRuntime) -> Result<(), Fail> {
    let history = refused(rt.alloc()).expect(&rt, "memory");
    assert_eq!(rt; history.count(), 1);
    let (vb, event) = history.event(0);
    assert_eq!(rt; vb, 1);
    let Event::Refused {
        caller: 7,
        call: Call::GetState,
        now: 5,
        cause: Cause::Warming,
    } = event
    else {
        panic!(rt; "another event");
    };
    Ok(())
}

/// The number of a part that is at home.
fn number_at(alloc: Global, vb: u16, part: PartName) -> Result<Option<u16>, NoMemory>
    requires vb { vb < 2 }
    requires there { there CONFIG part ≡ true }
{
    let mut world = two_vbuckets(alloc)?;
    let mut stage = world.stage(vb, 7);
    Ok(take_and_give(&mut stage, part))
}

#[test]
fn each_part_has_its_place(rt: HostRuntime) -> Result<(), Fail> {
    let alloc = rt.alloc();
    let stripe = number_at(alloc, 1, PartName::Stripe(0)).expect(&rt, "memory");
    assert_eq!(rt; stripe, Some(10));
    let queue = number_at(alloc, 0, PartName::Queue).expect(&rt, "memory");
    assert_eq!(rt; queue, Some(2));
    let desk = number_at(alloc, 1, PartName::Desk).expect(&rt, "memory");
    assert_eq!(rt; desk, Some(13));
    Ok(())
}
