// Calls at the stage of a world whose vBucket hasn't opened, with all parts there and with some out.
ghost use Rattle.std.specs.Prelude.{◌≡◌, ◌+◌, ◌≤◌, ℕ, true, false, length};
ghost use Rattle.ep_model.specs.declared.event.PartName.{PartName};
ghost use Rattle.ep_model.specs.Limits.{IsWithin, max_value};
ghost use Rattle.ep_model.specs.History.{call_data};
ghost use Rattle.hold_stage.specs.Touches.{there};
ghost use Rattle.vb_world.specs.World.{has_out};
ghost use Rattle.vb_front.specs.Opened.{IsAtHome};
ghost use Rattle.vb_front.specs.Tries.{kind_of};
ghost use Rattle.vb_front.specs.declared.at_stage.Kind.TheVariants.{Change};

use super::passed::Passed;
use super::worlds::one_vbucket;
use crate::{Part, Tried, try_call};
use ep_model::{Busy, Call, Config, Eviction, Out, PartName, Reply, StoreKind};
use hold_stage::Stage;
use std::alloc::Global;
use vb_world::World;

const CONFIG: Config = Config {
    vbuckets: 1,
    stripes: 1,
    blocks: 16,
    ckpt_blocks: 16,
    ckpt_max: 5,
    eviction: Eviction::Value,
    early: false,
};

/// The bytes of an event's call and answer.
const ROOM: usize = 2_097_402;

/// Tries a call of the caller 7, for whom there is room.
fn tried(world: &mut World<Part>, call: &Call, value: &mut Out, gate: &mut Passed) -> Option<Tried>
    requires config { world.old.config ≡ CONFIG }
    requires free { (part : PartName) → has_out world.old 0 7 part ≡ false }
    requires within { IsWithin (call_data call.now) }
    requires given { kind_of (call_data call.now) ≡ Change → ⊥ }
    requires room { max_value ≤ value.old.spare + length value.old.bytes }
    ensures config { world.new.config ≡ CONFIG }
    ensures free { (part : PartName) → has_out world.new 0 7 part ≡ false }
    ensures room { value.new.spare + length value.new.bytes ≡ value.old.spare
        + length value.old.bytes }
{
    if world.count() != 1 {
        return None;
    }
    let Ok(()) = world.reserve(1, ROOM) else {
        return None;
    };
    let mut stage = world.stage(0, 7);
    Some(try_call(&mut stage, 0, &CONFIG, call, 0, None, value, gate))
}

/// What a Get, a Set, the Get once more and a GetState come to, and how often points of a gate were passed.
fn calls(world: &mut World<Part>, value: &mut Out) -> ([Option<Tried>; 4], Passed)
    requires config { world.old.config ≡ CONFIG }
    requires free { (part : PartName) → has_out world.old 0 7 part ≡ false }
    requires room { max_value ≤ value.old.spare + length value.old.bytes }
{
    let mut gate = Passed::none();
    let get = tried(world, &Call::Get { key: b"k" }, value, &mut gate);
    let set = Call::Store {
        kind: StoreKind::Set,
        key: b"k",
        value: b"v",
        flags: 0,
        expiration: 0,
        cas: 0,
    };
    let set = tried(world, &set, value, &mut gate);
    let again = tried(world, &Call::Get { key: b"k" }, value, &mut gate);
    let state = tried(world, &Call::GetState, value, &mut gate);
    ([get, set, again, state], gate)
}

/// Takes a part out for the caller 8, and answers whether it was there.
fn take_out(world: &mut World<Part>, part: PartName) -> bool
    requires config { world.old.config ≡ CONFIG }
    requires there { there CONFIG part ≡ true }
    requires home { (caller : ℕ) (p : PartName) → has_out world.old 0 caller p ≡ false }
    requires at_home { IsAtHome CONFIG world.old }
    ensures config { world.new.config ≡ CONFIG }
    ensures free { (p : PartName) → has_out world.new 0 7 p ≡ false }
{
    if world.count() != 1 {
        return false;
    }
    let mut stage = world.stage(0, 8);
    match stage.take(part) {
        Ok(_) => true,
        Err(_) => false,
    }
}

/// Takes the stripe and the queue out for the caller 8, and answers whether both were there.
fn take_both_out(world: &mut World<Part>) -> bool
    requires config { world.old.config ≡ CONFIG }
    requires home { (caller : ℕ) (p : PartName) → has_out world.old 0 caller p ≡ false }
    requires at_home { IsAtHome CONFIG world.old }
    ensures config { world.new.config ≡ CONFIG }
    ensures free { (p : PartName) → has_out world.new 0 7 p ≡ false }
{
    if world.count() != 1 {
        return false;
    }
    let mut stage = world.stage(0, 8);
    let Ok(_) = stage.take(PartName::Stripe(0)) else {
        return false;
    };
    match stage.take(PartName::Queue) {
        Ok(_) => true,
        Err(_) => false,
    }
}

/// What is out with the caller 8.
#[derive(Clone, Copy)]
enum Away {
    Nothing,
    Stripe,
    Queue,
    Both,
}

/// What the calls come to while something is out, how often points of a gate were passed, and how many events were noted.
fn calls_without(alloc: Global, away: Away) -> Option<([Option<Tried>; 4], Passed, usize)> {
    let Ok(mut world) = one_vbucket(alloc, &CONFIG) else {
        return None;
    };
    let Ok(mut value) = Out::new(alloc, 1_048_576) else {
        return None;
    };
    let was_there = match away {
        Away::Nothing => true,
        Away::Stripe => take_out(&mut world, PartName::Stripe(0)),
        Away::Queue => take_out(&mut world, PartName::Queue),
        Away::Both => take_both_out(&mut world),
    };
    if !was_there {
        return None;
    }
    let (tried, passed) = calls(&mut world, &mut value);
    Some((tried, passed, world.into_history().count()))
}

/// Points that are passed by so many calls on a key, each of which is answered.
fn passed_by(calls: u32) -> Passed {
    Passed {
        in_stripe: calls,
        answered: calls,
        elsewhere: 0,
    }
}

#[test]
fn call_is_refused_before_the_vbucket_has_opened(rt: HostRuntime) {
    let refused = Some(Tried::Done(Reply::refusal(0x86)));
    let came = calls_without(rt.alloc(), Away::Nothing);
    assert!(rt; came == Some(([refused; 4], passed_by(3), 4)));
}

#[test]
fn call_is_busy_on_the_first_part_that_it_lacks(rt: HostRuntime) {
    let refused = Some(Tried::Done(Reply::refusal(0x86)));
    let stripe = Some(Tried::Busy(Busy {
        part: PartName::Stripe(0),
    }));
    let queue = Some(Tried::Busy(Busy {
        part: PartName::Queue,
    }));
    let without_stripe = calls_without(rt.alloc(), Away::Stripe);
    assert!(rt; without_stripe == Some(([stripe, stripe, stripe, refused], passed_by(0), 1)));
    let without_queue = calls_without(rt.alloc(), Away::Queue);
    assert!(rt; without_queue == Some(([refused, queue, refused, queue], passed_by(2), 2)));
    let without_both = calls_without(rt.alloc(), Away::Both);
    assert!(rt; without_both == Some(([stripe, stripe, stripe, queue], passed_by(0), 0)));
}
